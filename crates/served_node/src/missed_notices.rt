//! Notices that were dropped for later ones before the log could tell of them. Their number has a line once a second, so
//! that no line of it is itself one too many of its kind.

ghost use Rattle.std.specs.Prelude.{◌≡◌};
ghost use Rattle.served_node.specs.MissedNotices.{all_told, due_in, more_missed, none_missed, told_in};

/// How many notices were missed of which no line tells yet, and in which second the last line told of some.
#[derive(Clone, Copy, PartialEq, Eq)]
pub(crate) struct MissedNotices {
    count: u64,
    told: Option<u64>,
}

impl MissedNotices {
    /// None was missed yet.
    pub(crate) fn none() -> MissedNotices
        ensures { result ≡ none_missed }
    {
        MissedNotices {
            count: 0,
            told: None,
        }
    }

    /// So many more were missed. Their number stays at 2^64 - 1.
    pub(crate) fn add(&mut self, missed: u64)
        ensures { self.new ≡ more_missed missed self.old }
    {
        self.count = self.count.saturating_add(missed);
    }

    /// How many the log is to be told of in this second: all of them, but none if a line of this second told of some.
    pub(crate) fn due(&mut self, second: u64) -> Option<u64>
        ensures due { result ≡ due_in second self.old }
        ensures left { self.new ≡ told_in second self.old }
    {
        if self.told == Some(second) {
            return None;
        }
        let rest = self.rest();
        if rest.is_some() {
            self.told = Some(second);
        }
        rest
    }

    /// How many the log hasn't been told of; it is told of them now.
    pub(crate) fn rest(&mut self) -> Option<u64>
        ensures rest { result ≡ all_told self.old }
        ensures left { self.new ≡ record self.old { count = 0 } }
    {
        let count = self.count;
        self.count = 0;
        (count > 0).then_some(count)
    }
}
