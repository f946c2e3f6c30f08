//! How far the changeover of one link is.

ghost use Rattle.std.specs.Prelude.{◌≡◌};
ghost use Rattle.changeover.specs.Changeover.{no_changeover, may_restart, failed, begun_by_peer, completed, acknowledged, expired, is_barred, awaits_incomplete, is_unasked, with_order};

use signalling_types::ChangeoverTimer;
use std::marker::Model;

/// How far the changeover of one link is.
#[derive(Clone, Copy)]
pub(crate) struct Progress {
    incomplete: bool,
    awaited: bool,
}

impl Model for Progress {
    ghost use Rattle.changeover.specs.Changeover.{Standing};

    ghost Value = { Standing };

    ghost use Rattle.changeover.specs.Inside.{standing_in, fields_of};

    ghost view = { standing_in };

    ghost inverse = { fields_of };
}

impl Progress {
    /// That of a link which hasn't failed.
    pub(crate) fn none() -> Progress
        ensures { result ≡ no_changeover }
    {
        Progress {
            incomplete: false,
            awaited: false,
        }
    }

    /// Whether it isn't complete.
    pub(crate) fn is_incomplete(self) -> bool
        ensures { result ≡ self.incomplete }
    {
        self.incomplete
    }

    /// Whether the answer to its order is awaited.
    pub(crate) fn is_awaited(self) -> bool
        ensures { result ≡ self.awaited }
    {
        self.awaited
    }

    /// Whether the answer to its order is awaited though it is complete.
    pub(crate) fn is_barred(self) -> bool
        ensures { result ≡ is_barred self }
    {
        !self.incomplete && self.awaited
    }

    /// Whether the answer to its order is awaited, and it isn't complete yet.
    pub(crate) fn awaits_incomplete(self) -> bool
        ensures { result ≡ awaits_incomplete self }
    {
        self.incomplete && self.awaited
    }

    /// Whether the link may open again.
    pub(crate) fn may_restart(self) -> bool
        ensures { result ≡ may_restart self }
    {
        !self.incomplete && !self.awaited
    }

    /// That of a link which just failed in service, whose order goes out, or not.
    pub(crate) fn failed(ordered: bool) -> Progress
        ensures { result ≡ failed ordered no_changeover }
    {
        Progress {
            incomplete: true,
            awaited: ordered,
        }
    }

    /// After the adjacent point's order made the link fail.
    pub(crate) fn begun_by_peer(self) -> Progress
        ensures { result ≡ begun_by_peer self }
    {
        Progress {
            incomplete: true,
            ..self
        }
    }

    /// Whether it isn't complete, and no order of this node went out.
    pub(crate) fn is_unasked(self) -> bool
        ensures { result ≡ is_unasked self }
    {
        self.incomplete && !self.awaited
    }

    /// After an order goes out late.
    pub(crate) fn with_order(self) -> Progress
        ensures { result ≡ with_order self }
    {
        Progress {
            awaited: true,
            ..self
        }
    }

    /// After it is completed. An answer that is awaited stays awaited.
    pub(crate) fn completed(self) -> Progress
        ensures { result ≡ completed self }
    {
        Progress {
            incomplete: false,
            ..self
        }
    }

    /// After its timer ran out. T2 ends the wait for the answer, but where it bars links, of an incomplete changeover.
    pub(crate) fn expired(self, timer: ChangeoverTimer, bars: bool) -> Progress
        ensures { result ≡ expired bars timer self }
    {
        match timer {
            ChangeoverTimer::T1 => self.completed(),
            ChangeoverTimer::T2 if bars && self.incomplete => self.completed(),
            ChangeoverTimer::T2 => self.acknowledged(),
        }
    }

    /// After the answer came, or is no longer waited for.
    pub(crate) fn acknowledged(self) -> Progress
        ensures { result ≡ acknowledged self }
    {
        Progress {
            awaited: false,
            ..self.completed()
        }
    }
}
