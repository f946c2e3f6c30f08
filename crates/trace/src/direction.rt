//! Which way a frame passed.

ghost use Rattle.std.specs.Prelude.{◌≡◌, ◌≤◌, length};
ghost use Rattle.trace.specs.Words.{direction_word};

/// Which way a frame passed, as this node sees it.
#[derive(Clone, Copy, Debug, PartialEq, Eq)]
pub enum Direction {
    /// It came from the far end of the link.
    In,
    /// It went to the far end of the link.
    Out,
}

impl Direction {
    /// The direction's word: `in` or `out`.
    pub fn word(self) -> &'static str
        ensures word { result.now ≡ direction_word self }
        ensures short { length result.now ≤ 3 }
    {
        match self {
            Direction::In => "in",
            Direction::Out => "out",
        }
    }
}
