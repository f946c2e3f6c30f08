//! What sees the frames of an association.

ghost use Rattle.served_link.specs.Watching.{Sight, CameIn, WentOut};

use settings::{LinkId, Outcome};
use trace::ObservedFrame;

/// What sees the frames of an association as they pass, such as counters or a capture.
pub trait Watch {
    // How what is seen changes the watch: its state before, what it sees, and its state after.
    ghost sees: { Self → Sight → Self → Type 0 };

    /// A frame came in on the link and was handed in, with this outcome. It is read once, for all who see it.
    fn came_in(&mut self, link: LinkId, frame: &ObservedFrame<'_>, outcome: &Outcome)
        ensures { sees self.old (CameIn link frame.now outcome.now) self.new };

    /// A frame of these octets was taken to go out on the link, after those before it. Whoever wants to know what they
    /// say must read them.
    fn went_out(&mut self, link: LinkId, frame: &[u8])
        ensures { sees self.old (WentOut link frame.now) self.new };
}

/// A watch that keeps nothing of what it sees.
#[derive(Clone, Copy)]
pub struct Unwatched;

impl Watch for Unwatched {
    ghost sees = { λ _ _ _. Unit {0} };

    fn came_in(&mut self, _link: LinkId, _frame: &ObservedFrame<'_>, _outcome: &Outcome) {}

    fn went_out(&mut self, _link: LinkId, _frame: &[u8]) {}
}
