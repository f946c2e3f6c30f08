//! What a changeover begins with.

ghost use Rattle.std.specs.Prelude.{◌≡◌};
ghost use Rattle.changeover.specs.Failure.{kept_beginning};

use link::Sequence;
use signalling_types::Number24;

/// What a changeover begins with when a link fails in service (Q.704 §5.2, §5.3).
#[derive(Clone, Copy, PartialEq, Eq)]
pub enum Beginning {
    /// An order goes to the adjacent point by another link, with the number of the last message that was accepted on
    /// the failed one. T2 of the failed link runs, and the answer is awaited.
    Orders(Number24),
    /// No order goes to the adjacent point for now: T1 of the failed link runs.
    Waits,
}

impl Beginning {
    /// That of a link with these numbers, if an order goes to its adjacent point, or not.
    pub(crate) fn of(ordered: bool, sequence: &Sequence) -> Beginning
        ensures { result ≡ kept_beginning ordered sequence.now }
    {
        if ordered {
            Beginning::Orders(sequence.last_accepted())
        } else {
            Beginning::Waits
        }
    }
}
