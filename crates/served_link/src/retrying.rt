//! How long a link waits until its connection is tried again.

ghost use Rattle.std.specs.Prelude.{◌≡◌, ◌*◌, ◌≤◌, min};

use std::marker::Model;

/// The longest wait, in seconds.
pub const LONGEST_WAIT: u64 = 30;

/// The waits between the tries of a connection: 1, 2, 4, 8, 16 and then 30 seconds.
#[derive(Drop)]
pub struct Retry {
    seconds: u64,
}

impl Model for Retry {
    ghost use Rattle.std.specs.Prelude.{ℕ, ◌≤◌};
    ghost use Rattle.served_link.specs.declared.retrying.TheConstants.{LONGEST_WAIT};

    ghost Value = { ℕ };

    ghost view = { λ r. r.seconds };

    ghost invariant = { λ r. r.seconds ≤ LONGEST_WAIT };
}

impl Retry {
    /// The waits from the first one on.
    pub fn new() -> Retry
        ensures { result ≡ 1 }
    {
        Retry { seconds: 1 }
    }

    /// The next wait, in seconds. The one after it is twice as long, and at most `LONGEST_WAIT`.
    pub fn next_wait(&mut self) -> u64
        ensures wait { result ≡ self.old }
        ensures next { self.new ≡ min LONGEST_WAIT (2 * self.old) }
    {
        let seconds = self.seconds;
        self.seconds = (2 * seconds).min(LONGEST_WAIT);
        seconds
    }

    /// The next wait is the first one again, since something came on a connection.
    pub fn start_again(&mut self)
        ensures { self.new ≡ 1 }
    {
        self.seconds = 1;
    }
}
