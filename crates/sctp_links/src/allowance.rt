//! How many INITs of a link are answered.

ghost use Rattle.std.specs.Prelude.{◌≡◌};
ghost use Rattle.sctp_links.specs.Allowances.{after_init, full, left_at, may_answer};

/// INITs of a link that are answered in a millisecond, over a longer time.
pub const INITS_A_MILLISECOND: u64 = 30;

/// INITs of a link that are answered at once, after a time without any.
pub const MOST_INITS: u64 = 3_000;

/// How many INITs of a link are still answered. It grows with time, and each that is answered takes one.
#[derive(Clone, Copy)]
pub struct Allowance {
    /// How many were left when the last INIT came.
    pub left: u64,
    /// When that was, in milliseconds since the start.
    pub since: u64,
}

impl Allowance {
    /// None came yet.
    pub fn new() -> Allowance
        ensures { result ≡ full }
    {
        Allowance {
            left: MOST_INITS,
            since: 0,
        }
    }

    /// An INIT came now, in milliseconds since the start: whether it is answered. If so, it takes one.
    pub fn take(&mut self, now: u64) -> bool
        ensures may { result ≡ may_answer now self.old }
        ensures left { self.new ≡ after_init now self.old }
    {
        let left = self.left_at(now);
        *self = Allowance {
            left: left.saturating_sub(1),
            since: now,
        };
        left > 0
    }

    /// How many are left now.
    fn left_at(&self, now: u64) -> u64
        ensures { result ≡ left_at now self.now }
    {
        let grown = INITS_A_MILLISECOND.saturating_mul(now.saturating_sub(self.since));
        self.left.saturating_add(grown).min(MOST_INITS)
    }
}
