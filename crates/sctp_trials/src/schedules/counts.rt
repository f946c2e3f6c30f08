//! What schedules came to.

/// What came of schedules.
#[derive(Clone, Copy)]
pub struct Counts {
    /// Schedules of which all is kept.
    pub whole: u64,
    /// Associations that opened by COOKIE ECHO, and by COOKIE ACK.
    pub firsts: u64,
    pub seconds: u64,
    /// Of the latter, those whose other end had fallen.
    pub late_seconds: u64,
    /// ERRORs that say that a cookie is stale.
    pub stale: u64,
    /// DATA whose number comes after the last of 32 bits.
    pub wraps: u64,
    /// DATA that came with another tag than the latest of its sender.
    pub former: u64,
    /// Messages that were given, and that were told.
    pub given: u64,
    pub told: u64,
    /// Messages that were told out of their place.
    pub misplaced: u64,
}

impl Counts {
    /// Nothing yet.
    pub fn new() -> Counts {
        Counts {
            whole: 0,
            firsts: 0,
            seconds: 0,
            late_seconds: 0,
            stale: 0,
            wraps: 0,
            former: 0,
            given: 0,
            told: 0,
            misplaced: 0,
        }
    }
}

/// One more.
pub fn count(number: &mut u64) {
    *number = number.saturating_add(1);
}
