//! The bounds of the retransmission timeout.

/// The bounds of the retransmission timeout, in milliseconds (RFC 9260 §16).
#[derive(Clone, Copy, Debug, PartialEq, Eq)]
pub struct Bounds {
    /// The timeout before a round trip was measured: RTO.Initial.
    pub initial: u32,
    /// The shortest timeout: RTO.Min.
    pub least: u32,
    /// The longest timeout: RTO.Max.
    pub most: u32,
}

/// What the round trips that were measured came to, in milliseconds (RFC 9260 §6.3.1).
#[derive(Clone, Copy)]
pub struct Smoothed {
    /// The smoothed round trip: SRTT.
    pub time: u32,
    /// By how much round trips vary: RTTVAR.
    pub variation: u32,
}
