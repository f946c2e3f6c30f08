//! How an association over SCTP does.

/// How the association of a link does while it is up (RFC 9260 §11.1.8).
#[derive(Clone, Copy)]
pub struct AssociationStatus {
    /// The smoothed round trip, in milliseconds: SRTT. None until a round trip was measured.
    pub round_trip_ms: Option<u32>,
    /// The retransmission timeout, in milliseconds: RTO.
    pub timeout_ms: u32,
    /// The congestion window, in octets: cwnd.
    pub congestion_window: u32,
}
