//! How the association does (RFC 9260 §11.1.8).

ghost use Rattle.std.specs.Prelude.{◌≡◌};
ghost use Rattle.sctp_sending.specs.RoundTrips.{smoothed_round_trip};

use crate::endpoint::Endpoint;

impl Endpoint {
    /// The smoothed round trip, in milliseconds: SRTT (RFC 9260 §6.3.1). None until a round trip was measured.
    pub fn smoothed_round_trip(&self) -> Option<u32>
        ensures { result ≡ smoothed_round_trip self.now.state.association.sender.round_trips }
    {
        self.sender.smoothed_round_trip()
    }

    /// The retransmission timeout, in milliseconds: RTO (RFC 9260 §6.3.1). It doubles each time that it runs out.
    pub fn retransmission_timeout(&self) -> u32
        ensures { result ≡ self.now.state.association.sender.round_trips.timeout }
    {
        self.sender.timeout()
    }

    /// The congestion window, in octets: cwnd (RFC 9260 §7.2).
    pub fn congestion_window(&self) -> u32
        ensures { result ≡ self.now.state.association.sender.congestion.window }
    {
        self.sender.congestion_window()
    }

    /// How many DATA chunks the association sent again since it began, by T3-rtx or by fast retransmission (RFC 9260
    /// §6.3.3, §7.2.4). It stays at 2^64 - 1 once it is there.
    pub fn retransmissions(&self) -> u64
        ensures { result ≡ self.now.state.association.sender.retransmissions }
    {
        self.sender.retransmissions()
    }
}
