//! How the association of the link does.

ghost use Rattle.std.specs.Prelude.{◌≡◌};
ghost use Rattle.sctp_sending.specs.RoundTrips.{smoothed_round_trip};

use crate::gate::Gate;

impl Gate {
    /// The smoothed round trip of the association, in milliseconds. None until one was measured.
    pub fn smoothed_round_trip(&self) -> Option<u32>
        ensures { result ≡ smoothed_round_trip self.now.endpoint.state.association.sender.round_trips }
    {
        self.endpoint.smoothed_round_trip()
    }

    /// The retransmission timeout of the association, in milliseconds.
    pub fn retransmission_timeout(&self) -> u32
        ensures { result ≡ self.now.endpoint.state.association.sender.round_trips.timeout }
    {
        self.endpoint.retransmission_timeout()
    }

    /// The congestion window of the association, in octets.
    pub fn congestion_window(&self) -> u32
        ensures { result ≡ self.now.endpoint.state.association.sender.congestion.window }
    {
        self.endpoint.congestion_window()
    }

    /// How many DATA chunks the association sent again since it began: 0 while there is none.
    pub fn retransmissions(&self) -> u64
        ensures { result ≡ self.now.endpoint.state.association.sender.retransmissions }
    {
        self.endpoint.retransmissions()
    }
}
