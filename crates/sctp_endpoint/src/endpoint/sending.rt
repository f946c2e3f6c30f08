//! Messages that are taken, and when the next timer runs out.

ghost use Rattle.std.specs.Prelude.{◌≡◌};
ghost use Rattle.sctp_rules.specs.Sending.{has_room};
ghost use Rattle.sctp_rules.specs.Waiting.{has_room_behind};
ghost use Rattle.sctp_rules.specs.Timers.{deadline, earlier, t1_of};

use crate::endpoint::Endpoint;
use crate::peer::Attempt;
use sctp_rules::Phase;

impl Endpoint {
    /// Whether a message that is sent now goes out now.
    pub fn has_room(&self) -> bool
        ensures { result ≡ has_room self.now.state }
    {
        matches!(self.phase, Phase::Established) && self.sender.has_room()
    }

    /// Whether a message that is sent now goes out with the next `flush`, after those that were taken since the last
    /// one and have at most this many octets in all.
    pub fn has_room_behind(&self, octets: u32) -> bool
        ensures { result ≡ has_room_behind self.now.state octets }
    {
        matches!(self.phase, Phase::Established) && self.sender.has_room_behind(octets)
    }

    /// When the next timer runs out, in milliseconds; None while none runs (RFC 9260 §5.1, §6.3, §8.3, §9.2).
    pub fn deadline(&self) -> Option<u64>
        ensures { result ≡ deadline self.now.state }
    {
        let later = earlier(self.t5, self.beat_due);
        let shutdown = earlier(self.t2, earlier(self.sender.t3(), later));
        earlier(self.t1(), shutdown)
    }

    /// When T1 runs out.
    fn t1(&self) -> Option<u64>
        ensures { result ≡ t1_of self.now.state.association.trying }
    {
        match self.attempt {
            Some(Attempt { t1, .. }) => Some(t1),
            None => None,
        }
    }
}

/// The earlier of two moments, if there is one.
fn earlier(one: Option<u64>, other: Option<u64>) -> Option<u64>
    ensures { result ≡ earlier one other }
{
    match (one, other) {
        (None, other) => other,
        (Some(moment), None) => Some(moment),
        (Some(moment), Some(other)) => Some(moment.min(other)),
    }
}
