//! HEARTBEAT and HEARTBEAT ACK that come (RFC 9260 §8.3).

ghost use Rattle.std.specs.Prelude.{◌≡◌, ◌+◌, ◌*◌, ◌/◌, ◌≤◌, ◌^◌, length};
ghost use Rattle.sctp_codec.specs.Packets.{HeartbeatAckChunk};
ghost use Rattle.sctp_rules.specs.Ending.{answered};
ghost use Rattle.sctp_rules.specs.Data.{heard_heartbeat, heard_heartbeat_ack, beat_answered};
ghost use Rattle.sctp_bundling.specs.Replies.{size_of};

use crate::endpoint::Endpoint;
use crate::endpoint::ties::is_there;
use crate::peer::Beat;
use sctp_bundling::Reply;
use sctp_codec::heartbeat_information;
use sctp_rules::limits::CONTROL_OCTETS;

/// Octets of a chunk before its value.
const CHUNK_HEADER_OCTETS: usize = 4;

impl Endpoint {
    /// HEARTBEAT came: if there is an association, its information goes back with the next packet.
    pub(super) fn hear_heartbeat(&mut self, information: &[u8])
        ensures { self.new ≡ record self.old { state = (heard_heartbeat information.now self.old.state).left } }
    {
        if is_there(self.phase) {
            self.answer_heartbeat(information);
        }
    }

    /// HEARTBEAT ACK goes out with the next packet, if there is room for it.
    fn answer_heartbeat(&mut self, information: &[u8])
        ensures { self.new ≡ record self.old {
          state = answered (HeartbeatAckChunk information.now) self.old.state;
        } }
    {
        if self.control.size() + octets_of_answer(information) <= CONTROL_OCTETS {
            self.control.add(&Reply::HeartbeatAck(information));
        }
    }

    /// HEARTBEAT ACK came: the right one answers the heartbeat.
    pub(super) fn hear_heartbeat_ack(&mut self, information: &[u8], now: u64)
        requires { now ≤ 2 ^ 63 }
        ensures { self.new ≡ record self.old {
          state = (heard_heartbeat_ack self.old.settings now information.now self.old.state).left;
        } }
    {
        if let Some(beat) = self.beat {
            if information == heartbeat_information(beat.nonce).as_slice() {
                self.take_answer(beat, now);
            }
        }
    }

    /// A heartbeat is answered: a round trip is measured, and the next heartbeat waits for its interval.
    fn take_answer(&mut self, beat: Beat, now: u64)
        requires { now ≤ 2 ^ 63 }
        ensures { self.new ≡ record self.old {
          state = beat_answered self.old.settings now (record { nonce = beat.nonce; sent = beat.sent })
              self.old.state;
        } }
    {
        self.sender.measure(now.saturating_sub(beat.sent));
        self.failures = 0;
        self.beat = None;
        let wait = u64::from(self.settings.heartbeat) + u64::from(self.sender.timeout());
        self.beat_due = Some(now + wait);
    }
}

/// Octets of HEARTBEAT ACK with this information, padded.
fn octets_of_answer(information: &[u8]) -> usize
    ensures value { result ≡ size_of (HeartbeatAckChunk information.now) }
    ensures long { result ≡ 4 + (length information.now + 3) / 4 * 4 }
{
    CHUNK_HEADER_OCTETS + (information.len() + 3) / 4 * 4
}
