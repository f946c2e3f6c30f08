//! Answers that wait for the next packet (RFC 9260 §6.10).

ghost use Rattle.std.specs.Prelude.{◌≡◌};
ghost use Rattle.sctp_codec.specs.Packets.{CookieAckChunk};
ghost use Rattle.sctp_rules.specs.State.{with_association};
ghost use Rattle.sctp_rules.specs.Ending.{answered, with_answer_first};

use crate::endpoint::Endpoint;
use sctp_bundling::Reply;
use sctp_rules::limits::CONTROL_OCTETS;

/// Octets of a COOKIE ACK chunk.
const COOKIE_ACK_OCTETS: usize = 4;

impl Endpoint {
    /// COOKIE ACK goes out with the next packet, if there is room for it.
    pub(super) fn acknowledge_cookie(&mut self)
        ensures { self.new ≡ record self.old { state = answered CookieAckChunk self.old.state } }
    {
        if self.control.size() + COOKIE_ACK_OCTETS <= CONTROL_OCTETS {
            self.control.add(&Reply::CookieAck);
        }
    }

    /// The same, before the other answers: it is the first in its packet.
    pub(super) fn acknowledge_first(&mut self)
        ensures { self.new ≡ record self.old {
          state = with_association self.old.state (with_answer_first CookieAckChunk self.old.state.association);
        } }
    {
        if self.control.size() + COOKIE_ACK_OCTETS <= CONTROL_OCTETS {
            self.control.add_cookie_ack_first();
        }
    }
}
