//! Messages that are taken (RFC 9260 §6.1).

ghost use Rattle.std.specs.Prelude.{◌≡◌};
ghost use Rattle.sctp_sending.specs.Cells.{given_as};
ghost use Rattle.sctp_rules.specs.Confirming.{can_take};
ghost use Rattle.sctp_rules.specs.Sending.{may_send, send};

use crate::endpoint::Endpoint;
use sctp_rules::Phase;
use sctp_rules::limits::STREAMS;
use sctp_sending::Message;

/// How many messages wait for their confirmation, at most.
const MESSAGES: usize = 256;

/// Octets of a message, at most.
const MESSAGE_OCTETS: usize = 290;

impl Endpoint {
    /// Takes a message of the user, and returns whether it did: only in ESTABLISHED, if fewer than 256 messages wait
    /// for their confirmation, if there is that stream, and if the message has 1 to 290 octets. It goes out with a
    /// later `flush`; while `has_room` says so, with the next one. A message that isn't taken changes nothing.
    pub fn send(&mut self, message: Message<'_>) -> bool
        ensures taken { result ≡ may_send (given_as message.entry) self.old.state }
        ensures left { self.new ≡ record self.old { state = send (given_as message.entry) self.old.state } }
    {
        if !matches!(self.phase, Phase::Established) || !self.can_take(message) {
            return false;
        }
        self.sender.send(message);
        true
    }

    /// Whether there is a place for a message, and it is one that can be sent.
    fn can_take(&self, message: Message<'_>) -> bool
        ensures { result ≡ can_take self.now.state.association.sender (given_as message.entry) }
    {
        self.sender.len() < MESSAGES
            && !message.octets.is_empty()
            && message.octets.len() <= MESSAGE_OCTETS
            && message.stream < STREAMS
    }
}
