//! What takes the datagrams and the events of an endpoint.

ghost use Rattle.std.specs.Prelude.{List, [], ◌∷◌, ◌++◌};
ghost use Rattle.sctp_rules.specs.State.{Told};
ghost use Rattle.sctp_bundling.specs.Settings.{address_of};
ghost use Rattle.sctp_bundling.specs.Watching.{Sent, told_of};

use crate::address::Address;
use sctp_rules::Loss;
use sctp_sending::Message;

/// What the user is told.
#[derive(Clone, Copy)]
pub enum Event<'a> {
    /// The association is there.
    Up,
    /// A message of the peer, whole and in its turn.
    Heard(Message<'a>),
    /// The association is over, and why.
    Down(Loss),
    /// No association came to be, and why. The user must want it again.
    Failed(Loss),
}

/// What takes the datagrams and the events of an endpoint, as they are made: a socket and a user, or lists in memory.
pub trait Watch {
    // These datagrams were sent so far, and this was told. A watch that lost some of that may say so of any lists.
    ghost has: { Self → List Sent → List Told → Type 0 };

    /// A datagram goes out to an address. It may be lost.
    fn send(&mut self, octets: &[u8], to: &Address)
        ensures { (sent : List Sent) (told : List Told) → has self.old sent told
            → has self.new (sent ++ record { octets = octets.now; to = address_of to.now } ∷ []) told };

    /// The user is told of an event.
    fn tell(&mut self, event: &Event<'_>)
        ensures { (sent : List Sent) (told : List Told) → has self.old sent told
            → has self.new sent (told ++ told_of event.now ∷ []) };
}
