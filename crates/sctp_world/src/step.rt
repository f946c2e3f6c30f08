//! What may be done.

use sctp_endpoint::Address;
use sctp_sending::Message;

/// An end.
#[derive(Clone, Copy, Debug, PartialEq, Eq)]
pub enum End {
    /// The near one.
    Near,
    /// The far one.
    Far,
}

/// What is done at an end.
#[derive(Clone, Copy)]
pub enum Doing<'a> {
    /// The user wants an association, and whether this end tries to open it.
    Open(bool),
    /// The user sends a message.
    Send(Message<'a>),
    /// The user ends the association.
    Abort,
    /// The user ends it once all that was sent is confirmed.
    ShutDown,
    /// Time went by.
    Tick,
    /// Packets are asked for.
    Flush,
    /// The datagram at this index of all that the other end ever put out comes, from an address.
    Hear(usize, Address),
}
