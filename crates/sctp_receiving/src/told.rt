//! What a chunk tells.

use crate::violation::Violation;

/// What a chunk tells whose turn has come.
#[derive(Clone, Copy)]
pub enum Told {
    /// Nothing: the rest of its message is missing, or its turn hasn't come.
    Nothing,
    /// A message, which it is by itself: the octets are the chunk's.
    Whole,
    /// A message, by its stream and its protocol: this many octets at the front of the buffer.
    Message(u16, u32, usize),
    /// That there is no stream of this number.
    NoStream(u16),
    /// That the peer violates the protocol.
    Violates(Violation),
}
