//! What no peer may do.

/// How the DATA of a peer violates the protocol (RFC 9260 §6.9): the association ends.
#[derive(Clone, Copy)]
pub enum Violation {
    /// A message begins before the one before it has ended, or a fragment comes that continues none.
    Misplaced,
    /// A fragment is of a stream that doesn't exist.
    FragmentOfNoStream(u16),
    /// A fragment isn't of the message that it continues.
    Differs,
    /// A message has more octets than are put together.
    TooLong,
}
