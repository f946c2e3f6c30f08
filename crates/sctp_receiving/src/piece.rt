//! What a DATA chunk carries.

/// What a DATA chunk says except its TSN: a message, or a fragment of one (RFC 9260 §3.3.1).
#[derive(Clone, Copy)]
pub struct Piece<'a> {
    /// The stream of its message.
    pub stream: u16,
    /// The message's number in its stream.
    pub sequence: u16,
    /// The payload protocol identifier.
    pub protocol: u32,
    /// Whether it is the first fragment of its message.
    pub begins: bool,
    /// Whether it is the last fragment of its message.
    pub ends: bool,
    /// Whether its message may be told out of turn.
    pub unordered: bool,
    /// Its octets.
    pub octets: &'a [u8],
}
