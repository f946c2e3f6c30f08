//! A message of the user.

/// A message of the user, lent (RFC 9260 §3.3.1).
#[derive(Clone, Copy)]
pub struct Message<'a> {
    /// The stream.
    pub stream: u16,
    /// The payload protocol identifier.
    pub protocol: u32,
    /// The octets.
    pub octets: &'a [u8],
}
