//! Where datagrams go, and come from.

/// Where datagrams go, and come from: an IP address and a UDP port (RFC 6951).
#[derive(Clone, Copy, Debug, PartialEq, Eq)]
pub struct Address {
    /// The IP address: of IPv6, or that of IPv4 in the form that IPv6 has for it (RFC 4291 §2.5.5.2).
    pub host: [u8; 16],
    /// The UDP port.
    pub port: u16,
}
