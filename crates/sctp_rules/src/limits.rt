//! The limits of an endpoint.

/// Octets of a packet that is sent, at most.
pub const PACKET_OCTETS: usize = 1200;

/// Octets of the common header of a packet (RFC 9260 §3.1).
pub const HEADER_OCTETS: usize = 12;

/// Octets of answers that wait for the next packet, at most: one answer more is dropped, and will be asked for again.
pub const CONTROL_OCTETS: usize = 1024;

/// Octets of a peer's cookie, at most: COOKIE ECHO is one packet.
pub const COOKIE_OCTETS: usize = 1184;

/// Octets of a cookie, at most, that leaves room in its packet for what is reported.
pub const SHORT_COOKIE_OCTETS: usize = 660;

/// Octets of a host name that is sent back, at most (RFC 1035 §2.3.4).
pub const HOST_NAME_OCTETS: usize = 255;

/// Streams each way.
pub const STREAMS: u16 = 2;

/// A peer that announces a smaller window than this, in octets, has shut it.
pub const SHUT_WINDOW: usize = 300;
