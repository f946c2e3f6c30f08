//! Why an association doesn't open.

/// Why an INIT isn't answered by INIT ACK, or why an INIT ACK ends the try.
#[derive(Clone, Copy)]
pub enum Refusal {
    /// It has the tag 0 (RFC 9260 §3.3.2, §3.3.3).
    WithoutTag,
    /// It has a host name, which gives no address.
    HostName,
    /// The peer sends on one stream, or takes one.
    FewStreams,
    /// An INIT, but the user wants no association.
    Unwanted,
    /// An INIT, but all tags were drawn.
    NoTagLeft,
    /// An INIT, but an association is being shut down: SHUTDOWN ACK goes out again.
    ShuttingDown,
    /// An INIT ACK without a cookie.
    WithoutCookie,
    /// An INIT ACK whose cookie doesn't fit into a packet.
    LongCookie,
}
