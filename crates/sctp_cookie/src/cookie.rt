//! The state cookie of an endpoint.

/// Octets of a cookie: the code that authenticates it, and its body.
pub const COOKIE_OCTETS: usize = 88;

/// Octets of the body, which is what is signed.
pub const BODY_OCTETS: usize = 56;

/// Octets of the key that cookies are signed under.
pub const COOKIE_KEY_OCTETS: usize = 32;

/// What an endpoint answers INIT with in place of keeping it: all that it needs to know when the peer sends it back
/// (RFC 9260 §5.1.3). What is said of the peer is what its INIT said.
#[derive(Clone, Copy, Debug, PartialEq, Eq)]
pub struct Cookie {
    /// When it was made, in milliseconds of the endpoint's clock.
    pub made: u64,
    /// How often by then an association of the endpoint had opened or ended, and a try of one restarted or ended.
    pub generation: u64,
    /// The endpoint's tag, if an association opens by it.
    pub own_tag: u32,
    /// The peer's tag.
    pub peer_tag: u32,
    /// The TSN of the first DATA that the endpoint sends.
    pub own_first_tsn: u32,
    /// The TSN of the first DATA that the peer sends.
    pub peer_first_tsn: u32,
    /// How many octets the peer takes before it confirms.
    pub peer_window: u32,
    /// How many streams the peer sends on.
    pub peer_outgoing_streams: u16,
    /// How many streams the peer takes at most.
    pub peer_incoming_streams: u16,
    /// The endpoint's tag of the association that existed when it was made, or of the try of one; or 0.
    pub tie_own_tag: u32,
    /// The peer's tag of that association or try, or 0.
    pub tie_peer_tag: u32,
    /// How long it is good, in milliseconds.
    pub life: u32,
    /// The peer's SCTP port.
    pub peer_port: u16,
}
