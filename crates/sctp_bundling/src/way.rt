//! Where packets go.

use crate::address::Address;

/// Where packets go, and what their headers say (RFC 9260 §3.1).
#[derive(Clone, Copy)]
pub struct Way {
    /// The SCTP port of this end.
    pub source: u16,
    /// The SCTP port of the peer.
    pub destination: u16,
    /// The verification tag.
    pub tag: u32,
    /// Where they go.
    pub to: Address,
}
