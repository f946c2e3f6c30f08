//! The settings of an endpoint.

use crate::address::Address;
use crate::addresses::Addresses;
use sctp_sending::Bounds;

/// The settings of an endpoint. Times are in milliseconds (RFC 9260 §16).
#[derive(Clone, Copy)]
pub struct Settings {
    /// The SCTP port of this end.
    pub own_port: u16,
    /// The SCTP port of the peer.
    pub far_port: u16,
    /// Where the peer is, until a packet of it comes.
    pub address: Address,
    /// The addresses of this end that it lists.
    pub addresses: Addresses,
    /// RTO.Initial, RTO.Min and RTO.Max.
    pub bounds: Bounds,
    /// How often INIT or COOKIE ECHO goes out again in one try: Max.Init.Retransmits.
    pub init_retransmissions: u32,
    /// How often in a row the peer may not answer: Association.Max.Retrans.
    pub retransmissions: u32,
    /// Between the answer to a heartbeat and the next one: HB.interval.
    pub heartbeat: u32,
    /// How long a cookie is good: Valid.Cookie.Life.
    pub cookie_life: u32,
}
