//! What a server is told of SCTP in UDP: the peer of a link, and the times of associations.

use crate::serve::address::is_same_host;
use crate::serve::paths::is_host_told;
use std::net::{IpAddr, SocketAddr};

/// How many addresses of its own a link lists at most.
pub const MOST_ADDRESSES: usize = 8;

/// How many addresses a peer has at most besides its first.
pub const MOST_OTHERS: usize = 7;

/// A link over SCTP in UDP (RFC 6951).
#[derive(Clone, Copy)]
pub struct Remote {
    /// The address and the UDP port of the peer; of several the first.
    pub address: SocketAddr,
    /// Further addresses and UDP ports of the peer, of other hosts, from the front on.
    pub others: [Option<SocketAddr>; MOST_OTHERS],
    /// The addresses of this end that its INIT and INIT ACK list, from the front on (RFC 9260 §5.1.2).
    pub addresses: [Option<IpAddr>; MOST_ADDRESSES],
    /// The SCTP port of this end, from 1 on.
    pub own_port: u16,
    /// The SCTP port of the peer, from 1 on.
    pub far_port: u16,
    /// Whether this end sends INIT. If not, it waits for that of its peer.
    pub tries: bool,
    /// Whether an INIT of the peer counts only from its UDP port. If not, it counts from any while no association is up.
    pub is_port_fixed: bool,
}

impl Remote {
    ghost use Rattle.std.specs.Prelude.{◌≡◌};
    ghost use Rattle.std.specs.List.{list_any};
    ghost use Rattle.settings_file.specs.Paths.{comes_from, may_come_from, share_host};

    /// Whether a datagram of the peer may come from this host.
    fn comes_from(&self, address: SocketAddr) -> bool
        ensures { result ≡ comes_from self.now address }
    {
        is_same_host(self.address, address) || is_host_told(&self.others, address)
    }

    /// The same of an address, if there is one.
    fn may_come_from(&self, address: Option<SocketAddr>) -> bool
        ensures { result ≡ may_come_from self.now address }
    {
        match address {
            Some(address) => self.comes_from(address),
            None => false,
        }
    }

    /// The same of one of these addresses.
    fn may_come_from_one(&self, addresses: &[Option<SocketAddr>]) -> bool
        ensures { result ≡ list_any (may_come_from self.now) addresses.now }
    {
        addresses.iter().any(|address| self.may_come_from(*address))
    }

    /// Whether datagrams of both peers may come from the same host.
    pub(crate) fn shares_host(&self, other: &Remote) -> bool
        ensures { result ≡ share_host self.now other.now }
    {
        other.comes_from(self.address) || other.may_come_from_one(&self.others)
    }
}

/// Times and tries of associations of SCTP (RFC 9260 §16). Times are in milliseconds.
#[derive(Clone, Copy)]
pub struct SctpTimes {
    /// The retransmission timeout before a round trip was measured: RTO.Initial.
    pub rto_initial_ms: u32,
    /// The shortest retransmission timeout: RTO.Min.
    pub rto_min_ms: u32,
    /// The longest retransmission timeout: RTO.Max.
    pub rto_max_ms: u32,
    /// How often INIT or COOKIE ECHO goes out again in one try: Max.Init.Retransmits.
    pub init_tries: u32,
    /// How often in a row the peer may not answer: Association.Max.Retrans.
    pub retransmissions: u32,
    /// Between the answer to a heartbeat and the next one: HB.interval.
    pub heartbeat_ms: u32,
}
