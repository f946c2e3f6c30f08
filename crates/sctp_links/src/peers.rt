//! Which link a datagram is for.

ghost use Rattle.std.specs.Prelude.{◌≡◌, ◌<◌, ◌||◌, bytes_eq, length, IfSome};
ghost use Rattle.sctp_links.specs.Peers.{is_among, is_of, link_of, ports_in};
ghost use Rattle.std.specs.Prelude.{position};

use sctp_endpoint::Address;
use settings_file::serve::sctp::MOST_OTHERS;

/// What the datagrams of a link have: the host that they come from, and the SCTP ports of both ends.
#[derive(Clone, Copy)]
pub struct Peer {
    /// The host that they come from: of IPv6, or that of IPv4 in the form that IPv6 has for it.
    pub host: [u8; 16],
    /// The others that they may come from, in the same form, from the front on.
    pub others: [Option<[u8; 16]>; MOST_OTHERS],
    /// The SCTP port of this end, to which they go.
    pub own_port: u16,
    /// The SCTP port of the peer, from which they come.
    pub far_port: u16,
}

impl Peer {
    /// Whether a host is one of the peer's.
    fn has_host(&self, host: &[u8; 16]) -> bool
        ensures { result ≡ (bytes_eq self.now.host host.now || is_among host.now self.now.others) }
    {
        self.host == *host || is_among(host, &self.others)
    }
}

/// Whether a host is one of these, which are kept from the front on.
fn is_among(host: &[u8; 16], places: &[Option<[u8; 16]>]) -> bool
    ensures { result ≡ is_among host.now places.now }
{
    'each_place: for place in places {
        match place {
            Some(other) if other == host => return true,
            Some(_) => {}
            None => return false,
        }
    }
    false
}

/// The SCTP ports of a packet.
#[derive(Clone, Copy)]
pub struct Ports {
    /// The port that it comes from.
    pub source: u16,
    /// The port that it goes to.
    pub destination: u16,
}

/// The SCTP ports of a packet (RFC 9260 §3.1), if it has them.
pub fn ports_in(octets: &[u8]) -> Option<Ports>
    ensures { result ≡ ports_in octets.now }
{
    match *octets {
        [first, second, third, fourth, ..] => Some(Ports {
            source: u16::from_be_bytes([first, second]),
            destination: u16::from_be_bytes([third, fourth]),
        }),
        _ => None,
    }
}

/// The index of the link that a datagram is for: the first one of whose peer's hosts it comes from, and whose SCTP ports
/// it has. The UDP port may be any (RFC 6951 §5.4). None if it is no link's, or too short to have ports.
pub fn link_of(peers: &[Peer], source: &Address, octets: &[u8]) -> Option<usize>
    ensures place { result ≡ link_of peers.now source.now.host octets.now }
    ensures fits { IfSome result (λ place. place < length peers.now) }
{
    match ports_in(octets) {
        Some(ports) => place_of(peers, source, ports),
        None => None,
    }
}

/// The place of the first link of this host with these ports.
fn place_of(peers: &[Peer], source: &Address, ports: Ports) -> Option<usize>
    ensures place { result ≡ position (is_of source.now.host ports) peers.now }
    ensures fits { IfSome result (λ place. place < length peers.now) }
{
    peers.iter().position(|peer| {
        peer.far_port == ports.source
            && peer.own_port == ports.destination
            && peer.has_host(&source.host)
    })
}
