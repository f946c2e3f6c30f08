//! The addresses of an end.

ghost use Rattle.std.specs.Prelude.{◌≤◌};

use sctp_codec::MOST_ADDRESSES;
use std::net::{IpAddr, Ipv4Addr};

/// A place in which no address is kept.
const NO_ADDRESS: IpAddr = IpAddr::V4(Ipv4Addr::UNSPECIFIED);

/// The addresses of an end that its INIT and INIT ACK list, eight at most (RFC 9260 §5.1.2).
#[derive(Clone, Copy)]
pub struct Addresses {
    places: [IpAddr; MOST_ADDRESSES],
    count: usize,
    ghost few: { count ≤ 8 },
}

impl Addresses {
    ghost use Rattle.std.specs.Prelude.{◌≡◌, [], length};
    ghost use Rattle.sctp_bundling.specs.Addresses.{listed, IsListed};

    /// None: the peer takes the association to be at the source of its packets.
    pub const fn none() -> Addresses
        ensures { listed result ≡ [] }
    {
        Addresses {
            places: [NO_ADDRESS; MOST_ADDRESSES],
            count: 0,
        }
    }

    /// These addresses, in this order. None if there are more than eight.
    pub fn of(addresses: &[IpAddr]) -> Option<Addresses>
        ensures { IsListed result addresses.now }
    {
        if MOST_ADDRESSES < addresses.len() {
            return None;
        }
        let mut places = [NO_ADDRESS; MOST_ADDRESSES];
        places[..addresses.len()].copy_from_slice(addresses);
        Some(Addresses {
            places,
            count: addresses.len(),
        })
    }

    /// They, in their order.
    pub fn listed(&self) -> &[IpAddr]
        ensures listed { result.now ≡ listed self.now }
        ensures few { length result.now ≤ 8 }
    {
        &self.places[..self.count]
    }
}
