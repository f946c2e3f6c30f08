//! Addresses of the system, and those of SCTP.

ghost use Rattle.std.specs.Prelude.{◌≡◌};
ghost use Rattle.std.specs.Net.Socket.{socket_port};
ghost use Rattle.sctp_links.specs.Hosts.{address_of, host_of};

use sctp_endpoint::Address;
use std::net::{IpAddr, Ipv6Addr, SocketAddr};

/// An address of the system as one of SCTP: of IPv4 in the form that IPv6 has for it (RFC 4291 §2.5.5.2).
pub fn address_of(address: SocketAddr) -> Address
    ensures { result ≡ address_of address }
{
    Address {
        host: host_of(address.ip()),
        port: address.port(),
    }
}

/// The octets of a host: of IPv4 in the form that IPv6 has for it.
fn host_of(ip: IpAddr) -> [u8; 16]
    ensures { result ≡ host_of ip }
{
    match ip {
        IpAddr::V4(ip) => ip.to_ipv6_mapped().octets(),
        IpAddr::V6(ip) => ip.octets(),
    }
}

/// An address of SCTP as one of the system, for a socket of IPv6 or of IPv4.
pub fn socket_address_of(address: &Address, is_ipv6: bool) -> SocketAddr
    ensures { socket_port result ≡ address.now.port }
{
    if is_ipv6 {
        let ip = Ipv6Addr::from_octets(address.host);
        SocketAddr::new(IpAddr::V6(ip), address.port)
    } else {
        plain_address_of(address)
    }
}

/// An address of SCTP as one of the system: one of IPv4 as such.
pub fn plain_address_of(address: &Address) -> SocketAddr
    ensures { socket_port result ≡ address.now.port }
{
    let ip = Ipv6Addr::from_octets(address.host);
    SocketAddr::new(ip.to_canonical(), address.port)
}
