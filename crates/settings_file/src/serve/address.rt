//! Addresses in a server's settings.

ghost use Rattle.std.specs.Prelude.{◌≡◌};
ghost use Rattle.toml.specs.View.{view};
ghost use Rattle.settings_file.specs.Addresses.{Spelling, is_loopback, is_address_of, is_same_host, is_same_version};
ghost use Rattle.settings_file.specs.Addresses.{is_unspecified, is_multicast, is_broadcast, is_link_local, is_mapped, may_be_listed};
ghost use Rattle.settings_file.specs.Keyed.{address_in, with_port, guarded};

use crate::serve::fault::ServeFault;
use crate::serve::key::ServeKey;
use crate::shapes::text_in;
use std::net::{IpAddr, SocketAddr};
use toml::Value;

/// The address that a text spells, with a port from 1 on.
pub(crate) fn spelled(text: &str, key: ServeKey) -> Result<SocketAddr, ServeFault>
    ensures { (s : Spelling) → result ≡ with_port key (s.address text.now) }
{
    match text.parse::<SocketAddr>() {
        Ok(address) if address.port() > 0 => Ok(address),
        Ok(_) => Err(ServeFault::Range(key)),
        Err(_) => Err(ServeFault::Range(key)),
    }
}

#[tactic(auto, unfolding(crate::specs::Keyed::address_in))]
pub(crate) fn address_in(value: &Value, key: ServeKey) -> Result<SocketAddr, ServeFault>
    ensures { (s : Spelling) → result ≡ address_in s key (view value.now) }
{
    let text = text_in(value, ServeFault::Kind(key))?;
    spelled(text, key)
}

/// Whether no other machine reaches an address.
fn is_loopback(address: SocketAddr) -> bool
    ensures { result ≡ is_loopback address }
{
    address.ip().is_loopback()
}

/// An address, if it is open, or if no other machine reaches it.
pub(crate) fn guarded(
    address: SocketAddr,
    opened: bool,
    key: ServeKey,
) -> Result<SocketAddr, ServeFault>
    ensures { result ≡ guarded key opened address }
{
    if is_loopback(address) || opened {
        Ok(address)
    } else {
        Err(ServeFault::Range(key))
    }
}

/// Whether this is the address, if there is one.
pub(crate) fn is_address_of(own: Option<SocketAddr>, address: SocketAddr) -> bool
    ensures { result ≡ is_address_of own address }
{
    match own {
        Some(own) => own == address,
        None => false,
    }
}

/// Whether two addresses are of the same host.
pub(crate) fn is_same_host(address: SocketAddr, other: SocketAddr) -> bool
    ensures { result ≡ is_same_host address other }
{
    address.ip() == other.ip()
}

/// Whether both addresses are of IPv4, or both of IPv6.
pub(crate) fn is_same_version(address: SocketAddr, other: SocketAddr) -> bool
    ensures { result ≡ is_same_version address other }
{
    match (address, other) {
        (SocketAddr::V4(_), SocketAddr::V4(_)) | (SocketAddr::V6(_), SocketAddr::V6(_)) => true,
        (SocketAddr::V4(_), SocketAddr::V6(_)) | (SocketAddr::V6(_), SocketAddr::V4(_)) => false,
    }
}

/// Whether this is 0.0.0.0 or ::.
fn is_unspecified(address: IpAddr) -> bool
    ensures { result ≡ is_unspecified address }
{
    address.is_unspecified()
}

fn is_multicast(address: IpAddr) -> bool
    ensures { result ≡ is_multicast address }
{
    address.is_multicast()
}

/// Whether this is 255.255.255.255.
fn is_broadcast(address: IpAddr) -> bool
    ensures { result ≡ is_broadcast address }
{
    match address {
        IpAddr::V4(ip) => ip.is_broadcast(),
        IpAddr::V6(_) => false,
    }
}

/// Whether an address means a host on one link only.
fn is_link_local(address: IpAddr) -> bool
    ensures { result ≡ is_link_local address }
{
    match address {
        IpAddr::V4(ip) => ip.is_link_local(),
        IpAddr::V6(ip) => ip.is_unicast_link_local(),
    }
}

/// Whether an address of IPv6 is one of IPv4.
fn is_mapped(address: IpAddr) -> bool
    ensures { result ≡ is_mapped address }
{
    match address {
        IpAddr::V4(_) => false,
        IpAddr::V6(ip) => ip.to_ipv4_mapped().is_some(),
    }
}

/// Whether an end may list an address as its own.
pub(crate) fn may_be_listed(address: IpAddr) -> bool
    ensures { result ≡ may_be_listed address }
{
    !(is_unspecified(address)
        || is_multicast(address)
        || is_broadcast(address)
        || is_link_local(address)
        || is_mapped(address))
}
