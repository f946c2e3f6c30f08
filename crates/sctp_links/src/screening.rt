//! Which INITs are left out before an endpoint hears them. To the protocol each is one that the network lost.

ghost use Rattle.std.specs.Prelude.{◌≡◌, ◌||◌};
ghost use Rattle.sctp_links.specs.Screening.{has_others, is_at, is_at_one, is_init, is_init_ack, is_told};

use crate::hosts::address_of;
use sctp_endpoint::Address;
use settings_file::serve::Remote;
use std::net::SocketAddr;

/// Where the type of a packet's first chunk is: behind the common header (RFC 9260 §3.1, §3.2).
const TYPE_PLACE: usize = 12;

/// The type of INIT (RFC 9260 §3.3.2).
const INIT: u8 = 1;

/// The type of INIT ACK (RFC 9260 §3.3.3).
const INIT_ACK: u8 = 2;

/// What becomes of a datagram of a link before its endpoint hears it.
#[derive(Clone, Copy)]
pub enum Screened {
    /// The endpoint hears it.
    Heard,
    /// It is an INIT from another UDP port than its peer's, and is left out.
    OtherPort,
    /// It is an INIT beyond those that are answered in a span of time, and is left out.
    TooMany,
}

/// Whether a packet begins with INIT.
pub(crate) fn is_init(octets: &[u8]) -> bool
    ensures { result ≡ is_init octets.now }
{
    matches!(octets.get(TYPE_PLACE), Some(&INIT))
}

/// Whether a packet begins with INIT or INIT ACK: no other is refused.
pub(crate) fn may_be_refused(octets: &[u8]) -> bool
    ensures { result ≡ (is_init octets.now || is_init_ack octets.now) }
{
    is_init(octets) || is_init_ack(octets)
}

/// Whether a packet begins with INIT ACK.
fn is_init_ack(octets: &[u8]) -> bool
    ensures { result ≡ is_init_ack octets.now }
{
    matches!(octets.get(TYPE_PLACE), Some(&INIT_ACK))
}

/// Whether what comes from a host and its UDP port comes from where the peer is by the settings.
pub(crate) fn is_told(remote: &Remote, source: &Address) -> bool
    ensures { result ≡ is_told remote.now source.now }
{
    is_at(remote.address, source) || is_at_one(&remote.others, source)
}

/// Whether a peer has several hosts.
pub(crate) fn has_others(remote: &Remote) -> bool
    ensures { result ≡ has_others remote.now.others }
{
    let [first, ..] = remote.others;
    first.is_some()
}

/// Whether what comes from a host and its UDP port comes from this address.
fn is_at(place: SocketAddr, source: &Address) -> bool
    ensures { result ≡ is_at source.now place }
{
    let place = address_of(place);
    place.host == source.host && place.port == source.port
}

/// Whether it comes from one of these, which are kept from the front on.
fn is_at_one(places: &[Option<SocketAddr>], source: &Address) -> bool
    ensures { result ≡ is_at_one source.now places.now }
{
    'each_place: for place in places {
        match place {
            Some(place) if is_at(*place, source) => return true,
            Some(_) => {}
            None => return false,
        }
    }
    false
}
