//! The settings of a link's endpoint, and what its datagrams have.

ghost use Rattle.std.specs.Prelude.{◌≡◌, ◌≤◌, take};
ghost use Rattle.sctp_bundling.specs.Addresses.{listed};
ghost use Rattle.sctp_bundling.specs.Settings as endpoints;
ghost use Rattle.sctp_links.specs.EndpointSettings.{given, host_in, peer_of, settings_of};

use crate::hosts::address_of;
use crate::peers::Peer;
use sctp_endpoint::{Addresses, Settings};
use sctp_sending::Bounds;
use settings_file::serve::sctp::MOST_ADDRESSES;
use settings_file::serve::{Remote, SctpTimes};
use std::net::{IpAddr, Ipv4Addr, SocketAddr};

/// How long a cookie is good, in milliseconds: Valid.Cookie.Life (RFC 9260 §16).
const COOKIE_LIFE: u32 = 60_000;

/// The settings of the endpoint of a link.
pub fn settings_of(remote: &Remote, times: &SctpTimes) -> Settings
    ensures value { endpoints.settings_of result ≡ settings_of remote.now times.now }
    ensures bounds { result.bounds ≡ (settings_of remote.now times.now).bounds }
{
    Settings {
        own_port: remote.own_port,
        far_port: remote.far_port,
        address: address_of(remote.address),
        addresses: listed_in(&remote.addresses),
        bounds: Bounds {
            initial: times.rto_initial_ms,
            least: times.rto_min_ms,
            most: times.rto_max_ms,
        },
        init_retransmissions: times.init_tries,
        retransmissions: times.retransmissions,
        heartbeat: times.heartbeat_ms,
        cookie_life: COOKIE_LIFE,
    }
}

/// The addresses that are given, from the front on.
fn listed_in(places: &[Option<IpAddr>; MOST_ADDRESSES]) -> Addresses
    ensures { listed result ≡ given places.now }
{
    let mut addresses = [IpAddr::V4(Ipv4Addr::UNSPECIFIED); MOST_ADDRESSES];
    for i in 0..MOST_ADDRESSES {
        let Some(address) = places[i] else {
            return first_of(&addresses, i);
        };
        addresses[i] = address;
    }
    first_of(&addresses, MOST_ADDRESSES)
}

/// The first of these, this many.
fn first_of(addresses: &[IpAddr; MOST_ADDRESSES], count: usize) -> Addresses
    requires { count ≤ 8 }
    ensures { listed result ≡ take count addresses.now }
{
    match Addresses::of(&addresses[..count]) {
        Some(addresses) => addresses,
        None => Addresses::none(),
    }
}

/// The host of an address, if there is one.
fn host_in(address: Option<SocketAddr>) -> Option<[u8; 16]>
    ensures { result ≡ host_in address }
{
    match address {
        Some(address) => {
            let address = address_of(address);
            Some(address.host)
        }
        None => None,
    }
}

/// What the datagrams of a link have.
pub fn peer_of(remote: &Remote) -> Peer
    ensures { result ≡ peer_of remote.now }
{
    let address = address_of(remote.address);
    let host = address.host;
    let [a, b, c, d, e, f, g] = remote.others;
    Peer {
        host,
        others: [
            host_in(a),
            host_in(b),
            host_in(c),
            host_in(d),
            host_in(e),
            host_in(f),
            host_in(g),
        ],
        own_port: remote.own_port,
        far_port: remote.far_port,
    }
}
