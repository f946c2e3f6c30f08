//! The addresses of a link over SCTP: those of this end that it lists, and those of its peer.

ghost use Rattle.std.specs.Prelude.{◌≡◌, ◌≤◌, drop, map, length, IfOk, is_some, true};
ghost use Rattle.std.specs.List.{list_any};
ghost use Rattle.toml.specs.View.{view, table_view};
ghost use Rattle.toml.specs.Data.{as_array};
ghost use Rattle.std.specs.Option.{option_map};
ghost use Rattle.settings_file.specs.Shapes.{listed};
ghost use Rattle.settings_file.specs.Addresses.{Spelling};
ghost use Rattle.settings_file.specs.Paths.{has_address, new_address, spelled_host, listable, next_address, addresses_from, no_addresses, addresses_in, addresses_at};
ghost use Rattle.settings_file.specs.Paths.{entries_in, entries_of, first_or, has_host, reached, new_host, next_other, others_from, no_others, others_in};

use crate::serve::address::{address_in, is_same_host, is_same_version, may_be_listed};
use crate::serve::fault::ServeFault;
use crate::serve::key::ServeKey;
use crate::serve::keys::found_at;
use crate::serve::sctp::{MOST_ADDRESSES, MOST_OTHERS};
use crate::shapes::{array_in, text_in};
use std::net::{IpAddr, SocketAddr};
use toml::{Table, Value};

/// Whether a place has this address.
fn has_address(place: Option<IpAddr>, address: IpAddr) -> bool
    ensures { result ≡ has_address address place }
{
    match place {
        Some(own) => own == address,
        None => false,
    }
}

/// Whether one of these places has this address.
fn is_told(places: &[Option<IpAddr>], address: IpAddr) -> bool
    ensures { result ≡ list_any (has_address address) places.now }
{
    places.iter().any(|place| has_address(*place, address))
}

/// Refuses an address that is in one of these places.
fn new_address(
    key: ServeKey,
    places: &[Option<IpAddr>],
    address: IpAddr,
) -> Result<IpAddr, ServeFault>
    ensures { result ≡ new_address key places.now address }
{
    if is_told(places, address) {
        return Err(ServeFault::Duplicate(key));
    }
    Ok(address)
}

/// The IP address that a text spells.
pub(crate) fn spelled_host(text: &str, key: ServeKey) -> Result<IpAddr, ServeFault>
    ensures { (s : Spelling) → result ≡ spelled_host s key text.now }
{
    match text.parse::<IpAddr>() {
        Ok(address) => Ok(address),
        Err(_) => Err(ServeFault::Range(key)),
    }
}

/// Refuses an address that an end may not list.
fn listable(key: ServeKey, address: IpAddr) -> Result<IpAddr, ServeFault>
    ensures { result ≡ listable key address }
{
    if !may_be_listed(address) {
        return Err(ServeFault::Range(key));
    }
    Ok(address)
}

/// The IP address that a value says, which an end may list and is in none of these places.
#[tactic(auto, unfolding(crate::specs::Paths::next_address))]
fn next_address(
    key: ServeKey,
    places: &[Option<IpAddr>],
    value: &Value,
) -> Result<IpAddr, ServeFault>
    ensures { (s : Spelling) → result ≡ next_address s key places.now (view value.now) }
{
    let text = text_in(value, ServeFault::Kind(key))?;
    let spelled = spelled_host(text, key)?;
    let address = listable(key, spelled)?;
    new_address(key, places, address)
}

/// The IP addresses that values say, from the front on.
fn each_address(
    key: ServeKey,
    values: &[Value],
) -> Result<[Option<IpAddr>; MOST_ADDRESSES], ServeFault>
    requires { length values.now ≤ 8 }
    ensures { (s : Spelling) → result ≡ addresses_from s key no_addresses 0 (map view values.now) }
{
    let mut places = [None; MOST_ADDRESSES];
    for i in 0..values.len() {
        let address = next_address(key, &places, &values[i])?;
        places[i] = Some(address);
    }
    Ok(places)
}

/// The IP addresses of a list, at most eight.
#[tactic(auto, unfolding(crate::specs::Paths::addresses_in))]
fn addresses_in(
    key: ServeKey,
    value: &Value,
) -> Result<[Option<IpAddr>; MOST_ADDRESSES], ServeFault>
    ensures { (s : Spelling) → result ≡ addresses_in s key (view value.now) }
{
    let values = array_in(value, ServeFault::Kind(key))?;
    if MOST_ADDRESSES < values.len() {
        return Err(ServeFault::Range(key));
    }
    each_address(key, values)
}

/// The addresses of this end that link `i` lists.
#[tactic(auto, unfolding(crate::specs::Paths::addresses_at))]
pub(crate) fn addresses(
    is_fourth: bool,
    link: &Table,
    i: usize,
) -> Result<[Option<IpAddr>; MOST_ADDRESSES], ServeFault>
    ensures { (s : Spelling) → result ≡ addresses_at s is_fourth i (table_view link.now) }
{
    let key = ServeKey::LinkAddresses(i);
    if !is_fourth {
        return Ok([None; MOST_ADDRESSES]);
    }
    match found_at(link, key) {
        Some(value) => addresses_in(key, value),
        None => Ok([None; MOST_ADDRESSES]),
    }
}

/// The values of a list, which `remote` may be from version 4 on. None of another value.
pub(crate) fn entries(is_fourth: bool, value: &Value) -> &[Value]
    ensures { map view result.now ≡ entries_of is_fourth (view value.now) }
{
    if is_fourth { entries_in(value) } else { &[] }
}

/// The values of a list. None of another value.
fn entries_in(value: &Value) -> &[Value]
    ensures { map view result.now ≡ entries_in (option_map listed (as_array (view value.now))) }
{
    match value.as_array() {
        Some(array) => array.as_slice(),
        None => &[],
    }
}

/// The first of these; if there is none, the value itself.
pub(crate) fn first_or<'a>(value: &'a Value, entries: &'a [Value]) -> &'a Value
    ensures { view result.now ≡ first_or (view value.now) (map view entries.now) }
{
    match entries.first() {
        Some(first) => first,
        None => value,
    }
}

/// Those after the first.
pub(crate) fn behind_first(entries: &[Value]) -> &[Value]
    ensures { map view result.now ≡ drop 1 (map view entries.now) }
{
    match entries {
        [_, behind @ ..] => behind,
        [] => &[],
    }
}

/// Whether a place has an address of this host.
fn has_host(place: Option<SocketAddr>, address: SocketAddr) -> bool
    ensures { result ≡ has_host address place }
{
    match place {
        Some(other) => is_same_host(other, address),
        None => false,
    }
}

/// The address of the peer of link `i`, which datagrams from the server's address reach.
#[tactic(auto, unfolding(crate::specs::Paths::reached))]
pub(crate) fn reached(
    udp: Option<SocketAddr>,
    i: usize,
    address: SocketAddr,
) -> Result<SocketAddr, ServeFault>
    ensures value { result ≡ reached udp i address }
    ensures source { IfOk result (λ _. is_some udp ≡ true) }
{
    match udp {
        None => Err(ServeFault::Missing(ServeKey::Udp)),
        Some(own) if is_same_version(own, address) => Ok(address),
        Some(_) => Err(ServeFault::Range(ServeKey::LinkRemote(i))),
    }
}

/// Whether one of these places has an address of this host.
pub(crate) fn is_host_told(places: &[Option<SocketAddr>], address: SocketAddr) -> bool
    ensures { result ≡ list_any (has_host address) places.now }
{
    places.iter().any(|place| has_host(*place, address))
}

/// Refuses an address of the peer of link `i` whose host is that of the first, or of one in these places.
fn new_host(
    i: usize,
    first: SocketAddr,
    places: &[Option<SocketAddr>],
    address: SocketAddr,
) -> Result<SocketAddr, ServeFault>
    ensures { result ≡ new_host i first places.now address }
{
    if is_same_host(first, address) || is_host_told(places, address) {
        return Err(ServeFault::Duplicate(ServeKey::LinkRemote(i)));
    }
    Ok(address)
}

/// A further address of the peer of link `i`, of another host than those before.
#[tactic(auto, unfolding(crate::specs::Paths::next_other))]
fn next_other(
    udp: Option<SocketAddr>,
    i: usize,
    first: SocketAddr,
    places: &[Option<SocketAddr>],
    value: &Value,
) -> Result<SocketAddr, ServeFault>
    ensures { (s : Spelling) → result ≡ next_other s udp i first places.now (view value.now) }
{
    let told = address_in(value, ServeKey::LinkRemote(i))?;
    let address = reached(udp, i, told)?;
    new_host(i, first, places, address)
}

/// Further addresses of the peer of link `i`, from the front on.
fn each_other(
    udp: Option<SocketAddr>,
    i: usize,
    first: SocketAddr,
    values: &[Value],
) -> Result<[Option<SocketAddr>; MOST_OTHERS], ServeFault>
    requires { length values.now ≤ 7 }
    ensures { (s : Spelling) → result ≡ others_from s udp i first no_others 0 (map view values.now) }
{
    let mut places = [None; MOST_OTHERS];
    for n in 0..values.len() {
        let address = next_other(udp, i, first, &places, &values[n])?;
        places[n] = Some(address);
    }
    Ok(places)
}

/// The further addresses of the peer of link `i`, at most seven.
#[tactic(auto, unfolding(crate::specs::Paths::others_in))]
pub(crate) fn others(
    udp: Option<SocketAddr>,
    i: usize,
    first: SocketAddr,
    values: &[Value],
) -> Result<[Option<SocketAddr>; MOST_OTHERS], ServeFault>
    ensures { (s : Spelling) → result ≡ others_in s udp i first (map view values.now) }
{
    if MOST_OTHERS < values.len() {
        return Err(ServeFault::Range(ServeKey::LinkRemote(i)));
    }
    each_other(udp, i, first, values)
}
