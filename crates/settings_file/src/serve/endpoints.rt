//! How the association of each link comes about.

ghost use Rattle.std.specs.Prelude.{◌≡◌, [], map, true, IfOk};
ghost use Rattle.std.specs.List.{list_any};
ghost use Rattle.toml.specs.View.{view, table_view};
ghost use Rattle.settings_file.specs.Addresses.{Spelling};
ghost use Rattle.settings_file.specs.Faults.{Answers};
ghost use Rattle.settings_file.specs.ServeFaults.{AnswersOrNoMemory};
ghost use Rattle.settings_file.specs.Endpoints.{listens_on, is_taken, has_source, have_source, listening_in, without, without_in, without_sctp, listen_in, connect_in};
ghost use Rattle.settings_file.specs.Endpoints.{endpoint_at, endpoint_in, endpoints_behind, links_at, endpoints_at};

use crate::fault::SettingsFault;
use crate::key_rows::key_name;
use crate::serve::address::{address_in, is_address_of};
use crate::serve::fault::ServeFault;
use crate::serve::hosts::from;
use crate::serve::key::ServeKey;
use crate::serve::keys::found_at;
use crate::serve::remotes::remote_in;
use crate::serve::server::{Endpoint, OwnAddresses};
use crate::shapes::{array_in, table_in, value};
use settings::Key;
use std::alloc::Global;
use std::net::SocketAddr;
use toml::{Table, Value};

/// Whether one of these links listens on an address.
fn is_link_on(links: &[Endpoint], address: SocketAddr) -> bool
    ensures { result ≡ list_any (listens_on address) links.now }
{
    links.iter().any(|link| link.listens_on(address))
}

/// Whether the console listens on an address, or the status page is there, or one of the links
/// before listens there.
fn is_taken(own: OwnAddresses, before: &[Endpoint], address: SocketAddr) -> bool
    ensures { result ≡ is_taken own before.now address }
{
    is_address_of(own.console, address)
        || is_address_of(own.page, address)
        || is_link_on(before, address)
}

/// Where link `i` listens, which is where nothing else does.
#[tactic(auto, unfolding(crate::specs::Endpoints::listening_in))]
fn listening_in(
    own: OwnAddresses,
    before: &[Endpoint],
    i: usize,
    value: &Value,
) -> Result<SocketAddr, ServeFault>
    ensures { (s : Spelling) → result ≡ listening_in s own before.now i (view value.now) }
{
    let key = ServeKey::LinkListen(i);
    let address = address_in(value, key)?;
    if is_taken(own, before, address) {
        return Err(ServeFault::Duplicate(key));
    }
    Ok(address)
}

/// Refuses a key that a link may not have together with its other keys.
pub(crate) fn without(link: &Table, key: ServeKey) -> Result<(), ServeFault>
    ensures { result ≡ without key (table_view link.now) }
{
    match found_at(link, key) {
        Some(_) => Err(ServeFault::Duplicate(key)),
        None => Ok(()),
    }
}

/// Refuses a key that version 4 brought, if the file is of that version.
fn without_in(is_fourth: bool, link: &Table, key: ServeKey) -> Result<(), ServeFault>
    ensures { result ≡ without_in is_fourth key (table_view link.now) }
{
    if !is_fourth {
        return Ok(());
    }
    without(link, key)
}

/// Refuses the keys of a link over SCTP, at link `i`.
#[tactic(auto, unfolding(crate::specs::Endpoints::without_sctp))]
fn without_sctp(is_fourth: bool, link: &Table, i: usize) -> Result<(), ServeFault>
    ensures { result ≡ without_sctp is_fourth i (table_view link.now) }
{
    without(link, ServeKey::LinkRemote(i))?;
    without(link, ServeKey::LinkSctpPort(i))?;
    without(link, ServeKey::LinkRemoteSctpPort(i))?;
    without(link, ServeKey::LinkTries(i))?;
    without_in(is_fourth, link, ServeKey::LinkRemotePortFixed(i))?;
    without_in(is_fourth, link, ServeKey::LinkAddresses(i))
}

/// Where link `i` listens, which has no other key of the three.
#[tactic(auto, unfolding(crate::specs::Endpoints::listen_in))]
fn listen_in(
    own: OwnAddresses,
    is_fourth: bool,
    before: &[Endpoint],
    i: usize,
    link: &Table,
    value: &Value,
) -> Result<SocketAddr, ServeFault>
    ensures { (s : Spelling) → result
        ≡ listen_in s own is_fourth before.now i (table_view link.now) (view value.now) }
{
    let address = listening_in(own, before, i, value)?;
    without(link, ServeKey::LinkConnect(i))?;
    without_sctp(is_fourth, link, i)?;
    Ok(address)
}

/// Where link `i` connects to, which has no other key of the three.
#[tactic(auto, unfolding(crate::specs::Endpoints::connect_in))]
fn connect_in(
    is_fourth: bool,
    link: &Table,
    i: usize,
    value: &Value,
) -> Result<SocketAddr, ServeFault>
    ensures { (s : Spelling) → result ≡ connect_in s is_fourth i (table_view link.now) (view value.now) }
{
    let address = address_in(value, ServeKey::LinkConnect(i))?;
    without_sctp(is_fourth, link, i)?;
    Ok(address)
}

/// How the association of link `i` comes about, whose table this is, beside those of these links.
#[tactic(auto, unfolding(crate::specs::Endpoints::endpoint_at))]
pub(crate) fn endpoint_at(
    own: OwnAddresses,
    is_fourth: bool,
    before: &[Endpoint],
    i: usize,
    link: &Table,
) -> Result<Endpoint, ServeFault>
    ensures value { (s : Spelling) → result
        ≡ endpoint_at s own is_fourth before.now i (table_view link.now) }
    ensures source { IfOk result (λ e. has_source own.udp e ≡ true) }
{
    if let Some(value) = found_at(link, ServeKey::LinkListen(i)) {
        let address = listen_in(own, is_fourth, before, i, link, value)?;
        let host = from(is_fourth, link, i)?;
        return Ok(Endpoint::Listen(address, host));
    }
    without_in(is_fourth, link, ServeKey::LinkFrom(i))?;
    if let Some(value) = found_at(link, ServeKey::LinkConnect(i)) {
        let address = connect_in(is_fourth, link, i, value)?;
        return Ok(Endpoint::Connect(address));
    }
    match found_at(link, ServeKey::LinkRemote(i)) {
        Some(value) => {
            let remote = remote_in(own, is_fourth, before, i, link, value)?;
            Ok(Endpoint::Remote(remote))
        }
        None => Err(ServeFault::Missing(ServeKey::LinkListen(i))),
    }
}

/// How the association of the link after these comes about.
#[tactic(auto, unfolding(crate::specs::Endpoints::endpoint_in))]
fn endpoint_in(
    own: OwnAddresses,
    is_fourth: bool,
    before: &[Endpoint],
    value: &Value,
) -> Result<Endpoint, ServeFault>
    ensures value { (s : Spelling) → result ≡ endpoint_in s own is_fourth before.now (view value.now) }
    ensures source { IfOk result (λ e. has_source own.udp e ≡ true) }
{
    let i = before.len();
    let entry = ServeFault::Settings(SettingsFault::Kind(Key::LinkEntry(i)));
    let link = table_in(value, entry)?;
    endpoint_at(own, is_fourth, before, i, link)
}

/// How the association of each of the links comes about.
fn each_endpoint(
    alloc: Global,
    own: OwnAddresses,
    is_fourth: bool,
    values: &[Value],
) -> Result<Vec<Endpoint>, ServeFault>
    ensures value { (s : Spelling) → AnswersOrNoMemory (λ endpoints. endpoints.items)
        (endpoints_behind s own is_fourth [] (map view values.now)) result }
    ensures source { IfOk result (λ endpoints. have_source own.udp endpoints.items ≡ true) }
{
    let mut endpoints = Vec::with_capacity(alloc, values.len())?;
    for i in 0..values.len() {
        let endpoint = endpoint_in(own, is_fourth, endpoints.as_slice(), &values[i])?;
        endpoints.push(endpoint)?;
    }
    Ok(endpoints)
}

/// The links of a file.
#[tactic(auto, unfolding(crate::specs::Endpoints::links_at))]
pub(crate) fn links(table: &Table) -> Result<&[Value], ServeFault>
    ensures { Answers (λ links. map view links.now) (links_at (table_view table.now)) result }
{
    let missing = ServeFault::Settings(SettingsFault::Missing(Key::Link));
    let links = value(table, key_name(Key::Link), missing)?;
    array_in(links, ServeFault::Settings(SettingsFault::Kind(Key::Link)))
}

/// How the association of each link of a file comes about.
#[tactic(auto, unfolding(crate::specs::Endpoints::endpoints_at))]
pub(crate) fn endpoints(
    alloc: Global,
    own: OwnAddresses,
    is_fourth: bool,
    table: &Table,
) -> Result<Vec<Endpoint>, ServeFault>
    ensures value { (s : Spelling) → AnswersOrNoMemory (λ endpoints. endpoints.items)
        (endpoints_at s own is_fourth (table_view table.now)) result }
    ensures source { IfOk result (λ endpoints. have_source own.udp endpoints.items ≡ true) }
{
    let values = links(table)?;
    each_endpoint(alloc, own, is_fourth, values)
}
