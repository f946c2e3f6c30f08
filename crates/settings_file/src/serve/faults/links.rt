//! The faults of how the associations of links come about.

ghost use Rattle.std.specs.Prelude.{◌≡◌, ◌++◌, OnOk, IfOk, [], map, true};
ghost use Rattle.std.specs.Result.{result_err};
ghost use Rattle.toml.specs.Data.{as_table};
ghost use Rattle.toml.specs.View.{view, table_view};
ghost use Rattle.settings_file.specs.Addresses.{Spelling};
ghost use Rattle.settings_file.specs.AllServeFaults.{sctp_keys_checks, listener_checks, from_checks, listen_checks, connect_checks, peer_in, remote_checks};
ghost use Rattle.settings_file.specs.AllServeFaults.{own_checks, or_others, link_faults, with_read, with_entry};
ghost use Rattle.settings_file.specs.AllServeFaults.{entry_faults, links_faults, links_faults_in};
ghost use Rattle.settings_file.specs.Endpoints.{links_at};
ghost use Rattle.settings_file.specs.Noted.{all_noted};

use crate::faults::noting::note;
use crate::serve::address::address_in;
use crate::serve::endpoints::{endpoint_at, links, without};
use crate::serve::fault::ServeFault;
use crate::serve::hosts::from;
use crate::serve::key::ServeKey;
use crate::serve::keys::found_at;
use crate::serve::paths::{addresses, behind_first, entries, first_or, others};
use crate::serve::remotes::{port_fixed, sctp_port, tries};
use crate::serve::sctp::MOST_OTHERS;
use crate::serve::server::{Endpoint, OwnAddresses};
use signalling_types::Limits;
use std::alloc::{AllocError, Global};
use std::net::SocketAddr;
use toml::{Table, Value};

/// Notes which keys of SCTP link `i` has, which has none.
fn note_sctp_keys(faults: &mut Vec<ServeFault>, i: usize, link: &Table) -> Result<(), AllocError>
    ensures { OnOk result
        (faults.new.items ≡ all_noted faults.old.items (sctp_keys_checks i (table_view link.now))) }
{
    note(faults, without(link, ServeKey::LinkRemote(i)).err())?;
    note(faults, without(link, ServeKey::LinkSctpPort(i)).err())?;
    note(faults, without(link, ServeKey::LinkRemoteSctpPort(i)).err())?;
    note(faults, without(link, ServeKey::LinkTries(i)).err())?;
    note(
        faults,
        without(link, ServeKey::LinkRemotePortFixed(i)).err(),
    )?;
    note(faults, without(link, ServeKey::LinkAddresses(i)).err())?;
    Ok(())
}

/// Notes the faults of link `i`, which listens where this value says.
#[tactic(auto, unfolding(crate::specs::AllServeFaults::listen_checks))]
fn note_listen(
    faults: &mut Vec<ServeFault>,
    i: usize,
    link: &Table,
    value: &Value,
) -> Result<(), AllocError>
    ensures { (s : Spelling) → OnOk result (faults.new.items
        ≡ all_noted faults.old.items (listen_checks s i (table_view link.now) (view value.now))) }
{
    note_listener(faults, i, link, value)?;
    note_sctp_keys(faults, i, link)?;
    note_from(faults, i, link)?;
    Ok(())
}

/// Notes the faults of where link `i` listens, and that it connects, too.
fn note_listener(
    faults: &mut Vec<ServeFault>,
    i: usize,
    link: &Table,
    value: &Value,
) -> Result<(), AllocError>
    ensures { (s : Spelling) → OnOk result (faults.new.items
        ≡ all_noted faults.old.items (listener_checks s i (table_view link.now) (view value.now))) }
{
    note(faults, address_in(value, ServeKey::LinkListen(i)).err())?;
    note(faults, without(link, ServeKey::LinkConnect(i)).err())?;
    Ok(())
}

/// Notes the fault of the host from which link `i` takes connections.
fn note_from(faults: &mut Vec<ServeFault>, i: usize, link: &Table) -> Result<(), AllocError>
    ensures { (s : Spelling) → OnOk result
        (faults.new.items ≡ all_noted faults.old.items (from_checks s i (table_view link.now))) }
{
    note(faults, from(true, link, i).err())
}

/// Notes the faults of link `i`, which connects to where this value says.
#[tactic(auto, unfolding(crate::specs::AllServeFaults::connect_checks))]
fn note_connect(
    faults: &mut Vec<ServeFault>,
    i: usize,
    link: &Table,
    value: &Value,
) -> Result<(), AllocError>
    ensures { (s : Spelling) → OnOk result (faults.new.items
        ≡ all_noted faults.old.items (connect_checks s i (table_view link.now) (view value.now))) }
{
    note(faults, address_in(value, ServeKey::LinkConnect(i)).err())?;
    note_sctp_keys(faults, i, link)
}

/// The addresses of the peer of link `i` behind its first, all of one version of IP.
#[tactic(auto, unfolding(crate::specs::AllServeFaults::peer_in))]
fn peer_in(i: usize, value: &Value) -> Result<[Option<SocketAddr>; MOST_OTHERS], ServeFault>
    ensures { (s : Spelling) → result ≡ peer_in s i (view value.now) }
{
    let entries = entries(true, value);
    let first = address_in(first_or(value, entries), ServeKey::LinkRemote(i))?;
    others(Some(first), i, first, behind_first(entries))
}

/// Notes the faults of link `i` over SCTP, whose peer is where this value says.
#[tactic(auto, unfolding(crate::specs::AllServeFaults::remote_checks))]
fn note_remote(
    faults: &mut Vec<ServeFault>,
    i: usize,
    link: &Table,
    value: &Value,
) -> Result<(), AllocError>
    ensures { (s : Spelling) → OnOk result (faults.new.items
        ≡ all_noted faults.old.items (remote_checks s i (table_view link.now) (view value.now))) }
{
    note(faults, peer_in(i, value).err())?;
    note(faults, sctp_port(link, ServeKey::LinkSctpPort(i)).err())?;
    note(
        faults,
        sctp_port(link, ServeKey::LinkRemoteSctpPort(i)).err(),
    )?;
    note(faults, tries(link, i).err())?;
    note(faults, port_fixed(true, link, i).err())?;
    note(faults, addresses(true, link, i).err())?;
    Ok(())
}

/// Notes the faults of the keys of link `i` by themselves.
#[tactic(auto, unfolding(crate::specs::AllServeFaults::own_checks))]
fn note_own(faults: &mut Vec<ServeFault>, i: usize, link: &Table) -> Result<(), AllocError>
    ensures { (s : Spelling) → OnOk result (faults.new.items
        ≡ all_noted faults.old.items (own_checks s i (table_view link.now))) }
{
    if let Some(value) = found_at(link, ServeKey::LinkListen(i)) {
        return note_listen(faults, i, link, value);
    }
    note(faults, without(link, ServeKey::LinkFrom(i)).err())?;
    if let Some(value) = found_at(link, ServeKey::LinkConnect(i)) {
        return note_connect(faults, i, link, value);
    }
    match found_at(link, ServeKey::LinkRemote(i)) {
        Some(value) => note_remote(faults, i, link, value),
        None => Ok(()),
    }
}

/// The faults of link `i`: those of its keys; if there are none, that of the link beside what else the file says.
#[tactic(auto, unfolding(crate::specs::AllServeFaults::link_faults))]
fn link_faults(
    alloc: Global,
    i: usize,
    link: &Table,
    endpoint: Result<Endpoint, ServeFault>,
) -> Result<Vec<ServeFault>, AllocError>
    ensures { (s : Spelling) → IfOk result
        (λ faults. faults.items ≡ link_faults s i (table_view link.now) endpoint) }
{
    let mut faults = Vec::new(alloc);
    note_own(&mut faults, i, link)?;
    if faults.is_empty() {
        note(&mut faults, endpoint.err())?;
    }
    Ok(faults)
}

/// Keeps a link that can be read.
fn keep(
    before: &mut Vec<Endpoint>,
    endpoint: Result<Endpoint, ServeFault>,
) -> Result<(), AllocError>
    ensures { OnOk result (before.new.items ≡ with_read before.old.items endpoint) }
{
    if let Ok(endpoint) = endpoint {
        before.push(endpoint)?;
    }
    Ok(())
}

/// Notes the faults of the link after these, which are those that can be read, and keeps it if it can be read.
fn note_link(
    alloc: Global,
    faults: &mut Vec<ServeFault>,
    own: OwnAddresses,
    before: &mut Vec<Endpoint>,
    i: usize,
    value: &Value,
) -> Result<(), AllocError>
    ensures faults { (s : Spelling) → OnOk result (faults.new.items
        ≡ faults.old.items ++ entry_faults s own before.old.items i (as_table (view value.now))) }
    ensures before { (s : Spelling) → OnOk result (before.new.items
        ≡ with_entry s own before.old.items i (as_table (view value.now))) }
{
    let Some(link) = value.as_table() else {
        return Ok(());
    };
    let endpoint = endpoint_at(own, true, before.as_slice(), i, link);
    let mut found = link_faults(alloc, i, link, endpoint)?;
    faults.append(&mut found)?;
    keep(before, endpoint)
}

/// Notes the faults of each link.
fn note_each(
    alloc: Global,
    faults: &mut Vec<ServeFault>,
    own: OwnAddresses,
    values: &[Value],
) -> Result<(), AllocError>
    ensures { (s : Spelling) → OnOk result (faults.new.items
        ≡ faults.old.items ++ links_faults s own [] 0 (map view values.now)) }
{
    let mut before = Vec::new(alloc);
    for i in 0..values.len() {
        note_link(alloc, faults, own, &mut before, i, &values[i])?;
    }
    Ok(())
}

/// Notes the faults of the links of a document that has no more than it may have.
pub(crate) fn note_links(
    alloc: Global,
    faults: &mut Vec<ServeFault>,
    own: OwnAddresses,
    document: &Table,
) -> Result<(), AllocError>
    ensures { (s : Spelling) → OnOk result (faults.new.items
        ≡ faults.old.items ++ links_faults_in s own (links_at (table_view document.now))) }
{
    match links(document) {
        Ok(values) if values.len() <= Limits::LINKS => note_each(alloc, faults, own, values),
        _ => Ok(()),
    }
}
