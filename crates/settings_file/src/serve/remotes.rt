//! Links over SCTP.

ghost use Rattle.std.specs.Prelude.{◌≡◌, true, IfOk, is_some};
ghost use Rattle.std.specs.List.{list_any};
ghost use Rattle.toml.specs.View.{view, table_view};
ghost use Rattle.settings_file.specs.Addresses.{Spelling};
ghost use Rattle.settings_file.specs.Endpoints.{has_same_peer, sctp_port_at, tries_at, port_fixed_at, apart, remote_in};

use crate::serve::address::address_in;
use crate::serve::fault::ServeFault;
use crate::serve::key::ServeKey;
use crate::serve::keys::{found_at, truth_or};
use crate::serve::paths::{addresses, behind_first, entries, first_or, others, reached};
use crate::serve::sctp::Remote;
use crate::serve::server::{Endpoint, OwnAddresses};
use crate::shapes::integer_in;
use toml::{Table, Value};

/// The SCTP port of an end if its key is left out: the registered one of M2PA.
const M2PA_PORT: u16 = 3565;

/// An SCTP port of a link.
#[tactic(auto, unfolding(crate::specs::Endpoints::sctp_port_at))]
pub(crate) fn sctp_port(link: &Table, key: ServeKey) -> Result<u16, ServeFault>
    ensures { result ≡ sctp_port_at key (table_view link.now) }
{
    let Some(value) = found_at(link, key) else {
        return Ok(M2PA_PORT);
    };
    let port = integer_in(value, ServeFault::Kind(key))?;
    match u16::try_from(port) {
        Ok(port) if port > 0 => Ok(port),
        _ => Err(ServeFault::Range(key)),
    }
}

/// Whether an end sends INIT.
#[tactic(auto, unfolding(crate::specs::Endpoints::tries_at))]
pub(crate) fn tries(link: &Table, i: usize) -> Result<bool, ServeFault>
    ensures { result ≡ tries_at i (table_view link.now) }
{
    truth_or(link, ServeKey::LinkTries(i), true)
}

/// Whether an INIT of the peer counts only from its UDP port.
#[tactic(auto, unfolding(crate::specs::Endpoints::port_fixed_at))]
pub(crate) fn port_fixed(is_fourth: bool, link: &Table, i: usize) -> Result<bool, ServeFault>
    ensures { result ≡ port_fixed_at is_fourth i (table_view link.now) }
{
    if !is_fourth {
        return Ok(false);
    }
    truth_or(link, ServeKey::LinkRemotePortFixed(i), false)
}

fn has_peer(links: &[Endpoint], remote: &Remote) -> bool
    ensures { result ≡ list_any (has_same_peer remote.now) links.now }
{
    links.iter().any(|link| link.has_peer(remote))
}

/// Refuses a peer of link `i` that one of these links has.
#[tactic(auto, unfolding(crate::specs::Endpoints::apart))]
fn apart(before: &[Endpoint], i: usize, remote: &Remote) -> Result<(), ServeFault>
    ensures { result ≡ apart before.now i remote.now }
{
    if has_peer(before, remote) {
        return Err(ServeFault::Duplicate(ServeKey::LinkRemote(i)));
    }
    Ok(())
}

/// Link `i` over SCTP, whose peer is where this value says, beside these links.
#[tactic(auto, unfolding(crate::specs::Endpoints::remote_in))]
pub(crate) fn remote_in(
    own: OwnAddresses,
    is_fourth: bool,
    before: &[Endpoint],
    i: usize,
    link: &Table,
    value: &Value,
) -> Result<Remote, ServeFault>
    ensures value { (s : Spelling) → result
        ≡ remote_in s own is_fourth before.now i (table_view link.now) (view value.now) }
    ensures source { IfOk result (λ _. is_some own.udp ≡ true) }
{
    let entries = entries(is_fourth, value);
    let told = address_in(first_or(value, entries), ServeKey::LinkRemote(i))?;
    let address = reached(own.udp, i, told)?;
    let others = others(own.udp, i, address, behind_first(entries))?;
    let own_port = sctp_port(link, ServeKey::LinkSctpPort(i))?;
    let far_port = sctp_port(link, ServeKey::LinkRemoteSctpPort(i))?;
    let tries = tries(link, i)?;
    let is_port_fixed = port_fixed(is_fourth, link, i)?;
    let addresses = addresses(is_fourth, link, i)?;
    let remote = Remote {
        address,
        others,
        addresses,
        own_port,
        far_port,
        tries,
        is_port_fixed,
    };
    apart(before, i, &remote)?;
    Ok(remote)
}
