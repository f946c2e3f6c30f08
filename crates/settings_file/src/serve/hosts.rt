//! The host from which a link takes connections.

ghost use Rattle.std.specs.Prelude.{◌≡◌};
ghost use Rattle.toml.specs.View.{view, table_view};
ghost use Rattle.settings_file.specs.Addresses.{Spelling};
ghost use Rattle.settings_file.specs.Hosts.{from_at, host_in};

use crate::serve::fault::ServeFault;
use crate::serve::key::ServeKey;
use crate::serve::keys::found_at;
use crate::serve::paths::spelled_host;
use crate::shapes::text_in;
use std::net::IpAddr;
use toml::{Table, Value};

/// The IP address that a value says.
#[tactic(auto, unfolding(crate::specs::Hosts::host_in))]
fn host_in(value: &Value, key: ServeKey) -> Result<IpAddr, ServeFault>
    ensures { (s : Spelling) → result ≡ host_in s key (view value.now) }
{
    let text = text_in(value, ServeFault::Kind(key))?;
    spelled_host(text, key)
}

/// The one host from which link `i` takes connections, if it names one.
#[tactic(auto, unfolding(crate::specs::Hosts::from_at))]
pub(crate) fn from(is_fourth: bool, link: &Table, i: usize) -> Result<Option<IpAddr>, ServeFault>
    ensures { (s : Spelling) → result ≡ from_at s is_fourth i (table_view link.now) }
{
    if !is_fourth {
        return Ok(None);
    }
    match found_at(link, ServeKey::LinkFrom(i)) {
        Some(value) => Ok(Some(host_in(value, ServeKey::LinkFrom(i))?)),
        None => Ok(None),
    }
}
