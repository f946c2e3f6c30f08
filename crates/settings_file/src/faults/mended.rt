//! The settings of a document of which not all values can be read.
//!
//! A value that can't be read counts as a malformed one: a number as -1, a text and a list as empty ones. So what is wrong
//! with the others is found, too.

mod entries;
mod timers;

ghost use Rattle.std.specs.Prelude.{◌≡◌, true, false, IfOk};
ghost use Rattle.toml.specs.View.{table_view};
ghost use Rattle.settings_file.specs.Written.{written};
ghost use Rattle.settings_file.specs.NodeKeys.{truth_at};
ghost use Rattle.settings_file.specs.Mended.{or_else, unread, mended};

use crate::fault::SettingsFault;
use crate::faults::mended::entries::{destinations, links, sets, titles};
use crate::faults::mended::timers::timers;
use crate::faults::owned::integers_or_empty;
use crate::node_keys::{integer, point, truth};
use settings::{Draft, Key};
use std::alloc::{AllocError, Global};
use toml::Table;

/// The number that counts where none can be read.
const UNREAD: i64 = -1;

/// The number that was read, or the one that counts if none was.
fn or_unread(read: Result<i64, SettingsFault>) -> i64
    ensures { result ≡ or_else unread read }
{
    match read {
        Ok(number) => number,
        Err(_) => UNREAD,
    }
}

/// Whether a document of version 4 says `true` at a key.
fn is_true(document: &Table, key: Key) -> bool
    ensures { result ≡ or_else false (truth_at true key (table_view document.now)) }
{
    matches!(truth(true, document, key), Ok(true))
}

/// The settings of a document of version 4, with what counts where a value can't be read. `AllocError` if memory ran out.
#[tactic(auto, unfolding(crate::specs::Mended::mended))]
pub(crate) fn mended(alloc: Global, document: &Table) -> Result<Draft, AllocError>
    ensures { IfOk result (λ draft. written draft ≡ mended (table_view document.now)) }
{
    let users = integers_or_empty(alloc, document, Key::Users)?;
    let subsystems = integers_or_empty(alloc, document, Key::Subsystems)?;
    let sets = sets(alloc, document)?;
    let links = links(alloc, document)?;
    let destinations = destinations(alloc, document)?;
    let titles = titles(alloc, document)?;
    Ok(Draft {
        own: or_unread(point(true, document, Key::Own)),
        network: or_unread(integer(document, Key::Network)),
        window: or_unread(integer(document, Key::Window)),
        pool: or_unread(integer(document, Key::Pool)),
        users,
        subsystems,
        extended_unitdata: is_true(document, Key::ExtendedUnitdata),
        subsystem_tests: is_true(document, Key::SubsystemTests),
        user_part_unavailable: is_true(document, Key::UserPartUnavailable),
        processor_outage: is_true(document, Key::ProcessorOutage),
        out_of_service: is_true(document, Key::OutOfService),
        changeover_by_any_route: is_true(document, Key::ChangeoverByAnyRoute),
        timers: timers(document),
        sets,
        links,
        destinations,
        titles,
    })
}
