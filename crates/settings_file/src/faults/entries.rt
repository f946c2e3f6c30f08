//! The faults of the entries of arrays.

ghost use Rattle.std.specs.Prelude.{◌≡◌, OnOk};
ghost use Rattle.toml.specs.View.{view, table_view};
ghost use Rattle.settings_file.specs.AllFaults.{set_checks_in, link_checks_in, destination_checks_in, title_checks_in};
ghost use Rattle.settings_file.specs.Noted.{all_noted};
ghost use Rattle.settings_file.specs.AllFaults.{title_key_checks, title_target_checks, title_change_checks};

use crate::arrays::ssn;
use crate::fault::SettingsFault;
use crate::faults::noting::note;
use crate::faults::owned::{note_added, note_name, note_names, note_text, text_or_empty};
use crate::node_keys::{integer, optional_integer, optional_point, point, truth};
use crate::shapes::table_in;
use settings::Key;
use std::alloc::{AllocError, Global};
use toml::{Table, Value};

/// Notes the faults of a link set.
#[tactic(auto, unfolding(crate::specs::AllFaults::set_checks_in))]
pub(crate) fn note_set(
    alloc: Global,
    faults: &mut Vec<SettingsFault>,
    i: usize,
    value: &Value,
) -> Result<(), AllocError>
    ensures { OnOk result (faults.new.items
        ≡ all_noted faults.old.items (set_checks_in i (view value.now))) }
{
    let table = match table_in(value, SettingsFault::Kind(Key::SetEntry(i))) {
        Ok(table) => table,
        Err(fault) => return note(faults, Some(fault)),
    };
    note_name(alloc, faults, table, Key::SetName(i))?;
    note(faults, point(true, table, Key::SetAdjacent(i)).err())?;
    Ok(())
}

/// Notes the faults of a link.
#[tactic(auto, unfolding(crate::specs::AllFaults::link_checks_in))]
pub(crate) fn note_link(
    alloc: Global,
    faults: &mut Vec<SettingsFault>,
    i: usize,
    value: &Value,
) -> Result<(), AllocError>
    ensures { OnOk result (faults.new.items
        ≡ all_noted faults.old.items (link_checks_in i (view value.now))) }
{
    let table = match table_in(value, SettingsFault::Kind(Key::LinkEntry(i))) {
        Ok(table) => table,
        Err(fault) => return note(faults, Some(fault)),
    };
    note_name(alloc, faults, table, Key::LinkName(i))?;
    note_name(alloc, faults, table, Key::LinkSet(i))?;
    note(faults, integer(table, Key::LinkSlc(i)).err())?;
    note(
        faults,
        optional_integer(true, table, Key::LinkShare(i)).err(),
    )?;
    Ok(())
}

/// Notes the faults of a destination.
#[tactic(auto, unfolding(crate::specs::AllFaults::destination_checks_in))]
pub(crate) fn note_destination(
    alloc: Global,
    faults: &mut Vec<SettingsFault>,
    i: usize,
    value: &Value,
) -> Result<(), AllocError>
    ensures { OnOk result (faults.new.items
        ≡ all_noted faults.old.items (destination_checks_in i (view value.now))) }
{
    let table = match table_in(value, SettingsFault::Kind(Key::DestinationEntry(i))) {
        Ok(table) => table,
        Err(fault) => return note(faults, Some(fault)),
    };
    note(faults, point(true, table, Key::DestinationPoint(i)).err())?;
    note_names(alloc, faults, table, Key::DestinationSets(i))?;
    note(faults, truth(true, table, Key::DestinationJoined(i)).err())?;
    Ok(())
}

/// Notes the faults of the key and the digits of a translation row.
fn note_title_key(
    alloc: Global,
    faults: &mut Vec<SettingsFault>,
    i: usize,
    table: &Table,
) -> Result<(), AllocError>
    ensures { OnOk result (faults.new.items
        ≡ all_noted faults.old.items (title_key_checks i (table_view table.now))) }
{
    note(faults, integer(table, Key::TitleTranslation(i)).err())?;
    note(faults, integer(table, Key::TitlePlan(i)).err())?;
    note(faults, integer(table, Key::TitleNature(i)).err())?;
    note_text(alloc, faults, table, Key::TitleDigits(i))?;
    Ok(())
}

/// Notes the faults of where a translation row leads to.
fn note_title_target(
    alloc: Global,
    faults: &mut Vec<SettingsFault>,
    i: usize,
    table: &Table,
) -> Result<(), AllocError>
    ensures { OnOk result (faults.new.items
        ≡ all_noted faults.old.items (title_target_checks i (table_view table.now))) }
{
    note(faults, point(true, table, Key::TitlePoint(i)).err())?;
    note(
        faults,
        optional_point(true, true, table, Key::TitleBackup(i)).err(),
    )?;
    note_text(alloc, faults, table, Key::TitleRoute(i))?;
    let route = text_or_empty(alloc, table, Key::TitleRoute(i))?;
    note(faults, ssn(table, i, route.as_str()).err())?;
    Ok(())
}

/// Notes the faults of how a translation row changes titles.
fn note_title_change(
    alloc: Global,
    faults: &mut Vec<SettingsFault>,
    i: usize,
    table: &Table,
) -> Result<(), AllocError>
    ensures { OnOk result (faults.new.items
        ≡ all_noted faults.old.items (title_change_checks i (table_view table.now))) }
{
    note(
        faults,
        optional_integer(true, table, Key::TitleNewPlan(i)).err(),
    )?;
    note(
        faults,
        optional_integer(true, table, Key::TitleNewNature(i)).err(),
    )?;
    note(
        faults,
        optional_integer(true, table, Key::TitleRemove(i)).err(),
    )?;
    note_added(alloc, faults, table, Key::TitleAdd(i))?;
    Ok(())
}

/// Notes the faults of a translation row.
#[tactic(auto, unfolding(crate::specs::AllFaults::title_checks_in))]
pub(crate) fn note_title(
    alloc: Global,
    faults: &mut Vec<SettingsFault>,
    i: usize,
    value: &Value,
) -> Result<(), AllocError>
    ensures { OnOk result (faults.new.items
        ≡ all_noted faults.old.items (title_checks_in i (view value.now))) }
{
    let table = match table_in(value, SettingsFault::Kind(Key::TitleEntry(i))) {
        Ok(table) => table,
        Err(fault) => return note(faults, Some(fault)),
    };
    note_title_key(alloc, faults, i, table)?;
    note_title_target(alloc, faults, i, table)?;
    note_title_change(alloc, faults, i, table)?;
    Ok(())
}
