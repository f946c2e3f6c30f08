//! The faults of the arrays, entry by entry.

ghost use Rattle.std.specs.Prelude.{◌≡◌, OnOk, map};
ghost use Rattle.toml.specs.View.{view, table_view};
ghost use Rattle.settings_file.specs.AllFaults.{entry_checks_of, each_check, array_key, array_checks};
ghost use Rattle.settings_file.specs.Noted.{all_noted};
ghost use Rattle.settings_file.specs.AllFaults.{titles_checks_in, arrays_checks};
ghost use Rattle.settings_file.specs.NodeKeys.{found_at, entries_at};
ghost use Rattle.settings_file.specs.declared.faults.arrays.Array.TheVariants.{Titles};
ghost use Rattle.settings.specs.declared.key.Key.TheVariants as key;

use crate::fault::SettingsFault;
use crate::faults::entries::{note_destination, note_link, note_set, note_title};
use crate::faults::noting::note;
use crate::node_keys::{entries, found_at};
use crate::shapes::array_in;
use settings::Key;
use std::alloc::{AllocError, Global};
use toml::{Table, Value};

/// The arrays of settings.
#[derive(Clone, Copy)]
pub(crate) enum Array {
    /// The link sets.
    Sets,
    /// The links.
    Links,
    /// The destinations.
    Destinations,
    /// The translation rows.
    Titles,
}

impl Array {
    /// The key of the array.
    fn key(self) -> Key
        ensures { result ≡ array_key self }
    {
        match self {
            Array::Sets => Key::Set,
            Array::Links => Key::Link,
            Array::Destinations => Key::Destination,
            Array::Titles => Key::Title,
        }
    }
}

/// Notes the faults of an entry of an array.
fn note_entry(
    alloc: Global,
    faults: &mut Vec<SettingsFault>,
    array: Array,
    i: usize,
    value: &Value,
) -> Result<(), AllocError>
    ensures { OnOk result (faults.new.items
        ≡ all_noted faults.old.items (entry_checks_of array i (view value.now))) }
{
    match array {
        Array::Sets => note_set(alloc, faults, i, value),
        Array::Links => note_link(alloc, faults, i, value),
        Array::Destinations => note_destination(alloc, faults, i, value),
        Array::Titles => note_title(alloc, faults, i, value),
    }
}

/// Notes the faults of the entries of an array.
fn note_each(
    alloc: Global,
    faults: &mut Vec<SettingsFault>,
    array: Array,
    values: &[Value],
) -> Result<(), AllocError>
    ensures { OnOk result (faults.new.items
        ≡ all_noted faults.old.items (each_check (entry_checks_of array) 0 (map view values.now))) }
{
    for i in 0..values.len() {
        note_entry(alloc, faults, array, i, &values[i])?;
    }
    Ok(())
}

/// Notes the faults of an array that must have an entry.
fn note_array(
    alloc: Global,
    faults: &mut Vec<SettingsFault>,
    array: Array,
    table: &Table,
) -> Result<(), AllocError>
    ensures { OnOk result (faults.new.items ≡ all_noted faults.old.items
        (array_checks (entry_checks_of array) (entries_at (array_key array) (table_view table.now)))) }
{
    match entries(table, array.key()) {
        Ok(values) => note_each(alloc, faults, array, values),
        Err(fault) => note(faults, Some(fault)),
    }
}

/// Notes the faults of the translation rows, which may be left out.
fn note_titles(
    alloc: Global,
    faults: &mut Vec<SettingsFault>,
    table: &Table,
) -> Result<(), AllocError>
    ensures { OnOk result (faults.new.items ≡ all_noted faults.old.items
        (titles_checks_in (found_at key.Title (table_view table.now)))) }
{
    let Some(value) = found_at(table, Key::Title) else {
        return Ok(());
    };
    match array_in(value, SettingsFault::Kind(Key::Title)) {
        Ok(values) => note_each(alloc, faults, Array::Titles, values),
        Err(fault) => note(faults, Some(fault)),
    }
}

/// Notes the faults of the arrays.
#[tactic(auto, unfolding(crate::specs::AllFaults::arrays_checks))]
pub(crate) fn note_arrays(
    alloc: Global,
    faults: &mut Vec<SettingsFault>,
    table: &Table,
) -> Result<(), AllocError>
    ensures { OnOk result (faults.new.items
        ≡ all_noted faults.old.items (arrays_checks (table_view table.now))) }
{
    note_array(alloc, faults, Array::Sets, table)?;
    note_array(alloc, faults, Array::Links, table)?;
    note_array(alloc, faults, Array::Destinations, table)?;
    note_titles(alloc, faults, table)?;
    Ok(())
}
