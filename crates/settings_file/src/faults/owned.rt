//! Values that are owned once they are read: texts, names and lists.

ghost use Rattle.std.specs.Prelude.{◌≡◌, [], true, map, IfOk, OnOk, string_bytes};
ghost use Rattle.toml.specs.View.{table_view};
ghost use Rattle.settings_file.specs.AllFaults.{fault_in};
ghost use Rattle.settings_file.specs.Noted.{noted};
ghost use Rattle.settings_file.specs.Mended.{or_else};
ghost use Rattle.settings_file.specs.NodeKeys.{name_at, names_at, text_at, optional_text_at, integers_if_any_at};

use crate::fault::SettingsFault;
use crate::faults::noting::{fault_of, note, or_empty};
use crate::node_keys::{integers_if_any, name_at, names, optional_text, text};
use settings::Key;
use std::alloc::{AllocError, Global};
use toml::Table;

/// Notes the fault of the name at a key, if it has one.
pub(crate) fn note_name(
    alloc: Global,
    faults: &mut Vec<SettingsFault>,
    table: &Table,
    key: Key,
) -> Result<(), AllocError>
    ensures { OnOk result (faults.new.items
        ≡ noted faults.old.items (fault_in (name_at true key (table_view table.now)))) }
{
    let fault = fault_of(name_at(alloc, true, table, key))?;
    note(faults, fault)
}

/// Notes the fault of the text at a key, if it has one.
pub(crate) fn note_text(
    alloc: Global,
    faults: &mut Vec<SettingsFault>,
    table: &Table,
    key: Key,
) -> Result<(), AllocError>
    ensures { OnOk result (faults.new.items
        ≡ noted faults.old.items (fault_in (text_at key (table_view table.now)))) }
{
    let fault = fault_of(text(alloc, table, key))?;
    note(faults, fault)
}

/// Notes the fault of the text at a key that may be left out, if it has one.
pub(crate) fn note_added(
    alloc: Global,
    faults: &mut Vec<SettingsFault>,
    table: &Table,
    key: Key,
) -> Result<(), AllocError>
    ensures { OnOk result (faults.new.items
        ≡ noted faults.old.items (fault_in (optional_text_at true key (table_view table.now)))) }
{
    let fault = fault_of(optional_text(alloc, true, table, key))?;
    note(faults, fault)
}

/// Notes the fault of the list of names at a key, if it has one.
pub(crate) fn note_names(
    alloc: Global,
    faults: &mut Vec<SettingsFault>,
    table: &Table,
    key: Key,
) -> Result<(), AllocError>
    ensures { OnOk result (faults.new.items
        ≡ noted faults.old.items (fault_in (names_at true key (table_view table.now)))) }
{
    let fault = fault_of(names(alloc, true, table, key))?;
    note(faults, fault)
}

/// Notes the fault of the list of integers at a key that may be left out, if it has one.
pub(crate) fn note_integers(
    alloc: Global,
    faults: &mut Vec<SettingsFault>,
    table: &Table,
    key: Key,
) -> Result<(), AllocError>
    ensures { OnOk result (faults.new.items
        ≡ noted faults.old.items (fault_in (integers_if_any_at true key (table_view table.now)))) }
{
    let fault = fault_of(integers_if_any(alloc, true, table, key))?;
    note(faults, fault)
}

/// Reads the name at a key; an empty one if it can't be read.
pub(crate) fn name_or_empty(alloc: Global, table: &Table, key: Key) -> Result<String, AllocError>
    ensures { IfOk result (λ value.
        string_bytes value ≡ or_else [] (name_at true key (table_view table.now))) }
{
    let empty = String::new(alloc);
    or_empty(name_at(alloc, true, table, key), empty)
}

/// Reads the text at a key; an empty one if it can't be read.
pub(crate) fn text_or_empty(alloc: Global, table: &Table, key: Key) -> Result<String, AllocError>
    ensures { IfOk result (λ value.
        string_bytes value ≡ or_else [] (text_at key (table_view table.now))) }
{
    let empty = String::new(alloc);
    or_empty(text(alloc, table, key), empty)
}

/// Reads the text at a key that may be left out; an empty one if it can't be read.
pub(crate) fn added_or_empty(alloc: Global, table: &Table, key: Key) -> Result<String, AllocError>
    ensures { IfOk result (λ value.
        string_bytes value ≡ or_else [] (optional_text_at true key (table_view table.now))) }
{
    let empty = String::new(alloc);
    or_empty(optional_text(alloc, true, table, key), empty)
}

/// Reads the list of names at a key; an empty one if it can't be read.
pub(crate) fn names_or_empty(
    alloc: Global,
    table: &Table,
    key: Key,
) -> Result<Vec<String>, AllocError>
    ensures { IfOk result (λ value.
        map (λ name. string_bytes name) value.items ≡ or_else [] (names_at true key (table_view table.now))) }
{
    let empty = Vec::new(alloc);
    or_empty(names(alloc, true, table, key), empty)
}

/// Reads the list of integers at a key that may be left out; an empty one if it can't be read.
pub(crate) fn integers_or_empty(
    alloc: Global,
    table: &Table,
    key: Key,
) -> Result<Vec<i64>, AllocError>
    ensures { IfOk result (λ value.
        value.items ≡ or_else [] (integers_if_any_at true key (table_view table.now))) }
{
    let empty = Vec::new(alloc);
    or_empty(integers_if_any(alloc, true, table, key), empty)
}
