//! Faults of a file as they are told.

ghost use Rattle.std.specs.Prelude.{◌≡◌, OnOk, map, filter};
ghost use Rattle.std.specs.List.{list_any};
ghost use Rattle.settings_file.specs.AllFaults.{checked_fault};
ghost use Rattle.settings_file.specs.Following.{stands};
ghost use Rattle.settings_file.specs.Places.{row_place};
ghost use Rattle.settings_file.specs.ToldFaults.{is_there, is_at, is_told, told_with, told_if, all_told};
ghost use Rattle.settings_file.specs.declared.serve.fault.ServeFault.TheVariants as kind;

use crate::fault::SettingsFault;
use crate::faults::following::Hidden;
use crate::key_rows::KeyRow;
use crate::serve::fault::{ServeFault, row_of};
use settings::DraftFault;
use std::alloc::AllocError;

/// Faults that are told, at most.
pub const MOST_FAULTS: usize = 100;

/// Whether a key of a row is that of another, or the entry of an array that this one is in.
fn is_there(found: &KeyRow, row: &KeyRow) -> bool
    ensures { result ≡ is_there (row_place row.now) (row_place found.now) }
{
    found.front == row.front
        && found.entry == row.entry
        && (found.written() == "" || found.written() == row.written())
}

/// Whether a fault is at the key of this row, or at the entry of an array that the key is in.
fn is_at(fault: ServeFault, row: &KeyRow) -> bool
    ensures { result ≡ is_at (row_place row.now) fault }
{
    match row_of(fault) {
        Some(found) => is_there(&found, row),
        None => false,
    }
}

/// Whether one of these faults is at the key of this row, or at the entry of an array that the key is in.
fn is_told_at(told: &[ServeFault], row: &KeyRow) -> bool
    ensures { result ≡ list_any (is_at (row_place row.now)) told.now }
{
    told.iter().any(|fault| is_at(*fault, row))
}

/// Whether one of these faults is at this one's key, or at the entry of an array that the key is in.
fn is_told(told: &[ServeFault], fault: ServeFault) -> bool
    ensures { result ≡ is_told told.now fault }
{
    match row_of(fault) {
        Some(row) => is_told_at(told, &row),
        None => false,
    }
}

/// Tells a fault, unless its key or its entry of an array has one, or 100 are told. The error means that memory ran out.
fn tell(told: &mut Vec<ServeFault>, fault: ServeFault) -> Result<(), AllocError>
    ensures { OnOk result (told.new.items ≡ told_with told.old.items fault) }
{
    if told.len() < MOST_FAULTS && !is_told(told, fault) {
        told.push(fault)?;
    }
    Ok(())
}

/// Tells faults of a server's settings.
pub(crate) fn tell_served(
    told: &mut Vec<ServeFault>,
    found: &[ServeFault],
) -> Result<(), AllocError>
    ensures { OnOk result (told.new.items ≡ all_told told.old.items found.now) }
{
    for i in 0..found.len() {
        tell(told, found[i])?;
    }
    Ok(())
}

/// Tells faults of reading.
pub(crate) fn tell_read(
    told: &mut Vec<ServeFault>,
    found: &[SettingsFault],
) -> Result<(), AllocError>
    ensures { OnOk result (told.new.items ≡ all_told told.old.items (map kind.Settings found.now)) }
{
    for i in 0..found.len() {
        tell(told, ServeFault::Settings(found[i]))?;
    }
    Ok(())
}

/// Tells a fault of checking, unless it may only follow from what is left open.
fn tell_unless_hidden(
    told: &mut Vec<ServeFault>,
    hidden: Hidden,
    fault: DraftFault,
) -> Result<(), AllocError>
    ensures { OnOk result (told.new.items
        ≡ told_if (stands hidden.names hidden.routes fault) told.old.items (checked_fault fault)) }
{
    if !hidden.has(fault) {
        tell(told, ServeFault::Settings(SettingsFault::Draft(fault)))?;
    }
    Ok(())
}

/// Tells the faults of checking that don't only follow from what is left open.
pub(crate) fn tell_checked(
    told: &mut Vec<ServeFault>,
    hidden: Hidden,
    found: &[DraftFault],
) -> Result<(), AllocError>
    ensures { OnOk result (told.new.items ≡ all_told told.old.items
        (map checked_fault (filter (stands hidden.names hidden.routes) found.now))) }
{
    for i in 0..found.len() {
        tell_unless_hidden(told, hidden, found[i])?;
    }
    Ok(())
}
