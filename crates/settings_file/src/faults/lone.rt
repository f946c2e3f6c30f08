//! The faults of the keys that are in no array.

ghost use Rattle.std.specs.Prelude.{◌≡◌, ◌≤◌, OnOk, IfSome};
ghost use Rattle.std.specs.Option.{option_map};
ghost use Rattle.toml.specs.View.{table_view};
ghost use Rattle.settings_file.specs.AllFaults.{leading_checks, service_checks, timer_keys, each_timer, timers_checks};
ghost use Rattle.settings_file.specs.Noted.{all_noted};

use crate::fault::SettingsFault;
use crate::faults::noting::note;
use crate::faults::owned::note_integers;
use crate::node_keys::{integer, point, truth};
use crate::ticks::clock_of;
use crate::timers::{optional_ticks, timer_table};
use settings::{Key, TimerKey};
use std::alloc::{AllocError, Global};
use toml::Table;

/// How many timers there are.
const TIMERS: usize = 18;

/// The timers, in their order.
fn timer_keys() -> [TimerKey; TIMERS]
    ensures { result ≡ timer_keys }
{
    [
        TimerKey::L1,
        TimerKey::L2,
        TimerKey::L3,
        TimerKey::L4,
        TimerKey::L6,
        TimerKey::L7,
        TimerKey::T1,
        TimerKey::T2,
        TimerKey::T3,
        TimerKey::T4,
        TimerKey::T6,
        TimerKey::T8,
        TimerKey::T10,
        TimerKey::Slt1,
        TimerKey::Slt2,
        TimerKey::L4e,
        TimerKey::Sst,
        TimerKey::T2Bar,
    ]
}

/// Notes the faults of the numbers and lists that a file begins with.
pub(crate) fn note_leading(
    alloc: Global,
    faults: &mut Vec<SettingsFault>,
    table: &Table,
) -> Result<(), AllocError>
    ensures { OnOk result (faults.new.items
        ≡ all_noted faults.old.items (leading_checks (table_view table.now))) }
{
    note(faults, point(true, table, Key::Own).err())?;
    note(faults, integer(table, Key::Network).err())?;
    note(faults, integer(table, Key::Window).err())?;
    note(faults, integer(table, Key::Pool).err())?;
    note_integers(alloc, faults, table, Key::Users)?;
    note_integers(alloc, faults, table, Key::Subsystems)?;
    Ok(())
}

/// Notes the faults of what a file asks for.
pub(crate) fn note_services(
    faults: &mut Vec<SettingsFault>,
    table: &Table,
) -> Result<(), AllocError>
    ensures { OnOk result (faults.new.items
        ≡ all_noted faults.old.items (service_checks (table_view table.now))) }
{
    note(faults, truth(true, table, Key::ExtendedUnitdata).err())?;
    note(faults, truth(true, table, Key::SubsystemTests).err())?;
    note(faults, truth(true, table, Key::UserPartUnavailable).err())?;
    note(faults, truth(true, table, Key::ProcessorOutage).err())?;
    note(faults, truth(true, table, Key::OutOfService).err())?;
    note(faults, truth(true, table, Key::ChangeoverByAnyRoute).err())?;
    Ok(())
}

/// Notes the faults of these timers in a table, whose ticks are this long.
fn note_each_timer(
    faults: &mut Vec<SettingsFault>,
    clock: Option<u16>,
    table: Option<&Table>,
    timers: &[TimerKey],
) -> Result<(), AllocError>
    requires { IfSome clock (λ tick_ms. 1 ≤ tick_ms) }
    ensures { OnOk result (faults.new.items ≡ all_noted faults.old.items
        (each_timer clock (option_map (λ table. table_view table.now) table.entry) timers.now)) }
{
    for i in 0..timers.len() {
        note(faults, optional_ticks(true, clock, table, timers[i]).err())?;
    }
    Ok(())
}

/// Notes the faults of the timers, each of which may be left out.
#[tactic(auto, unfolding(crate::specs::AllFaults::timers_checks))]
pub(crate) fn note_timers(
    faults: &mut Vec<SettingsFault>,
    document: &Table,
) -> Result<(), AllocError>
    ensures { OnOk result (faults.new.items
        ≡ all_noted faults.old.items (timers_checks (table_view document.now))) }
{
    let clock = clock_of(true, document);
    match timer_table(clock, document) {
        Ok(table) => note_each_timer(faults, clock, table, &timer_keys()),
        Err(fault) => note(faults, Some(fault)),
    }
}
