//! The faults of timers.

ghost use Rattle.std.specs.Prelude.{◌≡◌, [], OnOk};
ghost use Rattle.settings.specs.Checks.{entries_checks};
ghost use Rattle.settings.specs.FirstFault.{bar_fault, link_tests_checks};
ghost use Rattle.settings.specs.AllFaults.{ticks_before_bar, ticks_checks, late_timers_checks, timers_checks};
ghost use Rattle.settings.specs.Told.{tell_all};

use crate::faults::numbers::{optional_check, range_check};
use crate::faults::told::tell;
use crate::timers::{TIMERS, Written, all_written, bar_ticks, ticks};
use crate::{DraftFault, Key, LinkTestsDraft, TimerKey, TimersDraft};
use signalling_types::Limits;
use std::alloc::AllocError;

/// The largest number of ticks.
const LAST_TICKS: u16 = Limits::TICKS as u16;

/// Tells the fault of each timer.
fn tell_each(told: &mut Vec<DraftFault>, timers: &[Written; TIMERS]) -> Result<(), AllocError>
    ensures { OnOk result (told.new.items ≡ tell_all told.old.items (entries_checks ticks_checks [] timers.now)) }
{
    for i in 0..TIMERS {
        tell(told, ticks(&timers[i]).err())?;
    }
    Ok(())
}

/// Tells the faults of the timers of link tests, if they weren't left out.
fn tell_link_tests(
    told: &mut Vec<DraftFault>,
    tests: Option<LinkTestsDraft>,
) -> Result<(), AllocError>
    ensures { OnOk result (told.new.items ≡ tell_all told.old.items (link_tests_checks tests)) }
{
    let Some(tests) = tests else {
        return Ok(());
    };
    tell(
        told,
        range_check(tests.slt1, 1, LAST_TICKS, Key::Timer(TimerKey::Slt1)),
    )?;
    tell(
        told,
        range_check(tests.slt2, 1, LAST_TICKS, Key::Timer(TimerKey::Slt2)),
    )?;
    Ok(())
}

/// The ticks that the bar must be longer than.
fn ticks_before_bar(t2: i64) -> u16
    ensures { result ≡ ticks_before_bar t2 }
{
    match u16::try_from(t2) {
        Ok(ticks) if 1 <= ticks && ticks <= LAST_TICKS => ticks,
        _ => 0,
    }
}

/// The bar, which is longer than T2, if it wasn't left out.
fn bar_check(t2: i64, bar: Option<i64>) -> Option<DraftFault>
    ensures { result ≡ bar_fault (ticks_before_bar t2) bar }
{
    bar_ticks(ticks_before_bar(t2), bar).err()
}

/// Tells the faults of the other timers that may be left out.
fn tell_late(told: &mut Vec<DraftFault>, timers: &TimersDraft) -> Result<(), AllocError>
    ensures { OnOk result (told.new.items ≡ tell_all told.old.items (late_timers_checks timers.now)) }
{
    tell(
        told,
        optional_check(timers.l4e, 1, LAST_TICKS, Key::Timer(TimerKey::L4e)),
    )?;
    tell(
        told,
        optional_check(timers.sst, 1, LAST_TICKS, Key::Timer(TimerKey::Sst)),
    )?;
    tell(told, bar_check(timers.t2, timers.t2_bar))?;
    Ok(())
}

/// Tells the faults of the timers.
#[tactic(auto, unfolding(crate::specs::AllFaults::timers_checks))]
pub(crate) fn tell_timers(
    told: &mut Vec<DraftFault>,
    timers: &TimersDraft,
) -> Result<(), AllocError>
    ensures { OnOk result (told.new.items ≡ tell_all told.old.items (timers_checks timers.now)) }
{
    tell_each(told, &all_written(timers))?;
    tell_link_tests(told, timers.link_tests)?;
    tell_late(told, timers)?;
    Ok(())
}
