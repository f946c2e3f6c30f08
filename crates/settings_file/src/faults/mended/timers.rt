//! The timers of a document of which not all values can be read.

ghost use Rattle.std.specs.Prelude.{◌≡◌, ◌≤◌, IfSome};
ghost use Rattle.std.specs.Option.{option_map};
ghost use Rattle.toml.specs.View.{table_view};
ghost use Rattle.settings_file.specs.Mended.{ticks_mended, optional_ticks_mended, link_tests_mended};
ghost use Rattle.settings_file.specs.Mended.{timers_mended_in, timers_mended};

use crate::faults::mended::or_unread;
use crate::ticks::clock_of;
use crate::timers::{USUAL, has_timer, optional_ticks, ticks, timer_table};
use settings::{LinkTestsDraft, TimerKey, TimersDraft};
use toml::Table;

/// The ticks that a timer runs.
fn mended_ticks(clock: Option<u16>, table: Option<&Table>, timer: TimerKey, usual_ms: u32) -> i64
    requires { IfSome clock (λ tick_ms. 1 ≤ tick_ms) }
    ensures { result ≡ ticks_mended clock timer usual_ms (option_map (λ table. table_view table.now) table.entry) }
{
    or_unread(ticks(clock, table, timer, usual_ms))
}

/// The ticks that a timer runs that there may not be.
fn mended_optional(clock: Option<u16>, table: Option<&Table>, timer: TimerKey) -> Option<i64>
    requires { IfSome clock (λ tick_ms. 1 ≤ tick_ms) }
    ensures { result ≡ optional_ticks_mended clock timer (option_map (λ table. table_view table.now) table.entry) }
{
    match optional_ticks(true, clock, table, timer) {
        Ok(ticks) => ticks,
        Err(_) => None,
    }
}

/// The ticks that the timers of link tests run, if there is one of them.
fn mended_link_tests(clock: Option<u16>, table: Option<&Table>) -> Option<LinkTestsDraft>
    requires { IfSome clock (λ tick_ms. 1 ≤ tick_ms) }
    ensures { result ≡ link_tests_mended clock (option_map (λ table. table_view table.now) table.entry) }
{
    if !(has_timer(table, TimerKey::Slt1) || has_timer(table, TimerKey::Slt2)) {
        return None;
    }
    Some(LinkTestsDraft {
        slt1: mended_ticks(clock, table, TimerKey::Slt1, USUAL.slt1),
        slt2: mended_ticks(clock, table, TimerKey::Slt2, USUAL.slt2),
    })
}

/// The timers of a table, or the usual ones without one.
#[tactic(auto, unfolding(crate::specs::Mended::timers_mended_in))]
fn timers_in(clock: Option<u16>, table: Option<&Table>) -> TimersDraft
    requires { IfSome clock (λ tick_ms. 1 ≤ tick_ms) }
    ensures { result ≡ timers_mended_in clock (option_map (λ table. table_view table.now) table.entry) }
{
    TimersDraft {
        l1: mended_ticks(clock, table, TimerKey::L1, USUAL.l1),
        l2: mended_ticks(clock, table, TimerKey::L2, USUAL.l2),
        l3: mended_ticks(clock, table, TimerKey::L3, USUAL.l3),
        l4: mended_ticks(clock, table, TimerKey::L4, USUAL.l4),
        l6: mended_ticks(clock, table, TimerKey::L6, USUAL.l6),
        l7: mended_ticks(clock, table, TimerKey::L7, USUAL.l7),
        t1: mended_ticks(clock, table, TimerKey::T1, USUAL.t1),
        t2: mended_ticks(clock, table, TimerKey::T2, USUAL.t2),
        t3: mended_ticks(clock, table, TimerKey::T3, USUAL.t3),
        t4: mended_ticks(clock, table, TimerKey::T4, USUAL.t4),
        t6: mended_ticks(clock, table, TimerKey::T6, USUAL.t6),
        t8: mended_ticks(clock, table, TimerKey::T8, USUAL.t8),
        t10: mended_ticks(clock, table, TimerKey::T10, USUAL.t10),
        link_tests: mended_link_tests(clock, table),
        l4e: mended_optional(clock, table, TimerKey::L4e),
        sst: mended_optional(clock, table, TimerKey::Sst),
        t2_bar: mended_optional(clock, table, TimerKey::T2Bar),
    }
}

/// The timers of a document of version 4.
#[tactic(auto, unfolding(crate::specs::Mended::timers_mended))]
pub(crate) fn timers(document: &Table) -> TimersDraft
    ensures { result ≡ timers_mended (table_view document.now) }
{
    let clock = clock_of(true, document);
    match timer_table(clock, document) {
        Ok(table) => timers_in(clock, table),
        Err(_) => timers_in(clock, None),
    }
}
