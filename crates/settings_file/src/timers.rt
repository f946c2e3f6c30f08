//! The timers of a settings file.

ghost use Rattle.std.specs.Prelude.{◌≡◌, ◌≤◌, IfSome};
ghost use Rattle.std.specs.Option.{option_map};
ghost use Rattle.toml.specs.View.{view, table_view};
ghost use Rattle.settings_file.specs.Faults.{Answers};
ghost use Rattle.settings_file.specs.Timers.{timer_found, ticks_in, usual_ticks, ticks_at, optional_ticks_at, has_timer};
ghost use Rattle.settings_file.specs.Timers.{link_tests_at, timers_in, table_at, timers_at};

use crate::fault::SettingsFault;
use crate::node_keys::found_at;
use crate::shapes::{integer_in, table_in};
use crate::ticks::{ticks_lasting, ticks_said};
use settings::{Key, LinkTestsDraft, TimerKey, TimersDraft};
use toml::{Table, Value};

/// How long timers run if a file of version 4 doesn't say, in milliseconds.
#[derive(Clone, Copy)]
pub(crate) struct UsualTimes {
    /// Q.703 T1, alignment ready.
    pub l1: u32,
    /// Q.703 T2, not aligned.
    pub l2: u32,
    /// Q.703 T3, aligned.
    pub l3: u32,
    /// Q.703 T4, the normal proving period.
    pub l4: u32,
    /// Q.703 T6, remote congestion.
    pub l6: u32,
    /// Q.703 T7, excessive delay of acknowledgement.
    pub l7: u32,
    /// Q.704 T1.
    pub t1: u32,
    /// Q.704 T2.
    pub t2: u32,
    /// Q.704 T3.
    pub t3: u32,
    /// Q.704 T4.
    pub t4: u32,
    /// Q.704 T6.
    pub t6: u32,
    /// Q.704 T8.
    pub t8: u32,
    /// Q.704 T10.
    pub t10: u32,
    /// Q.707 T1.
    pub slt1: u32,
    /// Q.707 T2.
    pub slt2: u32,
}

/// The times that the standards have, at 64 kbit/s (Q.703 §12.3, Q.704 §16.8, Q.707 §5.5).
pub(crate) const USUAL: UsualTimes = UsualTimes {
    l1: 45_000,
    l2: 20_000,
    l3: 1_600,
    l4: 8_200,
    l6: 4_000,
    l7: 1_000,
    t1: 800,
    t2: 1_200,
    t3: 800,
    t4: 800,
    t6: 800,
    t8: 1_000,
    t10: 30_000,
    slt1: 8_000,
    slt2: 60_000,
};

/// The value of a timer in the table of timers, if there is that table.
fn timer_found(table: Option<&Table>, timer: TimerKey) -> Option<&Value>
    ensures { option_map (λ value. view value.now) result
        ≡ timer_found timer (option_map (λ table. table_view table.now) table.entry) }
{
    match table {
        Some(table) => found_at(table, Key::Timer(timer)),
        None => None,
    }
}

/// The ticks that a value says, in a file whose ticks are this long if its version has durations.
fn ticks_in(clock: Option<u16>, value: &Value, timer: TimerKey) -> Result<i64, SettingsFault>
    requires { IfSome clock (λ tick_ms. 1 ≤ tick_ms) }
    ensures { result ≡ ticks_in clock timer (view value.now) }
{
    let kind = SettingsFault::Kind(Key::Timer(timer));
    match clock {
        Some(tick_ms) => match value.as_str() {
            Some(text) => Ok(ticks_said(tick_ms, text)),
            None => integer_in(value, kind),
        },
        None => integer_in(value, kind),
    }
}

/// The ticks that a timer runs without a value.
fn usual_ticks(clock: Option<u16>, timer: TimerKey, usual_ms: u32) -> Result<i64, SettingsFault>
    requires { IfSome clock (λ tick_ms. 1 ≤ tick_ms) }
    ensures { result ≡ usual_ticks clock timer usual_ms }
{
    match clock {
        Some(tick_ms) => Ok(ticks_lasting(tick_ms, u64::from(usual_ms))),
        None => Err(SettingsFault::Missing(Key::Timer(timer))),
    }
}

/// The ticks that a timer runs.
#[tactic(auto, unfolding(crate::specs::Timers::ticks_at))]
pub(crate) fn ticks(
    clock: Option<u16>,
    table: Option<&Table>,
    timer: TimerKey,
    usual_ms: u32,
) -> Result<i64, SettingsFault>
    requires { IfSome clock (λ tick_ms. 1 ≤ tick_ms) }
    ensures { result ≡ ticks_at clock timer usual_ms (option_map (λ table. table_view table.now) table.entry) }
{
    match timer_found(table, timer) {
        Some(value) => ticks_in(clock, value, timer),
        None => usual_ticks(clock, timer, usual_ms),
    }
}

/// The ticks that a timer runs that there may not be. If the file's version doesn't have its key it is ignored.
#[tactic(auto, unfolding(crate::specs::Timers::optional_ticks_at))]
pub(crate) fn optional_ticks(
    has_key: bool,
    clock: Option<u16>,
    table: Option<&Table>,
    timer: TimerKey,
) -> Result<Option<i64>, SettingsFault>
    requires { IfSome clock (λ tick_ms. 1 ≤ tick_ms) }
    ensures { result ≡ optional_ticks_at has_key clock timer
        (option_map (λ table. table_view table.now) table.entry) }
{
    if !has_key {
        return Ok(None);
    }
    match timer_found(table, timer) {
        Some(value) => Ok(Some(ticks_in(clock, value, timer)?)),
        None => Ok(None),
    }
}

/// Whether a timer has a key in the table of timers.
pub(crate) fn has_timer(table: Option<&Table>, timer: TimerKey) -> bool
    ensures { result ≡ has_timer timer (option_map (λ table. table_view table.now) table.entry) }
{
    timer_found(table, timer).is_some()
}

/// The ticks that the timers of link tests run: both, or neither; in a file that has durations one of them alone says
/// both. If the file's version doesn't have their keys they are ignored.
#[tactic(auto, unfolding(crate::specs::Timers::link_tests_at))]
fn link_tests(
    has_keys: bool,
    clock: Option<u16>,
    table: Option<&Table>,
) -> Result<Option<LinkTestsDraft>, SettingsFault>
    requires { IfSome clock (λ tick_ms. 1 ≤ tick_ms) }
    ensures { result ≡ link_tests_at has_keys clock (option_map (λ table. table_view table.now) table.entry) }
{
    if !(has_keys && (has_timer(table, TimerKey::Slt1) || has_timer(table, TimerKey::Slt2))) {
        return Ok(None);
    }
    Ok(Some(LinkTestsDraft {
        slt1: ticks(clock, table, TimerKey::Slt1, USUAL.slt1)?,
        slt2: ticks(clock, table, TimerKey::Slt2, USUAL.slt2)?,
    }))
}

/// The ticks that each timer of a table runs.
#[tactic(auto, unfolding(crate::specs::Timers::timers_in))]
fn timers_in(
    has_keys: bool,
    clock: Option<u16>,
    table: Option<&Table>,
) -> Result<TimersDraft, SettingsFault>
    requires { IfSome clock (λ tick_ms. 1 ≤ tick_ms) }
    ensures { result ≡ timers_in has_keys clock (option_map (λ table. table_view table.now) table.entry) }
{
    Ok(TimersDraft {
        l1: ticks(clock, table, TimerKey::L1, USUAL.l1)?,
        l2: ticks(clock, table, TimerKey::L2, USUAL.l2)?,
        l3: ticks(clock, table, TimerKey::L3, USUAL.l3)?,
        l4: ticks(clock, table, TimerKey::L4, USUAL.l4)?,
        l6: ticks(clock, table, TimerKey::L6, USUAL.l6)?,
        l7: ticks(clock, table, TimerKey::L7, USUAL.l7)?,
        t1: ticks(clock, table, TimerKey::T1, USUAL.t1)?,
        t2: ticks(clock, table, TimerKey::T2, USUAL.t2)?,
        t3: ticks(clock, table, TimerKey::T3, USUAL.t3)?,
        t4: ticks(clock, table, TimerKey::T4, USUAL.t4)?,
        t6: ticks(clock, table, TimerKey::T6, USUAL.t6)?,
        t8: ticks(clock, table, TimerKey::T8, USUAL.t8)?,
        t10: ticks(clock, table, TimerKey::T10, USUAL.t10)?,
        link_tests: link_tests(has_keys, clock, table)?,
        l4e: optional_ticks(has_keys, clock, table, TimerKey::L4e)?,
        sst: optional_ticks(has_keys, clock, table, TimerKey::Sst)?,
        t2_bar: optional_ticks(clock.is_some(), clock, table, TimerKey::T2Bar)?,
    })
}

/// The table of timers, which a file that has durations may leave out.
#[tactic(auto, unfolding(crate::specs::Timers::table_at))]
pub(crate) fn timer_table(
    clock: Option<u16>,
    document: &Table,
) -> Result<Option<&Table>, SettingsFault>
    ensures { Answers (λ table. option_map (λ table. table_view table.now) table)
        (table_at clock (table_view document.now)) result }
{
    match found_at(document, Key::Timers) {
        Some(value) => Ok(Some(table_in(value, SettingsFault::Kind(Key::Timers))?)),
        None if clock.is_some() => Ok(None),
        None => Err(SettingsFault::Missing(Key::Timers)),
    }
}

/// The timers of a file. The version has the keys that version 3 brought, or doesn't have them. The clock is how long
/// a tick is in milliseconds, if the version has durations and usual times.
#[tactic(auto, unfolding(crate::specs::Timers::timers_at))]
pub(crate) fn timers(
    has_keys: bool,
    clock: Option<u16>,
    document: &Table,
) -> Result<TimersDraft, SettingsFault>
    requires { IfSome clock (λ tick_ms. 1 ≤ tick_ms) }
    ensures { result ≡ timers_at has_keys clock (table_view document.now) }
{
    let table = timer_table(clock, document)?;
    timers_in(has_keys, clock, table)
}
