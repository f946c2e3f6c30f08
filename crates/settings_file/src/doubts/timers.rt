//! Timers that last less or longer than a standard has it.

ghost use Rattle.std.specs.Prelude.{◌≡◌, ◌≤◌, ◌++◌, IfSome, OnOk};
ghost use Rattle.settings_file.specs.Doubts.{lasting, time_ranges, ticks_of, are_outside, each_key, doubtful_timer, doubtful_timers_if};

use crate::doubts::doubt_if;
use crate::ticks::ticks_lasting;
use settings::{Key, TimerKey, TimerTicks};
use std::alloc::AllocError;

/// How many timers have a range.
const RANGED: usize = 16;

/// How long a timer lasts in the standard.
#[derive(Clone, Copy)]
struct TimeRange {
    timer: TimerKey,
    /// The shortest time, in milliseconds.
    least_ms: u32,
    /// The longest time, in milliseconds.
    most_ms: u32,
}

fn lasting(timer: TimerKey, least_ms: u32, most_ms: u32) -> TimeRange
    ensures { result ≡ lasting timer least_ms most_ms }
{
    TimeRange {
        timer,
        least_ms,
        most_ms,
    }
}

/// The timers with the ranges of Q.703 §12.3 at 64 kbit/s, Q.704 §16.8 and Q.707 §5.5.
fn time_ranges() -> [TimeRange; RANGED]
    ensures { result ≡ time_ranges }
{
    [
        lasting(TimerKey::L1, 40_000, 50_000),
        lasting(TimerKey::L2, 5_000, 150_000),
        lasting(TimerKey::L3, 1_000, 2_000),
        lasting(TimerKey::L4, 7_500, 9_500),
        lasting(TimerKey::L6, 3_000, 6_000),
        lasting(TimerKey::L7, 500, 2_000),
        lasting(TimerKey::T1, 500, 1_200),
        lasting(TimerKey::T2, 700, 2_000),
        lasting(TimerKey::T3, 500, 1_200),
        lasting(TimerKey::T4, 500, 1_200),
        lasting(TimerKey::T6, 500, 1_200),
        lasting(TimerKey::T8, 800, 1_200),
        lasting(TimerKey::T10, 30_000, 60_000),
        lasting(TimerKey::Slt1, 4_000, 12_000),
        lasting(TimerKey::Slt2, 30_000, 90_000),
        lasting(TimerKey::L4e, 400, 600),
    ]
}

/// How many ticks a timer runs, if there is one.
fn ticks_of(ticks: TimerTicks, timer: TimerKey) -> Option<u16>
    ensures { result ≡ ticks_of ticks timer }
{
    match timer {
        TimerKey::L1 => Some(ticks.l1),
        TimerKey::L2 => Some(ticks.l2),
        TimerKey::L3 => Some(ticks.l3),
        TimerKey::L4 => Some(ticks.l4),
        TimerKey::L6 => Some(ticks.l6),
        TimerKey::L7 => Some(ticks.l7),
        TimerKey::T1 => Some(ticks.t1),
        TimerKey::T2 => Some(ticks.t2),
        TimerKey::T3 => Some(ticks.t3),
        TimerKey::T4 => Some(ticks.t4),
        TimerKey::T6 => Some(ticks.t6),
        TimerKey::T8 => Some(ticks.t8),
        TimerKey::T10 => Some(ticks.t10),
        TimerKey::Slt1 => Some(ticks.link_tests?.slt1),
        TimerKey::Slt2 => Some(ticks.link_tests?.slt2),
        TimerKey::L4e => ticks.l4e,
        TimerKey::Sst => ticks.sst,
        TimerKey::T2Bar => ticks.t2_bar,
    }
}

/// What the standard has for a timer.
pub(crate) fn range_words(timer: TimerKey) -> &'static str {
    match timer {
        TimerKey::L1 => "and Q.703 has 40 to 50 s",
        TimerKey::L2 => "and Q.703 has 5 to 150 s",
        TimerKey::L3 => "and Q.703 has 1 to 2 s",
        TimerKey::L4 => "and Q.703 has 7.5 to 9.5 s",
        TimerKey::L6 => "and Q.703 has 3 to 6 s",
        TimerKey::L7 => "and Q.703 has 0.5 to 2 s",
        TimerKey::L4e => "and Q.703 has 0.4 to 0.6 s",
        TimerKey::T2 => "and Q.704 has 0.7 to 2 s",
        TimerKey::T8 => "and Q.704 has 0.8 to 1.2 s",
        TimerKey::T10 => "and Q.704 has 30 to 60 s",
        TimerKey::Slt1 => "and Q.707 has 4 to 12 s",
        TimerKey::Slt2 => "and Q.707 has 30 to 90 s",
        _ => "and Q.704 has 0.5 to 1.2 s",
    }
}

/// Whether ticks of this length last less or longer than these times, in whole ticks, as a duration is.
fn are_outside(tick_ms: u16, low: u32, high: u32, ticks: Option<u16>) -> bool
    requires { 1 ≤ tick_ms }
    ensures { result ≡ are_outside tick_ms low high ticks }
{
    match ticks {
        Some(ticks) => {
            i64::from(ticks) < ticks_lasting(tick_ms, u64::from(low))
                || i64::from(ticks) > ticks_lasting(tick_ms, u64::from(high))
        }
        None => false,
    }
}

/// Puts the key of a timer behind others, if it lasts less or longer than the standard has it.
fn doubt_timer(
    tick_ms: u16,
    ticks: TimerTicks,
    i: usize,
    range: TimeRange,
    doubts: &mut Vec<Key>,
) -> Result<(), AllocError>
    requires { 1 ≤ tick_ms }
    ensures { OnOk result (doubts.new.items ≡ doubts.old.items ++ doubtful_timer tick_ms ticks i range) }
{
    let ticks = ticks_of(ticks, range.timer);
    let is = are_outside(tick_ms, range.least_ms, range.most_ms, ticks);
    doubt_if(is, doubts, Key::Timer(range.timer))
}

/// The same of each of these timers.
fn doubt_each(
    tick_ms: u16,
    ticks: TimerTicks,
    ranges: &[TimeRange],
    doubts: &mut Vec<Key>,
) -> Result<(), AllocError>
    requires { 1 ≤ tick_ms }
    ensures { OnOk result (doubts.new.items
        ≡ doubts.old.items ++ each_key (doubtful_timer tick_ms ticks) 0 ranges.now) }
{
    for i in 0..ranges.len() {
        doubt_timer(tick_ms, ticks, i, ranges[i], doubts)?;
    }
    Ok(())
}

/// The same of all timers, where a tick lasts this long.
pub(crate) fn doubt_timers(
    clock: Option<u16>,
    ticks: TimerTicks,
    doubts: &mut Vec<Key>,
) -> Result<(), AllocError>
    requires { IfSome clock (λ tick_ms. 1 ≤ tick_ms) }
    ensures { OnOk result (doubts.new.items ≡ doubts.old.items ++ doubtful_timers_if clock ticks) }
{
    match clock {
        Some(tick_ms) => doubt_each(tick_ms, ticks, &time_ranges(), doubts),
        None => Ok(()),
    }
}
