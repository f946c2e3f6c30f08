//! The table of timers.

ghost use Rattle.std.specs.Prelude.{◌≡◌, ◌*◌, ◌≤◌, length, slice_get};
ghost use Rattle.console.specs.TimerKeys.{keyed_timers};
ghost use Rattle.served_node.specs.Listings.{row_of_timer, timer_row};

use super::table::{Row, push_cell, push_last, push_number_cell};
use console::keyed_timer;
use served_link::seconds_text;
use settings::TimerTicks;

/// The head line of the timers.
pub(crate) const TIMERS_HEAD: &str = "  TIMER   TICKS  SECONDS\n";

/// The width of the column of keys.
const KEY: usize = 6;

/// The width of the column of ticks.
const TICKS: usize = 5;

/// The row of timer `k`, from 0: its key, how many ticks it runs, and how many seconds these are; `-` if the settings
/// don't have it. A tick takes so many milliseconds. Nothing past the last.
pub(crate) fn timer_row(timers: TimerTicks, k: usize, tick_ms: u16) -> Row
    ensures { result.bytes ≡ row_of_timer tick_ms (slice_get (keyed_timers timers) k) }
{
    match keyed_timer(timers, k) {
        Some(timer) => row_of(timer.key, timer.ticks, tick_ms),
        None => Row::new(),
    }
}

/// The row of a timer with this key.
fn row_of(key: &str, ticks: Option<u16>, tick_ms: u16) -> Row
    requires { length key.now ≤ KEY }
    ensures { result.bytes ≡ timer_row tick_ms key.now ticks }
{
    let mut row = Row::new();
    push_cell(&mut row, KEY, key);
    let Some(ticks) = ticks else {
        push_cell(&mut row, TICKS, "-");
        push_last(&mut row, "-");
        return row;
    };
    push_number_cell(&mut row, TICKS, u64::from(ticks));
    push_last(
        &mut row,
        seconds_text(milliseconds(ticks, tick_ms)).as_str(),
    );
    row
}

/// How many milliseconds so many ticks take.
fn milliseconds(ticks: u16, tick_ms: u16) -> u64
    ensures { result ≡ ticks * tick_ms }
{
    u64::from(u32::from(ticks) * u32::from(tick_ms))
}
