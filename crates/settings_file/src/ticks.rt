//! How long a tick is, and how many ticks a duration is.

ghost use Rattle.std.specs.Prelude.{◌≡◌, ◌≤◌, IfSome, IfOk, pos, unwrap_or};
ghost use Rattle.toml.specs.View.{table_view};
ghost use Rattle.settings_file.specs.Shapes.{and_then};
ghost use Rattle.settings_file.specs.Keyed.{serve_at, tick_ms_at};
ghost use Rattle.settings_file.specs.Durations.{duration_in};
ghost use Rattle.settings_file.specs.Ticks.{tick_of, tick_if_told, clock_of, ticks_lasting, ticks_said};

use crate::durations::duration_in;
use crate::serve::{ServeFault, serve_in, tick_ms};
use toml::Table;

/// How long a tick is in a file that doesn't say so, in milliseconds.
const USUAL_TICK: u16 = 200;

/// How long a tick is by the server of a file, in milliseconds, if it says so.
fn told_tick(document: &Table) -> Result<u16, ServeFault>
    ensures value { result ≡ and_then (serve_at (table_view document.now)) tick_ms_at }
    ensures above { IfOk result (λ tick_ms. 1 ≤ tick_ms) }
{
    tick_ms(serve_in(document)?)
}

/// How long a tick is by the server of a file, in milliseconds; None if it doesn't say so.
pub(crate) fn tick_if_told(document: &Table) -> Option<u16>
    ensures value { result ≡ tick_if_told (and_then (serve_at (table_view document.now)) tick_ms_at) }
    ensures above { IfSome result (λ tick_ms. 1 ≤ tick_ms) }
{
    match told_tick(document) {
        Ok(tick_ms) => Some(tick_ms),
        Err(_) => None,
    }
}

/// How long a tick is in a file, in milliseconds.
#[tactic(auto, unfolding(crate::specs::Ticks::tick_of))]
fn tick_of(document: &Table) -> u16
    ensures value { result ≡ tick_of (table_view document.now) }
    ensures above { 1 ≤ result }
{
    match told_tick(document) {
        Ok(tick_ms) => tick_ms,
        Err(_) => USUAL_TICK,
    }
}

/// How long a tick is in a file, in milliseconds, if its version has durations.
pub(crate) fn clock_of(has_durations: bool, document: &Table) -> Option<u16>
    ensures value { result ≡ clock_of has_durations (table_view document.now) }
    ensures above { IfSome result (λ tick_ms. 1 ≤ tick_ms) }
{
    if has_durations {
        Some(tick_of(document))
    } else {
        None
    }
}

/// How many ticks last as long as this.
pub(crate) fn ticks_lasting(tick_ms: u16, ms: u64) -> i64
    requires some { 1 ≤ tick_ms }
    requires below { ms ≤ 599999940000 }
    ensures { result ≡ pos (ticks_lasting tick_ms ms) }
{
    let tick_ms = u64::from(tick_ms);
    ((ms + (tick_ms - 1)) / tick_ms) as i64
}

/// How long a text says that something lasts, in milliseconds: 0 if it is no duration.
fn lasting(text: &str) -> u64
    ensures value { result ≡ unwrap_or (duration_in text.now) 0 }
    ensures below { result ≤ 599999940000 }
{
    match duration_in(text) {
        Some(ms) => ms,
        None => 0,
    }
}

/// How many ticks a text says: 0 if it is no duration.
pub(crate) fn ticks_said(tick_ms: u16, text: &str) -> i64
    requires { 1 ≤ tick_ms }
    ensures { result ≡ ticks_said tick_ms text.now }
{
    ticks_lasting(tick_ms, lasting(text))
}
