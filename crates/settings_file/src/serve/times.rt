//! The keys of the table `serve.sctp`.

ghost use Rattle.std.specs.Prelude.{◌≡◌, ◌≤◌, IfOk, option_and_then};
ghost use Rattle.std.specs.Option.{option_map};
ghost use Rattle.toml.specs.View.{view, table_view};
ghost use Rattle.settings_file.specs.Faults.{Answers};
ghost use Rattle.settings_file.specs.ServeKeys.{found_at};
ghost use Rattle.settings_file.specs.Keyed.{number_in};
ghost use Rattle.settings_file.specs.Times.{AreWithin, usual_times, number_at, timeout_at, tries_at, heartbeat_at, ordered, times_in, sctp_at, times_at};

use crate::serve::fault::ServeFault;
use crate::serve::key::ServeKey;
use crate::serve::keys::found_at;
use crate::serve::sctp::SctpTimes;
use crate::shapes::{integer_in, table_in};
use toml::{Table, Value};

/// The shortest timeout, in milliseconds.
const SHORTEST_TIMEOUT: u32 = 10;

/// The longest timeout, in milliseconds.
const LONGEST_TIMEOUT: u32 = 60_000;

const MOST_TRIES: u32 = 100;

/// The shortest time between heartbeats, in milliseconds.
const SHORTEST_HEARTBEAT: u32 = 100;

/// The longest time between heartbeats, in milliseconds.
const LONGEST_HEARTBEAT: u32 = 600_000;

/// The initial and the shortest timeout if a file before version 4 says nothing of them, in milliseconds.
const FORMER_INITIAL: u32 = 300;

const FORMER_LEAST: u32 = 100;

/// The times and tries if a file says nothing of them, from version 4 on.
const USUAL: SctpTimes = SctpTimes {
    rto_initial_ms: 400,
    rto_min_ms: 400,
    rto_max_ms: 1_000,
    init_tries: 8,
    retransmissions: 10,
    heartbeat_ms: 5_000,
};

/// The times and tries if a file says nothing of them.
pub(crate) fn usual_times(is_fourth: bool) -> SctpTimes
    ensures value { result ≡ usual_times is_fourth }
    ensures within { AreWithin result }
{
    if is_fourth {
        return USUAL;
    }
    SctpTimes {
        rto_initial_ms: FORMER_INITIAL,
        rto_min_ms: FORMER_LEAST,
        ..USUAL
    }
}

/// What a number must be, and what it is if its key is left out.
#[derive(Clone, Copy)]
struct Limits {
    least: u32,
    most: u32,
    usual: u32,
}

/// A timeout of the table `sctp`, in milliseconds.
pub(crate) fn timeout(table: Option<&Table>, key: ServeKey, usual: u32) -> Result<u32, ServeFault>
    requires above { 10 ≤ usual }
    requires below { usual ≤ 60000 }
    ensures value { result
        ≡ timeout_at key usual (option_map (λ table. table_view table.now) table.entry) }
    ensures above { IfOk result (λ timeout. 10 ≤ timeout) }
    ensures below { IfOk result (λ timeout. timeout ≤ 60000) }
{
    let limits = Limits {
        least: SHORTEST_TIMEOUT,
        most: LONGEST_TIMEOUT,
        usual,
    };
    number(table, key, limits)
}

/// A number of tries of the table `sctp`.
pub(crate) fn tries(table: Option<&Table>, key: ServeKey, usual: u32) -> Result<u32, ServeFault>
    requires above { 1 ≤ usual }
    requires below { usual ≤ 100 }
    ensures value { result
        ≡ tries_at key usual (option_map (λ table. table_view table.now) table.entry) }
    ensures above { IfOk result (λ tries. 1 ≤ tries) }
    ensures below { IfOk result (λ tries. tries ≤ 100) }
{
    let limits = Limits {
        least: 1,
        most: MOST_TRIES,
        usual,
    };
    number(table, key, limits)
}

/// The time between heartbeats of the table `sctp`, in milliseconds.
pub(crate) fn heartbeat(table: Option<&Table>, usual: u32) -> Result<u32, ServeFault>
    requires above { 100 ≤ usual }
    requires below { usual ≤ 600000 }
    ensures value { result ≡ heartbeat_at usual (option_map (λ table. table_view table.now) table.entry) }
    ensures above { IfOk result (λ time. 100 ≤ time) }
    ensures below { IfOk result (λ time. time ≤ 600000) }
{
    let limits = Limits {
        least: SHORTEST_HEARTBEAT,
        most: LONGEST_HEARTBEAT,
        usual,
    };
    number(table, ServeKey::HeartbeatMs, limits)
}

/// The number of a key of the table `sctp`, if there is that table.
fn number(table: Option<&Table>, key: ServeKey, limits: Limits) -> Result<u32, ServeFault>
    requires above { limits.least ≤ limits.usual }
    requires below { limits.usual ≤ limits.most }
    ensures value { result ≡ number_at key limits.least limits.most limits.usual
        (option_map (λ table. table_view table.now) table.entry) }
    ensures above { IfOk result (λ number. limits.least ≤ number) }
    ensures below { IfOk result (λ number. number ≤ limits.most) }
{
    match found_in(table, key) {
        Some(value) => number_in(integer_in(value, ServeFault::Kind(key))?, key, limits),
        None => Ok(limits.usual),
    }
}

/// A number within these limits.
fn number_in(number: i64, key: ServeKey, limits: Limits) -> Result<u32, ServeFault>
    ensures value { result ≡ number_in key limits.least limits.most number }
    ensures above { IfOk result (λ number. limits.least ≤ number) }
    ensures below { IfOk result (λ number. number ≤ limits.most) }
{
    match u32::try_from(number) {
        Ok(number) if limits.least <= number && number <= limits.most => Ok(number),
        _ => Err(ServeFault::Range(key)),
    }
}

/// The value of a key of a table, if there is that table.
fn found_in(table: Option<&Table>, key: ServeKey) -> Option<&Value>
    ensures { option_map (λ value. view value.now) result
        ≡ option_and_then (found_at key) (option_map (λ table. table_view table.now) table.entry) }
{
    match table {
        Some(table) => found_at(table, key),
        None => None,
    }
}

/// Times whose initial timeout is from the shortest to the longest.
fn ordered(times: SctpTimes) -> Result<SctpTimes, ServeFault>
    ensures value { result ≡ ordered times }
    ensures same { IfOk result (λ ordered. ordered ≡ times) }
    ensures above { IfOk result (λ ordered. ordered.rto_min_ms ≤ ordered.rto_initial_ms) }
    ensures below { IfOk result (λ ordered. ordered.rto_initial_ms ≤ ordered.rto_max_ms) }
{
    if times.rto_min_ms <= times.rto_initial_ms && times.rto_initial_ms <= times.rto_max_ms {
        Ok(times)
    } else {
        Err(ServeFault::Range(ServeKey::RtoInitialMs))
    }
}

/// The times and tries that the table `sctp` says.
#[tactic(auto, unfolding(crate::specs::Times::times_in))]
fn times_in(table: Option<&Table>, usual: SctpTimes) -> Result<SctpTimes, ServeFault>
    requires usual { AreWithin usual }
    ensures value { result ≡ times_in usual (option_map (λ table. table_view table.now) table.entry) }
    ensures within { IfOk result AreWithin }
{
    let rto_initial_ms = timeout(table, ServeKey::RtoInitialMs, usual.rto_initial_ms)?;
    let rto_min_ms = timeout(table, ServeKey::RtoMinMs, usual.rto_min_ms)?;
    let rto_max_ms = timeout(table, ServeKey::RtoMaxMs, usual.rto_max_ms)?;
    let init_tries = tries(table, ServeKey::InitTries, usual.init_tries)?;
    let retransmissions = tries(table, ServeKey::Retransmissions, usual.retransmissions)?;
    let heartbeat_ms = heartbeat(table, usual.heartbeat_ms)?;
    let times = SctpTimes {
        rto_initial_ms,
        rto_min_ms,
        rto_max_ms,
        init_tries,
        retransmissions,
        heartbeat_ms,
    };
    ordered(times)
}

/// The table `sctp` of `serve`, if there is one.
#[tactic(auto, unfolding(crate::specs::Times::sctp_at))]
pub(crate) fn sctp_in(serve: &Table) -> Result<Option<&Table>, ServeFault>
    ensures { Answers (λ sctp. option_map (λ table. table_view table.now) sctp) (sctp_at (table_view serve.now)) result }
{
    match found_at(serve, ServeKey::Sctp) {
        Some(value) => Ok(Some(table_in(value, ServeFault::Kind(ServeKey::Sctp))?)),
        None => Ok(None),
    }
}

/// The times and tries of associations.
#[tactic(auto, unfolding(crate::specs::Times::times_at))]
pub(crate) fn times(serve: &Table, is_fourth: bool) -> Result<SctpTimes, ServeFault>
    ensures value { result ≡ times_at is_fourth (table_view serve.now) }
    ensures within { IfOk result AreWithin }
{
    let sctp = sctp_in(serve)?;
    times_in(sctp, usual_times(is_fourth))
}
