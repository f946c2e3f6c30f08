//! The timers of a node by their keys.

ghost use Rattle.std.specs.Prelude.{◌≡◌, ◌≤◌, IfSome, Some, length, slice_get};
ghost use Rattle.std.specs.Option.{option_map};
ghost use Rattle.console.specs.TimerKeys.{keyed, keyed_timers};

use settings::{LinkTestTicks, TimerTicks};

/// How many timers there are.
pub const TIMERS: usize = 18;

/// A timer.
#[derive(Clone, Copy)]
pub struct KeyedTimer {
    /// Its key in the settings.
    pub key: &'static str,
    /// How many ticks it runs; None if the settings don't have it.
    pub ticks: Option<u16>,
}

/// Timer `k`, from 0, in the order in which they are shown: those of links, of the network, of link tests and of
/// subsystem tests. None past the last.
pub fn keyed_timer(timers: TimerTicks, k: usize) -> Option<KeyedTimer>
    ensures timer { option_map (λ timer. keyed timer.key.now timer.ticks) result ≡ slice_get (keyed_timers timers) k }
    ensures short { IfSome result (λ timer. length timer.key.now ≤ 6) }
{
    match k {
        0 => keyed("l1", Some(timers.l1)),
        1 => keyed("l2", Some(timers.l2)),
        2 => keyed("l3", Some(timers.l3)),
        3 => keyed("l4", Some(timers.l4)),
        4 => keyed("l4e", timers.l4e),
        5 => keyed("l6", Some(timers.l6)),
        6 => keyed("l7", Some(timers.l7)),
        7 => keyed("t1", Some(timers.t1)),
        8 => keyed("t2", Some(timers.t2)),
        9 => keyed("t2_bar", timers.t2_bar),
        10 => keyed("t3", Some(timers.t3)),
        11 => keyed("t4", Some(timers.t4)),
        12 => keyed("t6", Some(timers.t6)),
        13 => keyed("t8", Some(timers.t8)),
        14 => keyed("t10", Some(timers.t10)),
        15 => keyed("slt1", first_test(timers.link_tests)),
        16 => keyed("slt2", next_test(timers.link_tests)),
        17 => keyed("sst", timers.sst),
        _ => None,
    }
}

fn keyed(key: &'static str, ticks: Option<u16>) -> Option<KeyedTimer>
    requires { length key.now ≤ 6 }
    ensures timer { option_map (λ timer. keyed timer.key.now timer.ticks) result ≡ Some (keyed key.now ticks) }
    ensures short { IfSome result (λ timer. length timer.key.now ≤ 6) }
{
    Some(KeyedTimer { key, ticks })
}

/// How long the answer to a link test is awaited, if there are link tests.
fn first_test(tests: Option<LinkTestTicks>) -> Option<u16>
    ensures { result ≡ option_map (λ tests. tests.slt1) tests }
{
    let tests = tests?;
    Some(tests.slt1)
}

/// How long it is from a link test to the next, if there are link tests.
fn next_test(tests: Option<LinkTestTicks>) -> Option<u16>
    ensures { result ≡ option_map (λ tests. tests.slt2) tests }
{
    let tests = tests?;
    Some(tests.slt2)
}
