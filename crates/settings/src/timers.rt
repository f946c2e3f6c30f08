//! Ticks of timers.

ghost use Rattle.std.specs.Prelude.{◌≡◌, [], None, Some, map, IfOk, OnOk, IfErr};
ghost use Rattle.std.specs.Option.{option_map};
ghost use Rattle.settings.specs.Checks.{natural, entries_fault, optional_fault};
ghost use Rattle.settings.specs.Meaning.{ticks_of, test_ticks_of};
ghost use Rattle.settings.specs.FirstFault.{written, timers_written, ticks_fault, link_tests_fault, bar_fault, timers_fault};
ghost use Rattle.settings.specs.declared.key.Key.TheVariants.{Timer};
ghost use Rattle.signalling_types.specs.declared.limits.TheConstants.Limits.{TICKS};

use crate::numbers::{ensure, number, optional_number};
use crate::{
    DraftFault, FaultKind, Key, LinkTestTicks, LinkTestsDraft, TimerKey, TimerTicks, TimersDraft,
};
use signalling_types::Limits;

/// How many timers each node has.
pub(crate) const TIMERS: usize = 13;

/// A timer with the ticks that were written for it.
#[derive(Clone, Copy)]
pub(crate) struct Written {
    timer: TimerKey,
    ticks: i64,
}

impl Written {
    /// This timer, with the ticks that were written for it.
    fn of(timer: TimerKey, ticks: i64) -> Written
        ensures { result ≡ written timer ticks }
    {
        Written { timer, ticks }
    }
}

/// The ticks that the timers run.
#[tactic(auto, unfolding(crate::specs::FirstFault::timers_fault))]
pub(crate) fn timer_ticks(timers: &TimersDraft) -> Result<TimerTicks, DraftFault>
    ensures value { IfOk result (λ t. t ≡ ticks_of timers.now) }
    ensures well { OnOk result (timers_fault timers.now ≡ None) }
    ensures fault { IfErr result (λ fault. timers_fault timers.now ≡ Some fault) }
{
    let [l1, l2, l3, l4, l6, l7, t1, t2, t3, t4, t6, t8, t10] = all_ticks(&all_written(timers))?;
    let link_tests = link_test_ticks(timers.link_tests)?;
    let l4e = optional_ticks(timers.l4e, TimerKey::L4e)?;
    let sst = optional_ticks(timers.sst, TimerKey::Sst)?;
    let t2_bar = bar_ticks(t2, timers.t2_bar)?;
    Ok(TimerTicks {
        l1,
        l2,
        l3,
        l4,
        l6,
        l7,
        t1,
        t2,
        t3,
        t4,
        t6,
        t8,
        t10,
        link_tests,
        l4e,
        sst,
        t2_bar,
    })
}

/// The timers that each node has, in their order.
pub(crate) fn all_written(timers: &TimersDraft) -> [Written; TIMERS]
    ensures { result ≡ timers_written timers.now }
{
    [
        Written::of(TimerKey::L1, timers.l1),
        Written::of(TimerKey::L2, timers.l2),
        Written::of(TimerKey::L3, timers.l3),
        Written::of(TimerKey::L4, timers.l4),
        Written::of(TimerKey::L6, timers.l6),
        Written::of(TimerKey::L7, timers.l7),
        Written::of(TimerKey::T1, timers.t1),
        Written::of(TimerKey::T2, timers.t2),
        Written::of(TimerKey::T3, timers.t3),
        Written::of(TimerKey::T4, timers.t4),
        Written::of(TimerKey::T6, timers.t6),
        Written::of(TimerKey::T8, timers.t8),
        Written::of(TimerKey::T10, timers.t10),
    ]
}

/// The ticks of a timer.
pub(crate) fn ticks(written: &Written) -> Result<u16, DraftFault>
    ensures value { IfOk result (λ ticks. ticks ≡ natural written.now.ticks) }
    ensures well { OnOk result (ticks_fault [] written.now ≡ None) }
    ensures fault { IfErr result (λ fault. ticks_fault [] written.now ≡ Some fault) }
{
    number(
        written.ticks,
        1,
        Limits::TICKS as u16,
        Key::Timer(written.timer),
    )
}

/// The ticks of the timers of link tests, if they weren't left out.
#[tactic(auto, unfolding(crate::specs::FirstFault::link_tests_fault))]
fn link_test_ticks(tests: Option<LinkTestsDraft>) -> Result<Option<LinkTestTicks>, DraftFault>
    ensures value { IfOk result (λ ticks. ticks ≡ option_map test_ticks_of tests) }
    ensures well { OnOk result (link_tests_fault tests ≡ None) }
    ensures fault { IfErr result (λ fault. link_tests_fault tests ≡ Some fault) }
{
    let Some(tests) = tests else {
        return Ok(None);
    };
    Ok(Some(LinkTestTicks {
        slt1: number(
            tests.slt1,
            1,
            Limits::TICKS as u16,
            Key::Timer(TimerKey::Slt1),
        )?,
        slt2: number(
            tests.slt2,
            1,
            Limits::TICKS as u16,
            Key::Timer(TimerKey::Slt2),
        )?,
    }))
}

/// The ticks of a timer, if they weren't left out.
fn optional_ticks(ticks: Option<i64>, timer: TimerKey) -> Result<Option<u16>, DraftFault>
    ensures value { IfOk result (λ n. n ≡ option_map natural ticks) }
    ensures well { OnOk result (optional_fault 1 TICKS (Timer timer) ticks ≡ None) }
    ensures fault { IfErr result (λ fault. optional_fault 1 TICKS (Timer timer) ticks ≡ Some fault) }
{
    optional_number(ticks, 1, Limits::TICKS as u16, Key::Timer(timer))
}

/// The ticks of the bar, if they weren't left out: more than those of T2.
#[tactic(auto, unfolding(crate::specs::FirstFault::bar_fault))]
pub(crate) fn bar_ticks(t2: u16, bar: Option<i64>) -> Result<Option<u16>, DraftFault>
    ensures value { IfOk result (λ n. n ≡ option_map natural bar) }
    ensures well { OnOk result (bar_fault t2 bar ≡ None) }
    ensures fault { IfErr result (λ fault. bar_fault t2 bar ≡ Some fault) }
{
    let Some(bar) = bar else {
        return Ok(None);
    };
    let key = Key::Timer(TimerKey::T2Bar);
    let ticks = number(bar, 1, Limits::TICKS as u16, key)?;
    ensure(t2 < ticks, FaultKind::Range, key)?;
    Ok(Some(ticks))
}

fn all_ticks(timers: &[Written; TIMERS]) -> Result<[u16; TIMERS], DraftFault>
    ensures value { IfOk result (λ all. all ≡ map (λ w. natural w.ticks) timers.now) }
    ensures well { OnOk result (entries_fault ticks_fault [] timers.now ≡ None) }
    ensures fault { IfErr result (λ fault. entries_fault ticks_fault [] timers.now ≡ Some fault) }
{
    let mut all = [0; TIMERS];
    for i in 0..TIMERS {
        all[i] = ticks(&timers[i])?;
    }
    Ok(all)
}
