//! The timers of links (Q.703 §12.3).

ghost use Rattle.std.specs.Prelude.{◌≡◌};
ghost use Rattle.timers.specs.Timers.{start_unless_running};
ghost use Rattle.exchange_rules.specs.State.{with_node};
ghost use Rattle.exchange_rules.specs.Exchange.{with_timers};
ghost use Rattle.exchange_rules.specs.Timing as rule;

use super::Exchange;
use link::{LinkTimer, Period, Transition};
use settings::{LinkId, TimerTicks};
use timers::{TimerName, Timers};

impl Exchange {
    /// A step of a link's alignment stops one timer and starts another.
    pub(super) fn time(&mut self, link: LinkId, step: &Transition)
        ensures { self.new ≡ with_node self.old (with_timers self.old.node
            (rule.timed self.old.settings link step.now self.old.node.parts.timers)) }
    {
        if let Some(timer) = step.stop {
            self.stop(link, timer);
        }
        if let Some(timer) = step.start {
            let ticks = ticks_of(&paced(step.period, self.settings.timers()), timer);
            self.timers.set(timer_name(link, timer), ticks);
        }
    }

    /// Starts or restarts a timer of a link.
    pub(super) fn start(&mut self, link: LinkId, timer: LinkTimer)
        ensures { self.new ≡ with_node self.old (with_timers self.old.node
            (rule.with_timer self.old.settings link timer self.old.node.parts.timers)) }
    {
        let ticks = ticks_of(&self.settings.timers(), timer);
        self.timers.set(timer_name(link, timer), ticks);
    }

    pub(super) fn start_unless_running(&mut self, link: LinkId, timer: LinkTimer)
        ensures { self.new ≡ with_node self.old (with_timers self.old.node (start_unless_running
            (rule.timer_name link timer) (rule.ticks_of self.old.settings.timers timer)
            self.old.node.parts.timers)) }
    {
        let ticks = ticks_of(&self.settings.timers(), timer);
        self.timers
            .start_unless_running(timer_name(link, timer), ticks);
    }

    pub(super) fn stop(&mut self, link: LinkId, timer: LinkTimer)
        ensures { self.new ≡ with_node self.old (with_timers self.old.node
            (rule.without_timer link timer self.old.node.parts.timers)) }
    {
        self.timers.clear(timer_name(link, timer));
    }

    /// Stops all timers of a link, those of its tests included.
    pub(super) fn stop_all(&mut self, link: LinkId)
        ensures { self.new ≡ with_node self.old (with_timers self.old.node
            (rule.without_timers link self.old.node.parts.timers)) }
    {
        self.timers.clear(TimerName::L1(link));
        self.timers.clear(TimerName::L2(link));
        self.timers.clear(TimerName::L3(link));
        self.timers.clear(TimerName::L4(link));
        self.timers.clear(TimerName::L6(link));
        self.timers.clear(TimerName::L7(link));
        self.timers.clear(TimerName::Slt1(link));
        self.timers.clear(TimerName::Slt2(link));
    }
}

fn timer_name(link: LinkId, timer: LinkTimer) -> TimerName
    ensures { result ≡ rule.timer_name link timer }
{
    match timer {
        LinkTimer::L1 => TimerName::L1(link),
        LinkTimer::L2 => TimerName::L2(link),
        LinkTimer::L3 => TimerName::L3(link),
        LinkTimer::L4 => TimerName::L4(link),
        LinkTimer::L6 => TimerName::L6(link),
        LinkTimer::L7 => TimerName::L7(link),
    }
}

/// How many ticks timers run for a link that is proved for a period.
fn paced(period: Period, ticks: TimerTicks) -> TimerTicks
    ensures { result ≡ rule.paced period ticks }
{
    match period {
        Period::Fixed | Period::Normal => ticks,
        Period::Hurried | Period::Emergency => TimerTicks {
            l4: ticks.l4e.unwrap_or(ticks.l4),
            ..ticks
        },
    }
}

/// How many ticks a timer of a link runs.
fn ticks_of(ticks: &TimerTicks, timer: LinkTimer) -> u16
    ensures { result ≡ rule.ticks_of ticks.now timer }
{
    match timer {
        LinkTimer::L1 => ticks.l1,
        LinkTimer::L2 => ticks.l2,
        LinkTimer::L3 => ticks.l3,
        LinkTimer::L4 => ticks.l4,
        LinkTimer::L6 => ticks.l6,
        LinkTimer::L7 => ticks.l7,
    }
}
