//! A tick, and the timers that run in it.

ghost use Rattle.std.specs.Prelude.{◌≡◌};
ghost use Rattle.exchange_rules.specs.State.{with_node};
ghost use Rattle.exchange.specs.KeptQueues.{kept};
ghost use Rattle.exchange_rules.specs.Exchange.{Ends};
ghost use Rattle.exchange_rules.specs.Exchange as rule;

use super::Exchange;
use link::LinkTimer;
use settings::{ChangeoverTimer, LinkId, Outcome, SetId};
use timers::{TimerName, Timers};

impl Exchange {
    /// Lowers every timer by one, and runs those that are due; then prohibited subsystems have one tick less until
    /// their next tests.
    pub(super) fn tick(&mut self) -> Outcome
        ensures { Ends self.old result self.new (rule.tick kept self.old.settings self.old.node) }
    {
        self.timers.tick();
        self.run_all();
        self.count_subsystems();
        Outcome::Handled
    }

    /// Runs the timers that are due, in name order, except those that an earlier one stopped or set.
    fn run_all(&mut self)
        ensures { self.new ≡ with_node self.old (rule.run_all kept self.old.settings self.old.node) }
    {
        for _ in 0..self.timers.due_count() {
            self.run_next();
        }
    }

    /// Runs the first timer that is due, if one is.
    fn run_next(&mut self)
        ensures { self.new ≡ with_node self.old (rule.run_next kept self.old.settings self.old.node) }
    {
        if let Some(name) = self.timers.next_due() {
            self.run_timer(name);
        }
    }

    /// Runs a timer. T8 does nothing more when it runs out.
    fn run_timer(&mut self, name: TimerName)
        ensures { self.new ≡ with_node self.old (rule.run_timer kept self.old.settings name self.old.node) }
    {
        match name {
            TimerName::L1(link) => self.run_out(link, LinkTimer::L1),
            TimerName::L2(link) => self.run_out(link, LinkTimer::L2),
            TimerName::L3(link) => self.run_out(link, LinkTimer::L3),
            TimerName::L4(link) => self.run_out(link, LinkTimer::L4),
            TimerName::L6(link) => self.run_out(link, LinkTimer::L6),
            TimerName::L7(link) => self.run_out(link, LinkTimer::L7),
            TimerName::T1(link) => self.on_changeover_timer(ChangeoverTimer::T1, link),
            TimerName::T2(link) => self.on_changeover_timer(ChangeoverTimer::T2, link),
            TimerName::T3(link) => self.expire_time(link),
            TimerName::T4(set, code) => self.expire_code(set, code),
            TimerName::T6(destination) => self.end_rerouting(destination),
            TimerName::T8(_, _) => {}
            TimerName::T10(set, destination) => self.ask_again(set, destination),
            TimerName::Slt1(link) => self.test_unanswered(link),
            TimerName::Slt2(link) => self.next_test(link),
        }
    }
}
