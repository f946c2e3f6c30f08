//! TCOC, changeover control (Q.704 §5): an order to change over that had no way goes out once there is one.

ghost use Rattle.std.specs.Prelude.{◌≡◌, ◌<◌, length};
ghost use Rattle.exchange_rules.specs.State.{with_node, with_parts, answer};
ghost use Rattle.exchange.specs.KeptQueues.{kept};
ghost use Rattle.exchange_rules.specs.ChangingOver as failing;
ghost use Rattle.exchange_rules.specs.Exchange.{Ends, ordered_late};

use super::Exchange;
use settings::{Limits, LinkId, Outcome};
use timers::TimerName;

impl Exchange {
    /// A frame or a tick was handled, with this outcome, and may have brought a way: then orders go out late, unless
    /// the message of the frame was refused. Returns the outcome.
    #[inline(always)]
    pub(super) fn order_late_after(&mut self, outcome: Outcome) -> Outcome
        ensures { Ends self.old result self.new
            (ordered_late kept self.old.settings (answer outcome self.old.node)) }
    {
        match outcome {
            Outcome::Refused(_) => {}
            Outcome::Queued(_)
            | Outcome::Held
            | Outcome::Local
            | Outcome::Handled
            | Outcome::Ignored => self.order_all(),
        }
        outcome
    }

    /// If orders go by any route, those that had no way so far go out if they have one now.
    #[inline(always)]
    fn order_all(&mut self)
        ensures { self.new ≡ with_node self.old (failing.order_all kept self.old.settings self.old.node) }
    {
        if !self.changeovers.has_unasked() {
            return;
        }
        if self.settings.changeover_by_any_route() {
            self.order_each();
        }
    }

    /// For each link in order, sends the order to change over from it if that had no way so far, and has one now.
    #[inline(never)]
    fn order_each(&mut self)
        ensures { self.new ≡ with_node self.old
            (failing.order_each kept self.old.settings (length self.old.settings.links) self.old.node) }
    {
        for link in 0..self.settings.link_count() {
            prove!(self.settings.link_count() <= Limits::LINKS);
            self.order_if_late(LinkId::new(link as u8));
        }
    }

    /// Sends the order to change over from a link if that had no way so far, and has one now.
    fn order_if_late(&mut self, link: LinkId)
        requires { link < length self.old.settings.links }
        ensures { self.new ≡ with_node self.old (failing.order_if_late kept self.old.settings link self.old.node) }
    {
        if self.changeovers.is_unasked(link) && self.has_way(link) {
            self.order_late(link);
        }
    }

    /// Sends the order to change over from a link late: T2 runs in place of T1, and the answer is awaited.
    fn order_late(&mut self, link: LinkId)
        requires { link < length self.old.settings.links }
        ensures { self.new ≡ with_node self.old (failing.order_late kept self.old.settings link self.old.node) }
    {
        self.changeovers.ask(link);
        self.timers.clear(TimerName::T1(link));
        self.timers
            .set(TimerName::T2(link), self.settings.timers().t2);
        let number = self.sequences[link.index()].last_accepted();
        self.send_changeover_order(link, number);
    }
}
