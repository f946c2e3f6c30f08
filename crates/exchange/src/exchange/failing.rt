//! TCOC, changeover control (Q.704 §5.2, §5.3): a link fails, and its changeover begins.

ghost use Rattle.std.specs.Prelude.{◌≡◌, ◌<◌, length, true};
ghost use Rattle.exchange_rules.specs.State.{with_node, with_parts, in_service};
ghost use Rattle.exchange.specs.KeptQueues.{kept};
ghost use Rattle.exchange_rules.specs.Telling as made;
ghost use Rattle.exchange_rules.specs.ChangingOver as rule;

use super::Exchange;
use changeover::Beginning;
use mtp3_codec::{Label, Management};
use settings::{FailureReason, LinkId, Notice};
use signalling_types::Number24;
use timers::{RouteTimer, TimerName};

impl Exchange {
    /// A link fails. If it was in service, its changeover begins.
    pub(super) fn fail(&mut self, link: LinkId, why: FailureReason)
        requires { link < length self.old.settings.links }
        ensures { self.new ≡ with_node self.old (rule.fail kept self.old.settings link why self.old.node) }
    {
        if self.make_unavailable(link, why) {
            self.change_over(link);
        }
    }

    /// A link fails because its peer orders it. If it was in service, its changeover begins, with no order to the peer.
    pub(super) fn fail_by_peer(&mut self, link: LinkId)
        requires { link < length self.old.settings.links }
        ensures { self.new ≡ with_node self.old (rule.fail_by_peer kept self.old.settings link self.old.node) }
    {
        if self.make_unavailable(link, FailureReason::Changeover) {
            self.changeovers.failed_by_peer(link);
        }
    }

    /// A link goes down, and says whether it was in service. If it was, the flows that its changeover holds are held
    /// first, while it is still their link.
    fn make_unavailable(&mut self, link: LinkId, why: FailureReason) -> bool
        requires { link < length self.old.settings.links }
        ensures served { result ≡ in_service self.old.node.parts link }
        ensures state { self.new ≡ with_node self.old (rule.make_unavailable kept self.old.settings
            (in_service self.old.node.parts link) link why self.old.node) }
    {
        let served = self.links.state(link).is_in_service();
        if served {
            self.suspend(link);
        }
        self.fail_link(link, why);
        if served {
            self.stop_tests_if_last(link);
        }
        served
    }

    /// If no link of its set is left, the set's point is no longer asked about routes (Q.704 §13.5).
    fn stop_tests_if_last(&mut self, link: LinkId)
        requires { link < length self.old.settings.links }
        ensures { self.new ≡ with_node self.old
            (with_parts self.old.node (rule.without_tests_if_last self.old.settings link self.old.node.parts)) }
    {
        if !self.has_other(link) {
            let set = self.set_of(link);
            self.timers.clear_set(RouteTimer::T10, set);
        }
    }

    /// A link is down, its timers don't run, and that is noted.
    fn fail_link(&mut self, link: LinkId, why: FailureReason)
        requires { link < length self.old.settings.links }
        ensures { self.new
            ≡ with_node self.old (with_parts self.old.node (rule.fail_link link why self.old.node.parts)) }
    {
        self.fail_state(link);
        self.stop_all(link);
        self.note(Notice::Failed(link, why));
    }

    /// The changeover of a link begins, with an order to the peer if one goes out.
    fn change_over(&mut self, link: LinkId)
        requires { link < length self.old.settings.links }
        ensures { self.new ≡ with_node self.old (rule.change_over kept self.old.settings true link self.old.node) }
    {
        let ordered = self.is_ordered(link);
        let sequence = &self.sequences[link.index()];
        match self.changeovers.failed(link, ordered, sequence) {
            Beginning::Orders(number) => {
                self.timers
                    .set(TimerName::T2(link), self.settings.timers().t2);
                self.send_changeover_order(link, number);
            }
            Beginning::Waits => {
                self.timers
                    .set(TimerName::T1(link), self.settings.timers().t1);
            }
        }
    }

    /// Orders the peer to change over from a link, with the number of the last message that was accepted on it.
    pub(super) fn send_changeover_order(&mut self, link: LinkId, number: Number24)
        requires { link < length self.old.settings.links }
        ensures { self.new ≡ with_node self.old (made.send_routed kept self.old.settings
            (rule.changeover_order self.old.settings link number) self.old.node) }
    {
        let order = Management::ExtendedChangeoverOrder(self.code_of(link), number);
        self.send_management(self.peer_of(link), &order);
    }

    /// Whether an order to change over from a link goes out: by any route where the settings ask for that, else if a
    /// link of its set is left.
    fn is_ordered(&self, link: LinkId) -> bool
        requires { link < length self.now.settings.links }
        ensures { result ≡ rule.is_ordered self.now.settings link self.now.node.parts }
    {
        if self.settings.changeover_by_any_route() {
            self.has_way(link)
        } else {
            self.has_other(link)
        }
    }

    /// Whether the order to change over from a link has a way to its peer.
    pub(super) fn has_way(&self, link: LinkId) -> bool
        requires { link < length self.now.settings.links }
        ensures { result ≡ rule.has_way self.now.settings link self.now.node.parts }
    {
        let label = Label {
            dpc: self.peer_of(link),
            opc: self.settings.own(),
            sls: self.code_of(link),
        };
        self.link_of(&label).is_some()
    }

    /// Whether a link of the same set is in service.
    pub(super) fn has_other(&self, link: LinkId) -> bool
        requires { link < length self.now.settings.links }
        ensures { result ≡ rule.has_other self.now.settings link self.now.node.parts }
    {
        self.links.facts().has_link(self.set_of(link))
    }
}
