//! TLAC, link availability control (Q.704 §3.2), over link alignment (RFC 4165 §4.1.3): Link Status, and the timers of
//! a link that run out.

ghost use Rattle.std.specs.Prelude.{◌≡◌, ◌<◌, length, true, false};
ghost use Rattle.exchange_rules.specs.State.{with_node, with_parts, link_at, in_service, in_traffic};
ghost use Rattle.exchange.specs.KeptQueues.{kept};
ghost use Rattle.exchange_rules.specs.Exchange.{Ends};
ghost use Rattle.routes.specs.Routes.{with_link};
ghost use Rattle.exchange_rules.specs.Routing.{set_of, facts};
ghost use Rattle.exchange.specs.Entering.{entered, is_first_in, stepped_by, taken_back};
ghost use Rattle.node_links.specs.NodeLinks.{acts_on};
ghost use Rattle.link.specs.declared.action.Input.TheVariants as its;
ghost use Rattle.exchange_rules.specs.Frames as rule;

use super::Exchange;
use link::{Action, Alignment, Input, LinkTimer, Transition};
use m2pa_codec::LinkStatus;
use settings::{FailureReason, LinkId, Outcome};

impl Exchange {
    /// A link does what its alignment does about an input, and says what that is. If it carries traffic by this, it
    /// takes its flows back, and if it is the first of its set, everything known over that set is reset before. If it
    /// enters service, it is tested. If it must fail, nothing changes here.
    #[inline(always)]
    pub(super) fn act_by(&mut self, link: LinkId, input: Input) -> Action
        requires { link < length self.old.settings.links }
        ensures action { result ≡ acts_on (link_at self.old.node.parts link) input }
        ensures state { self.new ≡
            with_node self.old (rule.act_by kept self.old.settings result link self.old.node) }
    {
        // reading a field gives the prover the invariant
        let _ = &self.links;
        let served = self.serves(link);
        let action = self.step_alignment(link, input);
        if !served && self.serves(link) {
            self.enter_service(link);
        }
        action
    }

    /// A link entered service. If it carries traffic, it takes its flows back. Then it is tested.
    #[inline(never)]
    fn enter_service(&mut self, link: LinkId)
        requires { link < length self.old.settings.links }
        ensures { self.new ≡ with_node self.old (entered kept self.old.settings link self.old.node) }
    {
        if self.carries_traffic(link) {
            self.take_flows_back(link);
        }
        self.begin_test(link);
    }

    /// A link began to carry traffic. If it is the first of its set, everything known over that set is reset. Then it
    /// takes its flows back.
    pub(super) fn take_flows_back(&mut self, link: LinkId)
        requires { link < length self.old.settings.links }
        ensures { self.new ≡ with_node self.old (taken_back kept self.old.settings link self.old.node) }
    {
        if self.is_first(link) {
            self.reset_set(self.set_of(link));
        }
        self.change_back(link);
    }

    /// Whether no other link of a link's set carries traffic.
    fn is_first(&self, link: LinkId) -> bool
        requires { link < length self.now.settings.links }
        ensures { result ≡ is_first_in (with_link link false
            (facts self.now.settings self.now.node.parts)) (set_of self.now.settings link) }
    {
        let others = self.links.in_service_without(link);
        !self.links.facts_by(&others).has_link(self.set_of(link))
    }

    /// Whether a link is in service.
    #[inline(always)]
    pub(super) fn serves(&self, link: LinkId) -> bool
        requires { link < length self.now.settings.links }
        ensures { result ≡ in_service self.now.node.parts link }
    {
        self.links.state(link).is_in_service()
    }

    /// Whether a link carries traffic: it is in service, and has no test to pass before (Q.707 §2.2).
    #[inline(always)]
    pub(super) fn carries_traffic(&self, link: LinkId) -> bool
        requires { link < length self.now.settings.links }
        ensures { result ≡ in_traffic self.now.node.parts link }
    {
        self.links.state(link).carries_traffic()
    }

    /// A link does what its alignment does about an input, and its timers follow.
    #[inline(always)]
    fn step_alignment(&mut self, link: LinkId, input: Input) -> Action
        requires { link < length self.old.settings.links }
        ensures action { result ≡ acts_on (link_at self.old.node.parts link) input }
        ensures state { self.new ≡
            with_node self.old (stepped_by self.old.settings result link self.old.node) }
    {
        let action = self.align(link, input);
        if let Action::Go(step) = action {
            self.time(link, &step);
        }
        action
    }

    /// A status that the peer tells.
    #[inline(never)]
    pub(super) fn on_link_status(&mut self, link: LinkId, status: LinkStatus) -> Outcome
        requires { link < length self.old.settings.links }
        ensures { Ends self.old result self.new (rule.on_link_status kept self.old.settings link status self.old.node) }
    {
        if self.tells_outage(link, status) {
            self.hear_outage(link);
            return Outcome::Handled;
        }
        if self.tells_recovery(link, status) {
            self.end_outage(link);
            return Outcome::Handled;
        }
        self.act_by_status(link, status)
    }

    /// What the alignment of a link does about a status.
    fn act_by_status(&mut self, link: LinkId, status: LinkStatus) -> Outcome
        requires { link < length self.old.settings.links }
        ensures { Ends self.old result self.new (rule.act_by_status kept self.old.settings
            (acts_on (link_at self.old.node.parts link) (its.Status status)) link status self.old.node) }
    {
        match self.act_by(link, Input::Status(status)) {
            Action::Ignored => Outcome::Ignored,
            Action::Fail => {
                self.fail(link, FailureReason::Status);
                Outcome::Handled
            }
            Action::Go(step) => {
                if step.serve {
                    self.serve_status(link, status);
                }
                Outcome::Handled
            }
        }
    }

    /// A status of a peer in service.
    fn serve_status(&mut self, link: LinkId, status: LinkStatus)
        requires { link < length self.old.settings.links }
        ensures { self.new ≡
            with_node self.old (rule.serve_status kept self.old.settings link status self.old.node) }
    {
        match status {
            LinkStatus::Busy => self.become_busy(link),
            LinkStatus::BusyEnded => self.hear_busy_ended(link),
            _ => {}
        }
    }

    /// The peer takes messages again, unless its processor is out.
    fn hear_busy_ended(&mut self, link: LinkId)
        requires { link < length self.old.settings.links }
        ensures { self.new ≡ with_node self.old (with_parts self.old.node (rule.hear_busy_ended self.old.settings link
            (kept.outstanding self.old.node.queues link) self.old.node.parts)) }
    {
        if !self.links.state(link).is_peer_out() {
            self.end_busy(link);
        }
    }

    /// The peer takes no messages for now.
    pub(super) fn become_busy(&mut self, link: LinkId)
        requires { link < length self.old.settings.links }
        ensures { self.new ≡ with_node self.old
            (with_parts self.old.node (rule.become_busy self.old.settings link self.old.node.parts)) }
    {
        if self.links.state(link).is_peer_busy() {
            return;
        }
        self.set_peer_busy(link, true);
        self.stop(link, LinkTimer::L7);
        self.start(link, LinkTimer::L6);
    }

    /// The peer takes messages again.
    pub(super) fn end_busy(&mut self, link: LinkId)
        requires { link < length self.old.settings.links }
        ensures { self.new ≡ with_node self.old (with_parts self.old.node (rule.end_busy self.old.settings link
            (kept.outstanding self.old.node.queues link) self.old.node.parts)) }
    {
        if !self.links.state(link).is_peer_busy() {
            return;
        }
        self.set_peer_busy(link, false);
        self.stop(link, LinkTimer::L6);
        if self.sequences[link.index()].outstanding() > 0 {
            self.start(link, LinkTimer::L7);
        }
    }

    /// A timer of a link ran out.
    pub(super) fn run_out(&mut self, link: LinkId, timer: LinkTimer)
        ensures { self.new ≡ with_node self.old (rule.run_out kept self.old.settings link timer self.old.node) }
    {
        if !self.links.has(link) {
            return;
        }
        if let Action::Fail = self.act_by(link, Input::Expiry(timer)) {
            self.fail(link, FailureReason::Timer);
        }
    }
}
