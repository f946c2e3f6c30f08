//! TLAC, link availability control (Q.704 §3.2): associations that come up and go down, and the operator's orders about
//! a link (RFC 4165 §4.1.3).

ghost use Rattle.std.specs.Prelude.{◌≡◌, ◌<◌, length};
ghost use Rattle.exchange_rules.specs.State.{with_node};
ghost use Rattle.exchange.specs.KeptQueues.{kept};
ghost use Rattle.exchange_rules.specs.Exchange.{Ends, wants_of};
ghost use Rattle.exchange_rules.specs.First.{Abstract};
ghost use Rattle.exchange.specs.Calls.{StandsFor};
ghost use Rattle.exchange_rules.specs.Opening as rule;
ghost use Rattle.exchange.specs.Views.{may_restart_at, is_barred_at};

use super::Exchange;
use exchange_rules::Wants;
use link::{Alignment, Period, Sequence};
use settings::{Cause, FailureReason, LinkId, Notice, Outcome, Unbarring};
use timers::TimerName;

impl Exchange {
    /// What a link wants from its caller; Nothing if there is no such link.
    ///
    /// Open if it is down without an association, isn't deactivated, its changeover is complete and no acknowledgement
    /// of its changeover order is awaited; Close if it is down with an association.
    pub fn wants(&self, link: LinkId) -> Wants
        ensures wants { (a : Abstract) → StandsFor self.now a → result ≡ wants_of a link }
        ensures kept_wants { result ≡ wants_of self.now link }
    {
        if !self.links.has(link) {
            return Wants::Nothing;
        }
        let state = self.links.state(link);
        if !state.is_down() {
            Wants::Nothing
        } else if state.has_association() {
            Wants::Close
        } else if state.is_active() && self.changeovers.may_restart(link) {
            Wants::Open
        } else {
            Wants::Nothing
        }
    }

    /// Whether a link may open as far as its changeover goes: it is down, its changeover is complete, and no
    /// acknowledgement of its changeover order is awaited. It may still have its association, or be deactivated. False
    /// if there is no such link.
    pub fn may_restart(&self, link: LinkId) -> bool
        ensures restarts { (a : Abstract) → StandsFor self.now a → result ≡ may_restart_at a link }
        ensures kept_restarts { result ≡ may_restart_at self.now link }
    {
        self.links.has(link)
            && self.links.state(link).is_down()
            && self.changeovers.may_restart(link)
    }

    /// Whether a link is barred: the settings bar links (`t2_bar`), its changeover is complete, and the acknowledgement
    /// of its changeover order is awaited, so that it can't open. False if there is no such link.
    pub fn is_barred(&self, link: LinkId) -> bool
        ensures barred { (a : Abstract) → StandsFor self.now a → result ≡ is_barred_at a link }
        ensures kept_barred { result ≡ is_barred_at self.now link }
    {
        self.settings.timers().t2_bar.is_some()
            && self.links.has(link)
            && self.changeovers.is_barred(link)
    }

    /// An association comes up.
    pub(super) fn association_up(&mut self, link: LinkId) -> Outcome
        ensures { Ends self.old result self.new (rule.association_up kept self.old.settings link self.old.node) }
    {
        if !self.links.has(link) {
            return Outcome::Refused(Cause::NoSuchName);
        }
        let state = self.links.state(link);
        if state.has_association() || !state.is_active() {
            return Outcome::Refused(Cause::LinkNotReady);
        }
        if !self.changeovers.may_restart(link) {
            return Outcome::Refused(Cause::ChangeoverPending);
        }
        self.open_link(link);
        Outcome::Handled
    }

    /// Begins a new epoch of a link.
    fn open_link(&mut self, link: LinkId)
        requires { link < length self.old.settings.links }
        ensures { self.new ≡ with_node self.old (rule.open_link kept self.old.settings link self.old.node) }
    {
        let period = self.period_of(link);
        self.drop_all(link);
        self.sequences[link.index()] = Sequence::start();
        self.begin_to_align(link, period);
        self.time(link, &Alignment::open(period));
    }

    /// How long a link is to be proved: for the emergency period, if the operator ordered that or no other link of its
    /// set is in service (Q.703 §7.1); always equally long, if the settings have no such period.
    fn period_of(&self, link: LinkId) -> Period
        requires { link < length self.now.settings.links }
        ensures { result ≡ rule.period_of self.now.settings link self.now.node.parts }
    {
        if self.settings.timers().l4e.is_none() {
            Period::Fixed
        } else if self.links.state(link).is_emergency_ordered() || !self.has_other(link) {
            Period::Emergency
        } else {
            Period::Normal
        }
    }

    /// An association goes down.
    pub(super) fn association_down(&mut self, link: LinkId) -> Outcome
        ensures { Ends self.old result self.new (rule.association_down kept self.old.settings link self.old.node) }
    {
        if !self.links.has(link) {
            return Outcome::Refused(Cause::NoSuchName);
        }
        if !self.links.state(link).has_association() {
            return Outcome::Ignored;
        }
        self.fail_if_up(link, FailureReason::Association);
        self.end_association(link);
        Outcome::Handled
    }

    /// A link that isn't down fails.
    fn fail_if_up(&mut self, link: LinkId, why: FailureReason)
        requires { link < length self.old.settings.links }
        ensures { self.new ≡ with_node self.old (rule.fail_if_up kept self.old.settings link why self.old.node) }
    {
        if !self.links.state(link).is_down() {
            self.fail(link, why);
        }
    }

    /// The operator lets a link open, with emergency proving or without it.
    pub(super) fn activate(&mut self, link: LinkId, emergency: bool) -> Outcome
        ensures { Ends self.old result self.new (rule.activate kept self.old.settings emergency link self.old.node) }
    {
        if !self.links.has(link) {
            return Outcome::Refused(Cause::NoSuchName);
        }
        self.let_open(link, emergency);
        Outcome::Handled
    }

    /// The operator lets a link open whose changeover is complete, though the acknowledgement of its order is awaited.
    pub(super) fn release_bar(&mut self, link: LinkId) -> Outcome
        ensures { Ends self.old result self.new (rule.release_bar kept self.old.settings link self.old.node) }
    {
        if !self.links.has(link) {
            return Outcome::Refused(Cause::NoSuchName);
        }
        if !self.changeovers.release(link) {
            return Outcome::Ignored;
        }
        self.timers.clear(TimerName::T2(link));
        self.note(Notice::Unbarred(Unbarring::Operator, link));
        self.flag_loss();
        self.count_break_if(true);
        Outcome::Handled
    }

    /// The operator keeps a link from opening; one that isn't down fails first.
    pub(super) fn deactivate(&mut self, link: LinkId) -> Outcome
        ensures { Ends self.old result self.new (rule.deactivate kept self.old.settings link self.old.node) }
    {
        if !self.links.has(link) {
            return Outcome::Refused(Cause::NoSuchName);
        }
        self.fail_if_up(link, FailureReason::Operator);
        self.keep_down(link);
        Outcome::Handled
    }
}
