//! TCOC, changeover control (Q.704 §5.4 to §5.7): a changeover goes on and ends, by an order or an acknowledgement of
//! the peer, or by a timer.

ghost use Rattle.std.specs.Prelude.{◌≡◌, ◌<◌, if◌then◌else◌, Some, true, length, slice_get};
ghost use Rattle.std.specs.Option.{option_map};
ghost use Rattle.changeover.specs.Kept.{kept_accepted_count, kept_doubted};
ghost use Rattle.exchange_rules.specs.State.{with_node, with_parts, note, flagged, counted_lost};
ghost use Rattle.exchange.specs.KeptQueues as queues;
ghost use Rattle.exchange.specs.KeptQueues.{kept, link_lane};
ghost use Rattle.exchange_rules.specs.Exchange.{Ends};
ghost use Rattle.exchange_rules.specs.ChangingOver as failing;
ghost use Rattle.exchange.specs.Draining as draining;
ghost use Rattle.signalling_types.specs.declared.notice.Notice.TheVariants as notices;

use super::Exchange;
use super::lanes::{HELD, lane_of};
use cell_pool::Lanes;
use changeover::{complete, count_in_doubt};
use flow_hold::Procedure;
use mtp3_codec::{Label, Management};
use settings::{Cause, ChangeoverTimer, LinkId, Notice, Outcome, Unbarring};
use signalling_types::Number24;
use timers::TimerName;

impl Exchange {
    /// The peer orders a changeover of a link, with or without the number of the last message that it accepted there.
    /// It is answered in every case.
    pub(super) fn on_changeover_order(&mut self, link: LinkId, number: Option<Number24>) -> Outcome
        requires { link < length self.old.settings.links }
        ensures { Ends self.old result self.new
            (failing.on_changeover_order kept self.old.settings link number self.old.node) }
    {
        if !self.links.state(link).is_down() {
            self.fail_by_peer(link);
        }
        self.bar(link);
        if self.changeovers.order(link) {
            self.conclude(link, number);
        }
        self.acknowledge_changeover(link);
        Outcome::Handled
    }

    /// The changeover of a link is about to be completed: if its answer is awaited, and the settings bar links, T2 is
    /// set anew.
    fn bar(&mut self, link: LinkId)
        requires { link < length self.old.settings.links }
        ensures { self.new ≡ with_node self.old (failing.bar kept self.old.settings link self.old.node) }
    {
        if !self.changeovers.awaits_incomplete(link) {
            return;
        }
        if let Some(ticks) = self.settings.timers().t2_bar {
            self.timers.set(TimerName::T2(link), ticks);
        }
    }

    /// Tells the peer the number of the last message that was accepted on a link.
    fn acknowledge_changeover(&mut self, link: LinkId)
        requires { link < length self.old.settings.links }
        ensures { self.new
            ≡ with_node self.old (failing.acknowledge_changeover kept self.old.settings link self.old.node) }
    {
        let number = self.sequences[link.index()].last_accepted();
        let answer = Management::ExtendedChangeoverAcknowledgement(self.code_of(link), number);
        self.send_management(self.peer_of(link), &answer);
    }

    /// The peer answers an order about a link; ignored if no answer is awaited.
    pub(super) fn on_changeover_acknowledgement(
        &mut self,
        link: LinkId,
        number: Option<Number24>,
    ) -> Outcome
        requires { link < length self.old.settings.links }
        ensures { Ends self.old result self.new
            (failing.on_changeover_acknowledgement kept self.old.settings link number self.old.node) }
    {
        let Some(incomplete) = self.changeovers.acknowledge(link) else {
            return Outcome::Ignored;
        };
        self.timers.clear(TimerName::T2(link));
        if incomplete {
            self.conclude(link, number);
        }
        Outcome::Handled
    }

    /// A timer of a link's changeover ran out: it is completed without a number, unless it is complete.
    pub(super) fn on_changeover_timer(&mut self, timer: ChangeoverTimer, link: LinkId)
        ensures { self.new
            ≡ with_node self.old (failing.on_changeover_timer kept self.old.settings timer link self.old.node) }
    {
        if !self.links.has(link) {
            return;
        }
        self.bar(link);
        if self.expire(timer, link) {
            self.conclude(link, None);
        }
    }

    /// A timer of a link's changeover ran out, and that is noted. Says whether the changeover is to be completed now.
    fn expire(&mut self, timer: ChangeoverTimer, link: LinkId) -> bool
        requires { link < length self.old.settings.links }
        ensures completes { result ≡ (failing.changeover_of self.old.node.parts link).incomplete }
        ensures state { self.new ≡ with_node self.old (with_parts self.old.node
            (failing.with_expiry self.old.settings timer link self.old.node.parts)) }
    {
        let bars = self.settings.timers().t2_bar.is_some();
        let incomplete = self.changeovers.is_incomplete(link);
        match timer {
            ChangeoverTimer::T1 => self.note(Notice::Expired(timer, link)),
            ChangeoverTimer::T2 => {
                self.note_end(link, bars && !incomplete);
                self.flag_loss();
                self.count_break_if(!(bars && incomplete));
            }
        }
        self.changeovers.expired(link, timer, bars)
    }

    /// T2 of a link ran out, and that is noted: as the end of its bar, or not.
    fn note_end(&mut self, link: LinkId, is_over: bool)
        ensures { self.new ≡ with_node self.old (with_parts self.old.node
            (note (if is_over then notices.Unbarred Unbarring.T2 link else notices.Expired ChangeoverTimer.T2 link)
            self.old.node.parts)) }
    {
        if is_over {
            self.note(Notice::Unbarred(Unbarring::T2, link));
        } else {
            self.note(Notice::Expired(ChangeoverTimer::T2, link));
        }
    }

    /// Deals with the messages of a failed link by the peer's number: those that it accepted are dropped, user messages
    /// after them go before Held, and management is requeued. Without a reasonable number, those that were sent are
    /// lost.
    fn conclude(&mut self, link: LinkId, number: Option<Number24>)
        requires { link < length self.old.settings.links }
        ensures { self.new ≡ with_node self.old (failing.conclude kept self.old.settings
            (kept.found self.old.node.queues link number) link number self.old.node) }
    {
        self.lose_doubtful(link, &number);
        self.lift(link);
        self.splice(link, number);
        self.send_all(link);
    }

    /// Without a reasonable number, the user messages of a link that were sent are lost.
    fn lose_doubtful(&mut self, link: LinkId, number: &Option<Number24>)
        requires { link < length self.old.settings.links }
        ensures { self.new ≡ with_node self.old (with_parts self.old.node
            (failing.with_losses (kept.found self.old.node.queues link number.now) self.old.node.parts)) }
    {
        if let Some(count) = self.count_in_doubt(link, number) {
            self.lose_first(link, count);
            self.flag_loss();
            self.count_break_if(number.is_some());
        }
    }

    /// Without a reasonable number, how many messages of a link were sent and aren't confirmed.
    fn count_in_doubt(&self, link: LinkId, number: &Option<Number24>) -> Option<usize>
        requires { link < length self.now.settings.links }
        ensures { result ≡ kept_doubted (queues.counts_at self.now.node.queues.counts link)
            (kept_accepted_count (queues.counts_at self.now.node.queues.counts link) number.now) }
    {
        count_in_doubt(&self.sequences[link.index()], *number)
    }

    /// The user messages among the first n of a link's list are lost.
    fn lose_first(&mut self, link: LinkId, count: usize)
        requires { link < length self.old.settings.links }
        ensures { self.new ≡ with_node self.old (with_parts self.old.node
            (draining.lose_first count (link_lane self.old.node.queues link) self.old.node.parts)) }
    {
        for place in 0..count {
            self.lose_at(link, place);
        }
    }

    /// The message at an index of a link's list is lost, if it is a user message.
    fn lose_at(&mut self, link: LinkId, place: usize)
        requires { link < length self.old.settings.links }
        ensures { self.new ≡ with_node self.old (with_parts self.old.node
            (draining.lose_one (slice_get (link_lane self.old.node.queues link) place) self.old.node.parts)) }
    {
        self.note_place(link, place);
        if let Some(head) = self.head_at(link, place)
            && !head.is_management
        {
            self.lose(Cause::LostUnconfirmed, &head.label);
        }
    }

    /// A user message is lost, and that is noted.
    pub(super) fn lose(&mut self, cause: Cause, label: &Label)
        ensures { self.new ≡ with_node self.old (with_parts self.old.node
            (counted_lost (flagged (note (notices.Lost cause label.now.dpc label.now.sls) self.old.node.parts)))) }
    {
        self.note(Notice::Lost(cause, label.dpc, label.sls));
        self.flag_loss();
        self.count_lost();
    }

    /// The changeover of a link no longer holds anything, and T1 stops.
    fn lift(&mut self, link: LinkId)
        ensures { self.new ≡ with_node self.old
            (with_parts self.old.node (failing.lifted_parts link self.old.node.parts)) }
    {
        self.release_due = true;
        self.holds.lift(Procedure::Changeover(link));
        self.timers.clear(TimerName::T1(link));
    }

    /// Puts the user messages that move before Held; leaves the management messages in the link's list.
    fn splice(&mut self, link: LinkId, number: Option<Number24>)
        requires { link < length self.old.settings.links }
        ensures state { self.new ≡ with_node self.old (record self.old.node {
          queues = draining.spliced_queues self.old.node.queues link number;
        }) }
        ensures anew { link_lane self.new.node.queues link
            ≡ (kept.found self.old.node.queues link number).queued_anew }
        ensures there { queues.lane_of link < length self.old.node.queues.lanes }
    {
        self.release_due = true;
        let sequence = &mut self.sequences[link.index()];
        complete(&mut self.lanes, lane_of(link), HELD, sequence, number);
    }

    /// The management messages in the list of a link are requeued, each on the link of its flow.
    fn send_all(&mut self, link: LinkId)
        requires { link < length self.old.settings.links }
        ensures { self.new ≡ with_node self.old (draining.drained (draining.anew self.old.settings)
            (length (link_lane self.old.node.queues link)) (queues.lane_of link) self.old.node) }
    {
        for _ in 0..self.count_on(link) {
            self.send_first(link);
        }
    }

    /// The first message in the list of a link goes out again.
    fn send_first(&mut self, link: LinkId)
        requires { link < length self.old.settings.links }
        ensures { self.new ≡ with_node self.old (draining.first_gone (draining.anew self.old.settings)
            (queues.lane_of link) self.old.node) }
    {
        let lane = lane_of(link);
        let Some(head) = self.head_at(link, 0) else {
            return;
        };
        match self.link_of(&head.label) {
            Some(target) => self.lanes.move_first(lane, lane_of(target)),
            None => {
                self.lanes.drop_front(lane, 1);
                self.unsent(Cause::NoRoute, head.label.dpc);
            }
        }
    }
}
