//! HMRT, message routing (Q.704 §2.3): a message for another point.

ghost use Rattle.std.specs.Prelude.{◌≡◌, ◌<◌, ◌≤◌, ◌&&◌, None, Some, true, false, not, length, IfSome};
ghost use Rattle.std.specs.Option.{option_and_then};
ghost use Rattle.signalling_types.specs.Message.{lent, is_management, dpc_of};
ghost use Rattle.mtp3_codec.specs.Headings.{label_at};
ghost use Rattle.settings.specs.Readings.{destination_place};
ghost use Rattle.flow_hold.specs.Holds.{is_held};
ghost use Rattle.exchange_rules.specs.Routing as holding;
ghost use Rattle.routes.specs.Routes.{chosen_link};
ghost use Rattle.exchange.specs.KeptQueues.{kept};
ghost use Rattle.exchange_rules.specs.Exchange.{Ends};
ghost use Rattle.exchange_rules.specs.Routing.{facts, no_room, no_room_on};
ghost use Rattle.exchange_rules.specs.Messages as rule;

use super::Exchange;
use cell_pool::Lanes;
use mtp3_codec::Label;
use settings::{Cause, Limits, LinkId, MsuRef, Outcome, Sls};

impl Exchange {
    /// A message of this label for another point, with the link that it arrived on, if any: a known destination, then
    /// room in the pool, then no hold, then a route, then room in the link's share.
    #[inline(always)]
    pub(super) fn transfer(
        &mut self,
        from: Option<LinkId>,
        label: Label,
        message: MsuRef<'_>,
    ) -> Outcome
        requires from { IfSome from (λ link. link < length self.old.settings.links) }
        requires label { label ≡ label_at message.sif.now }
        requires fits { length message.sif.now ≤ Limits.SIF_OCTETS }
        ensures { Ends self.old result self.new
            (rule.transfer kept self.old.settings from (lent message.entry) self.old.node) }
    {
        let Some(destination) = self.settings.destination(label.dpc) else {
            return Outcome::Refused(Cause::UnknownDestination);
        };
        if let Some(cause) = self.lanes.refusal(message) {
            return Outcome::Refused(cause);
        }
        if self.is_waiting(message, destination, label.sls) {
            self.offer_held(message)
        } else {
            let link = self.link_to(destination, label.sls);
            self.offer_on(link, from, destination, message)
        }
    }

    /// Whether a message to the destination of this number waits: a user message whose flow has a hold.
    #[inline(always)]
    fn is_waiting(&self, message: MsuRef<'_>, destination: usize, sls: Sls) -> bool
        ensures { result ≡
            (not (is_management (lent message.entry)) && is_held self.now.node.parts.holds destination sls) }
    {
        !message.is_management() && self.holds.is_held(destination, sls)
    }

    /// Puts a message that must wait at the end of Held, if there is room.
    #[inline(never)]
    fn offer_held(&mut self, message: MsuRef<'_>) -> Outcome
        requires fits { length message.sif.now ≤ Limits.SIF_OCTETS }
        requires waits { holding.waits self.old.settings self.old.node.parts.holds (lent message) ≡ true }
        ensures { Ends self.old result self.new (rule.offer kept self.old.settings
            (no_room kept self.old.settings (lent message.entry) self.old.node.queues) true None None
            (lent message.entry) self.old.node) }
    {
        match self.hold(message) {
            Ok(()) => Outcome::Held,
            Err(cause) => Outcome::Refused(cause),
        }
    }

    /// Puts a message to the destination of this number, for which the pool has room, at the end of its link's queue. A
    /// user message is refused if the link's share is full. A message that arrived on a link and has no route is
    /// answered.
    #[inline(always)]
    fn offer_on(
        &mut self,
        link: Option<LinkId>,
        from: Option<LinkId>,
        destination: usize,
        message: MsuRef<'_>,
    ) -> Outcome
        requires link { IfSome link (λ link. link < length self.old.settings.links) }
        requires from { IfSome from (λ link. link < length self.old.settings.links) }
        requires destination { destination_place self.old.settings (dpc_of (lent message)) ≡ Some destination }
        requires room { no_room kept self.old.settings (lent message) self.old.node.queues ≡ None }
        requires fits { length message.sif.now ≤ Limits.SIF_OCTETS }
        ensures { Ends self.old result self.new
            (rule.offer kept self.old.settings (no_room_on kept self.old.settings link false (lent message.entry)
            self.old.node.queues) false link from (lent message.entry) self.old.node) }
    {
        let Some(link) = link else {
            self.answer_no_route(from, destination);
            return Outcome::Refused(Cause::NoRoute);
        };
        if self.is_share_full(link) && !message.is_management() {
            return Outcome::Refused(Cause::ShareFull);
        }
        self.queue_within_room(link, message);
        Outcome::Queued(link)
    }

    /// The link of a flow to the destination of this number.
    pub(super) fn link_to(&self, destination: usize, sls: Sls) -> Option<LinkId>
        ensures link { result ≡ chosen_link (facts self.now.settings self.now.node.parts) destination sls }
        ensures fits { IfSome result (λ link. link < length self.now.settings.links) }
    {
        self.links.link_of(destination, sls)
    }

    /// The link of the flow of a label.
    pub(super) fn link_of(&self, label: &Label) -> Option<LinkId>
        ensures link { result ≡ holding.link_of self.now.settings self.now.node.parts
            (record { point = label.now.dpc; sls = label.now.sls }) }
        ensures fits { IfSome result (λ link. link < length self.now.settings.links) }
    {
        self.link_toward(self.settings.destination(label.dpc), label)
    }

    /// The link of the flow of a label to the destination of this number, if there is one.
    pub(super) fn link_toward(&self, destination: Option<usize>, label: &Label) -> Option<LinkId>
        ensures link { result ≡ option_and_then
            (λ place. chosen_link (facts self.now.settings self.now.node.parts) place label.now.sls) destination }
        ensures fits { IfSome result (λ link. link < length self.now.settings.links) }
    {
        self.link_to(destination?, label.sls)
    }
}
