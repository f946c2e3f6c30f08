//! TCOC, changeover control (Q.704 §5.3): the flows that a changeover holds.

ghost use Rattle.std.specs.Prelude.{◌≡◌, ◌<◌, length, slice_get};
ghost use Rattle.std.specs.Option.{option_map};
ghost use Rattle.exchange_rules.specs.State.{with_node, with_parts};
ghost use Rattle.exchange.specs.KeptQueues.{kept};
ghost use Rattle.exchange_rules.specs.Routing.{facts};
ghost use Rattle.flow_hold.specs.declared.procedure.Procedure.TheVariants as holder;
ghost use Rattle.signalling_types.specs.declared.limits.TheConstants.Limits.{SELECTIONS};
ghost use Rattle.flow_hold.specs.Holds.{with_hold};
ghost use Rattle.exchange.specs.Head.{with_holds, with_head, with_read};
ghost use Rattle.exchange.specs.Suspending as walk;
ghost use Rattle.exchange_rules.specs.Places.{HasPlacesFor};
ghost use Rattle.exchange_rules.specs.ChangingOver.{suspended};

use super::Exchange;
use super::head::Head;
use flow_hold::Procedure;
use settings::{Limits, LinkId, Sls};

impl Exchange {
    /// The changeover of a link holds each flow that takes it, and each that has a user message there that isn't
    /// confirmed.
    pub(super) fn suspend(&mut self, link: LinkId)
        requires { link < length self.old.settings.links }
        ensures { self.new ≡ with_node self.old (with_parts self.old.node (suspended self.old.settings link
            (kept.unconfirmed self.old.node.queues link) self.old.node.parts)) }
    {
        self.hold_destinations(link);
        self.hold_messages(link);
    }

    /// Holds the flows to all destinations that go by a link.
    fn hold_destinations(&mut self, link: LinkId)
        ensures places { HasPlacesFor self.old.settings self.old.node.parts }
        ensures holds { self.new ≡ with_holds self.old (walk.with_destinations
            (facts self.old.settings self.old.node.parts) link (length self.old.settings.destinations)
            self.old.node.parts.holds) }
    {
        for destination in 0..self.settings.destinations().len() {
            self.hold_destination(link, destination);
        }
    }

    /// Holds the flows to one destination that go by a link.
    fn hold_destination(&mut self, link: LinkId, destination: usize)
        ensures { self.new ≡ with_holds self.old (walk.with_selections
            (facts self.old.settings self.old.node.parts) link destination SELECTIONS
            self.old.node.parts.holds) }
    {
        for selection in 0..Limits::SELECTIONS as u8 {
            self.hold_selection(link, destination, selection);
        }
    }

    /// Holds one flow, if it goes by a link.
    fn hold_selection(&mut self, link: LinkId, destination: usize, selection: u8)
        requires { selection < SELECTIONS }
        ensures { self.new ≡ with_holds self.old (walk.with_flow
            (facts self.old.settings self.old.node.parts) link destination selection self.old.node.parts.holds) }
    {
        let Some(sls) = Sls::new(selection) else {
            unreachable!()
        };
        if self.links.link_of(destination, sls) == Some(link) {
            self.hold_flow(link, destination, sls);
        }
    }

    /// Holds the flows of the user messages in the list of a link.
    fn hold_messages(&mut self, link: LinkId)
        requires { link < length self.old.settings.links }
        ensures { self.new ≡ with_holds self.old (walk.with_messages self.old.settings link
            (kept.unconfirmed self.old.node.queues link) self.old.node.parts.holds) }
    {
        for place in 0..self.count_on(link) {
            self.hold_message(link, place);
        }
    }

    /// Holds the flow of the message at an index of a link's list, if it is a user message.
    fn hold_message(&mut self, link: LinkId, place: usize)
        requires { link < length self.old.settings.links }
        ensures { self.new ≡ with_holds self.old (with_head self.old.settings link
            (slice_get (kept.unconfirmed self.old.node.queues link) place) self.old.node.parts.holds) }
    {
        self.note_place(link, place);
        if let Some(head) = self.head_at(link, place) {
            self.hold_flow_of(link, &head);
        }
    }

    /// Holds the flow of a user message.
    fn hold_flow_of(&mut self, link: LinkId, head: &Head)
        ensures { self.new ≡ with_holds self.old
            (with_read self.old.settings link head.now self.old.node.parts.holds) }
    {
        if head.is_management {
            return;
        }
        if let Some(destination) = self.settings.destination(head.label.dpc) {
            self.hold_flow(link, destination, head.label.sls);
        }
    }

    /// Holds a flow by the changeover of a link.
    fn hold_flow(&mut self, link: LinkId, destination: usize, sls: Sls)
        ensures { self.new ≡ with_holds self.old
            (with_hold self.old.node.parts.holds (holder.Changeover link) destination sls) }
    {
        self.release_due = true;
        self.holds
            .hold(Procedure::Changeover(link), destination, sls);
    }
}
