//! HMRT, message routing (Q.704 §2.3): management that this node makes, or that a link left over when it failed.

ghost use Rattle.std.specs.Prelude.{◌≡◌, ◌<◌, ◌≤◌, Some, None, length, IfErr, OnOk, is_ok, is_some, if◌then◌else◌};
ghost use Rattle.signalling_types.specs.Message.{lent, dpc_of, flow_of};
ghost use Rattle.exchange_rules.specs.State.{with_node, with_parts, note, flagged};
ghost use Rattle.exchange.specs.KeptQueues.{kept};
ghost use Rattle.signalling_types.specs.declared.notice.Notice.TheVariants as notices;
ghost use Rattle.exchange_rules.specs.Routing.{link_of, no_room, queue_on};
ghost use Rattle.exchange_rules.specs.Telling as rule;

use super::Exchange;
use cell_pool::Lanes;
use mtp3_codec::{Label, MANAGEMENT_OCTETS, Management};
use settings::{Cause, Limits, LinkId, MsuRef, Notice, PointCode};

/// The service indicator of management (Q.704 §14.2.1).
const MANAGEMENT: u8 = 0;

impl Exchange {
    /// The service information octet of a message made here, with this service indicator: it names this node's network.
    pub(super) fn own_sio(&self, service_indicator: u8) -> u8
        requires { service_indicator < 16 }
        ensures { result ≡ rule.own_sio self.now.settings service_indicator }
    {
        self.settings.network() * 64 + service_indicator
    }

    /// A message made here for a point goes out on this link. If there is no room it is dropped, with a notice.
    pub(super) fn send_on(&mut self, link: LinkId, point: PointCode, message: MsuRef<'_>)
        requires link { link < length self.old.settings.links }
        requires point { point ≡ dpc_of (lent message) }
        requires fits { length message.sif.now ≤ Limits.SIF_OCTETS }
        ensures { self.new ≡
            with_node self.old (rule.send_on kept self.old.settings link (lent message.entry) self.old.node) }
    {
        if let Err(cause) = self.queue(link, message) {
            self.unsent(cause, point);
        }
    }

    /// A management message made here for a point goes out on the link of its flow.
    pub(super) fn send_management(&mut self, point: PointCode, message: &Management)
        ensures { self.new ≡ with_node self.old (rule.send_routed kept self.old.settings
            (rule.management_to self.old.settings point message.now) self.old.node) }
    {
        let mut octets = [0; MANAGEMENT_OCTETS];
        let count = message.write(point, self.settings.own(), &mut octets);
        let sio = self.own_sio(MANAGEMENT);
        self.send_routed(MsuRef {
            sio,
            sif: &octets[..count],
        });
    }

    /// Whether the flow of a management message for a point has a link.
    pub(super) fn is_led(&self, point: PointCode, message: &Management) -> bool
        ensures { result ≡ rule.is_led self.now.settings
            (rule.management_to self.now.settings point message.now) self.now.node.parts }
    {
        let mut octets = [0; MANAGEMENT_OCTETS];
        let count = message.write(point, self.settings.own(), &mut octets);
        let label = Label::at(&octets[..count]);
        self.link_of(&label).is_some()
    }

    /// A management message made here for a point goes out on the link of its flow; without a link none is made.
    pub(super) fn send_management_if_led(&mut self, point: PointCode, message: &Management)
        ensures { self.new ≡ with_node self.old (rule.send_if kept self.old.settings
            (is_some (link_of self.old.settings self.old.node.parts
            (flow_of (rule.management_to self.old.settings point message.now))))
            (rule.management_to self.old.settings point message.now) self.old.node) }
    {
        let mut octets = [0; MANAGEMENT_OCTETS];
        let count = message.write(point, self.settings.own(), &mut octets);
        let sio = self.own_sio(MANAGEMENT);
        self.send_if_led(MsuRef {
            sio,
            sif: &octets[..count],
        });
    }

    /// Puts a management message made here for a point at the end of a link's queue; refused if there is no room.
    pub(super) fn queue_management(
        &mut self,
        link: LinkId,
        point: PointCode,
        message: &Management,
    ) -> Result<(), Cause>
        requires { link < length self.old.settings.links }
        ensures refused { IfErr result (λ cause. no_room kept self.old.settings
            (rule.management_to self.old.settings point message.now) self.old.node.queues ≡ Some cause) }
        ensures taken { OnOk result (no_room kept self.old.settings
            (rule.management_to self.old.settings point message.now) self.old.node.queues ≡ None) }
        ensures state { self.new ≡ (if is_ok result
            then with_node self.old (queue_on kept self.old.settings link
            (rule.management_to self.old.settings point message.now) self.old.node)
            else self.old) }
    {
        let mut octets = [0; MANAGEMENT_OCTETS];
        let count = message.write(point, self.settings.own(), &mut octets);
        let sio = self.own_sio(MANAGEMENT);
        self.queue(
            link,
            MsuRef {
                sio,
                sif: &octets[..count],
            },
        )
    }

    /// A message made here goes out on the link of its flow. If there is no room or no link it is dropped, with a
    /// notice.
    fn send_routed(&mut self, message: MsuRef<'_>)
        requires label { 4 ≤ length message.sif.now }
        requires fits { length message.sif.now ≤ Limits.SIF_OCTETS }
        ensures { self.new ≡
            with_node self.old (rule.send_routed kept self.old.settings (lent message.entry) self.old.node) }
    {
        let label = Label::at(message.sif);
        if let Some(cause) = self.lanes.refusal(message) {
            self.unsent(cause, label.dpc);
            return;
        }
        match self.link_of(&label) {
            Some(link) => self.send_on(link, label.dpc, message),
            None => self.unsent(Cause::NoRoute, label.dpc),
        }
    }

    /// A message made here goes out on the link of its flow; without a link nothing happens.
    fn send_if_led(&mut self, message: MsuRef<'_>)
        requires label { 4 ≤ length message.sif.now }
        requires fits { length message.sif.now ≤ Limits.SIF_OCTETS }
        ensures { self.new ≡ with_node self.old (rule.send_if kept self.old.settings
            (is_some (link_of self.old.settings self.old.node.parts (flow_of (lent message.entry))))
            (lent message.entry) self.old.node) }
    {
        let label = Label::at(message.sif);
        if let Some(link) = self.link_of(&label) {
            self.send_on(link, label.dpc, message);
        }
    }

    /// A management message for a point is dropped, and that is noted.
    pub(super) fn unsent(&mut self, cause: Cause, point: PointCode)
        ensures { self.new ≡ with_node self.old (with_parts self.old.node
            (flagged (note (notices.Unsent cause point) self.old.node.parts))) }
    {
        self.note(Notice::Unsent(cause, point));
        self.flag_loss();
    }
}
