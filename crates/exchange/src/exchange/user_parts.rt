//! TSFC, signalling traffic flow control (Q.704 §11.2.7): messages for user parts that aren't here.

ghost use Rattle.std.specs.Prelude.{◌≡◌, ◌<◌, ◌≤◌, length, is_some};
ghost use Rattle.signalling_types.specs.Message.{lent, opc_of, flow_of};
ghost use Rattle.settings.specs.Readings.{destination_place};
ghost use Rattle.exchange_rules.specs.State.{with_node, with_parts};
ghost use Rattle.exchange.specs.KeptQueues.{kept};
ghost use Rattle.exchange_rules.specs.Routing.{link_of};
ghost use Rattle.exchange_rules.specs.Telling as rule;

use super::Exchange;
use mtp3_codec::{Label, Management, UnavailabilityCause, UserPart};
use settings::{LinkId, MsuRef, PointCode};

impl Exchange {
    /// A message for a user part that isn't here. If it arrived on a link, its origin is a destination, and the
    /// settings say so, it is counted, and the first of each eight of an origin is answered by UPU, if there is room
    /// and a link.
    #[inline(never)]
    pub(super) fn answer_no_user_part(&mut self, from: Option<LinkId>, message: MsuRef<'_>)
        ensures { self.new ≡ with_node self.old (rule.answer_no_user_part kept self.old.settings from
            (destination_place self.old.settings (opc_of (lent message.entry))) (lent message.entry) self.old.node) }
    {
        if from.is_none() {
            return;
        }
        let point = Label::at(message.sif).opc;
        let Some(origin) = self.settings.destination(point) else {
            return;
        };
        if self.settings.user_part_unavailable() {
            self.tell_unavailable(origin, point, message);
        }
    }

    /// Counts a message of a point for a user part that isn't here, and answers the first of each eight. The point is
    /// the destination of this number.
    fn tell_unavailable(&mut self, origin: usize, point: PointCode, message: MsuRef<'_>)
        requires origin { origin < length self.old.settings.destinations }
        requires point { point ≡ opc_of (lent message) }
        ensures { self.new ≡ with_node self.old
            (rule.tell_unavailable kept self.old.settings origin (lent message.entry) self.old.node) }
    {
        let is_due = self.may_tell() && self.unequipped.is_first(origin);
        self.count_unequipped(origin);
        if is_due {
            self.send_unavailable(point, message);
        }
    }

    /// One more message for a user part that isn't here came from the destination of this number.
    fn count_unequipped(&mut self, origin: usize)
        requires { origin < length self.old.settings.destinations }
        ensures { self.new ≡ with_node self.old (with_parts self.old.node
            (rule.unequipped_counted origin self.old.node.parts)) }
    {
        self.unequipped.count(origin);
    }

    /// Tells the origin of a message that its user part isn't here, if the flow of UPU has a link.
    fn send_unavailable(&mut self, point: PointCode, message: MsuRef<'_>)
        requires { point ≡ opc_of (lent message) }
        ensures { self.new ≡ with_node self.old (rule.send_if kept self.old.settings
            (is_some (link_of self.old.settings self.old.node.parts
            (flow_of (rule.unavailable self.old.settings (lent message.entry)))))
            (rule.unavailable self.old.settings (lent message.entry)) self.old.node) }
    {
        let part = UserPart::of_low_half(message.sio);
        let cause = UnavailabilityCause::Unequipped;
        let told = Management::UserPartUnavailable(self.settings.own(), part, cause);
        self.send_management_if_led(point, &told);
    }
}
