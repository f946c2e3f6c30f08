//! Release, of TCOC and TCBC (Q.704 §5.4, §6.3): at the end of each event, those messages of Held go on whose flows are
//! no longer held.

ghost use Rattle.std.specs.Prelude.{◌≡◌, ◌&&◌, not, length};
ghost use Rattle.exchange_rules.specs.State.{with_node, with_parts};
ghost use Rattle.exchange.specs.KeptQueues.{kept, held_lane};
ghost use Rattle.settings.specs.Readings.{destination_place};
ghost use Rattle.exchange_rules.specs.Routing.{is_held_at};
ghost use Rattle.exchange.specs.Draining as draining;
ghost use Rattle.exchange_rules.specs.Exchange as rule;

use super::Exchange;
use super::head::Head;
use super::lanes::{HELD, lane_of};
use cell_pool::Lanes;
use settings::Cause;

impl Exchange {
    /// Releases messages that are no longer held. Unless a hold changed in the event, each message of Held still waits,
    /// and there is nothing to do.
    #[inline(always)]
    pub(super) fn release_if_due(&mut self)
        ensures { self.new ≡ with_node self.old (rule.release kept self.old.settings self.old.node) }
    {
        if self.release_due {
            self.release();
        }
    }

    /// Each message of Held goes where it should, in order; those that still wait are in Held again.
    fn release(&mut self)
        ensures { self.new ≡ with_node self.old (rule.release kept self.old.settings self.old.node) }
    {
        self.release_each();
        self.release_due = false;
    }

    /// The same, if a release stays due.
    fn release_each(&mut self)
        ensures { self.new ≡ with_node self.old (rule.release kept self.old.settings self.old.node) }
    {
        for _ in 0..self.count_held() {
            self.release_first();
        }
    }

    /// The first message of Held goes to the end of Held if it still waits, otherwise to its link, or is lost if it has
    /// none.
    fn release_first(&mut self)
        ensures { self.new ≡ with_node self.old
            (draining.first_gone (draining.onward self.old.settings) held_lane self.old.node) }
    {
        self.release_due = true;
        let Some(head) = self.held_head() else {
            return;
        };
        let destination = self.destination_of(&head);
        if self.waits(&head, destination) {
            self.lanes.move_first(HELD, HELD);
            return;
        }
        match self.link_toward(destination, &head.label) {
            Some(link) => self.lanes.move_first(HELD, lane_of(link)),
            None => {
                self.lanes.drop_front(HELD, 1);
                self.lose(Cause::NoRoute, &head.label);
            }
        }
    }

    /// The number of the destination of a message, if there is one.
    fn destination_of(&self, head: &Head) -> Option<usize>
        ensures { result ≡ destination_place self.now.settings head.now.label.dpc }
    {
        self.settings.destination(head.label.dpc)
    }

    /// Whether a message to the destination of this number, if there is one, waits: a user message whose flow has a
    /// hold.
    fn waits(&self, head: &Head, destination: Option<usize>) -> bool
        ensures { result ≡
            (not head.now.is_management && is_held_at self.now.node.parts.holds destination head.now.label.sls) }
    {
        if head.is_management {
            return false;
        }
        match destination {
            Some(destination) => self.holds.is_held(destination, head.label.sls),
            None => false,
        }
    }
}
