//! The lists of messages: first Held, then one for each link.

ghost use Rattle.std.specs.Prelude.{◌≡◌, ◌<◌, ◌≤◌, length, None, Some, true, IfErr, OnOk, is_ok, if◌then◌else◌};
ghost use Rattle.signalling_types.specs.Message.{lent};
ghost use Rattle.exchange_rules.specs.State.{with_node};
ghost use Rattle.exchange_rules.specs.Routing.{is_share_full, no_room, queue_on};
ghost use Rattle.exchange_rules.specs.Routing as holding;
ghost use Rattle.exchange.specs.KeptQueues as queues;
ghost use Rattle.exchange.specs.KeptQueues.{kept, link_lane, without_lane};

use super::Exchange;
use cell_pool::Lanes;
use link::SeqFault;
use settings::{Cause, Limits, LinkId, MsuRef};
use signalling_types::Number24;

/// The list of the messages that are held.
pub(super) const HELD: usize = 0;

/// The list of a link's messages.
pub(super) fn lane_of(link: LinkId) -> usize
    ensures { result ≡ queues.lane_of link }
{
    link.index() + 1
}

impl Exchange {
    /// Puts a message at the end of a link's list; refused if there is no room for it.
    #[inline(always)]
    pub(super) fn queue(&mut self, link: LinkId, message: MsuRef<'_>) -> Result<(), Cause>
        requires link { link < length self.old.settings.links }
        requires fits { length message.sif.now ≤ Limits.SIF_OCTETS }
        ensures refused { IfErr result (λ cause.
            no_room kept self.old.settings (lent message.entry) self.old.node.queues ≡ Some cause) }
        ensures taken { OnOk result
            (no_room kept self.old.settings (lent message.entry) self.old.node.queues ≡ None) }
        ensures state { self.new ≡ (if is_ok result
            then with_node self.old (queue_on kept self.old.settings link (lent message.entry) self.old.node)
            else self.old) }
    {
        self.lanes.push_back(lane_of(link), message)
    }

    /// Puts a message for which there is room at the end of a link's list.
    #[inline(always)]
    pub(super) fn queue_within_room(&mut self, link: LinkId, message: MsuRef<'_>)
        requires link { link < length self.old.settings.links }
        requires fits { length message.sif.now ≤ Limits.SIF_OCTETS }
        requires room { no_room kept self.old.settings (lent message) self.old.node.queues ≡ None }
        ensures { self.new
            ≡ with_node self.old (queue_on kept self.old.settings link (lent message.entry) self.old.node) }
    {
        self.lanes.push_within_room(lane_of(link), message);
    }

    /// Puts a message whose flow has a hold at the end of Held; refused if there is no room for it.
    #[inline(never)]
    pub(super) fn hold(&mut self, message: MsuRef<'_>) -> Result<(), Cause>
        requires fits { length message.sif.now ≤ Limits.SIF_OCTETS }
        requires waits { holding.waits self.old.settings self.old.node.parts.holds (lent message) ≡ true }
        ensures refused { IfErr result (λ cause.
            no_room kept self.old.settings (lent message.entry) self.old.node.queues ≡ Some cause) }
        ensures taken { OnOk result
            (no_room kept self.old.settings (lent message.entry) self.old.node.queues ≡ None) }
        ensures state { self.new ≡ (if is_ok result
            then with_node self.old (holding.hold kept (lent message.entry) self.old.node)
            else self.old) }
    {
        self.lanes.push_back(HELD, message)
    }

    /// Takes the numbers of User Data on a link: what it confirms leaves the link's list.
    #[inline(always)]
    pub(super) fn accept_numbers(
        &mut self,
        link: LinkId,
        fsn: Number24,
        bsn: Number24,
        carries: bool,
    ) -> Result<usize, SeqFault>
        requires { link < length self.old.settings.links }
        ensures answer { result ≡ kept.accept_answer self.old.node.queues link fsn bsn carries }
        ensures state { self.new ≡ with_node self.old (record self.old.node {
          queues = kept.accepted self.old.node.queues link fsn bsn carries;
        }) }
    {
        self.sequences[link.index()].accept(&mut self.lanes, lane_of(link), fsn, bsn, carries)
    }

    /// How many messages a link's list has.
    pub(super) fn count_on(&self, link: LinkId) -> usize
        requires { link < length self.now.settings.links }
        ensures { result ≡ length (link_lane self.now.node.queues link) }
    {
        self.lanes.count(lane_of(link))
    }

    /// Whether a link has as many unconfirmed messages as its share of the pool, if the settings give it one.
    pub(super) fn is_share_full(&self, link: LinkId) -> bool
        requires { link < length self.now.settings.links }
        ensures { result ≡ is_share_full kept self.now.settings link self.now.node.queues }
    {
        match self.row_of(link).share() {
            Some(share) => self.count_on(link) >= usize::from(share),
            None => false,
        }
    }

    /// Notes an index of a link's list: the message there, and the next one, are then found at once.
    pub(super) fn note_place(&mut self, link: LinkId, place: usize)
        requires { link < length self.old.settings.links }
        ensures { self.new ≡ self.old }
    {
        self.lanes.note(lane_of(link), place);
    }

    /// Drops the messages of a link's list.
    pub(super) fn drop_all(&mut self, link: LinkId)
        requires { link < length self.old.settings.links }
        ensures { self.new ≡
            with_node self.old (record self.old.node { queues = without_lane self.old.node.queues link }) }
    {
        let lane = lane_of(link);
        let count = self.lanes.count(lane);
        self.lanes.drop_front(lane, count);
    }
}
