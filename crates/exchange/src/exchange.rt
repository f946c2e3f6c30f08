//! The exchange.

ghost use Rattle.std.specs.Prelude.{◌≡◌, ◌≤◌, IfSome};
ghost use Rattle.exchange_rules.specs.State.{State};
ghost use Rattle.exchange.specs.KeptQueues.{KeptQueues, kept};
ghost use Rattle.exchange_rules.specs.Queues.{whole};
ghost use Rattle.exchange.specs.Calls.{happened, StandsFor};
ghost use Rattle.exchange_rules.specs.Exchange.{Ends, outcome_of, after, frame_to_take, taken};
ghost use Rattle.exchange_rules.specs.Exchange as rule;
ghost use Rattle.exchange.specs.Taking.{Writes};
ghost use Rattle.exchange_rules.specs.First.{Abstract};

mod arrival;
mod boot;
mod changing_back;
mod changing_over;
mod counting;
mod failing;
mod frames;
mod head;
mod lanes;
mod late_orders;
mod link_tests;
mod links;
mod local;
mod made;
mod messages;
mod noting;
mod opening;
mod outages;
mod points;
mod recounting;
mod relaying;
mod releasing;
mod rerouting;
mod runs;
mod sending;
mod statuses;
mod subsystems;
mod suspending;
mod telling;
mod ticking;
mod timing;
mod user_parts;
mod views;

use crate::event::{Event, Order};
use crate::frame_text::LONGEST_FRAME;
use crate::reroutings::{DueFlows, FlowSets};
use crate::unequipped::Unequipped;
use cell_pool::CellPool;
use changeback::Changeback;
use changeover::Changeover;
use circular_buffer::HeapCircularBuffer;
use flow_hold::Holds;
use link::Sequence;
use m2pa_codec::BUFFER_OCTETS;
use node_links::NodeLinks;
pub use relaying::LinkWays;
use route_management::{PendingUpdates, Told};
use sccp_relay::Titles;
use settings::{LinkId, Notice, Outcome, Settings};
use std::marker::Model;
use timers::Timers;

/// The links, queues and messages of one node.
///
/// It has no clock, no socket and no thread: events are handed in with `step`, and frames are fetched with `take`.
/// `boot` allocates all memory, except for translation rows that an operator adds and for the answers of `run`.
pub struct Exchange {
    settings: Settings,
    lanes: CellPool,
    sequences: Vec<Sequence>,
    links: NodeLinks,
    told: Told,
    changeovers: Changeover,
    changeback: Changeback,
    holds: Holds,
    titles: Titles,
    unequipped: Unequipped,
    timers: Timers,
    notices: HeapCircularBuffer<Notice>,
    // how many notices there ever were
    notice_count: u64,
    times_lost: u64,
    messages_lost: u64,
    times_broken: u64,
    times_late: u64,
    // by which sets flows went last, and how often one was rerouted
    flow_sets: FlowSets,
    times_rerouted: u64,
    // whether a hold changed since the messages of Held were last walked
    release_due: bool,
    // which updates for adjacent points may be pending
    pending: PendingUpdates,
    // which flows may have changed their set since they were last counted
    flows_due: DueFlows,
}

// By hand, so that no proof above has what an exchange owns.
impl Drop for Exchange {
    fn drop(self) {
        let Exchange {
            settings: _,
            lanes: _,
            sequences: _,
            links: _,
            told: _,
            changeovers: _,
            changeback: _,
            holds: _,
            titles: _,
            unequipped: _,
            timers: _,
            notices: _,
            notice_count: _,
            times_lost: _,
            messages_lost: _,
            times_broken: _,
            times_late: _,
            flow_sets: _,
            times_rerouted: _,
            release_due: _,
            pending: _,
            flows_due: _,
        } = self;
    }
}

impl Model for Exchange {
    ghost use Rattle.exchange_rules.specs.State.{State};
    ghost use Rattle.exchange.specs.KeptQueues.{KeptQueues};

    ghost Value = { State KeptQueues };

    ghost use Rattle.std.specs.Coded.{codes};
    ghost use Rattle.flow_hold.specs.Stored.{hold_set_code};
    ghost use Rattle.timers.specs.OneMap.{running_code};

    ghost coded = { Prim.hlevel (codes, hold_set_code, running_code) };

    ghost use Rattle.exchange.specs.Room.{kept_in, HasRoom};

    ghost view = { kept_in };

    ghost invariant = { HasRoom };
}

impl Exchange {
    /// Handles an event, and returns its outcome. Only the orders that add translation rows allocate memory, and only
    /// they can be refused NoMemory; then nothing has changed.
    #[inline(always)]
    pub fn step(&mut self, event: &Event<'_>) -> Outcome
        // For every abstract state that the exchange stood for, the outcome is that of the abstract step,
        ensures outcome { (a : Abstract) → StandsFor self.old a →
            result ≡ outcome_of whole (happened event.now result) a }
        // and the exchange stands for the state after it.
        ensures state { (a : Abstract) → StandsFor self.old a →
            StandsFor self.new (after whole (happened event.now result) a) }

        // The same on what is kept.
        ensures kept_outcome { result ≡ outcome_of kept (happened event.now result) self.old }
        ensures kept_state { self.new ≡ after kept (happened event.now result) self.old }
    {
        self.happen(event)
    }

    /// Writes the next frame to go out on a link to the front of `buffer`, and returns its length in octets: a waiting
    /// status, else the next message if the window allows and the peer isn't busy, else the acknowledgement that is due
    /// (RFC 4165 §4). A message that it returns counts as sent: send it after those returned before, or hand in
    /// AssociationDown.
    ///
    /// Returns `None`, and writes nothing, if there is no such link or it has nothing to send.
    #[inline(always)]
    pub fn take(&mut self, link: LinkId, buffer: &mut [u8; BUFFER_OCTETS]) -> Option<usize>
        // For every abstract state that the exchange stood for, the frame is that of the abstract take,
        ensures frame { (a : Abstract) → StandsFor self.old a →
            Writes (frame_to_take whole a link) result buffer.old buffer.new }
        // and the exchange stands for the state after it.
        ensures state { (a : Abstract) → StandsFor self.old a → StandsFor self.new (taken whole a link) }

        // The same on what is kept.
        ensures kept_frame { Writes (frame_to_take kept self.old link) result buffer.old buffer.new }
        ensures kept_state { self.new ≡ taken kept self.old link }
        // It isn't longer than a frame with the longest message.
        ensures fits { IfSome result (λ count. count ≤ LONGEST_FRAME) }
    {
        self.write_next_frame(link, buffer)
    }
}

impl Exchange {
    /// Applies an event; then counts the flows that were rerouted by it.
    #[inline(always)]
    fn happen(&mut self, event: &Event<'_>) -> Outcome
        ensures outcome { result ≡ outcome_of kept (happened event.now result) self.old }
        ensures state { self.new ≡ after kept (happened event.now result) self.old }
    {
        let outcome = self.apply(event);
        self.count_flows();
        outcome
    }

    /// Passes an event to its handler; then releases messages that are no longer held, and queues the pending updates
    /// for adjacent points.
    #[inline(always)]
    fn apply(&mut self, event: &Event<'_>) -> Outcome
        ensures { Ends self.old result self.new
            (rule.apply kept self.old.settings (happened event.now result) self.old.node) }
    {
        let outcome = self.handle_event(event);
        self.release_if_due();
        self.tell_owed();
        outcome
    }

    /// Hands an event to its handler.
    #[inline(always)]
    fn handle_event(&mut self, event: &Event<'_>) -> Outcome
        ensures { Ends self.old result self.new
            (rule.handle_event kept self.old.settings (happened event.now result) self.old.node) }
    {
        match event {
            Event::AssociationUp(link) => self.association_up(*link),
            Event::AssociationDown(link) => self.association_down(*link),
            Event::Frame(link, octets) => {
                let outcome = self.receive(*link, octets);
                self.order_late_after(outcome)
            }
            Event::Tick => {
                let outcome = self.tick();
                self.order_late_after(outcome)
            }
            Event::Submit(message) => self.submit(*message),
            Event::Order(Order::Activate { link, emergency }) => self.activate(*link, *emergency),
            Event::Order(Order::Deactivate(link)) => self.deactivate(*link),
            Event::Order(Order::Release(link)) => self.release_bar(*link),
            Event::Order(Order::AddTitle(row)) => self.add_title(*row),
            Event::Order(Order::SetTitle(row)) => self.set_title(*row),
            Event::Order(Order::RemoveTitle(key, digits)) => self.remove_title(
                *key,
                digits.as_slice(),
            ),
        }
    }
}
