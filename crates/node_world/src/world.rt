//! Any number of nodes, and the network between them.

ghost use Rattle.std.specs.Prelude.{◌≡◌, ◌<◌, true, false, All, is_some, length, IfSome};
ghost use Rattle.signalling_types.specs.declared.outcome.Outcome.TheVariants.{Ignored};
ghost use Rattle.exchange.specs.Calls as exchanges;
ghost use Rattle.exchange.specs.Calls.{happened};
ghost use Rattle.exchange_rules.specs.Exchange.{outcome_of};
ghost use Rattle.exchange_rules.specs.Queues.{whole};
ghost use Rattle.exchange_rules.specs.State.{lost_any};
ghost use Rattle.network_datagrams.specs.NetworkPromises.{BooksAreOfTheTwo, EachFlowInOrder, EachMessageAccounted, EachMessageOnce, FlowsStayBetween, HopsKeepFlows, LastHopsKeepOrder, MessagesComeToEnd, NodesPassInOrder, NothingAwaitedInVain, NothingHeldInVain, PathsKeepFlows, PathsKeepOrder};
ghost use Rattle.network_gates.specs.GateWorlds.{Calls, GateWorld, Happens, after};
ghost use Rattle.sctp_gate.specs.Gates.{due};
ghost use Rattle.node_world.specs.Kept.{due_at, has_node, is_whole_at, lost_at, node_at, points_of, sent_at, sent_to};
ghost use Rattle.node_world.specs.Calls.{told, octets_heard, is_made, is_there};
ghost use Rattle.node_world.specs.Stands.{StandsFor, IsSentBy, HasAll};
ghost use Rattle.node_world.specs.Promised.{AloneComeBetween, Promises};
ghost use Rattle.node_world.specs.Worlds.{MayComeFrom, may_happen};

use crate::call::Call;
use crate::calling::{call_from, step_from};
use crate::log::Datagram;
use crate::node::Node;
use crate::reading::{deadline_at, exchange_at, is_whole_at, lost_at, place_of, sent_at};
use exchange::{Event, Exchange};
use settings::{LinkId, Outcome, PointCode};
use std::marker::Model;

/// Any number of nodes, joined by links in any shape, each an exchange with a gate for each of its links, and all
/// datagrams that any gate ever put out.
///
/// The network is no more than these datagrams: any of them may come to the gate at the other end of its link, at any
/// moment, any number of times, in any order, or never. The world stands for one of `network_gates` to which steps led
/// from a new one (`StandsFor`). `new` makes it so, and each `step` and `call` keeps it so, except one by which a
/// datagram comes that is too old (`MayComeFrom`). A datagram for which memory runs out isn't kept, as if the network
/// had lost it; only by this is a log no longer whole (`is_whole`).
#[derive(Drop)]
pub struct World {
    pub(crate) nodes: Vec<Node>,
}

impl Model for World {
    ghost use Rattle.std.specs.Prelude.{List};
    ghost use Rattle.node_world.specs.Kept.{KeptNode};

    ghost Value = { List KeptNode };

    ghost use Rattle.std.specs.Coded.{codes};
    ghost use Rattle.flow_hold.specs.Stored.{hold_set_code};
    ghost use Rattle.timers.specs.OneMap.{running_code};

    ghost coded = { Prim.hlevel (codes, hold_set_code, running_code) };

    ghost view = { λ world. world.nodes.items };
}

impl World {
    /// Something happens to the exchange of the node at a point that its links don't bring: a user part hands a message
    /// over, a tick passes, or the operator gives an order. What a link brings is Ignored, and so is all where no node
    /// is at the point: that changes nothing.
    pub fn step(&mut self, at: PointCode, event: &Event<'_>) -> Outcome
        // For each abstract world that it stood for, the outcome is that of the abstract exchange,
        ensures outcome { (w : GateWorld) → StandsFor self.old w → may_happen event.now at self.old ≡ true →
            result ≡ outcome_of whole (happened event.now result) (w.node at).books.exchange }
        // and it stands for the world after that step.
        ensures state { (w : GateWorld) → StandsFor self.old w → may_happen event.now at self.old ≡ true →
            StandsFor self.new (after at (Happens (happened event.now result)) w) }
        ensures ignored { may_happen event.now at self.old ≡ false → result ≡ Ignored }
        ensures unchanged { may_happen event.now at self.old ≡ false → self.new ≡ self.old }
        // Its nodes stay at their points.
        ensures points { points_of self.new ≡ points_of self.old }
    {
        match place_of(&self.nodes, at) {
            Some(place) => step_from(&mut self.nodes, place, event),
            None => Outcome::Ignored,
        }
    }

    /// Calls the gate of a link of the node at a point, at a time in milliseconds. Returns whether it did: not if there
    /// is no such node or link, or no such datagram.
    pub fn call(&mut self, at: PointCode, link: LinkId, call: Call, now: u64) -> bool
        ensures answer { result ≡ is_made call at link self.old }
        // Each link of a node leads to another node, so this is whether what comes is there.
        ensures made { (w : GateWorld) → StandsFor self.old w →
            link < length (w.node at).books.exchange.settings.links →
            result ≡ is_there call (sent_to self.old at link) }
        // It is a call of each abstract world that it stood for, if a datagram that comes isn't too old.
        ensures state { (w : GateWorld) → StandsFor self.old w → result ≡ true →
            MayComeFrom w at link call (octets_heard call (sent_to self.old at link)) →
            StandsFor self.new
            (after at (Calls link (told call (octets_heard call (sent_to self.old at link)) now)) w) }
        ensures unchanged { result ≡ false → self.new ≡ self.old }
        ensures points { points_of self.new ≡ points_of self.old }
    {
        match place_of(&self.nodes, at) {
            Some(place) => call_from(&mut self.nodes, place, link, call, now),
            None => false,
        }
    }
}

impl World {
    /// Whether a message may have been lost at the node at a point (`Exchange::lost_any`). False where no node is.
    pub fn lost_any(&self, at: PointCode) -> bool
        ensures kept { result ≡ lost_at (node_at at self.now) }
        ensures stands { (w : GateWorld) → StandsFor self.now w →
            result ≡ lost_any (w.node at).books.exchange.node.parts }
    {
        lost_at(&self.nodes, at)
    }

    /// The exchange of the node at a point. None where no node is there.
    pub fn at(&self, at: PointCode) -> Option<&Exchange>
        ensures there { is_some result ≡ has_node at self.now }
        ensures stands { (w : GateWorld) → StandsFor self.now w →
            IfSome result (λ exchange. exchanges.StandsFor exchange.now (w.node at).books.exchange) }
    {
        exchange_at(&self.nodes, at)
    }

    /// The datagrams that the gate of a link of the node at a point put out, in order; none if there is no such node or
    /// link.
    pub fn sent(&self, at: PointCode, link: LinkId) -> &[Datagram]
        ensures sent { result.now ≡ sent_at (node_at at self.now) link }
        // Each is a packet that the abstract gate put out.
        ensures put_out { (w : GateWorld) → StandsFor self.now w →
            All (IsSentBy ((w.node at).ports link)) result.now }
    {
        sent_at(&self.nodes, at, link)
    }

    /// Whether `sent` has all datagrams that the gate of a link put out: memory never ran out for one. False if there
    /// is no such node or link.
    pub fn is_whole(&self, at: PointCode, link: LinkId) -> bool
        ensures kept { result ≡ is_whole_at (node_at at self.now) link }
        ensures has_all { (w : GateWorld) → StandsFor self.now w → result ≡ true →
            HasAll ((w.node at).ports link) (sent_at (node_at at self.now) link) }
        // Once it is false, fewer are kept than the abstract gate put out.
        ensures fewer { (w : GateWorld) → StandsFor self.now w →
            link < length (w.node at).books.exchange.settings.links → result ≡ false →
            length (sent_at (node_at at self.now) link) < length ((w.node at).ports link).packets }
    {
        is_whole_at(&self.nodes, at, link)
    }

    /// When to call the gate of a link next, in milliseconds (`Gate::deadline`); None if there is no such node or link.
    pub fn deadline(&self, at: PointCode, link: LinkId) -> Option<u64>
        ensures kept { result ≡ due_at (node_at at self.now) link }
        ensures stands { (w : GateWorld) → StandsFor self.now w →
            link < length (w.node at).books.exchange.settings.links → result ≡ due ((w.node at).ports link).gate }
    {
        deadline_at(&self.nodes, at, link)
    }

    /// What holds over datagrams between any two steps and calls, however the network treats them (`laws` of
    /// `network_gates`).
    ///
    /// Between each two nodes that share a link set, while neither may have lost a message (`lost_any`): "exactly
    /// once", and nothing is awaited in vain; and "order" of each flow, while besides `Exchange::late_any` is false at
    /// the node that accepted it. Whatever was lost, nothing is held in vain, what is booked of the two is for the one
    /// or the other, and their flows to each other stay on their set. Between two that have only each other, while
    /// neither may have lost a message, of all user messages: as many of every kind were accepted at one as the other
    /// received and as wait; and those of each flow came in order, while besides `late_any` is false at the node that
    /// accepted them.
    ///
    /// From end to end, while no node may have lost a message: as many user messages entered, by any test, as were
    /// received, as wait, and as were refused on the way; so it is of the messages for each node, if all have its
    /// network indicator. And over a path of which each hop keeps a flow in order, it comes in order. This says so by
    /// its contract, and does nothing.
    pub fn laws(&self)
        ensures once { Promises EachMessageOnce self.now }
        ensures order { Promises EachFlowInOrder self.now }
        ensures alone { AloneComeBetween self.now }
        ensures accounted { Promises EachMessageAccounted self.now }
        ensures to_each { Promises MessagesComeToEnd self.now }
        ensures awaited { Promises NothingAwaitedInVain self.now }
        ensures held { Promises NothingHeldInVain self.now }
        ensures booked { Promises BooksAreOfTheTwo self.now }
        ensures flows { Promises FlowsStayBetween self.now }
        ensures nodes { Promises NodesPassInOrder self.now }
        ensures paths { Promises PathsKeepOrder self.now }
        ensures last { Promises LastHopsKeepOrder self.now }
        ensures hops { Promises HopsKeepFlows self.now }
        ensures flow_paths { Promises PathsKeepFlows self.now }
    {}
}
