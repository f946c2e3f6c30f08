//! A node: an exchange, and a gate for each of its links.

ghost use Rattle.std.specs.Prelude.{◌≡◌, ◌<◌, length, slice_get, [], IfOk, IfErr, OnOk};
ghost use Rattle.exchange.specs.Calls.{StandsFor, happened};
ghost use Rattle.exchange_rules.specs.Exchange.{after, outcome_of};
ghost use Rattle.exchange_rules.specs.First.{Abstract};
ghost use Rattle.exchange_rules.specs.Queues.{whole};
ghost use Rattle.sctp_rules.specs.WrittenPackets.{HasPorts};
ghost use Rattle.gate_rules.specs.Octets.{HavePorts};
ghost use Rattle.node_world.specs.Kept.{sent_on, octets_of, is_whole_on, due_on};
ghost use Rattle.node_world.specs.Making.{make_of, gate_make, gate_make_of, first_node, first_port, first_ports, HaveAllPorts, AreInOrder, AreAllInOrder, Suits};
ghost use Rattle.node_world.specs.Calls.{told, NodeCalls, is_there, octets_heard};

use crate::call::Call;
use crate::fault::NodeFault;
use crate::log::Datagram;
use crate::making::{GateMaking, are_in_order};
use crate::port::Port;
use exchange::{Event, Exchange, NoMemory};
use settings::{LinkId, Outcome, PointCode, Settings};
use std::alloc::{AllocError, Global};
use std::marker::Model;

/// An exchange, and the gates of its links with all that they put out.
#[derive(Drop)]
pub(crate) struct Node {
    exchange: Exchange,
    ports: Vec<Port>,
}

impl Model for Node {
    ghost use Rattle.sctp_rules.specs.WrittenPackets.{HasPorts};
    ghost use Rattle.gate_rules.specs.Octets.{HavePorts};
    ghost use Rattle.node_world.specs.Kept.{KeptNode};

    ghost Value = { KeptNode };

    ghost use Rattle.std.specs.Coded.{codes};
    ghost use Rattle.flow_hold.specs.Stored.{hold_set_code};
    ghost use Rattle.timers.specs.OneMap.{running_code};

    ghost coded = { Prim.hlevel (codes, hold_set_code, running_code) };

    ghost view = { λ node. record { exchange = node.exchange; ports = node.ports.items } };
}

impl Node {
    /// A node of these settings, with a gate of each of these, in order, for each of its links.
    ///
    /// BadGates if there are more or fewer of them than links, or if the bounds of one's timeouts are out of order;
    /// NoMemory if memory ran out.
    pub(crate) fn new(
        alloc: Global,
        settings: Settings,
        gates: &[GateMaking],
    ) -> Result<Node, NodeFault>
        ensures first { IfOk result (λ node. node ≡ first_node settings gates.now) }
        ensures ports { OnOk result (HavePorts (make_of settings gates.now)) }
        ensures suit { OnOk result (Suits settings gates.now) }
        ensures bad { IfErr result (λ fault. fault ≡ NodeFault.BadGates → ¬ (Suits settings gates.now)) }
    {
        if gates.len() != settings.link_count() {
            return Err(NodeFault::BadGates);
        }
        let ports = ports_of(alloc, gates, settings.link_count() as u8)?;
        match Exchange::boot(alloc, settings) {
            Ok(exchange) => Ok(Node { exchange, ports }),
            Err(NoMemory) => Err(NodeFault::NoMemory),
        }
    }

    /// The gate of a link is called, with the octets that come, at a time in milliseconds.
    pub(crate) fn call(&mut self, link: LinkId, call: Call, octets: &[u8], now: u64)
        requires { link < length self.old.ports }
        ensures calls { (a : Abstract) → StandsFor self.old.exchange a →
            NodeCalls link (told call octets.now now) self.old self.new a }
        ensures settings { self.new.exchange.settings ≡ self.old.exchange.settings }
    {
        self.ports[link.index()].call(call, octets, now, &mut self.exchange);
    }

    /// Something happens to the exchange.
    pub(crate) fn step(&mut self, event: &Event<'_>) -> Outcome
        ensures outcome { (a : Abstract) → StandsFor self.old.exchange a →
            result ≡ outcome_of whole (happened event.now result) a }
        ensures exchange { (a : Abstract) → StandsFor self.old.exchange a →
            StandsFor self.new.exchange (after whole (happened event.now result) a) }
        ensures ports { self.new.ports ≡ self.old.ports }
        ensures settings { self.new.exchange.settings ≡ self.old.exchange.settings }
    {
        self.exchange.step(event)
    }

    /// Its settings.
    pub(crate) fn settings(&self) -> &Settings
        ensures { result.now ≡ self.now.exchange.settings }
    {
        self.exchange.settings()
    }

    /// The point at which it is.
    pub(crate) fn point(&self) -> PointCode
        ensures { result ≡ self.now.exchange.settings.own }
    {
        self.exchange.settings().own()
    }

    pub(crate) fn exchange(&self) -> &Exchange
        ensures { result.now ≡ self.now.exchange }
    {
        &self.exchange
    }

    /// How many gates it has.
    pub(crate) fn gate_count(&self) -> usize
        ensures { result ≡ length self.now.ports }
    {
        self.ports.len()
    }

    /// The datagrams that the gate of a link put out, in order.
    pub(crate) fn sent(&self, link: LinkId) -> &[Datagram]
        ensures { result.now ≡ sent_on self.now link }
    {
        match self.ports.get(link.index()) {
            Some(port) => port.sent(),
            None => &[],
        }
    }

    /// Whether all that the gate of a link put out is kept; not if there is no such link.
    pub(crate) fn is_whole(&self, link: LinkId) -> bool
        ensures { result ≡ is_whole_on self.now link }
    {
        match self.ports.get(link.index()) {
            Some(port) => port.is_whole(),
            None => false,
        }
    }

    /// When to call the gate of a link next, in milliseconds.
    pub(crate) fn deadline(&self, link: LinkId) -> Option<u64>
        ensures { result ≡ due_on self.now link }
    {
        match self.ports.get(link.index()) {
            Some(port) => port.deadline(),
            None => None,
        }
    }

    /// Whether what a call hears is there.
    pub(crate) fn has(&self, link: LinkId, call: Call) -> bool
        ensures { result ≡ is_there call (sent_on self.now link) }
    {
        match call {
            Call::Hear(place, _) => place < self.sent(link).len(),
            Call::Tick | Call::Settle | Call::Fill | Call::Close => true,
        }
    }

    /// The octets that a call hears.
    pub(crate) fn octets_heard(&self, link: LinkId, call: Call) -> &[u8]
        ensures { result.now ≡ octets_heard call (sent_on self.now link) }
    {
        match call {
            Call::Hear(place, _) => octets_in(self.sent(link), place),
            Call::Tick | Call::Settle | Call::Fill | Call::Close => &[],
        }
    }
}

/// The octets at an index of these datagrams; none if there is no such datagram.
fn octets_in(sent: &[Datagram], place: usize) -> &[u8]
    ensures { result.now ≡ octets_of (slice_get sent.now place) }
{
    match sent.get(place) {
        Some(datagram) => datagram.octets(),
        None => &[],
    }
}

/// The gates of this many links.
fn ports_of(alloc: Global, gates: &[GateMaking], links: u8) -> Result<Vec<Port>, NodeFault>
    requires { links ≡ length gates.now }
    ensures first { IfOk result (λ ports. ports.items ≡ first_ports 0 gates.now) }
    ensures ports { OnOk result (HaveAllPorts gates.now) }
    ensures order { OnOk result (AreAllInOrder gates.now) }
    ensures bad { IfErr result (λ fault. fault ≡ NodeFault.BadGates → ¬ (AreAllInOrder gates.now)) }
{
    let mut ports = Vec::new(alloc);
    for link in 0..links {
        let port = port_in(alloc, gates, LinkId::new(link))?;
        if ports.push(port).is_err() {
            return Err(NodeFault::NoMemory);
        }
    }
    Ok(ports)
}

/// The gate of a link, if there is one.
fn port_in(alloc: Global, gates: &[GateMaking], link: LinkId) -> Result<Port, NodeFault>
    ensures first { IfOk result (λ port. port ≡ first_port link (gate_make_of (slice_get gates.now link))) }
    ensures ports { OnOk result (HasPorts (gate_make_of (slice_get gates.now link)).settings) }
    ensures order { OnOk result (AreInOrder (gate_make_of (slice_get gates.now link)).settings.bounds) }
    ensures bad { IfErr result (λ fault. fault ≡ NodeFault.BadGates → link < length gates.now →
        ¬ (AreInOrder (gate_make_of (slice_get gates.now link)).settings.bounds)) }
{
    match gates.get(link.index()) {
        Some(making) => port_of(alloc, link, making),
        None => Err(NodeFault::BadGates),
    }
}

/// The gate of a link, of what it is made of.
fn port_of(alloc: Global, link: LinkId, making: &GateMaking) -> Result<Port, NodeFault>
    ensures first { IfOk result (λ port. port ≡ first_port link (gate_make making.now)) }
    ensures ports { OnOk result (HasPorts (gate_make making.now).settings) }
    ensures order { OnOk result (AreInOrder making.now.settings.bounds) }
    ensures bad { IfErr result (λ fault. fault ≡ NodeFault.BadGates →
        ¬ (AreInOrder making.now.settings.bounds)) }
{
    if !are_in_order(making) {
        return Err(NodeFault::BadGates);
    }
    match Port::new(alloc, link, making) {
        Ok(port) => Ok(port),
        Err(AllocError) => Err(NodeFault::NoMemory),
    }
}
