//! A link over SCTP: its gate, and a call of it. `call`, `pass_counted`, `pass`, `perform`, `call_beside`,
//! `call_through` and `make_call` are one call, parted for the prover: each has fewer things among its values than the
//! one that calls it.

ghost use Rattle.std.specs.Prelude.{◌≡◌, map};
ghost use Rattle.exchange.specs.KeptQueues.{kept};
ghost use Rattle.sctp_bundling.specs.Watching.{sent_as};
ghost use Rattle.served_link.specs.Counting.{NodeCounters};
ghost use Rattle.sctp_gate.specs.Making.{Makes};
ghost use Rattle.sctp_links.specs.Calls.{called};
ghost use Rattle.sctp_links.specs.Counting.{counted_by, counted_call, counted_did};
ghost use Rattle.sctp_links.specs.Links.{new_link};
ghost use Rattle.served_link.specs.Times.{millis_of};
ghost use Rattle.sctp_gate.specs.Gates.{due};

use crate::allowance::Allowance;
use crate::hosts::address_of;
use crate::observer::{Datagrams, GateObserver, Origin};
use crate::refusals::Refusals;
use exchange::Exchange;
use script::Sink;
use sctp_endpoint::Address;
use sctp_gate::Gate;
use served_link::Watch;
use served_link::times::millis;
use served_node::{Log, Node, Observers};
use settings::FailureReason;
use settings_file::serve::Remote;
use std::marker::{Brand, Model, PhantomData};
use std::time::Duration;

/// A call of a gate.
#[derive(Clone, Copy)]
pub(crate) enum GateCall<'a> {
    /// A datagram came from an address.
    Hear(&'a [u8], Address),
    /// A timer is due.
    Tick,
    /// The endpoint does what the link wants.
    Settle,
    /// Frames go out.
    Fill,
    /// The association ends by ABORT.
    Close,
}

impl GateCall<'_> {
    /// Where the datagram of the call came from; this address, if it has none.
    fn source_or(self, address: Address) -> Address {
        match self {
            GateCall::Hear(_, source) => source,
            GateCall::Tick | GateCall::Settle | GateCall::Fill | GateCall::Close => address,
        }
    }
}

/// A link over SCTP.
#[derive(Drop)]
pub(crate) struct SctpLink {
    pub(crate) gate: Gate,
    /// Its peer, as the settings say.
    pub(crate) remote: Remote,
    pub(crate) allowance: Allowance,
    /// Where its peer is, as lines of the log name it. While an association is up: where the datagram came from that
    /// opened it, and then where the last one went. Otherwise as the settings say.
    far_address: Address,
    /// What was refused since the last line of the log.
    pub(crate) refusals: Refusals,
}

// What is kept for lines of the log isn't part of it.
impl Model for SctpLink {
    ghost use Rattle.sctp_links.specs.Links.{Link};

    ghost Value = { Link };

    ghost view = { λ l. record { gate = l.gate; remote = l.remote; allowance = l.allowance } };
}

impl SctpLink {
    /// The link to a peer, by this gate.
    pub(crate) fn new(remote: &Remote, gate: Gate) -> SctpLink
        ensures { result ≡ new_link remote.now gate }
    {
        SctpLink {
            gate,
            remote: *remote,
            allowance: Allowance::new(),
            far_address: address_of(remote.address),
            refusals: Refusals::new(remote.address),
        }
    }

    /// When a call of its gate is due, in milliseconds.
    pub(crate) fn deadline(&self) -> Option<u64>
        ensures { result ≡ due self.now.gate }
    {
        self.gate.deadline()
    }

    /// Makes a call of the gate that hands in no datagram. What passes is told and counted, and then what is new in the
    /// node.
    pub(crate) fn call<D: Datagrams, W: Sink, U: Watch>(
        &mut self,
        what: GateCall<'_>,
        node: &mut Node,
        datagrams: &mut D,
        log: &mut Log<'_, W>,
        user: &mut U,
    )
        ensures gate { self.new ≡ record self.old {
          gate = (called kept what.entry (millis_of log.old.now) self.old.gate node.old.exchange).gate;
        } }
        ensures exchange { node.new.exchange
            ≡ (called kept what.entry (millis_of log.old.now) self.old.gate node.old.exchange).exchange }
    {
        self.pass_counted(what, node, datagrams, log, user);
        node.look(FailureReason::Association, log);
    }

    /// Makes a call of the gate. What passes is told and counted, but not what is new in the node: that is for its
    /// `look`, which then knows of an association that came up.
    pub(crate) fn pass<D: Datagrams, W: Sink, U: Watch>(
        &mut self,
        what: GateCall<'_>,
        node: &mut Node,
        datagrams: &mut D,
        log: &mut Log<'_, W>,
        user: &mut U,
    )
        ensures gate { self.new ≡ record self.old {
          gate = (called kept what.entry (millis_of log.old.now) self.old.gate node.old.exchange).gate;
        } }
        ensures exchange { node.new.exchange
            ≡ (called kept what.entry (millis_of log.old.now) self.old.gate node.old.exchange).exchange }
        ensures counters { node.new.observers.counters ≡ counted_did self.old.gate.link
            (called kept what.entry (millis_of log.old.now) self.old.gate node.old.exchange)
            node.old.observers.counters }
    {
        let was_up = self.gate.standing().is_up;
        self.forget_association();
        self.perform(what, log.now, node, datagrams, log.sink, user);
        if !was_up && self.gate.standing().is_up {
            node.note_up();
        }
    }

    /// The same, and how many chunks its association sent again is counted: those of a fill, since no other call sends
    /// any.
    fn pass_counted<D: Datagrams, W: Sink, U: Watch>(
        &mut self,
        what: GateCall<'_>,
        node: &mut Node,
        datagrams: &mut D,
        log: &mut Log<'_, W>,
        user: &mut U,
    )
        ensures gate { self.new ≡ record self.old {
          gate = (called kept what.entry (millis_of log.old.now) self.old.gate node.old.exchange).gate;
        } }
        ensures exchange { node.new.exchange
            ≡ (called kept what.entry (millis_of log.old.now) self.old.gate node.old.exchange).exchange }
        ensures counters { node.new.observers.counters ≡ counted_call self.old.gate
            (called kept what.entry (millis_of log.old.now) self.old.gate node.old.exchange)
            node.old.observers.counters }
    {
        let link = self.gate.link();
        let before = self.gate.retransmissions();
        self.pass(what, node, datagrams, log, user);
        let chunks = self.gate.retransmissions().saturating_sub(before);
        node.observers.went_again(link, chunks);
    }

    /// If no association is up, the peer is where the settings say.
    fn forget_association(&mut self)
        ensures { self.new ≡ self.old }
    {
        if !self.gate.standing().is_up {
            self.far_address = address_of(self.remote.address);
        }
    }

    /// Makes a call of the gate at a time. What passes is counted.
    fn perform<D: Datagrams, W: Sink, U: Watch>(
        &mut self,
        what: GateCall<'_>,
        time: Duration,
        node: &mut Node,
        datagrams: &mut D,
        sink: &mut W,
        user: &mut U,
    )
        ensures gate { self.new ≡ record self.old {
          gate = (called kept what.entry (millis_of time) self.old.gate node.old.exchange).gate;
        } }
        ensures exchange { node.new.exchange
            ≡ (called kept what.entry (millis_of time) self.old.gate node.old.exchange).exchange }
        ensures counters { node.new.observers.counters ≡ counted_did self.old.gate.link
            (called kept what.entry (millis_of time) self.old.gate node.old.exchange) node.old.observers.counters }
    {
        call_beside(
            &mut self.gate,
            &mut self.far_address,
            what,
            time,
            &mut node.exchange,
            &mut node.observers,
            datagrams,
            sink,
            user,
        );
    }
}

/// Makes a call of a gate, with its exchange. What passes is told, and counted.
fn call_beside<D: Datagrams, W: Sink, U: Watch>(
    gate: &mut Gate,
    far_address: &mut Address,
    what: GateCall<'_>,
    time: Duration,
    exchange: &mut Exchange,
    observers: &mut Observers,
    datagrams: &mut D,
    sink: &mut W,
    user: &mut U,
)
    ensures gate { gate.new ≡ (called kept what.entry (millis_of time) gate.old exchange.old).gate }
    ensures exchange { exchange.new ≡ (called kept what.entry (millis_of time) gate.old exchange.old).exchange }
    ensures counters { observers.new.counters ≡ counted_by gate.old.link
        (map sent_as (called kept what.entry (millis_of time) gate.old exchange.old).sent)
        (called kept what.entry (millis_of time) gate.old exchange.old).seen observers.old.counters }
{
    let link = gate.link();
    let mut observer: GateObserver<'_, '_, '_, '_, D, W, U, Brand> = GateObserver {
        link,
        source: what.source_or(*far_address),
        far_address: *far_address,
        observers,
        datagrams,
        sink,
        now: time,
        user,
        origin: PhantomData,
    };
    call_through::<D, W, U, Brand>(gate, what, millis(time), exchange, &mut observer);
    *far_address = observer.far_address;
}

/// Makes a call of a gate through an observer.
fn call_through<D: Datagrams, W: Sink, U: Watch, K: Origin>(
    gate: &mut Gate,
    what: GateCall<'_>,
    now: u64,
    exchange: &mut Exchange,
    observer: &mut GateObserver<'_, '_, '_, '_, D, W, U, K>,
)
    requires link { observer.old.link ≡ K.link }
    requires observers_name { observer.old.observers.ghost_name ≡ K.observers_name }
    requires datagrams_name { observer.old.datagrams.ghost_name ≡ K.datagrams_name }
    requires sink_name { observer.old.sink.ghost_name ≡ K.sink_name }
    requires user_name { observer.old.user.ghost_name ≡ K.user_name }
    requires is_from { (began : NodeCounters) → K.is_from began → began ≡ observer.old.observers.now.counters }
    requires began { K.is_from observer.old.observers.now.counters }
    ensures same_observers { observer.new.observers.ghost_name ≡ observer.old.observers.ghost_name }
    ensures same_datagrams { observer.new.datagrams.ghost_name ≡ observer.old.datagrams.ghost_name }
    ensures same_sink { observer.new.sink.ghost_name ≡ observer.old.sink.ghost_name }
    ensures same_user { observer.new.user.ghost_name ≡ observer.old.user.ghost_name }
    ensures gate { gate.new ≡ (called kept what.entry now gate.old exchange.old).gate }
    ensures exchange { exchange.new ≡ (called kept what.entry now gate.old exchange.old).exchange }
    ensures counters { observer.new.observers.now.counters ≡ counted_by observer.old.link
        (map sent_as (called kept what.entry now gate.old exchange.old).sent)
        (called kept what.entry now gate.old exchange.old).seen observer.old.observers.now.counters }
{
    make_call(gate, what, now, exchange, observer);
}

/// Makes a call of a gate.
fn make_call<W: sctp_gate::Watch>(
    gate: &mut Gate,
    what: GateCall<'_>,
    now: u64,
    exchange: &mut Exchange,
    watch: &mut W,
)
    ensures { Makes W.has watch.old watch.new gate.new exchange.new
        (called kept what.entry now gate.old exchange.old) }
{
    match what {
        GateCall::Hear(octets, source) => gate.hear(exchange, octets, &source, now, watch),
        GateCall::Tick => gate.tick(exchange, now, watch),
        GateCall::Settle => gate.settle(exchange, now, watch),
        GateCall::Fill => gate.fill(exchange, now, watch),
        GateCall::Close => gate.close(exchange, now, watch),
    }
}
