//! A datagram of a link: it is screened, what is refused is counted and told, and its gate hears it.

ghost use Rattle.std.specs.Prelude.{◌≡◌, true};
ghost use Rattle.exchange.specs.KeptQueues.{kept};
ghost use Rattle.served_link.specs.Counting.{WasSetBack, counted_at};
ghost use Rattle.sctp_links.specs.Counting.{counted_hearing, counted_setback, refused_at};
ghost use Rattle.sctp_links.specs.Screening.{after_screening, did_at, heard_link, is_left_out, is_port_of, screened};
ghost use Rattle.served_link.specs.Times.{millis_of};

use crate::calling::{GateCall, SctpLink};
use crate::hosts::address_of;
use crate::observer::Datagrams;
use crate::screening::{Screened, has_others, is_init, is_told, may_be_refused};
use crate::setbacks::setback_for;
use script::Sink;
use sctp_endpoint::Address;
use served_link::times::millis;
use served_link::{Setback, Watch};
use served_node::{Log, Node};
use std::net::SocketAddr;

impl SctpLink {
    /// A datagram came from the peer's host, with the ports of the link. It is heard, unless it is an INIT that is left
    /// out. What is refused is counted, and told to the log once a second at most.
    pub(crate) fn hear<D: Datagrams, W: Sink, U: Watch>(
        &mut self,
        octets: &[u8],
        source: SocketAddr,
        node: &mut Node,
        datagrams: &mut D,
        log: &mut Log<'_, W>,
        user: &mut U,
    )
        ensures link { self.new
            ≡ heard_link kept (millis_of log.old.now) octets.now source self.old node.old.exchange }
        ensures exchange { node.new.exchange
            ≡ (did_at kept (millis_of log.old.now) octets.now source self.old node.old.exchange).exchange }
        ensures counters { node.new.observers.counters ≡ counted_hearing kept (millis_of log.old.now) octets.now source
            self.old node.old.exchange node.old.observers.counters }
        ensures left_out { is_left_out (screened (millis_of log.old.now) octets.now source self.old) ≡ true
            → datagrams.new ≡ datagrams.old }
    {
        match self.screen(octets, source, millis(log.now)) {
            Screened::Heard => {
                self.note(self.refusal(octets), source, node, log);
                let call = GateCall::Hear(octets, address_of(source));
                self.pass(call, node, datagrams, log, user);
            }
            Screened::OtherPort => self.refuse(Setback::OtherPort, source, node, log),
            Screened::TooMany => self.refuse(Setback::TooMany, source, node, log),
        }
    }

    /// Whether a datagram is heard, or left out.
    fn screen(&mut self, octets: &[u8], source: SocketAddr, now: u64) -> Screened
        ensures screened { result ≡ screened now octets.now source self.old }
        ensures link { self.new ≡ after_screening now octets.now source self.old }
    {
        if !is_init(octets) {
            return Screened::Heard;
        }
        if !self.is_port_of(&address_of(source)) {
            return Screened::OtherPort;
        }
        if self.allowance.take(now) {
            Screened::Heard
        } else {
            Screened::TooMany
        }
    }

    /// Whether an INIT comes from its peer's UDP port.
    fn is_port_of(&self, source: &Address) -> bool
        ensures { result ≡ is_port_of self.now source.now }
    {
        if self.gate.standing().is_up {
            source.port == self.gate.peer_port()
                || has_others(&self.remote) && is_told(&self.remote, source)
        } else {
            !self.remote.is_port_fixed || is_told(&self.remote, source)
        }
    }

    /// Why the endpoint refuses an INIT or an INIT ACK, as things stand before it hears it.
    fn refusal(&self, octets: &[u8]) -> Option<Setback>
        ensures { result ≡ refused_at octets.now self.now.gate }
    {
        if may_be_refused(octets) {
            setback_for(self.gate.refusal(octets))
        } else {
            None
        }
    }

    /// Counts one that was refused, if it was.
    fn note<W: Sink>(
        &mut self,
        setback: Option<Setback>,
        source: SocketAddr,
        node: &mut Node,
        log: &mut Log<'_, W>,
    )
        ensures link { self.new ≡ self.old }
        ensures exchange { node.new.exchange ≡ node.old.exchange }
        ensures counters { node.new.observers.counters
            ≡ counted_setback self.old.gate.link setback node.old.observers.counters }
        ensures time { log.new.now ≡ log.old.now }
    {
        if let Some(setback) = setback {
            self.refuse(setback, source, node, log);
        }
    }

    /// Counts one that was refused.
    fn refuse<W: Sink>(
        &mut self,
        setback: Setback,
        source: SocketAddr,
        node: &mut Node,
        log: &mut Log<'_, W>,
    )
        ensures link { self.new ≡ self.old }
        ensures exchange { node.new.exchange ≡ node.old.exchange }
        ensures counters { node.new.observers.counters
            ≡ counted_at self.old.gate.link (WasSetBack setback) node.old.observers.counters }
        ensures time { log.new.now ≡ log.old.now }
    {
        node.observers.was_set_back(self.gate.link(), setback);
        self.refusals.add(source, setback);
        self.tell_refusals(node, log);
    }

    /// Tells the log what was refused since its last line, if a line is due: `refuse LINK ADDRESS WHY N`, with the last
    /// address and reason, and how many they were.
    pub(crate) fn tell_refusals<W: Sink>(&mut self, node: &Node, log: &mut Log<'_, W>)
        ensures link { self.new ≡ self.old }
        ensures time { log.new.now ≡ log.old.now }
    {
        let now = millis(log.now);
        if !self.refusals.is_due(now) {
            return;
        }
        let name = node.observers.name(self.gate.link());
        let (source, why, count) = (
            self.refusals.source,
            self.refusals.why.name(),
            self.refusals.count,
        );
        log.tell(&format_args!("refuse {name} {source} {why} {count}"));
        self.refusals.clear(now);
    }
}
