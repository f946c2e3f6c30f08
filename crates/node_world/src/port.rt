//! A gate, with all that it ever put out.

ghost use Rattle.std.specs.Prelude.{◌≡◌, ◌<◌, ◌^◌, IfOk};
ghost use Rattle.sctp_rules.specs.WrittenPackets.{HasPorts};
ghost use Rattle.exchange.specs.Calls.{StandsFor};
ghost use Rattle.exchange_rules.specs.Queues.{whole};
ghost use Rattle.exchange_rules.specs.First.{Abstract};
ghost use Rattle.sctp_gate.specs.Calling.{called};
ghost use Rattle.sctp_gate.specs.Gates.{due};
ghost use Rattle.node_world.specs.Making.{AreInOrder, gate_make, first_port};
ghost use Rattle.node_world.specs.Calls.{told, PortCalls};

use crate::call::Call;
use crate::log::{Datagram, Log};
use crate::making::GateMaking;
use exchange::Exchange;
use sctp_gate::Gate;
use settings::LinkId;
use std::alloc::{AllocError, Global};
use std::marker::Model;

/// A gate, and the datagrams that it put out.
#[derive(Drop)]
pub(crate) struct Port {
    gate: Gate,
    log: Log,
}

impl Model for Port {
    ghost use Rattle.node_world.specs.Kept.{KeptPort};

    ghost Value = { KeptPort };

    ghost view = { λ port. record { gate = port.gate; log = port.log } };
}

impl Port {
    /// A gate that put out nothing yet. The error means that memory ran out.
    pub(crate) fn new(alloc: Global, link: LinkId, making: &GateMaking) -> Result<Port, AllocError>
        requires { AreInOrder making.now.settings.bounds }
        ensures first { IfOk result (λ port. port ≡ first_port link (gate_make making.now)) }
        ensures ports { HasPorts (gate_make making.now).settings }
    {
        has_16_bits(making.settings.own_port);
        has_16_bits(making.settings.far_port);
        let gate = Gate::new(
            alloc,
            link,
            making.tries,
            making.settings,
            making.tag_key,
            making.cookie_key,
        )?;
        Ok(Port {
            gate,
            log: Log::new(alloc),
        })
    }

    /// The gate is called, with the octets that come, at a time in milliseconds.
    pub(crate) fn call(&mut self, call: Call, octets: &[u8], now: u64, exchange: &mut Exchange)
        ensures calls { (a : Abstract) → StandsFor exchange.old a → PortCalls self.old self.new exchange.new
            (called whole (told call octets.now now) self.old.gate a) }
        ensures settings { exchange.new.settings ≡ exchange.old.settings }
    {
        match call {
            Call::Hear(_, source) => self
                .gate
                .hear(exchange, octets, &source, now, &mut self.log),
            Call::Tick => self.gate.tick(exchange, now, &mut self.log),
            Call::Settle => self.gate.settle(exchange, now, &mut self.log),
            Call::Fill => self.gate.fill(exchange, now, &mut self.log),
            Call::Close => self.gate.close(exchange, now, &mut self.log),
        }
    }

    /// When to call the gate next, in milliseconds.
    pub(crate) fn deadline(&self) -> Option<u64>
        ensures { result ≡ due self.now.gate }
    {
        self.gate.deadline()
    }

    /// The datagrams that it put out, in order.
    pub(crate) fn sent(&self) -> &[Datagram]
        ensures { result.now ≡ self.now.log.sent }
    {
        self.log.sent()
    }

    /// Whether all of them are kept.
    pub(crate) fn is_whole(&self) -> bool
        ensures { result ≡ self.now.log.is_whole }
    {
        self.log.is_whole()
    }
}

/// A port of SCTP has 16 bits. Does nothing.
fn has_16_bits(port: u16)
    ensures { port < 2 ^ 16 }
{}
