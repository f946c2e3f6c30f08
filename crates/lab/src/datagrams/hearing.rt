//! Datagrams that come, handed in at a gate.

ghost use Rattle.std.specs.Prelude.{◌≡◌, ◌⊎◌, ◌≤◌};
ghost use Rattle.exchange.specs.KeptQueues.{kept};
ghost use Rattle.exchange.specs.Calls.{StandsFor};
ghost use Rattle.exchange_rules.specs.Queues.{whole};
ghost use Rattle.exchange_rules.specs.First.{Abstract};
ghost use Rattle.sctp_gate.specs.Making.{Makes, MakesWhole};
ghost use Rattle.lab.specs.Hearing.{GivesEach, IsDry, heard_all};

use crate::datagrams::incoming::Incoming;
use exchange::Exchange;
use sctp_gate::{Gate, Watch};

/// Octets of a datagram, at most.
const DATAGRAM_OCTETS: usize = 65_535;

/// Hands in the datagrams that come at a gate, one after another, until none comes, but at most this many. Returns how
/// many came. It allocates no memory.
pub fn hear_all<I: Incoming, W: Watch>(
    gate: &mut Gate,
    exchange: &mut Exchange,
    incoming: &mut I,
    most: usize,
    now: u64,
    watch: &mut W,
) -> usize
    // These are the datagrams that came, and the gate heard each of them once, in order, and nothing else.
    ensures kept { GivesEach result (I.coming incoming.old) (I.coming incoming.new)
        (λ came. Makes W.has watch.old watch.new gate.new exchange.new
        (heard_all kept now came gate.old exchange.old)) }

    // For all abstract states that the exchange stood for, it is that of the abstract gate.
    ensures whole { (a : Abstract) → StandsFor exchange.old a
        → GivesEach result (I.coming incoming.old) (I.coming incoming.new)
        (λ came. MakesWhole W.has watch.old watch.new gate.new exchange.new (heard_all whole now came gate.old a)) }
    // It stops early only if none comes.
    ensures ended { (result ≡ most) ⊎ IsDry (I.coming incoming.new) }
    ensures few { result ≤ most }
{
    let mut buffer = [0; DATAGRAM_OCTETS];
    for heard in 0..most {
        let Some((count, source)) = incoming.receive(&mut buffer) else {
            return heard;
        };
        gate.hear(exchange, &buffer[..count], &source, now, watch);
    }
    most
}
