//! One end of a link.

ghost use Rattle.std.specs.Prelude.{◌≡◌};

use crate::gates::node::Node;
use crate::gates::outbox::Outbox;
use exchange::{Exchange, LinkId, LinkStanding, LinkView};
use sctp_endpoint::endpoint::KEY_OCTETS;
use sctp_endpoint::{Address, Addresses, Settings};
use sctp_gate::Gate;
use sctp_sending::Bounds;
use std::alloc::Global;
use std::marker::Model;

/// The SCTP port of M2PA (RFC 4165 §7.1), and here the UDP port, too.
const PORT: u16 = 3565;

/// Where the other end of each link is.
const PEER: Address = Address {
    host: [0; 16],
    port: PORT,
};

/// The settings of each endpoint. A timeout is longer than an answer takes, so only what isn't answered goes out again;
/// and no heartbeat is due before this program ends.
fn settings() -> Settings
    ensures initial { result.bounds.initial ≡ 300 }
    ensures least { result.bounds.least ≡ 100 }
    ensures most { result.bounds.most ≡ 1000 }
{
    Settings {
        own_port: PORT,
        far_port: PORT,
        address: PEER,
        addresses: Addresses::none(),
        bounds: Bounds {
            initial: 300,
            least: 100,
            most: 1_000,
        },
        init_retransmissions: 8,
        retransmissions: 10,
        heartbeat: 600_000,
        cookie_life: 60_000,
    }
}

/// The gate of a link at a node, and what it puts out.
pub struct GateEnd {
    /// The point of the node.
    pub point: u8,
    gate: Gate,
    pub outbox: Outbox,
}

impl Model for GateEnd {
    ghost Value = { Unit {0} };

    ghost view = { λ _. tt };
}

// By hand, so that no proof above has what an end owns.
impl Drop for GateEnd {
    fn drop(self) {
        let GateEnd {
            point: _,
            gate: _,
            outbox: _,
        } = self;
    }
}

impl GateEnd {
    /// The end of a link at the node of a point: it tries to open the link, or waits for the other end to do so. None
    /// if memory ran out.
    pub fn new(alloc: Global, point: u8, link: u8, tries: bool) -> Option<GateEnd> {
        // No two keys are the same.
        let key = point << 4 | link;
        let (tags, cookies) = ([key; KEY_OCTETS], [!key; KEY_OCTETS]);
        let gate = Gate::new(alloc, LinkId::new(link), tries, settings(), tags, cookies).ok()?;
        Some(GateEnd {
            point,
            gate,
            outbox: Outbox::new(alloc),
        })
    }

    /// The place of its node among all: that of point 1 is the first.
    fn place(&self) -> usize {
        usize::from(self.point).saturating_sub(1)
    }

    /// The link as its node shows it.
    pub fn shown(&self, nodes: &[Node]) -> Option<LinkView> {
        nodes.get(self.place())?.link(self.gate.link())
    }

    /// Whether the link is in service.
    pub fn serves(&self, nodes: &[Node]) -> bool {
        match self.shown(nodes) {
            Some(view) => view.standing == LinkStanding::InService,
            None => false,
        }
    }

    /// Puts out what there is, at a time in milliseconds.
    pub fn put_out(&mut self, nodes: &mut [Node], now: u64) {
        self.call(Call::Settle, nodes, now);
        self.call(Call::Tick, nodes, now);
        self.call(Call::Fill, nodes, now);
    }

    /// Hears, in order, what the other end put out and it didn't hear yet.
    pub fn hear(&mut self, from: &mut Outbox, nodes: &mut [Node], now: u64) {
        for datagram in from.unheard() {
            self.call(Call::Hear(datagram), nodes, now);
        }
        from.note_heard();
    }

    /// Ends the association.
    pub fn close(&mut self, nodes: &mut [Node], now: u64) {
        self.call(Call::Close, nodes, now);
    }

    fn call(&mut self, what: Call<'_>, nodes: &mut [Node], now: u64) {
        if let Some(node) = nodes.get_mut(self.place()) {
            make_call(&mut self.gate, what, node.lend(), now, &mut self.outbox);
        }
    }
}

/// What is called at a gate.
#[derive(Clone, Copy)]
enum Call<'a> {
    Settle,
    Tick,
    Fill,
    Hear(&'a [u8]),
    Close,
}

/// Calls a gate, whose clauses callers of this don't see.
fn make_call(
    gate: &mut Gate,
    what: Call<'_>,
    exchange: &mut Exchange,
    now: u64,
    outbox: &mut Outbox,
) {
    match what {
        Call::Settle => gate.settle(exchange, now, outbox),
        Call::Tick => gate.tick(exchange, now, outbox),
        Call::Fill => gate.fill(exchange, now, outbox),
        Call::Hear(datagram) => gate.hear(exchange, datagram, &PEER, now, outbox),
        Call::Close => gate.close(exchange, now, outbox),
    }
}
