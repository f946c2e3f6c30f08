//! A node's end of a link over datagrams.

use crate::datagrams::hearing::hear_all;
use crate::datagrams::incoming::Incoming;
use crate::datagrams::plugs::{Inbox, Plug};
use crate::datagrams::watched_socket::WatchedSocket;
use exchange::Exchange;
use sctp_endpoint::endpoint::KEY_OCTETS;
use sctp_endpoint::{Addresses, Settings as EndpointSettings};
use sctp_gate::Gate;
use sctp_sending::Bounds;
use settings::LinkId;
use std::alloc::{AllocError, Global};
use std::random::RandomSource;

/// The SCTP port of M2PA (RFC 4165 §7.1).
const M2PA_PORT: u16 = 3565;

/// How long a cookie is good, in milliseconds: Valid.Cookie.Life (RFC 9260 §16).
const COOKIE_LIFE: u32 = 60_000;

/// RTO.Initial, RTO.Min and RTO.Max. These and the numbers below are those of `stp serve` if its settings give none.
const BOUNDS: Bounds = Bounds {
    initial: 300,
    least: 100,
    most: 1_000,
};

/// Max.Init.Retransmits.
const INIT_RETRANSMISSIONS: u32 = 8;

/// Association.Max.Retrans.
const RETRANSMISSIONS: u32 = 10;

/// HB.interval, in milliseconds.
const HEARTBEAT: u32 = 5_000;

/// Octets of a datagram that are read to be dropped.
const DROPPED_OCTETS: usize = 16;

/// The keys of an endpoint.
#[derive(Clone, Copy)]
pub(crate) struct Keys {
    tags: [u8; KEY_OCTETS],
    cookies: [u8; KEY_OCTETS],
}

impl Keys {
    /// Draws both at random; None if the system gives none.
    pub(crate) fn draw<R: RandomSource>(random: &R) -> Option<Keys> {
        let mut keys = Keys {
            tags: [0; KEY_OCTETS],
            cookies: [0; KEY_OCTETS],
        };
        random.fill_bytes(&mut keys.tags).ok()?;
        random.fill_bytes(&mut keys.cookies).ok()?;
        Some(keys)
    }
}

/// A node's end of a link: its gate, and what its datagrams come from and go out by.
#[derive(Drop)]
pub(crate) struct GateEnd {
    gate: Gate,
    inbox: Inbox,
    socket: WatchedSocket,
}

/// What came to an end in a move.
#[derive(Clone, Copy)]
pub(crate) struct Heard {
    /// How many datagrams came.
    pub(crate) datagrams: u64,
    /// How many frames were in them.
    pub(crate) frames: u64,
    /// How many of these had a message for the node.
    pub(crate) local: u64,
}

impl GateEnd {
    /// An end without an association. It tries to open one, or waits for the other end. The error means that memory ran
    /// out.
    pub(crate) fn new(
        alloc: Global,
        link: LinkId,
        tries: bool,
        plug: Plug,
        keys: &Keys,
    ) -> Result<GateEnd, AllocError> {
        let settings = EndpointSettings {
            own_port: M2PA_PORT,
            far_port: M2PA_PORT,
            address: plug.inbox.other(),
            addresses: Addresses::none(),
            bounds: BOUNDS,
            init_retransmissions: INIT_RETRANSMISSIONS,
            retransmissions: RETRANSMISSIONS,
            heartbeat: HEARTBEAT,
            cookie_life: COOKIE_LIFE,
        };
        let gate = Gate::new(alloc, link, tries, settings, keys.tags, keys.cookies)?;
        Ok(GateEnd {
            gate,
            inbox: plug.inbox,
            socket: WatchedSocket::new(plug.outgoing),
        })
    }

    /// The endpoint is set to what the link wants.
    pub(crate) fn settle(&mut self, node: &mut Exchange, now: u64) {
        self.gate.settle(node, now, &mut self.socket);
    }

    /// Time went by.
    pub(crate) fn tick(&mut self, node: &mut Exchange, now: u64) {
        self.gate.tick(node, now, &mut self.socket);
    }

    /// The association ends by ABORT.
    pub(crate) fn close(&mut self, node: &mut Exchange, now: u64) {
        self.gate.close(node, now, &mut self.socket);
    }

    /// Frames go out, and what else is due.
    pub(crate) fn put_out(&mut self, node: &mut Exchange, now: u64) {
        self.gate.settle(node, now, &mut self.socket);
        self.gate.fill(node, now, &mut self.socket);
    }

    /// Hands in the datagrams that are on their way from the other end. Those that don't come are lost.
    pub(crate) fn hear(&mut self, other: &GateEnd, node: &mut Exchange, now: u64) -> Heard {
        let (frames, local) = (self.socket.frames, self.socket.local);
        let awaited = self.awaited(other);
        let heard = hear_all(
            &mut self.gate,
            node,
            &mut self.inbox,
            awaited,
            now,
            &mut self.socket,
        );
        self.inbox.taken = other.socket.sent;
        Heard {
            datagrams: heard as u64,
            frames: self.socket.frames.saturating_sub(frames),
            local: self.socket.local.saturating_sub(local),
        }
    }

    /// Drops the datagrams that are on their way from the other end. Returns how many there were.
    pub(crate) fn drop_all(&mut self, other: &GateEnd) -> usize {
        let awaited = self.awaited(other);
        let mut buffer = [0; DROPPED_OCTETS];
        for dropped in 0..awaited {
            if self.inbox.receive(&mut buffer).is_none() {
                self.inbox.taken = other.socket.sent;
                return dropped;
            }
        }
        self.inbox.taken = other.socket.sent;
        awaited
    }

    /// How many datagrams are on their way from the other end.
    fn awaited(&self, other: &GateEnd) -> usize {
        let awaited = other.socket.sent.saturating_sub(self.inbox.taken);
        usize::try_from(awaited).unwrap_or(usize::MAX)
    }
}
