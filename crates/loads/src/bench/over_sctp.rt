//! Messages that are forwarded over SCTP.

ghost use Rattle.std.specs.Prelude.{◌≤◌};

use super::arguments::Arguments;
use super::incoming::Incoming;
use super::peer::Peer;
use super::side::Side;
use super::total::Total;
use super::traffic::forwarded;
use std::alloc::Global;

/// Datagrams that a SACK confirms.
const CONFIRMED: u32 = 2;

/// Datagrams in which an association opens, each way.
const OPENING: u32 = 2;

/// Octets of the chunks of a datagram, at most.
const CHUNKS_OCTETS: usize = 1_188;

/// Octets of a DATA chunk before its message.
const DATA_OCTETS: usize = 16;

/// How many messages go in a datagram.
#[derive(Clone, Copy)]
pub(crate) enum Datagrams {
    /// One.
    Single,
    /// As many as it takes.
    Full,
}

impl Datagrams {
    /// How many messages, in frames of this many octets.
    fn messages(self, octets: usize) -> u32
        requires { octets ≤ 512 }
    {
        match self {
            Datagrams::Single => 1,
            Datagrams::Full => (CHUNKS_OCTETS / (DATA_OCTETS + (octets + 3) / 4 * 4)) as u32,
        }
    }
}

/// Forwards messages, whose frames go out by one endpoint and come to another, which confirms two datagrams at a time.
/// Counts the frames that it tells. None if memory ran out.
pub(crate) fn over_sctp(
    alloc: Global,
    peer: &mut Peer,
    arguments: &Arguments,
    datagrams: Datagrams,
) -> Option<Total> {
    let mut near = Side::new(alloc, 1).ok()?;
    let mut far = Side::new(alloc, 2).ok()?;
    open(&mut near, &mut far);
    let mut message = forwarded(peer, arguments);
    let in_each = datagrams.messages(message.count());
    for _ in 0..arguments.count / CONFIRMED / in_each.max(1) {
        carry_round(peer, &mut message, in_each, &mut near, &mut far);
    }
    Some(far.told.total)
}

/// An association begins.
fn open(near: &mut Side, far: &mut Side) {
    far.open(false, near);
    near.open(true, far);
    for _ in 0..OPENING {
        far.answer(near);
        near.answer(far);
        far.flush(near);
    }
}

/// Messages come and go on, in as many datagrams as a SACK confirms.
fn carry_round(
    peer: &mut Peer,
    message: &mut Incoming,
    in_each: u32,
    near: &mut Side,
    far: &mut Side,
) {
    for _ in 0..CONFIRMED {
        for _ in 0..in_each {
            peer.send(peer.link, message);
            peer.hand_over(near);
        }
        near.flush(far);
    }
    far.flush(near);
    near.tick();
    far.tick();
}
