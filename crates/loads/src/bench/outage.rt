//! A link that fails and returns, again and again, while the others of its set carry its flows.

use super::end::first;
use super::failure::answer_about;
use super::incoming::Incoming;
use super::peer::Peer;
use settings::{Limits, LinkId};

/// The last link of the first set fails and returns this many times, and the others of its set carry its flows
/// meanwhile. Each order and each declaration is answered. Each time a message of the link is held until the last
/// answer came. It is taken and confirmed, with whatever else the return of the link brings: all of that belongs to the
/// round.
pub(crate) fn come_and_go(peer: &mut Peer, mut message: Incoming, count: u32) {
    for _ in 0..count {
        fail(peer);
        come_back(peer, &mut message);
    }
}

/// The links of the first set before the one that carries the messages come into service, and what they declare is
/// answered.
pub(crate) fn join_set(peer: &mut Peer) {
    for number in 0..peer.link.index() {
        let link = LinkId::new(number as u8);
        peer.open(link);
        peer.answer_each(Limits::LINKS_PER_SET as u8, link);
    }
}

/// The link fails, and its changeover is answered on the first link.
fn fail(peer: &mut Peer) {
    let number = peer.taken(peer.link);
    peer.break_off();
    peer.take(first());
    let mut answer = answer_about(peer.selection(), number);
    peer.answer(first(), &mut answer);
}

/// The link returns, and each declaration is answered. A message of the link comes by the first link before that, and
/// goes out after the last answer.
fn come_back(peer: &mut Peer, message: &mut Incoming) {
    let link = peer.link;
    peer.open(link);
    peer.send(first(), message);
    peer.answer_each(Limits::LINKS_PER_SET as u8, link);
    peer.settle(link);
}
