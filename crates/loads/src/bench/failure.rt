//! The changeover of a link with many messages on it.

use super::end::first;
use super::incoming::Incoming;
use super::peer::Peer;
use mtp3_codec::Management;
use settings::{LinkId, Sls};
use signalling_types::Number24;

/// How far the link's way is followed.
#[derive(Clone, Copy)]
pub(crate) enum Stage {
    /// Messages are on the link.
    Queue,
    /// Then its association goes down.
    Failure,
    /// Then the peer says what it accepted, and the messages go on by the other links of the set.
    Completion,
}

/// Messages come by the first link of a set, and are on the last one; a window of them is sent. If the stage says so,
/// that link then fails, and its changeover ends. Each link of the set is in service before.
pub(crate) fn change_over(peer: &mut Peer, stage: Stage, mut message: Incoming, count: u32) {
    for _ in 0..count {
        peer.send(first(), &mut message);
    }
    let before = peer.taken(peer.link);
    peer.take_window(peer.link);
    match stage {
        Stage::Queue => {}
        Stage::Failure => peer.break_off(),
        Stage::Completion => {
            peer.break_off();
            complete(peer, before);
        }
    }
    for number in 0..peer.link.index() {
        peer.take_frame(LinkId::new(number as u8));
    }
}

/// The peer says that it accepted half a window of messages after this one.
fn complete(peer: &mut Peer, before: Number24) {
    let half = peer.window() as u32 / 2;
    if let Some(number) = Number24::new((before.value() + half) % Number24::MODULUS) {
        let mut answer = answer_about(peer.selection(), number);
        peer.send(first(), &mut answer);
    }
}

/// The peer's answer to a changeover order about the link of a code (Q.2210 §9.8).
pub(crate) fn answer_about(code: Sls, number: Number24) -> Incoming {
    Incoming::with_management(Management::ExtendedChangeoverAcknowledgement(code, number))
}
