//! What changes routes or passes time, again and again. Adjacent points take and confirm what they are told.

use super::end::first;
use super::incoming::Incoming;
use super::peer::Peer;
use crate::draft::OWN;
use mtp3_codec::Management;
use settings::PointCode;

/// The adjacent point of the first set reports a point, transfer-prohibited and then transfer-allowed, this many times.
pub(crate) fn change_status(peer: &mut Peer, about: PointCode, count: u32) {
    let mut prohibited = Incoming::with_management(Management::TransferProhibited(about));
    let mut allowed = Incoming::with_management(Management::TransferAllowed(about));
    for _ in 0..count {
        hear(peer, &mut prohibited);
        hear(peer, &mut allowed);
    }
}

/// The only link in service of the first set fails and returns this many times. Usually most destinations lie only
/// behind it. Other points are told of both, and its own point, which takes all for allowed at first, is told of the
/// return.
pub(crate) fn enter(peer: &mut Peer, count: u32) {
    for _ in 0..count {
        peer.break_off();
        peer.settle_each();
        peer.outlast_timers();
        peer.open(peer.link);
        peer.settle_each();
    }
}

/// The adjacent point of the first set reports that each destination is prohibited by it. T10 runs from then on for
/// those that the set leads to.
pub(crate) fn prohibit_each(peer: &mut Peer, destinations: u16) {
    for number in 0..destinations {
        let about = PointCode::of_low_bits(u32::from(OWN) + 1 + u32::from(number));
        hear(
            peer,
            &mut Incoming::with_management(Management::TransferProhibited(about)),
        );
    }
}

/// T10 runs out this many times for all prohibited routes, in one of the ticks that pass, and each point takes what it
/// is asked. Each time all of these timers start again.
pub(crate) fn test_routes(peer: &mut Peer, count: u32) {
    for _ in 0..count {
        peer.outlast_timers();
        peer.settle_each();
    }
}

/// The adjacent point of the first set sends a message, and each point takes what comes of it.
fn hear(peer: &mut Peer, message: &mut Incoming) {
    peer.answer(first(), message);
    peer.settle_each();
}
