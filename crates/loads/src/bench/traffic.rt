//! Messages of one kind, one after another.

ghost use Rattle.std.specs.Prelude.{◌≤◌, length};

use super::arguments::{Arguments, Kind, LABEL_OCTETS, Size};
use super::failure::change_over;
use super::incoming::Incoming;
use super::outage::{come_and_go, join_set};
use super::peer::Peer;
use super::route_changes::{change_status, enter, prohibit_each, test_routes};
use super::unitdata::{title_from, unitdata};
use crate::draft::{INTERNATIONAL, ISUP, PAIR, adjacent, own};
use mtp3_codec::Label;
use settings::{Limits, MsuRef, Sls};

/// After how many messages an empty frame confirms them.
const CONFIRMED_AT_ONCE: u32 = 64;

/// The service information octet of the ISDN user part in the international network (Q.704 §14.2).
const SIO: u8 = INTERNATIONAL << 6 | ISUP;

/// What is in a message after its label.
const FILLING: u8 = 0xaa;

/// Carries the messages, all to the last destination or to the node's own point, which may lead or send them on.
pub(crate) fn carry(peer: &mut Peer, arguments: &Arguments) {
    bring_in(peer, arguments);
    let count = arguments.count;
    match arguments.kind {
        Kind::Acknowledgement => acknowledge(peer, count),
        Kind::Relay(_) => forward(peer, unitdata_of(peer, arguments, 0), count),
        Kind::Udts(_) => forward(peer, unitdata_of(peer, arguments, 0xff), count),
        // with one link the first ten meet T8 of each destination that its point was told of; later ones, and all with
        // more links, meet no timer that runs
        Kind::Tick => peer.pass(count),
        Kind::Status => change_status(peer, arguments.shape.last_point(), count),
        Kind::Entry => enter(peer, count),
        Kind::Expiry => {
            prohibit_each(peer, arguments.shape.destinations);
            test_routes(peer, count);
        }
        Kind::Submit => {
            let field = isup_field(peer, arguments);
            submit(peer, &field[..arguments.octets], count);
        }
        _ => carry_isup(peer, arguments, isup_message(peer, arguments)),
    }
}

/// Brings into service what is to be in service besides the link that carries the messages. If the settings are larger
/// than usual, that is all links, except the other one of the first set if that set is to fail and return. Nothing is
/// owed then, and no timer runs.
fn bring_in(peer: &mut Peer, arguments: &Arguments) {
    match (arguments.size, arguments.kind) {
        (Size::Usual, Kind::Tick | Kind::Status | Kind::Entry | Kind::Expiry) => peer.open_from(1),
        (Size::Usual, Kind::Return) => join_set(peer),
        (Size::Usual, Kind::Standing(_)) => peer.open_set(),
        (Size::Usual, _) => {}
        (_, kind) => {
            let is_entry = matches!(kind, Kind::Entry);
            peer.open_from(if is_entry { PAIR } else { 0 });
            peer.outlast_timers();
        }
    }
}

/// Carries messages of the ISDN user part, which are like this one.
fn carry_isup(peer: &mut Peer, arguments: &Arguments, message: Incoming) {
    let count = arguments.count;
    match arguments.kind {
        Kind::Burst => burst(peer, message, count),
        Kind::Local => local(peer, message, count),
        Kind::Standing(stage) => change_over(peer, stage, message, count),
        Kind::Return => come_and_go(peer, message, count),
        _ => forward(peer, message, count),
    }
}

/// A message of the ISDN user part to the last destination, once what is to be in service is.
pub(crate) fn forwarded(peer: &mut Peer, arguments: &Arguments) -> Incoming {
    bring_in(peer, arguments);
    isup_message(peer, arguments)
}

/// A message of the ISDN user part.
fn isup_message(peer: &Peer, arguments: &Arguments) -> Incoming {
    let field = isup_field(peer, arguments);
    Incoming::with_message(SIO, &field[..arguments.octets])
}

/// The field of a message of the ISDN user part to the last destination, or to this point: a label, and octets after
/// it, as many as may be.
fn isup_field(peer: &Peer, arguments: &Arguments) -> [u8; Limits::SIF_OCTETS] {
    let label = Label {
        opc: adjacent(),
        dpc: match arguments.kind {
            Kind::Local => own(),
            _ => arguments.shape.last_point(),
        },
        sls: selection_of(peer, arguments),
    };
    let mut octets = [FILLING; Limits::SIF_OCTETS];
    octets[..LABEL_OCTETS].copy_from_slice(&label.write());
    octets
}

/// The selection of all messages: one of the link that carries them, if others of its set are in service too.
fn selection_of(peer: &Peer, arguments: &Arguments) -> Sls {
    match (arguments.size, arguments.kind) {
        (Size::Usual, Kind::Standing(_) | Kind::Return) => peer.selection(),
        (Size::Usual, _) => Sls::of_low_bits(0),
        _ => peer.selection(),
    }
}

/// A UDT with a title that begins with these octets.
fn unitdata_of(peer: &Peer, arguments: &Arguments, first: u8) -> Incoming {
    let selection = selection_of(peer, arguments);
    unitdata(
        &title_from(first),
        arguments.shape.table,
        selection,
        arguments.octets,
    )
}

/// Messages that come, and go on or back, each confirmed by the next one.
fn forward(peer: &mut Peer, mut message: Incoming, count: u32) {
    for _ in 0..count {
        peer.send(peer.link, &mut message);
        peer.take(peer.link);
    }
}

/// The same, a whole window at a time.
fn burst(peer: &mut Peer, mut message: Incoming, count: u32) {
    for _ in 0..count as usize / peer.window().max(1) {
        for _ in 0..peer.window() {
            peer.send(peer.link, &mut message);
        }
        peer.take_window(peer.link);
    }
}

/// Messages of a user part that go out.
fn submit(peer: &mut Peer, sif: &[u8], count: u32)
    requires { length sif.now ≤ Limits.SIF_OCTETS }
{
    for number in 0..count {
        peer.submit(MsuRef { sio: SIO, sif });
        peer.take(peer.link);
        if number % CONFIRMED_AT_ONCE == 0 {
            peer.confirm(peer.link);
        }
    }
}

/// Messages that come for a user part, each acknowledged.
fn local(peer: &mut Peer, mut message: Incoming, count: u32) {
    for _ in 0..count {
        peer.send(peer.link, &mut message);
        peer.take_frame(peer.link);
    }
}

/// Frames without a message.
fn acknowledge(peer: &mut Peer, count: u32) {
    for _ in 0..count {
        peer.confirm(peer.link);
    }
}
