//! Good frames: Link Status, and User Data with and without a message.

use crate::dice::Dice;
use crate::octets::buffer::Octets;
use crate::octets::messages::add_message;
use signalling_types::Number24;
use signalling_types::number::next;

/// The message types of User Data and Link Status (RFC 4165 §2.1.4).
pub(crate) const USER_DATA: u8 = 1;

pub(crate) const LINK_STATUS: u8 = 2;

/// How many states a Link Status may tell, from 1 on (RFC 4165 §2.3.2).
const STATES: u8 = 9;

/// The far end of a link.
#[derive(Clone, Copy)]
pub(crate) struct FarEnd {
    /// The adjacent point.
    pub point: u32,
    /// The last message that it received: the backward sequence number of its frames.
    pub heard: Number24,
    /// The last message that it sent: the forward sequence number of its frames without a message.
    pub sent: Number24,
}

/// Appends a good frame: this many times in sixteen a Link Status, else User Data. Returns the number of the last
/// message that the far end has sent then.
pub(crate) fn add_good(dice: &mut Dice, far: &FarEnd, statuses: u8, out: &mut Octets) -> Number24 {
    let kind = dice.octet() % 16;
    if kind < statuses {
        add_status(far, dice.octet() % STATES + 1, out);
        far.sent
    } else if kind == 15 {
        add_empty(far, out);
        far.sent
    } else {
        let start = add_headers(USER_DATA, far.heard, next(far.sent), out);
        out.add(&[0]);
        add_message(dice, far, out);
        out.mend_length(start);
        next(far.sent)
    }
}

/// Appends User Data with this message: its SIO, then its SIF.
pub(crate) fn add_data(far: &FarEnd, message: &[u8], out: &mut Octets) {
    let start = add_headers(USER_DATA, far.heard, next(far.sent), out);
    out.add(&[0]);
    out.add(message);
    out.mend_length(start);
}

/// Appends User Data without a message.
pub(crate) fn add_empty(far: &FarEnd, out: &mut Octets) {
    let start = add_headers(USER_DATA, far.heard, far.sent, out);
    out.mend_length(start);
}

/// Appends a Link Status of this state.
pub(crate) fn add_status(far: &FarEnd, state: u8, out: &mut Octets) {
    let start = add_headers(LINK_STATUS, far.heard, far.sent, out);
    out.add(&[0, 0, 0, state]);
    out.mend_length(start);
}

/// Appends both headers of a frame of this type (RFC 4165 §2.1, §2.2), and returns where they begin.
pub(crate) fn add_headers(kind: u8, bsn: Number24, fsn: Number24, out: &mut Octets) -> usize {
    let start = out.len();
    out.add(&[1, 0, 11, kind, 0, 0, 0, 0]);
    out.add(&bsn.to_four_octets());
    out.add(&fsn.to_four_octets());
    start
}
