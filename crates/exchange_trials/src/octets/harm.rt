//! How good frames are harmed.

use crate::dice::Dice;
use crate::octets::buffer::Octets;
use crate::octets::good::{FarEnd, LINK_STATUS, USER_DATA, add_good, add_headers};
use exchange::Limits;
use signalling_types::number::next;

/// Harms the frame that begins at an offset and goes to the end, or leaves it as it is.
pub(crate) fn harm(dice: &mut Dice, far: &FarEnd, start: usize, out: &mut Octets) {
    match dice.octet() % 18 {
        0..=4 => {}
        5..=7 => flip_bits(dice, start, out),
        8 => change_length(dice, start, out),
        9..=11 => cut_or_join(dice, far, start, out),
        12..=13 => go_to_extremes(dice, start, out),
        14..=16 => replace(dice, far, start, out),
        _ => {
            flip_bits(dice, start, out);
            go_to_extremes(dice, start, out);
        }
    }
}

/// Flips one to eight bits.
fn flip_bits(dice: &mut Dice, start: usize, out: &mut Octets) {
    for _ in 0..=dice.octet() % 8 {
        let at = start.saturating_add(dice.below(out.len_from(start)));
        out.flip(at, 1 << (dice.octet() % 8));
    }
}

/// Lengths that no frame has, or few.
const LENGTHS: [u32; 10] = [0, 1, 7, 8, 16, 17, 4096, 4097, 1 << 31, u32::MAX];

/// Changes the length field: by one, or to an extreme.
fn change_length(dice: &mut Dice, start: usize, out: &mut Octets) {
    let right = u32::try_from(out.len_from(start)).unwrap_or(0);
    let length = match dice.octet() % 4 {
        0 => right.wrapping_add(1),
        1 => right.wrapping_sub(1),
        _ => dice.one_of(&LENGTHS),
    };
    out.set_length(start, length);
}

/// Cuts the end off, or a piece out, or joins octets or another frame to it. Then mostly mends the length field.
fn cut_or_join(dice: &mut Dice, far: &FarEnd, start: usize, out: &mut Octets) {
    let octets = out.len_from(start);
    let at = start.saturating_add(dice.below(octets.saturating_add(1)));
    match dice.octet() % 4 {
        0 => out.cut(at),
        1 => out.take_out(at, dice.below(octets)),
        2 => add_some(dice, out),
        _ => {
            add_good(dice, far, 4, out);
        }
    }
    if !dice.one_in(4) {
        out.mend_length(start);
    }
}

/// Appends a few random octets, or up to as many as a frame may have.
fn add_some(dice: &mut Dice, out: &mut Octets) {
    let many = Limits::FRAME_OCTETS.saturating_add(1);
    let most = if dice.one_in(4) { many } else { 48 };
    let octets = dice.below(most);
    out.add_random(dice, octets);
}

/// Where fields begin, and how many octets each has: version, spare octet, class, type, length, unused octet, BSN,
/// unused octet, FSN, then the state of a Link Status, or the priority octet, the SIO, the label, what comes first
/// after it, and the same of unitdata.
const FIELDS: [(usize, usize); 16] = [
    (0, 1),
    (1, 1),
    (2, 1),
    (3, 1),
    (4, 4),
    (8, 1),
    (9, 3),
    (12, 1),
    (13, 3),
    (16, 4),
    (16, 1),
    (17, 1),
    (18, 4),
    (22, 1),
    (23, 2),
    (24, 3),
];

/// Sets a field to its least or its greatest value, or next to these.
fn go_to_extremes(dice: &mut Dice, start: usize, out: &mut Octets) {
    let field = dice.below(FIELDS.len());
    let (offset, octets) = FIELDS.get(field).copied().unwrap_or((0, 1));
    let at = start.saturating_add(offset);
    let (filling, last) = match dice.octet() % 4 {
        0 => (0, 0),
        1 => (0, 1),
        2 => (0xff, 0xff),
        _ => (0xff, 0xfe),
    };
    let end = at.saturating_add(octets).saturating_sub(1);
    for place in at..end {
        out.set(place, filling);
    }
    out.set(end, last);
}

/// Puts random octets in place of the frame, mostly after good headers of User Data or of Link Status.
fn replace(dice: &mut Dice, far: &FarEnd, start: usize, out: &mut Octets) {
    out.cut(start);
    if dice.one_in(3) {
        add_some(dice, out);
        return;
    }
    let kind = dice.one_of(&[USER_DATA, USER_DATA, LINK_STATUS]);
    add_headers(kind, far.heard, next(far.sent), out);
    add_some(dice, out);
    out.mend_length(start);
}
