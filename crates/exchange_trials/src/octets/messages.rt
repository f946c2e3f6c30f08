//! Good messages: of user parts, of management, link tests, and unitdata with global titles.

use crate::dice::Dice;
use crate::octets::buffer::Octets;
use crate::octets::good::FarEnd;
use crate::octets::target::OWN;

/// Points: the node's own, its destinations, and one that it doesn't know.
const POINTS: [u32; 8] = [OWN, OWN, 2, 3, 300, 300, 400, 999];

/// Appends a message: its SIO, then its SIF.
pub(crate) fn add_message(dice: &mut Dice, far: &FarEnd, out: &mut Octets) {
    match dice.octet() % 12 {
        0..=3 => add_user_message(dice, far, out),
        4..=7 => add_management(dice, far, out),
        8 => add_link_test(dice, far, out),
        _ => add_unitdata(dice, far, out),
    }
}

/// Appends the SIO of a service indicator in the international network, and a label of one of this many selections
/// (Q.704 §2.2, §14.2). The message comes from the far end, or one time in sixteen from any point.
fn add_front(dice: &mut Dice, far: &FarEnd, indicator: u8, to: u32, codes: u8, out: &mut Octets) {
    let any = dice.one_of(&POINTS);
    let from = if dice.one_in(16) { any } else { far.point };
    let code = u32::from(dice.octet() % codes.max(1) % 16);
    let label = to % (1 << 14) + from % (1 << 14) * (1 << 14) + code * (1 << 28);
    out.add(&[0x80 | indicator % 16]);
    out.add(&label.to_le_bytes());
}

/// A message of a user part, mostly of ISUP.
fn add_user_message(dice: &mut Dice, far: &FarEnd, out: &mut Octets) {
    let indicator = if dice.one_in(8) { dice.octet() } else { 5 };
    let to = dice.one_of(&POINTS);
    add_front(dice, far, indicator, to, 16, out);
    // A few octets after the label, or about the most that there may be, 268.
    let many = if dice.one_in(16) { 262 } else { 0 };
    let octets = dice.below(12).saturating_add(many);
    out.add_random(dice, octets);
}

/// The headings of management messages, and two that no message has: XCO and XCA, CBD and CBA, ECO and ECA, TFP, TFR
/// and TFA, RST and RSR, TRA (Q.704 §15, Q.2210 §9.8).
const HEADINGS: [u8; 16] = [
    0x31, 0x41, 0x51, 0x61, 0x12, 0x22, 0x14, 0x14, 0x34, 0x54, 0x54, 0x15, 0x25, 0x17, 0x20, 0xff,
];

/// A management message: about a link, with the last number received or any; with a code; or about a point.
fn add_management(dice: &mut Dice, far: &FarEnd, out: &mut Octets) {
    let heading = dice.one_of(&HEADINGS);
    add_front(dice, far, 0, OWN, 3, out);
    out.add(&[heading]);
    match heading {
        0x31 | 0x41 if dice.one_in(3) => out.add_random(dice, 3),
        0x31 | 0x41 => {
            let [high, middle, low] = far.heard.to_be_bytes();
            out.add(&[low, middle, high]);
        }
        0x51 | 0x61 => out.add(&[dice.octet() % 18]),
        0x14 | 0x34 | 0x54 | 0x15 | 0x25 => {
            let [low, high, _, _] = dice.one_of(&POINTS).to_le_bytes();
            out.add(&[low, high]);
        }
        _ => {}
    }
}

/// A link test, or the answer to one.
fn add_link_test(dice: &mut Dice, far: &FarEnd, out: &mut Octets) {
    let heading = dice.one_of(&[0x11, 0x11, 0x21, 0x31]);
    let octets = dice.octet() % 16;
    add_front(dice, far, 1, OWN, 16, out);
    out.add(&[heading, octets << 4]);
    out.add_random(dice, usize::from(octets));
}

/// An address of an SCCP message: by a title that leads to point 3, to 300, to this node or nowhere, or of another
/// nature; by a subsystem of this node, one that isn't there, or one with a point code; or one of two that can't be
/// read.
fn address(number: u8) -> &'static [u8] {
    match number % 10 {
        0 => &[0x12, 6, 0, 0x12, 4, 0x94, 0x03],
        1 => &[0x12, 6, 0, 0x12, 4, 0x94, 0x71, 0x02],
        2 => &[0x10, 0, 0x12, 4, 0x33, 0x01],
        3 => &[0x10, 0, 0x12, 4, 0x55, 0x01],
        4 => &[0x12, 6, 0, 0x12, 3, 0x94, 0x71, 0x02],
        5 => &[0x42, 8],
        6 => &[0x42, 9],
        7 => &[0x43, 2, 0, 8],
        8 => &[0x43, 2],
        _ => &[],
    }
}

/// A UDT or a UDTS (Q.713 §4): three pointers, and then called address, calling address and data.
fn add_unitdata(dice: &mut Dice, far: &FarEnd, out: &mut Octets) {
    let kind = dice.one_of(&[0x09, 0x09, 0x09, 0x0a, 0x0b]);
    let class = dice.one_of(&[0x80, 0x81, 0x00, 0x01, 0x82]);
    let (called, calling) = (address(dice.octet()), address(dice.octet()));
    let (to, from) = ((called.len() % 16) as u8, (calling.len() % 16) as u8);
    let octets = dice.octet() % 24;
    add_front(dice, far, 3, OWN, 16, out);
    out.add(&[kind, class, 3, to + 3, to + from + 3, to]);
    out.add(called);
    out.add(&[from]);
    out.add(calling);
    out.add(&[octets]);
    out.add_random(dice, usize::from(octets));
}
