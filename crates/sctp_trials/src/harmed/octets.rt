//! The octets of a datagram.

use crate::dice::Dice;
use arrayvec::ArrayVec;
use crc32c::{INITIAL, remainder};
use std::marker::Model;

/// Octets of a datagram, at most.
const MOST_OCTETS: usize = 1_472;

/// Octets before the chunks (RFC 9260 §3.1).
pub const HEADER_OCTETS: usize = 12;

/// Where the verification tag is.
pub const TAG_AT: usize = 4;

/// Where the checksum is, and how many octets are before it.
const CHECKSUM_AT: usize = 8;

/// A datagram that is made and then harmed. What doesn't fit is left out.
#[derive(Drop)]
pub struct Octets {
    octets: ArrayVec<u8, MOST_OCTETS>,
}

impl Model for Octets {
    ghost Value = { Unit {0} };

    ghost view = { λ _. tt };
}

impl Octets {
    /// None.
    pub fn new() -> Octets {
        Octets {
            octets: ArrayVec::new(),
        }
    }

    /// All of them.
    pub fn as_slice(&self) -> &[u8] {
        self.octets.as_slice()
    }

    /// Removes all at an offset.
    pub fn cut(&mut self, place: usize) {
        self.octets.truncate(place);
    }

    /// Appends octets, all or none.
    pub fn add(&mut self, octets: &[u8]) {
        let _added = self.octets.try_extend_from_slice(octets);
    }

    /// Appends this many random octets.
    pub fn add_random(&mut self, dice: &mut Dice, count: usize) {
        for _ in 0..count {
            self.add(&[dice.octet()]);
        }
    }

    /// Writes octets at an offset, as far as there is room.
    pub fn put(&mut self, place: usize, octets: &[u8]) {
        let mut at = place;
        for octet in octets {
            if let Some(there) = self.octets.get_mut(at) {
                *there = *octet;
            }
            at = at.saturating_add(1);
        }
    }

    /// Makes the checksum right again.
    pub fn mend(&mut self) {
        let sum = checksum(self.as_slice());
        self.put(CHECKSUM_AT, &sum.to_le_bytes());
    }
}

/// Whether the checksum is right (RFC 9260 §6.8).
pub fn has_right_checksum(octets: &[u8]) -> bool {
    number(octets, CHECKSUM_AT) == checksum(octets).swap_bytes()
}

/// The checksum of a datagram, with zeros in the checksum's place.
fn checksum(octets: &[u8]) -> u32 {
    let front = remainder(INITIAL, piece(octets, 0, CHECKSUM_AT));
    let header = remainder(front, &[0; 4]);
    !remainder(header, octets.get(HEADER_OCTETS..).unwrap_or(&[]))
}

/// This many octets at an offset, or as many as there are.
pub fn piece(octets: &[u8], from: usize, count: usize) -> &[u8] {
    let rest = octets.get(from..).unwrap_or(&[]);
    rest.get(..count).unwrap_or(rest)
}

/// The 32-bit number at an offset.
pub fn number(octets: &[u8], at: usize) -> u32 {
    let mut value = 0u32;
    for i in 0..4usize {
        value = value << 8 | u32::from(octet(octets, at.saturating_add(i)));
    }
    value
}

/// The octet at an offset; 255 if there is none.
pub fn octet(octets: &[u8], at: usize) -> u8 {
    octets.get(at).copied().unwrap_or(u8::MAX)
}
