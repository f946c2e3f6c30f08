//! The octets of a frame, or of a stream of frames.

use crate::dice::Dice;
use arrayvec::ArrayVec;
use std::marker::Model;

/// How many octets there are at most.
const MOST_OCTETS: usize = 8192;

/// Where the length field of a frame is (RFC 4165 §2.1.5).
const LENGTH_AT: usize = 4;

/// Octets that are made and then harmed. What doesn't fit is left out.
#[derive(Drop)]
pub(crate) struct Octets {
    octets: ArrayVec<u8, MOST_OCTETS>,
}

impl Model for Octets {
    ghost Value = { Unit {0} };

    ghost view = { λ _. tt };
}

impl Octets {
    /// No octets.
    pub(crate) fn new() -> Octets {
        Octets {
            octets: ArrayVec::new(),
        }
    }

    /// All octets.
    pub(crate) fn as_slice(&self) -> &[u8] {
        self.octets.as_slice()
    }

    /// How many there are.
    pub(crate) fn len(&self) -> usize {
        self.as_slice().len()
    }

    /// How many there are at an offset.
    pub(crate) fn len_from(&self, place: usize) -> usize {
        self.len().saturating_sub(place)
    }

    /// Removes all octets at an offset.
    pub(crate) fn cut(&mut self, place: usize) {
        self.octets.truncate(place);
    }

    /// Appends octets, all or none.
    pub(crate) fn add(&mut self, octets: &[u8]) {
        let _added = self.octets.try_extend_from_slice(octets);
    }

    /// Appends this many random octets.
    pub(crate) fn add_random(&mut self, dice: &mut Dice, count: usize) {
        for _ in 0..count {
            self.add(&[dice.octet()]);
        }
    }

    /// Flips bits of the octet at an offset, if there is one.
    pub(crate) fn flip(&mut self, place: usize, bits: u8) {
        if let Some(there) = self.octets.get_mut(place) {
            *there ^= bits;
        }
    }

    /// Writes an octet at an offset, if there is one.
    pub(crate) fn set(&mut self, place: usize, octet: u8) {
        if let Some(there) = self.octets.get_mut(place) {
            *there = octet;
        }
    }

    /// Removes this many octets at an offset.
    pub(crate) fn take_out(&mut self, place: usize, count: usize) {
        for _ in 0..count {
            self.octets.pop_at(place);
        }
    }

    /// Gives the frame from an offset to the end the right length field.
    pub(crate) fn mend_length(&mut self, start: usize) {
        let length = u32::try_from(self.len_from(start)).unwrap_or(u32::MAX);
        self.set_length(start, length);
    }

    /// Gives the frame that begins at an offset this length field.
    pub(crate) fn set_length(&mut self, start: usize, length: u32) {
        let mut at = start.saturating_add(LENGTH_AT);
        for octet in length.to_be_bytes() {
            self.set(at, octet);
            at = at.saturating_add(1);
        }
    }
}
