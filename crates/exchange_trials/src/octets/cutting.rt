//! A stream that is cut into frames.

use crate::dice::Dice;
use arrayvec::ArrayVec;
use exchange::{Framer, Limits, Next};
use std::marker::Model;

/// The most frames of a stream: of 8,192 octets, 8 each.
const MOST_FRAMES: usize = 1024;

/// A framer that is fed a stream, and what came of it.
#[derive(Drop)]
pub(crate) struct Cutter {
    framer: Framer,
    frame: [u8; Limits::FRAME_OCTETS],
    /// How many octets of the stream came as frames,
    given: usize,
    /// and how many each frame has, in order.
    pub lengths: ArrayVec<usize, MOST_FRAMES>,
    /// Whether the stream broke after them.
    pub broken: bool,
    /// Whether a frame wasn't the next octets of the stream, or not all octets were taken.
    torn: bool,
}

impl Model for Cutter {
    ghost Value = { Unit {0} };

    ghost view = { λ _. tt };
}

impl Cutter {
    /// Cuts a stream into frames, in pieces of random sizes.
    pub(crate) fn of(dice: &mut Dice, octets: &[u8]) -> Cutter {
        let mut cutter = Cutter {
            framer: Framer::new(),
            frame: [0; Limits::FRAME_OCTETS],
            given: 0,
            lengths: ArrayVec::new(),
            broken: false,
            torn: false,
        };
        cutter.feed_all(dice, octets);
        cutter
    }

    /// Whether the same stream was cut into the same frames, each the next octets of the stream, and to the same end.
    pub(crate) fn agrees_with(&self, other: &Cutter) -> bool {
        !self.torn
            && !other.torn
            && self.broken == other.broken
            && self.lengths.as_slice() == other.lengths.as_slice()
    }

    /// Feeds all pieces, mostly of up to 40 octets, and takes the frames.
    fn feed_all(&mut self, dice: &mut Dice, octets: &[u8]) {
        let mut fed = 0usize;
        // Unless the stream is broken, some of each piece is taken.
        for _ in 0..=octets.len() {
            let most = if dice.one_in(4) {
                Limits::FRAME_OCTETS
            } else {
                40
            };
            let piece = piece_of(octets, fed, dice.below(most).saturating_add(1));
            fed = fed.saturating_add(self.framer.feed(piece));
            self.take_all(octets);
            if self.broken || fed == octets.len() {
                return;
            }
        }
        self.torn = true;
    }

    /// Takes all frames that are whole.
    fn take_all(&mut self, octets: &[u8]) {
        for _ in 0..=MOST_FRAMES {
            match self.framer.next(&mut self.frame) {
                Next::Whole(length) => self.take(octets, length),
                Next::Wait => return,
                Next::Broken => {
                    self.broken = true;
                    return;
                }
            }
        }
    }

    /// Takes a frame of this many octets.
    fn take(&mut self, octets: &[u8], length: usize) {
        let next = piece_of(octets, self.given, length);
        let same = next.len() == length && self.frame.get(..length) == Some(next);
        self.torn |= !same || self.lengths.try_push(length).is_err();
        self.given = self.given.saturating_add(length);
    }
}

/// This many octets from an index on, or as many as there are.
pub(crate) fn piece_of(octets: &[u8], from: usize, count: usize) -> &[u8] {
    let rest = octets.get(from..).unwrap_or(&[]);
    rest.get(..count).unwrap_or(rest)
}
