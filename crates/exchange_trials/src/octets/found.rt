//! What became of the frames that were handed in.

use exchange::Outcome;

/// How many kinds of outcome there are.
pub(crate) const KINDS: usize = 6;

/// What became of frames.
#[derive(Clone, Copy, Default)]
pub(crate) struct Found {
    /// How many frames were tried and returned.
    pub returned: u64,
    /// How many frames, including good ones, changed what they may not.
    pub changed: u64,
    /// Which kinds of outcome the frames that were tried had.
    kinds: [bool; KINDS],
}

impl Found {
    /// A frame was tried and returned.
    pub(crate) fn note(&mut self, outcome: Outcome) {
        self.returned = self.returned.wrapping_add(1);
        if let Some(had) = self.kinds.get_mut(kind_of(outcome)) {
            *had = true;
        }
    }

    /// How many kinds of outcome there were.
    pub(crate) fn kinds(&self) -> usize {
        self.kinds.iter().filter(|had| **had).count()
    }
}

/// The place of an outcome's kind.
fn kind_of(outcome: Outcome) -> usize {
    match outcome {
        Outcome::Queued(_) => 0,
        Outcome::Held => 1,
        Outcome::Local => 2,
        Outcome::Handled => 3,
        Outcome::Ignored => 4,
        Outcome::Refused(_) => 5,
    }
}
