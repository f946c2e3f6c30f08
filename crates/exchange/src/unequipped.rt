//! How many messages came for user parts that aren't here.

ghost use Rattle.std.specs.Prelude.{◌≡◌, ◌<◌, ◌+◌, ◌%◌, ℕ, List, length, nat_eq, replicate, slice_index_or, slice_set, IfOk};

use std::alloc::{AllocError, Global};
use std::marker::Model;

/// Of so many messages from one point for user parts that aren't here the first is answered.
const ANSWERED_ONCE_IN: u8 = 8;

/// For each destination, how many messages for user parts that aren't here came from it, modulo 8.
#[derive(Drop)]
pub(crate) struct Unequipped {
    counts: Vec<u8>,
}

impl Model for Unequipped {
    ghost Value = { List ℕ };

    ghost view = { λ u. u.counts.items };
}

impl Unequipped {
    /// None came from any of these many destinations.
    pub(crate) fn none(alloc: Global, destinations: usize) -> Result<Unequipped, AllocError>
        ensures { IfOk result (λ unequipped. unequipped ≡ replicate destinations 0) }
    {
        Ok(Unequipped {
            counts: vec![in alloc; 0; destinations]?,
        })
    }

    /// Whether the next one from a destination is the first of those of which one is answered.
    pub(crate) fn is_first(&self, origin: usize) -> bool
        requires { origin < length self.now }
        ensures { result ≡ nat_eq (slice_index_or self.now origin 0) 0 }
    {
        self.counts[origin] == 0
    }

    /// One more came from a destination.
    pub(crate) fn count(&mut self, origin: usize)
        requires { origin < length self.old }
        ensures { self.new ≡ slice_set self.old origin ((slice_index_or self.old origin 0 + 1) % 8) }
    {
        let count = u16::from(self.counts[origin]) + 1;
        self.counts[origin] = (count % u16::from(ANSWERED_ONCE_IN)) as u8;
    }
}
