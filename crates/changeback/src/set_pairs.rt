//! Pairs of link sets.

ghost use Rattle.std.specs.Prelude.{◌≡◌, false, true, slice_index_or, slice_set};
ghost use Rattle.changeback.specs.Seen.{no_pairs, has_pair, with_pair, number_of_pair};

use signalling_types::{Limits, SetId};
use std::marker::Model;

/// How many pairs there are.
const PAIRS: usize = Limits::SETS * Limits::SETS;

/// Pairs of link sets that were looked at.
#[derive(Drop)]
pub(crate) struct SetPairs {
    seen: [bool; PAIRS],
}

impl Model for SetPairs {
    ghost use Rattle.std.specs.Prelude.{Bool, List};

    ghost Value = { List Bool };

    ghost use Rattle.changeback.specs.Seen.{pairs_in, HasPairs};

    ghost view = { pairs_in };

    ghost invariant = { HasPairs };
}

impl SetPairs {
    /// No pair.
    pub(crate) fn new() -> SetPairs
        ensures { result ≡ no_pairs }
    {
        SetPairs {
            seen: [false; PAIRS],
        }
    }

    /// Whether a pair was looked at.
    pub(crate) fn has(&self, first: SetId, second: SetId) -> bool
        ensures { result ≡ has_pair self.now first second }
    {
        second.index() < Limits::SETS && self.is_seen(number_of_pair(first, second))
    }

    /// A pair is looked at. One that can't be is ignored.
    pub(crate) fn add(&mut self, first: SetId, second: SetId)
        ensures { self.new ≡ with_pair self.old first second }
    {
        if second.index() < Limits::SETS {
            self.see(number_of_pair(first, second));
        }
    }

    /// Whether the pair of a number was looked at.
    fn is_seen(&self, number: usize) -> bool
        ensures { result ≡ slice_index_or self.now number false }
    {
        match self.seen.get(number) {
            Some(seen) => *seen,
            None => false,
        }
    }

    /// The pair of a number is looked at.
    fn see(&mut self, number: usize)
        ensures { self.new ≡ slice_set self.old number true }
    {
        if number < PAIRS {
            self.seen[number] = true;
        }
    }
}

fn number_of_pair(first: SetId, second: SetId) -> usize
    ensures { result ≡ number_of_pair first second }
{
    Limits::SETS * first.index() + second.index()
}
