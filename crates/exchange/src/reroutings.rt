//! By which link sets flows went, and which of them may have changed their set since they were last counted.

ghost use Rattle.std.specs.Prelude.{◌≡◌, ◌<◌, None, [], length, replicate, slice_index_or, slice_set, IfOk, if◌then◌else◌};
ghost use Rattle.signalling_types.specs.declared.limits.TheConstants.Limits.{SELECTIONS};
ghost use Rattle.exchange.specs.DueFlows.{is_any_due, with_all_due_if, with_due};

use settings::{Limits, SetId};
use std::alloc::{AllocError, Global};
use std::marker::Model;

/// For each selection of a destination the set by which its flow went last, if it went by one.
#[derive(Drop)]
pub(crate) struct LastSets {
    sets: [Option<SetId>; Limits::SELECTIONS],
}

impl Model for LastSets {
    ghost use Rattle.std.specs.Prelude.{ℕ, List, Option};

    ghost Value = { List (Option ℕ) };

    ghost use Rattle.exchange.specs.LastSets.{last_sets_in, HasSelections};

    ghost view = { last_sets_in };

    ghost invariant = { HasSelections };
}

impl LastSets {
    /// These sets.
    pub(crate) fn of(sets: [Option<SetId>; Limits::SELECTIONS]) -> LastSets
        ensures { result ≡ sets }
    {
        LastSets { sets }
    }

    /// How many selections there are.
    pub(crate) fn count(&self) -> usize
        ensures count { result ≡ SELECTIONS }
        ensures places { length self.now ≡ SELECTIONS }
    {
        let _ = &self.sets;
        self.sets.len()
    }

    /// The set of one selection.
    pub(crate) fn get(&self, selection: usize) -> Option<SetId>
        requires { selection < SELECTIONS }
        ensures { result ≡ slice_index_or self.now selection None }
    {
        self.sets[selection]
    }
}

/// For each destination the sets by which its flows went last.
#[derive(Drop)]
pub(crate) struct FlowSets {
    rows: Vec<LastSets>,
}

impl Model for FlowSets {
    ghost use Rattle.std.specs.Prelude.{ℕ, List, Option};

    ghost Value = { List (List (Option ℕ)) };

    ghost view = { λ f. f.rows.items };
}

impl FlowSets {
    /// No flow to any of these many destinations went by any set. The error means that memory ran out.
    pub(crate) fn none(alloc: Global, destinations: usize) -> Result<FlowSets, AllocError>
        ensures { IfOk result (λ flows. flows ≡ replicate destinations (replicate SELECTIONS None)) }
    {
        let mut rows = Vec::with_capacity(alloc, destinations)?;
        for destination in 0..destinations {
            rows.push(LastSets::of([None; Limits::SELECTIONS]))?;
        }
        Ok(FlowSets { rows })
    }

    /// The sets of the flows to a destination.
    pub(crate) fn to(&self, destination: usize) -> &LastSets
        requires { destination < length self.now }
        ensures { result.now ≡ slice_index_or self.now destination [] }
    {
        &self.rows[destination]
    }

    /// The flows to a destination went by these sets.
    pub(crate) fn write(&mut self, destination: usize, sets: LastSets)
        requires { destination < length self.old }
        ensures { self.new ≡ slice_set self.old destination sets }
    {
        self.rows[destination] = sets;
    }
}

/// The destinations to which flows may have changed their set.
#[derive(Clone, Copy, PartialEq, Eq)]
pub(crate) enum DueFlows {
    /// None: no link and no route changed.
    Nothing,
    /// One, by its number in the order of the settings: only routes to it changed.
    To(usize),
    /// Any.
    All,
}

impl DueFlows {
    /// Whether there may be any.
    #[inline(always)]
    pub(crate) fn is_any(&self) -> bool
        ensures { result ≡ is_any_due self.now }
    {
        match self {
            DueFlows::Nothing => false,
            DueFlows::To(_) | DueFlows::All => true,
        }
    }

    /// Flows to a destination may have changed their set too.
    pub(crate) fn mark(&mut self, destination: usize)
        ensures { self.new ≡ with_due destination self.old }
    {
        *self = self.and(destination);
    }

    /// These destinations and one more.
    fn and(&self, destination: usize) -> DueFlows
        ensures { result ≡ with_due destination self.now }
    {
        match *self {
            DueFlows::Nothing => DueFlows::To(destination),
            DueFlows::To(other) => {
                if other == destination {
                    DueFlows::To(other)
                } else {
                    DueFlows::All
                }
            }
            DueFlows::All => DueFlows::All,
        }
    }

    /// If so, any flow may have changed its set.
    #[inline(always)]
    pub(crate) fn mark_all_if(&mut self, changed: bool)
        ensures { self.new ≡ with_all_due_if changed self.old }
    {
        if changed {
            *self = DueFlows::All;
        }
    }
}
