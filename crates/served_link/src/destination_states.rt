//! The states of destinations as an operator sees them (Q.704 §3.4, §3.6).

ghost use Rattle.std.specs.Prelude.{◌≡◌, ◌≤◌, IfOk, length, slice_get, slice_set};
ghost use Rattle.served_link.specs.DestinationStates.{access_words, by_sets, first_destinations, is_changed, is_closed};

use signalling_types::SetId;
use std::alloc::{AllocError, Global};
use std::marker::Model;

/// Octets of the words of an access, at most.
const ACCESS_OCTETS: usize = 12;

/// Whether messages to a destination have a way.
#[derive(Clone, Copy, PartialEq, Eq)]
pub enum Access {
    /// They have: a route is open, and isn't restricted.
    Accessible,
    /// They have, by restricted routes alone.
    Restricted,
    /// They have none.
    Inaccessible,
}

impl Access {
    /// The same in words.
    pub fn words(self) -> &'static str
        ensures words { result.now ≡ access_words self }
        ensures fits { length result.now ≤ ACCESS_OCTETS }
    {
        match self {
            Access::Accessible => "accessible",
            Access::Restricted => "restricted",
            Access::Inaccessible => "inaccessible",
        }
    }

    /// Whether messages have no way.
    pub fn is_closed(self) -> bool
        ensures { result ≡ is_closed self }
    {
        matches!(self, Access::Inaccessible)
    }
}

/// The state of a destination.
#[derive(Clone, Copy, PartialEq, Eq)]
pub struct DestinationState {
    /// Whether messages to it have a way.
    pub access: Access,
    /// The set that messages take, or the first of two joined ones.
    pub first: Option<SetId>,
    /// The second of two joined sets.
    pub second: Option<SetId>,
}

impl DestinationState {
    /// A destination whose messages take these sets; of more than two they take the first two.
    pub fn new(access: Access, sets: &[SetId]) -> DestinationState
        ensures { result ≡ by_sets access sets.now }
    {
        DestinationState {
            access,
            first: sets.first().copied(),
            second: sets.get(1).copied(),
        }
    }
}

/// The destinations of a node as they were last seen.
#[derive(Drop)]
pub struct DestinationStates {
    rows: Vec<DestinationState>,
}

impl Model for DestinationStates {
    ghost use Rattle.std.specs.Prelude.{List};
    ghost use Rattle.served_link.specs.declared.destination_states.DestinationState.{DestinationState};

    ghost Value = { List DestinationState };

    ghost view = { λ d. d.rows.items };
}

impl DestinationStates {
    /// So many destinations, as a node starts. The error means that memory ran out.
    pub fn new(alloc: Global, destinations: usize) -> Result<DestinationStates, AllocError>
        ensures { IfOk result (λ states. states ≡ first_destinations destinations) }
    {
        let closed = DestinationState {
            access: Access::Inaccessible,
            first: None,
            second: None,
        };
        Ok(DestinationStates {
            rows: vec![in alloc; closed; destinations]?,
        })
    }

    /// The destination of this number was found in this state. Returns whether it was in another one before.
    pub fn note(&mut self, number: usize, found: DestinationState) -> bool
        ensures changed { result ≡ is_changed found (slice_get self.old number) }
        ensures states { self.new ≡ slice_set self.old number found }
    {
        let Some(row) = self.rows.get_mut(number) else {
            return false;
        };
        let former = *row;
        *row = found;
        former != found
    }
}
