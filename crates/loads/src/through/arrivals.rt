//! What came to a node.

use served_link::Watch;
use settings::{LinkId, Outcome};
use trace::ObservedFrame;

/// Flows: one for each signalling link selection.
const FLOWS: usize = 16;

/// How many messages came, and how many of them weren't the next of their flow.
#[derive(Drop)]
pub(crate) struct Arrivals {
    next: [u32; FLOWS],
    /// How many messages came.
    pub(crate) came: u64,
    /// How many of them weren't the next of their flow.
    pub(crate) wrong: u64,
}

impl Arrivals {
    /// Nothing came yet.
    pub(crate) fn new() -> Arrivals {
        Arrivals {
            next: [0; FLOWS],
            came: 0,
            wrong: 0,
        }
    }

    /// A message of a flow came with this number.
    fn note(&mut self, flow: usize, number: u32) {
        self.came = self.came.saturating_add(1);
        let Some(next) = self.next.get_mut(flow) else {
            return;
        };
        if *next != number {
            self.wrong = self.wrong.saturating_add(1);
        }
        *next = number.saturating_add(1);
    }
}

impl Watch for Arrivals {
    ghost sees = { λ _ _ _. Unit {0} };

    fn came_in(&mut self, _link: LinkId, frame: &ObservedFrame<'_>, outcome: &Outcome) {
        if let Some(message) = frame.message()
            && *outcome == Outcome::Local
            && let [_, _, _, label, n3, n2, n1, n0, ..] = *message.sif
        {
            self.note(
                usize::from(label / 16),
                u32::from_be_bytes([n3, n2, n1, n0]),
            );
        }
    }

    fn went_out(&mut self, _link: LinkId, _frame: &[u8]) {}
}
