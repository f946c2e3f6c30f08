//! What was seen of a node.

use crate::harness::count;
use exchange::{Exchange, SetId};
use std::marker::Model;

/// So many nodes there are at most.
const NODES: usize = 4;

/// So many destinations a node has at most.
const DESTINATIONS: usize = 4;

/// What was seen of a node.
#[derive(Default, Drop)]
pub(crate) struct Seen {
    /// The first set that messages for each of its destinations take.
    first_sets: [Option<SetId>; DESTINATIONS],
    /// How often one of them has changed.
    pub reroutings: u64,
    /// How often it had counted when the books began that a message may be lost,
    lost: u64,
    /// and that one may be late,
    late: u64,
    /// and that it isn't known what the other end of a link has.
    broken: u64,
    /// Whether it counted since that one may be lost,
    pub lost_any: bool,
    /// that it isn't known what the other end of a link has,
    pub broken_any: bool,
    /// or that one may be late.
    pub late_any: bool,
    /// Of the messages that came to each node, those that may count on it.
    came: [Came; NODES],
}

/// How many messages came to a node
#[derive(Clone, Copy, Default)]
pub(crate) struct Came {
    /// while another hadn't counted since the books began that one may be lost,
    pub whole: usize,
    /// and that one may be late.
    pub in_time: usize,
}

impl Model for Seen {
    ghost Value = { Unit {0} };

    ghost view = { λ _. tt };
}

impl Seen {
    /// It is looked at.
    pub(super) fn look(&mut self, exchange: &Exchange) {
        self.lost_any |= self.lost < exchange.times_lost();
        self.late_any |= self.late < exchange.times_late();
        self.broken_any |= self.broken < exchange.times_broken();
        let mut changes = 0u64;
        for (destination, before) in self.first_sets.iter_mut().enumerate() {
            let now = first_set(exchange, destination);
            count(&mut changes, (*before != now) as u64);
            *before = now;
        }
        count(&mut self.reroutings, changes);
    }

    /// So many messages have come to the node at this place.
    pub(super) fn note_arrivals(&mut self, place: usize, arrivals: usize) {
        if let Some(came) = self.came.get_mut(place) {
            if !self.lost_any {
                came.whole = arrivals;
            }
            if !self.late_any {
                came.in_time = arrivals;
            }
        }
    }

    /// The books begin anew: what it counted before counts no more.
    pub(super) fn begin_anew(&mut self, exchange: &Exchange) {
        self.lost = exchange.times_lost();
        self.late = exchange.times_late();
        self.broken = exchange.times_broken();
        self.lost_any = false;
        self.late_any = false;
        self.broken_any = false;
        self.came = [Came {
            whole: 0,
            in_time: 0,
        }; NODES];
    }

    /// How many messages came to the node at this place while this one hadn't counted that one may be lost, or late.
    pub(crate) fn came(&self, place: usize) -> Came {
        self.came.get(place).copied().unwrap_or_default()
    }
}

/// The first set that messages for a destination take, by the destination's number.
fn first_set(exchange: &Exchange, destination: usize) -> Option<SetId> {
    exchange.route(destination)?.sets.first().copied()
}
