//! A node.

use crate::gates::node_settings::settings_of;
use exchange::{Event, Exchange, LinkId, LinkView, Outcome};
use std::alloc::Global;
use std::marker::Model;

/// An exchange whose state is hidden from proofs, so that those of its callers are short.
pub struct Node {
    exchange: Exchange,
}

impl Model for Node {
    ghost Value = { Unit {0} };

    ghost view = { λ _. tt };
}

// By hand, so that no proof above has what an exchange owns.
impl Drop for Node {
    fn drop(self) {
        let Node { exchange: _ } = self;
    }
}

impl Node {
    /// A node, of whose settings a text says what is its own, before its first event. None if memory ran out.
    pub fn new(alloc: Global, own: &str) -> Option<Node> {
        let settings = settings_of(alloc, own).ok()?;
        let exchange = Exchange::boot(alloc, settings).ok()?;
        Some(Node { exchange })
    }

    /// Hands in an event.
    pub fn step(&mut self, event: &Event<'_>) -> Outcome {
        self.exchange.step(event)
    }

    /// A link, as it is shown.
    pub fn link(&self, link: LinkId) -> Option<LinkView> {
        self.exchange.link(link)
    }

    /// Whether a message may have been lost.
    pub fn lost_any(&self) -> bool {
        self.exchange.lost_any()
    }

    /// Lends its exchange to a gate.
    pub fn lend(&mut self) -> &mut Exchange {
        &mut self.exchange
    }
}
