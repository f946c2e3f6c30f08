//! A node.

use exchange::{
    BUFFER_OCTETS, Event, Exchange, FrameText, LinkId, LinkStanding, NoMemory, Outcome, Settings,
};
use signalling_types::Number24;
use std::alloc::Global;
use std::marker::Model;

/// An exchange whose state is hidden from proofs, so that those of its callers are short.
pub(crate) struct Node {
    exchange: Exchange,
}

impl Model for Node {
    ghost Value = { Unit {0} };

    ghost view = { λ _. tt };
}

// By hand, so that what drops one calls this, and no proof above has what an exchange owns.
impl Drop for Node {
    fn drop(self) {
        let Node { exchange } = self;
        drop(exchange);
    }
}

impl Node {
    /// A node with these settings, before its first event.
    pub(crate) fn boot(alloc: Global, settings: Settings) -> Result<Node, NoMemory> {
        let exchange = Exchange::boot(alloc, settings)?;
        Ok(Node { exchange })
    }

    /// Hands in an event.
    pub(crate) fn step(&mut self, event: &Event<'_>) -> Outcome {
        self.exchange.step(event)
    }

    /// Fetches the next frame of a link.
    pub(crate) fn take(&mut self, link: LinkId, buffer: &mut [u8; BUFFER_OCTETS]) -> Option<usize> {
        self.exchange.take(link, buffer)
    }

    /// Fetches the next frame of a link, as a text of its own.
    pub(crate) fn fetch(&mut self, link: LinkId) -> Option<FrameText> {
        let mut buffer = [0; BUFFER_OCTETS];
        let count = self.exchange.take(link, &mut buffer)?;
        Some(FrameText::new(&buffer[..count]))
    }

    /// How a link stands; Down if there is none.
    pub(crate) fn standing(&self, link: LinkId) -> LinkStanding {
        match self.exchange.link(link) {
            Some(view) => view.standing,
            None => LinkStanding::Down,
        }
    }

    /// The number of the last message that it accepted on a link.
    pub(crate) fn last_accepted(&self, link: LinkId) -> Option<Number24> {
        Some(self.exchange.link(link)?.last_accepted)
    }

    /// What it shows.
    pub(crate) fn shown(&self) -> &Exchange {
        &self.exchange
    }
}
