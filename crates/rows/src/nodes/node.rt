//! A node.

use exchange::{Answer, BUFFER_OCTETS, Call, Draft, Event, Exchange, LinkId, Outcome, Settings};
use lab::{Joiner, run_lab};
use script::{ScriptFault, Sink, Source, run_script};
use std::alloc::{AllocError, Global};
use std::marker::Model;

/// An exchange whose state is hidden from proofs, so that those of its callers are short.
pub(crate) struct Node {
    exchange: Exchange,
}

impl Model for Node {
    ghost Value = { Unit {0} };

    ghost view = { λ _. tt };
}

// By hand, so that what drops one calls this, and no proof above has what an exchange owns.
impl Drop for Node {
    fn drop(self) {
        let Node { exchange } = self;
        drop(exchange);
    }
}

impl Node {
    /// A node with these settings, before its first event. None if it can't be made.
    pub(crate) fn new(alloc: Global, draft: Result<Draft, AllocError>) -> Option<Node> {
        let settings = Settings::check(alloc, draft.ok()?).ok()?;
        let exchange = Exchange::boot(alloc, settings).ok()?;
        Some(Node { exchange })
    }

    /// Hands in an event.
    pub(crate) fn step(&mut self, event: &Event<'_>) -> Outcome {
        self.exchange.step(event)
    }

    /// How many octets the next frame of a link has, if there is one. It goes out.
    pub(crate) fn take(&mut self, link: LinkId) -> Option<usize> {
        self.exchange.take(link, &mut [0; BUFFER_OCTETS])
    }

    /// Makes calls in a row, and returns their answers. None if memory runs out.
    pub(crate) fn run(&mut self, alloc: Global, calls: &[Call<'_>]) -> Option<Vec<Answer>> {
        self.exchange.run(alloc, calls).ok()
    }

    /// Does a script.
    pub(crate) fn play<R: Source, W: Sink>(
        &mut self,
        reader: &mut R,
        writer: &mut W,
    ) -> Result<(), ScriptFault> {
        run_script(&mut self.exchange, reader, writer)
    }

    /// Does a lab script on this node and another, whose links are joined in this way; on those that don't face each
    /// other nothing.
    pub(crate) fn play_with<J: Joiner, R: Source, W: Sink>(
        &mut self,
        alloc: Global,
        other: &mut Node,
        joiner: &mut J,
        reader: &mut R,
        writer: &mut W,
    ) -> Result<(), ScriptFault> {
        let (near, far) = (&mut self.exchange, &mut other.exchange);
        if near.settings().faces(far.settings()) && near.settings().named_alike(far.settings()) {
            return run_lab(alloc, near, far, joiner, reader, writer);
        }
        Ok(())
    }

    /// What it shows.
    pub(crate) fn shown(&self) -> &Exchange {
        &self.exchange
    }
}
