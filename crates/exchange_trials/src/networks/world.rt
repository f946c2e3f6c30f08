//! A network, and what was submitted in it.

use super::book::{Book, Entry, message_of};
use crate::dice::Dice;
use crate::harness::Network;
use crate::shape::Shape;
use std::alloc::Global;
use std::marker::Model;

/// A network, the dice of its run, and what was submitted.
#[derive(Drop)]
pub(super) struct World {
    pub network: Network,
    pub dice: Dice,
    pub book: Book,
}

impl Model for World {
    ghost Value = { Unit {0} };

    ghost view = { λ _. tt };
}

impl World {
    /// A network before anything was done. None where memory ran out.
    pub(super) fn new(alloc: Global, shape: Shape, run: u64) -> Option<World> {
        Some(World {
            network: Network::new(alloc, shape)?,
            dice: Dice::new(run),
            book: Book::new(alloc),
        })
    }

    /// A node submits the message of the next mark, for another point.
    pub(super) fn submit(&mut self, from: u16, to: u16, flow: u8) {
        let mark = self.book.next_mark();
        let entry = Entry {
            from,
            to,
            flow,
            accepted: false,
        };
        let accepted = self.network.submit(from, message_of(entry, mark));
        self.book.add(Entry { accepted, ..entry });
    }
}
