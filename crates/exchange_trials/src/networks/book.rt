//! The messages that were submitted, each with a mark of its own.

use exchange::{Label, Msu, PointCode, Sls};
use std::alloc::Global;

/// The service information octet of the ISDN user part in the international network (Q.704 §14.2).
const SIO: u8 = 0x85;

/// A message that was submitted.
#[derive(Clone, Copy)]
pub(super) struct Entry {
    /// Where it was submitted.
    pub from: u16,
    /// Where it is to come.
    pub to: u16,
    /// Its flow: the signalling link selection (Q.704 §2.2.4).
    pub flow: u8,
    /// Whether the node where it was submitted accepted it.
    pub accepted: bool,
}

/// All messages that were submitted since the books of the nodes began, in order.
#[derive(Drop)]
pub(super) struct Book {
    /// Each of them.
    pub entries: Vec<Entry>,
    /// The mark of the first one.
    first: u32,
    /// Whether there was no memory for one.
    pub starved: bool,
}

impl Book {
    /// Nothing was submitted.
    pub(super) fn new(alloc: Global) -> Book {
        Book {
            entries: Vec::new(alloc),
            first: 0,
            starved: false,
        }
    }

    /// The mark of the next one.
    pub(super) fn next_mark(&self) -> u32 {
        let count = u32::try_from(self.entries.len()).unwrap_or(u32::MAX);
        self.first.wrapping_add(count)
    }

    /// One more.
    pub(super) fn add(&mut self, entry: Entry) {
        self.starved |= self.entries.push(entry).is_err();
    }

    /// It begins anew: no message is in it, and marks go on, so that none is of two messages.
    pub(super) fn begin_anew(&mut self) {
        self.first = self.next_mark();
        self.entries.clear();
    }

    /// The place of a message and what is in the book of it, where it is as it was submitted.
    pub(super) fn find(&self, message: &Msu) -> Option<(usize, Entry)> {
        let mark = u32::from_be_bytes(*message.sif().last_chunk()?);
        let place = mark.checked_sub(self.first)? as usize;
        let entry = *self.entries.get(place)?;
        let submitted = message_of(entry, mark)?;
        if is_marked(message) && message.sif() == submitted.sif() {
            Some((place, entry))
        } else {
            None
        }
    }
}

/// The message of a mark: its label, and the mark.
pub(super) fn message_of(entry: Entry, mark: u32) -> Option<Msu> {
    let label = Label {
        dpc: PointCode::new(entry.to)?,
        opc: PointCode::new(entry.from)?,
        sls: Sls::new(entry.flow)?,
    };
    let [a, b, c, d] = label.write();
    let [e, f, g, h] = mark.to_be_bytes();
    Msu::new(SIO, &[a, b, c, d, e, f, g, h]).ok()
}

/// Whether a message is one of the ISDN user part: all others are of the nodes' own.
pub(super) fn is_marked(message: &Msu) -> bool {
    message.sio() == SIO
}
