//! The lines that were written to a console.

ghost use Rattle.std.specs.Prelude.{◌≡◌, length, nat_eq, not};
ghost use Rattle.program.specs.ConsoleLines.{unwritten, with, with_octet, has_answer};

use crate::console_client::answers::counted_if;
use arrayvec::ArrayVec;
use std::marker::Model;

/// Octets of the front of a line, by which it is known whether it has an answer: those of `show ` and `test `.
const FRONT_OCTETS: usize = 5;

/// The lines that were written so far, and how many answers are due.
#[derive(Drop)]
pub(crate) struct WrittenLines {
    front: ArrayVec<u8, FRONT_OCTETS>,
    due: u64,
}

impl Model for WrittenLines {
    ghost use Rattle.program.specs.ConsoleLines.{Written};

    ghost Value = { Written };

    ghost view = { λ w. record { front = w.front.items; due = w.due } };
}

impl WrittenLines {
    /// Nothing was written.
    pub(crate) fn none() -> WrittenLines
        ensures { result ≡ unwritten }
    {
        WrittenLines {
            front: ArrayVec::new(),
            due: 0,
        }
    }

    /// These octets are written.
    pub(crate) fn add(&mut self, octets: &[u8])
        ensures { self.new ≡ with octets.now self.old }
    {
        for octet in octets {
            self.add_octet(*octet);
        }
    }

    fn add_octet(&mut self, octet: u8)
        ensures { self.new ≡ with_octet octet self.old }
    {
        // a console leaves out blanks before a line
        let is_needless = octet == b' ' && self.front.is_empty();
        if octet == b'\n' {
            self.due = counted_if(has_answer(self.front.as_slice()), self.due);
            self.front.clear();
        } else if !is_needless && !self.front.is_full() {
            self.front.push(octet);
        }
    }

    /// Whether a line that has more than blanks isn't ended.
    pub(crate) fn is_within_line(&self) -> bool
        ensures { result ≡ not (nat_eq (length self.now.front) 0) }
    {
        !self.front.is_empty()
    }

    /// How many answers are due to the lines that are ended.
    pub(crate) fn due(&self) -> u64
        ensures { result ≡ self.now.due }
    {
        self.due
    }
}

/// Whether a line always has an answer: it isn't empty, no remark, shows nothing, of which there may be none, and tests
/// nothing.
fn has_answer(line: &[u8]) -> bool
    ensures { result ≡ has_answer line.now }
{
    !line.is_empty()
        && line != b"\r".as_slice()
        && !line.starts_with(b"#")
        && !line.starts_with(b"show ")
        && !line.starts_with(b"test ")
}
