//! What is written to a console.

ghost use Rattle.std.specs.Prelude.{◌≡◌, true, false, IfOk, OnOk};
ghost use Rattle.program.specs.ConsoleCalls.{is_write_failed};
ghost use Rattle.program.specs.ConsoleLines.{begun, closed, line_of, with, with_words, IsOwed};

use crate::console_client::fault::CallFault;
use crate::console_client::written::WrittenLines;
use script::Source;
use std::alloc::{AllocError, Global};
use std::marker::Model;

/// Octets that one read of the lines asks for.
const PIECE_OCTETS: usize = 4096;

/// What is still to be written to a console.
#[derive(Drop)]
pub(crate) struct Outgoing {
    octets: Vec<u8>,
    start: usize,
    lines: WrittenLines,
    has_ended: bool,
    has_failed: bool,
}

// Nothing is said of what waits to be written.
impl Model for Outgoing {
    ghost use Rattle.program.specs.ConsoleLines.{Sending};

    ghost Value = { Sending };

    ghost view = { λ o. record { lines = o.lines; has_ended = o.has_ended } };
}

impl Outgoing {
    /// These words, as one line; if there are none, what reads will give. The error means that memory ran out.
    pub(crate) fn new(alloc: Global, words: &[String]) -> Result<Outgoing, AllocError>
        ensures { IfOk result (λ outgoing. outgoing ≡ begun words.now) }
    {
        let octets = line_of(alloc, words)?;
        let mut lines = WrittenLines::none();
        lines.add(octets.as_slice());
        Ok(Outgoing {
            octets,
            start: 0,
            lines,
            has_ended: !words.is_empty(),
            has_failed: false,
        })
    }

    /// What waits to be written.
    pub(crate) fn pending(&self) -> &[u8] {
        self.octets.get(self.start..).unwrap_or(&[])
    }

    /// This many octets more were written.
    pub(crate) fn written(&mut self, count: usize)
        ensures { self.new ≡ self.old }
    {
        self.start = self.start.saturating_add(count);
    }

    /// Whether all was written that is there, and more may follow.
    pub(crate) fn wants_more(&self) -> bool
        ensures { result ≡ true → self.now.has_ended ≡ false }
    {
        !self.has_ended && !self.has_failed && self.pending().is_empty()
    }

    /// Whether nothing more is written.
    pub(crate) fn is_done(&self) -> bool {
        self.has_failed || self.is_whole()
    }

    /// Whether all was written, and nothing more follows.
    pub(crate) fn is_whole(&self) -> bool
        ensures { result ≡ true → self.now.has_ended ≡ true }
    {
        self.has_ended && !self.has_failed && self.pending().is_empty()
    }

    /// A write failed: nothing more is written.
    pub(crate) fn give_up(&mut self)
        ensures { self.new ≡ self.old }
    {
        self.clear();
        self.has_failed = true;
    }

    /// Makes one read, after all is written that was there. A last line that lacks its line feed gets one.
    ///
    /// Read if the read fails, or NoMemory.
    pub(crate) fn read_from<R: Source>(&mut self, reader: &mut R) -> Result<(), CallFault>
        requires { self.old.has_ended ≡ false }
        ensures quiet { is_write_failed result ≡ false }
        ensures owed { OnOk result (IsOwed (R.input reader.old).remaining (R.input reader.new).remaining
            self.old self.new) }
    {
        let mut piece = [0; PIECE_OCTETS];
        let Ok(count) = reader.read(&mut piece) else {
            return Err(CallFault::Read);
        };
        self.clear();
        if count == 0 {
            return self.end();
        }
        self.add(&piece[..count])
    }

    /// Nothing waits to be written.
    fn clear(&mut self)
        ensures { self.new ≡ self.old }
    {
        self.octets.clear();
        self.start = 0;
    }

    /// These octets follow.
    fn add(&mut self, octets: &[u8]) -> Result<(), CallFault>
        ensures quiet { is_write_failed result ≡ false }
        ensures added { OnOk result (self.new ≡ record self.old { lines = with octets.now self.old.lines }) }
    {
        self.octets.extend_from_slice(octets)?;
        self.lines.add(octets);
        Ok(())
    }

    /// Nothing more follows but the end of the last line.
    fn end(&mut self) -> Result<(), CallFault>
        ensures quiet { is_write_failed result ≡ false }
        ensures ended { OnOk result (self.new ≡ record { lines = closed self.old.lines; has_ended = true }) }
    {
        self.has_ended = true;
        if self.lines.is_within_line() {
            return self.add(b"\n");
        }
        Ok(())
    }

    /// How many answers are due to the lines so far.
    pub(crate) fn due(&self) -> u64
        ensures { result ≡ self.now.lines.due }
    {
        self.lines.due()
    }
}

/// The line of these words, with a blank between two, and its line feed; nothing if there are none.
fn line_of(alloc: Global, words: &[String]) -> Result<Vec<u8>, AllocError>
    ensures { IfOk result (λ line. line.items ≡ line_of words.now) }
{
    let mut line = Vec::new(alloc);
    let [first, others @ ..] = words else {
        return Ok(line);
    };
    line.extend_from_slice(first.as_bytes())?;
    add_words(&mut line, others)?;
    line.extend_from_slice(b"\n")?;
    Ok(line)
}

/// Appends words, each behind a blank.
fn add_words(line: &mut Vec<u8>, words: &[String]) -> Result<(), AllocError>
    ensures { OnOk result (line.new.items ≡ with_words words.now line.old.items) }
{
    for word in words {
        line.extend_from_slice(b" ")?;
        line.extend_from_slice(word.as_bytes())?;
    }
    Ok(())
}
