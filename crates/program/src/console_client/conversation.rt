//! A conversation with a console: the connection, what is written to it, and what was answered.

ghost use Rattle.std.specs.Prelude.{◌≡◌, ℕ, List, true, false, OnOk, Ok, Some};
ghost use Rattle.program.specs.ConsoleCalls.{is_write_failed, Comes};
ghost use Rattle.program.specs.ConsoleLines.{IsOwed};

use crate::console_client::answers::Answers;
use crate::console_client::fault::CallFault;
use crate::console_client::outgoing::Outgoing;
use mio::unix::SourceFd;
use mio::{Events, Interest, Poll, Registry, Token};
use script::{Sink, Source};
use served_node::{ConsoleStream, Progress};
use std::os::fd::RawFd;

/// The descriptor of standard input.
const STANDARD_INPUT: RawFd = 0;

/// Octets that one read of the connection asks for.
const PIECE_OCTETS: usize = 4096;

/// The connection, in the poll.
pub(crate) const CONNECTION: Token = Token(0);

/// Standard input, in the poll.
const INPUT: Token = Token(1);

/// A conversation with a console.
#[derive(Drop)]
pub(crate) struct Conversation {
    pub(crate) stream: ConsoleStream,
    pub(crate) poll: Poll,
    pub(crate) events: Events,
    pub(crate) outgoing: Outgoing,
    pub(crate) answers: Answers,
    /// Whether the poll tells of standard input. It tells of no file: there a read never waits.
    pub(crate) is_input_polled: bool,
    pub(crate) is_input_ready: bool,
    pub(crate) can_read: bool,
    pub(crate) can_write: bool,
    pub(crate) has_ended_writing: bool,
}

impl Conversation {
    /// Writes and reads until the connection ends. Whether all was written by then; false also if it broke.
    pub(crate) fn run<R: Source, W: Sink>(
        &mut self,
        reader: &mut R,
        writer: &mut W,
    ) -> Result<bool, CallFault>
        ensures came { (came : List ℕ) × Comes (is_write_failed result) came self.old.answers self.new.answers
            (W.output writer.old) (W.output writer.new) }
        ensures owed { OnOk result (IsOwed (R.input reader.old).remaining (R.input reader.new).remaining
            self.old.outgoing self.new.outgoing) }
        ensures whole { result ≡ Ok true → self.new.outgoing.has_ended ≡ true }
    {
        for _ in 0..u64::MAX {
            self.take_input(reader)?;
            self.write();
            match self.read(writer)? {
                Some(is_whole) => return Ok(is_whole),
                None => self.wait()?,
            }
        }
        Ok(false)
    }

    /// Reads further lines, if all was written so far and there are some.
    fn take_input<R: Source>(&mut self, reader: &mut R) -> Result<(), CallFault>
        ensures quiet { is_write_failed result ≡ false }
        ensures answers { self.new.answers ≡ self.old.answers }
        ensures owed { OnOk result (IsOwed (R.input reader.old).remaining (R.input reader.new).remaining
            self.old.outgoing self.new.outgoing) }
    {
        if !self.is_input_ready || !self.outgoing.wants_more() {
            return Ok(());
        }
        self.outgoing.read_from(reader)?;
        if self.is_input_polled {
            self.is_input_ready = !is_input_told_again(self.poll.registry());
        }
        Ok(())
    }

    /// Makes one write of what waits; once nothing more follows, ends the half that writes.
    fn write(&mut self)
        ensures answers { self.new.answers ≡ self.old.answers }
        ensures outgoing { self.new.outgoing ≡ self.old.outgoing }
    {
        if self.outgoing.is_done() {
            self.end_writing();
        } else if self.can_write && !self.outgoing.pending().is_empty() {
            self.write_once();
        }
    }

    fn end_writing(&mut self)
        ensures answers { self.new.answers ≡ self.old.answers }
        ensures outgoing { self.new.outgoing ≡ self.old.outgoing }
    {
        if !self.has_ended_writing {
            self.has_ended_writing = true;
            let _ended = self.stream.end_writing();
        }
    }

    /// Makes one write. If it fails, the answers to what was written before may still come.
    fn write_once(&mut self)
        ensures answers { self.new.answers ≡ self.old.answers }
        ensures outgoing { self.new.outgoing ≡ self.old.outgoing }
    {
        match self.stream.write(self.outgoing.pending()) {
            Progress::Octets(count) => self.outgoing.written(count),
            Progress::Later => self.can_write = false,
            Progress::Again => {}
            Progress::End | Progress::Failed => self.outgoing.give_up(),
        }
    }

    /// Makes one read, and prints what came. None unless the connection ended; false if it broke, or ended before all
    /// was written.
    fn read<W: Sink>(&mut self, writer: &mut W) -> Result<Option<bool>, CallFault>
        ensures came { (came : List ℕ) × Comes (is_write_failed result) came self.old.answers self.new.answers
            (W.output writer.old) (W.output writer.new) }
        ensures outgoing { self.new.outgoing ≡ self.old.outgoing }
        ensures whole { result ≡ Ok (Some true) → self.new.outgoing.has_ended ≡ true }
    {
        if !self.can_read {
            return Ok(None);
        }
        let mut piece = [0; PIECE_OCTETS];
        match self.stream.read(&mut piece) {
            Progress::Octets(count) => {
                self.print(&piece[..count], writer)?;
                Ok(None)
            }
            Progress::Later => {
                self.can_read = false;
                Ok(None)
            }
            Progress::Again => Ok(None),
            Progress::End => Ok(Some(self.outgoing.is_whole())),
            Progress::Failed => Ok(Some(false)),
        }
    }

    fn print<W: Sink>(&mut self, octets: &[u8], writer: &mut W) -> Result<(), CallFault>
        ensures outgoing { self.new.outgoing ≡ self.old.outgoing }
        ensures came { Comes (is_write_failed result) octets.now self.old.answers self.new.answers
            (W.output writer.old) (W.output writer.new) }
    {
        self.answers.read(octets);
        match writer.write(octets) {
            Ok(()) => Ok(()),
            Err(_) => Err(CallFault::Write),
        }
    }

    /// Whether there is something to do now.
    fn is_busy(&self) -> bool {
        self.can_read
            || self.can_write && !self.outgoing.pending().is_empty()
            || self.is_input_ready && self.outgoing.wants_more()
            || self.outgoing.is_done() && !self.has_ended_writing
    }

    /// Waits until there is something to do.
    fn wait(&mut self) -> Result<(), CallFault>
        ensures quiet { is_write_failed result ≡ false }
        ensures answers { self.new.answers ≡ self.old.answers }
        ensures outgoing { self.new.outgoing ≡ self.old.outgoing }
    {
        if self.is_busy() {
            return Ok(());
        }
        if self.poll.poll(&mut self.events, None).is_err() {
            return Err(CallFault::Poll);
        }
        for event in self.events.iter() {
            if event.token() == INPUT {
                self.is_input_ready = true;
            } else {
                self.can_read = true;
                self.can_write = self.can_write || event.is_writable();
            }
        }
        Ok(())
    }
}

/// Has the poll tell of standard input. False if it has nothing to tell of it, as of a file.
pub(crate) fn is_input_told(registry: &Registry) -> bool {
    registry
        .register(&mut SourceFd(&STANDARD_INPUT), INPUT, Interest::READABLE)
        .is_ok()
}

/// Has the poll tell of standard input once more, if there is something left to read. False if it can't.
fn is_input_told_again(registry: &Registry) -> bool {
    registry
        .reregister(&mut SourceFd(&STANDARD_INPUT), INPUT, Interest::READABLE)
        .is_ok()
}
