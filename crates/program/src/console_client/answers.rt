//! What the answers of a console say.

ghost use Rattle.std.specs.Prelude.{◌≡◌};
ghost use Rattle.program.specs.ConsoleAnswers.{is_answer, is_deed, is_last, is_malformed, is_no_place, is_refusal};
ghost use Rattle.program.specs.ConsoleAnswers.{is_refused_outcome, is_queued_outcome, is_stopping};
ghost use Rattle.program.specs.ConsoleAnswers.{blanks, counted_if};
ghost use Rattle.program.specs.ConsoleAnswers.{nothing, ended, read_octet, read, verdict};

use crate::console_client::fault::CallFault;
use arrayvec::ArrayVec;
use std::marker::Model;

/// Octets of the front of a line, by which it is judged: all of an outcome.
const FRONT_OCTETS: usize = 64;

/// The blanks of an outcome that is a refusal: before its number, and before its name. A notice has one more, before
/// the name of a link.
const REFUSAL_BLANKS: usize = 2;

/// The blanks of the outcome of a message that is queued: before the name of the link.
const QUEUED_BLANKS: usize = 1;

/// What a console made of the lines.
#[derive(Clone, Copy, PartialEq, Eq)]
pub enum Verdict {
    /// It answered, and refused nothing.
    Done,
    /// It says that something wasn't done.
    Refused,
}

/// What the answers say so far.
#[derive(Drop)]
pub(crate) struct Answers {
    front: ArrayVec<u8, FRONT_OCTETS>,
    is_within_line: bool,
    is_first: bool,
    answers: u64,
    is_refused: bool,
    has_closed: bool,
}

impl Model for Answers {
    ghost use Rattle.program.specs.ConsoleAnswers.{Heard};

    ghost Value = { Heard };

    ghost view = { λ a. record {
      front = a.front.items;
      is_within_line = a.is_within_line;
      is_first = a.is_first;
      answers = a.answers;
      is_refused = a.is_refused;
      has_closed = a.has_closed;
    } };
}

impl Answers {
    /// Nothing came yet.
    pub(crate) fn new() -> Answers
        ensures { result ≡ nothing }
    {
        Answers {
            front: ArrayVec::new(),
            is_within_line: false,
            is_first: true,
            answers: 0,
            is_refused: false,
            has_closed: false,
        }
    }

    /// These octets came.
    pub(crate) fn read(&mut self, octets: &[u8])
        ensures { self.new ≡ read octets.now self.old }
    {
        for octet in octets {
            self.read_octet(*octet);
        }
    }

    fn read_octet(&mut self, octet: u8)
        ensures { self.new ≡ read_octet octet self.old }
    {
        if octet == b'\n' {
            self.end_line();
            return;
        }
        self.is_within_line = true;
        if !self.front.is_full() {
            self.front.push(octet);
        }
    }

    /// Judges the line that just ended.
    fn end_line(&mut self)
        ensures { self.new ≡ ended self.old }
    {
        self.answers = counted_if(is_answer(self.front.as_slice()), self.answers);
        self.is_refused = self.is_refused || is_refusal(self.front.as_slice());
        self.has_closed = self.has_closed || is_last(self.is_first, self.front.as_slice());
        self.is_within_line = false;
        self.is_first = false;
        self.front.clear();
    }

    /// What came of a call whose connection ended, after all was written or before that, where this many answers were
    /// due.
    ///
    /// Lost if the answers aren't whole or too few, unless the console closes the connection behind one of them.
    pub(crate) fn verdict(&self, is_whole: bool, due: u64) -> Result<Verdict, CallFault>
        ensures { result ≡ verdict is_whole due self.now }
    {
        let is_complete = is_whole && !self.is_within_line && due <= self.answers;
        if !self.has_closed && !is_complete {
            return Err(CallFault::Lost);
        }
        if self.is_refused {
            Ok(Verdict::Refused)
        } else {
            Ok(Verdict::Done)
        }
    }
}

/// A count, and one more if there is one.
pub(crate) fn counted_if(is_one: bool, count: u64) -> u64
    ensures { result ≡ counted_if is_one count }
{
    if is_one {
        count.saturating_add(1)
    } else {
        count
    }
}

/// Whether a line is the answer to one that always has an answer. What is shown, and news, are none.
fn is_answer(line: &[u8]) -> bool
    ensures { result ≡ is_answer line.now }
{
    is_refusal(line) || is_deed(line)
}

/// Whether an answer says that something wasn't done: the line was malformed, the node refused or ignored it, or there
/// was no place for this client.
fn is_refusal(line: &[u8]) -> bool
    ensures { result ≡ is_refusal line.now }
{
    line == b"ignored".as_slice()
        || is_malformed(line)
        || is_no_place(line)
        || is_refused_outcome(line)
}

/// Whether an answer says that something was done, or that it begins; of the answer to `help` that is the first line.
fn is_deed(line: &[u8]) -> bool
    ensures { result ≡ is_deed line.now }
{
    line == b"handled".as_slice()
        || line == b"held".as_slice()
        || line == b"local".as_slice()
        || is_stopping(line)
        || line == b"help                      these lines".as_slice()
        || is_queued_outcome(line)
}

/// Whether the console closes the connection behind an answer, which is the first line that came or isn't: the node
/// stops or has no place for the client, or the client's first line is malformed.
fn is_last(is_first: bool, line: &[u8]) -> bool
    ensures { result ≡ is_last is_first line.now }
{
    is_stopping(line) || is_no_place(line) || is_first && is_malformed(line)
}

fn is_malformed(line: &[u8]) -> bool
    ensures { result ≡ is_malformed line.now }
{
    line.starts_with(b"malformed: ")
}

fn is_no_place(line: &[u8]) -> bool
    ensures { result ≡ is_no_place line.now }
{
    line.starts_with(b"no place: ")
}

fn is_stopping(line: &[u8]) -> bool
    ensures { result ≡ is_stopping line.now }
{
    line == b"stopping".as_slice()
}

/// Whether a line is an outcome `refused NUMBER NAME`, and no notice.
fn is_refused_outcome(line: &[u8]) -> bool
    ensures { result ≡ is_refused_outcome line.now }
{
    line.starts_with(b"refused ") && blanks(line) == REFUSAL_BLANKS
}

/// Whether a line is an outcome `queued LINK`, and no frame in words of a link of this name.
fn is_queued_outcome(line: &[u8]) -> bool
    ensures { result ≡ is_queued_outcome line.now }
{
    line.starts_with(b"queued ") && blanks(line) == QUEUED_BLANKS
}

fn blanks(line: &[u8]) -> usize
    ensures { result ≡ blanks line.now }
{
    line.iter().filter(|octet| **octet == b' ').count()
}
