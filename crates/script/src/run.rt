//! Running a script, octet by octet.

ghost use Rattle.std.specs.Prelude.{◌≡◌, ◌+◌, ◌≤◌, ◌<◌, ◌^◌, [], ◌∷◌, length};
ghost use Rattle.exchange.specs.KeptQueues.{kept};
ghost use Rattle.exchange_rules.specs.Queues.{whole};
ghost use Rattle.exchange_rules.specs.First.{Abstract};
ghost use Rattle.exchange.specs.Calls.{Kept, StandsFor};
ghost use Rattle.script.specs.Asking.{parsed_line};
ghost use Rattle.script.specs.Runs.{Does, Runs, stopped};
ghost use Rattle.script.specs.Steps.{DoesLine, Grows, HasTaken, first_line, rest_run};
ghost use Rattle.script.specs.Faults.{EndsAtLine, MakesReads, reads_failed, writes_failed};

use crate::fault::{LINE_OCTETS, LineFault, READS, ScriptFault};
use crate::line::{Malformed, parse_line};
use crate::performing::perform;
use crate::showing::print;
use crate::sink::Sink;
use crate::source::Source;
use crate::text::line_fault;
use arrayvec::ArrayVec;
use exchange::Exchange;
use settings::PointFormat;
use std::marker::Model;

/// Octets that one read asks for.
const PIECE_OCTETS: usize = 4096;

/// What ends a line.
const LINE_FEED: u8 = b'\n';

/// What an octet does to the line that is being read.
#[derive(Clone, Copy, Debug, PartialEq, Eq)]
pub enum Grown {
    /// It is part of the line, which goes on.
    Open,
    /// It is one octet more than a line may have.
    TooLong,
    /// It ends the line.
    Whole,
}

/// The line that is being read.
#[derive(Drop)]
pub struct OpenLine {
    octets: ArrayVec<u8, LINE_OCTETS>,
    number: u64,
    wrong: LineFault,
}

impl Model for OpenLine {
    ghost use Rattle.std.specs.Prelude.{◌≤◌, length};
    ghost use Rattle.script.specs.Steps.{LineSoFar};
    ghost use Rattle.script.specs.declared.fault.TheConstants.{LINE_OCTETS};

    ghost Value = { LineSoFar };

    ghost view = { λ l. record { octets = l.octets.items; number = l.number } };

    ghost invariant = { λ l. length l.octets.items ≤ LINE_OCTETS };
}

/// Does the lines of a script, in order, and prints one line for each, or for `show` a text.
///
/// Empty lines, and lines that begin with `#`, are skipped and print nothing. A line that is malformed, longer than
/// 8,300 octets, or without a line feed at the end of the script prints `fault` and its number, and ends the script
/// with `Line`; nothing of it is done. Returns `Read` or `Write` exactly if a read or a write failed. After `Write` the
/// lines up to some line were taken: the output of those before it was written in full, and the beginning of its own.
/// At most 4,194,304 reads are made. If each of them found an octet, the lines that are whole by then are done, and the
/// script ends with `TooManyReads`. It allocates no memory.
pub fn run_script<R: Source, W: Sink>(
    exchange: &mut Exchange,
    reader: &mut R,
    writer: &mut W,
) -> Result<(), ScriptFault>
    // For every abstract state that the exchange stood for, output and state are those of the abstract exchange over
    // the lines.
    ensures run { (before : Abstract) → StandsFor exchange.old before
        → (after : Abstract) × StandsFor exchange.new after
        × Runs whole result before after (R.input reader.old).remaining (R.input reader.new).remaining
        (W.output writer.old).written (W.output writer.new).written }

    // The same on what is kept.
    ensures kept_run { Runs kept result exchange.old exchange.new
        (R.input reader.old).remaining (R.input reader.new).remaining
        (W.output writer.old).written (W.output writer.new).written }
    ensures bounded { MakesReads result (R.input reader.old).reads (R.input reader.new).reads }
    ensures reads { (R.input reader.new).failures ≡ reads_failed (R.input reader.old).failures result }
    ensures writes { (W.output writer.new).failures ≡ writes_failed (W.output writer.old).failures result }
{
    run_pieces(&mut OpenLine::first(), exchange, reader, writer)
}

/// Does the lines of a script as `run_script`, from this first line on. A line that ends the script stays open.
pub fn run_pieces<R: Source, W: Sink>(
    line: &mut OpenLine,
    exchange: &mut Exchange,
    reader: &mut R,
    writer: &mut W,
) -> Result<(), ScriptFault>
    requires { line.old ≡ first_line }
    ensures run { Runs kept result exchange.old exchange.new
        (R.input reader.old).remaining (R.input reader.new).remaining
        (W.output writer.old).written (W.output writer.new).written }
    ensures bounded { MakesReads result (R.input reader.old).reads (R.input reader.new).reads }
    ensures reads { (R.input reader.new).failures ≡ reads_failed (R.input reader.old).failures result }
    ensures writes { (W.output writer.new).failures ≡ writes_failed (W.output writer.old).failures result }
{
    let mut piece = [0; PIECE_OCTETS];
    for _ in 0..READS {
        let count = reader.read(&mut piece)?;
        if count == 0 {
            return line.end(writer);
        }
        line.take_all(&piece[..count], exchange, writer)?;
    }
    Err(ScriptFault::TooManyReads)
}

impl OpenLine {
    /// The first line, before its first octet.
    pub fn first() -> OpenLine
        ensures { result ≡ first_line }
    {
        OpenLine {
            octets: ArrayVec::new(),
            number: 1,
            wrong: LineFault::Malformed,
        }
    }

    /// What was read of the line.
    pub fn octets(&self) -> &[u8]
        ensures octets { result.now ≡ self.now.octets }
        ensures short { length result.now ≤ LINE_OCTETS }
    {
        self.octets.as_slice()
    }

    /// What is wrong with the line, if it ended the script.
    pub fn wrong(&self) -> LineFault {
        self.wrong
    }

    /// Takes the next octets, and does each line that ends in them.
    fn take_all<W: Sink>(
        &mut self,
        octets: &[u8],
        exchange: &mut Exchange,
        writer: &mut W,
    ) -> Result<(), ScriptFault>
        requires number { self.old.number + length octets.now < 2 ^ 64 }
        requires short { length self.old.octets ≤ LINE_OCTETS }
        ensures number { self.new.number ≤ self.old.number + length octets.now }
        ensures short { length self.new.octets ≤ LINE_OCTETS }
        ensures writes { (W.output writer.new).failures ≡ writes_failed (W.output writer.old).failures result }
        ensures run { HasTaken octets.now result self.old self.new exchange.old exchange.new
            (W.output writer.old).written (W.output writer.new).written }
    {
        for octet in octets {
            self.take(*octet, exchange, writer)?;
        }
        Ok(())
    }

    /// Takes the next octet, and does the line if that ends it.
    fn take<W: Sink>(
        &mut self,
        octet: u8,
        exchange: &mut Exchange,
        writer: &mut W,
    ) -> Result<(), ScriptFault>
        requires { self.old.number + 1 < 2 ^ 64 }
        ensures number { self.new.number ≤ self.old.number + 1 }
        ensures short { length self.new.octets ≤ LINE_OCTETS }
        ensures writes { (W.output writer.new).failures ≡ writes_failed (W.output writer.old).failures result }
        ensures run { HasTaken (octet ∷ []) result self.old self.new exchange.old exchange.new
            (W.output writer.old).written (W.output writer.new).written }
    {
        match self.add(octet) {
            Grown::Open => Ok(()),
            Grown::TooLong => fail(self.number, writer),
            Grown::Whole => {
                do_line(self.octets(), self.number, exchange, writer)?;
                self.begin_next();
                Ok(())
            }
        }
    }

    /// Takes the next octet, which isn't part of the line if it ends the line, or if the line has no room for it.
    pub fn add(&mut self, octet: u8) -> Grown
        ensures line { Grows result octet self.old self.new }
        ensures short { length self.new.octets ≤ LINE_OCTETS }
    {
        let is_full = self.octets.is_full();
        if octet == LINE_FEED {
            return Grown::Whole;
        }
        if is_full {
            self.wrong = LineFault::TooLong(LINE_OCTETS);
            return Grown::TooLong;
        }
        self.octets.push(octet);
        Grown::Open
    }

    /// Begins the line after this one.
    pub fn begin_next(&mut self)
        requires { self.old.number + 1 < 2 ^ 64 }
        ensures { self.new ≡ record { octets = []; number = self.old.number + 1 } }
    {
        self.octets.clear();
        self.number += 1;
    }

    /// Prints that the line is malformed, and ends the script.
    pub fn fail<W: Sink>(&self, writer: &mut W) -> Result<(), ScriptFault>
        ensures writes { (W.output writer.new).failures ≡ writes_failed (W.output writer.old).failures result }
        ensures fault { EndsAtLine result }
    {
        fail(self.number, writer)
    }

    /// Takes the end of the script: a line that was begun is a fault.
    pub fn end<W: Sink>(&mut self, writer: &mut W) -> Result<(), ScriptFault>
        ensures writes { (W.output writer.new).failures ≡ writes_failed (W.output writer.old).failures result }
        ensures fault { EndsAtLine result }
        ensures run { (s : Kept) → Does (rest_run 0 [] self.old [] s) result s
            (W.output writer.old).written (W.output writer.new).written }
    {
        if self.octets.is_empty() {
            return Ok(());
        }
        self.wrong = LineFault::Unended;
        fail(self.number, writer)
    }
}

/// Does a whole line, and prints what became of it.
fn do_line<W: Sink>(
    line: &[u8],
    number: u64,
    exchange: &mut Exchange,
    writer: &mut W,
) -> Result<(), ScriptFault>
    ensures writes { (W.output writer.new).failures ≡ writes_failed (W.output writer.old).failures result }
    ensures run { DoesLine number (parsed_line PointFormat.Plain line.now) exchange.old result exchange.new
        (W.output writer.old).written (W.output writer.new).written }
{
    match parse_line(line, PointFormat::Plain) {
        Ok(Some(line)) => {
            let reply = perform(exchange, line);
            print(exchange, &reply, writer)?;
            Ok(())
        }
        Ok(None) => Ok(()),
        Err(Malformed) => fail(number, writer),
    }
}

/// Prints that a line is malformed, and ends the script.
fn fail<W: Sink>(number: u64, writer: &mut W) -> Result<(), ScriptFault>
    ensures writes { (W.output writer.new).failures ≡ writes_failed (W.output writer.old).failures result }
    ensures fault { EndsAtLine result }
    ensures run { (s : Kept) → Does (stopped number s) result s
        (W.output writer.old).written (W.output writer.new).written }
{
    writer.write(line_fault(number).as_slice())?;
    Err(ScriptFault::Line(number))
}
