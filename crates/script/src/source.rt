//! Where a script is read from.

ghost use Rattle.std.specs.Prelude.{◌≡◌, ℕ, ◌<◌, ◌≤◌, ◌++◌, List, []};
ghost use Rattle.std.specs.Prelude.{Option, None, Some, length, take, IfOk, IsErr, ◌↔◌, min, max, drop};
ghost use Rattle.std.specs.Io.KnownBytes.{ReadConsumes};
ghost use Rattle.script.specs.Streams.{Input, counted, failures_after, plan_after};

use std::io::Read;
use std::marker::Model;

/// A read failed. Nothing was read.
#[derive(Clone, Copy, Debug, PartialEq, Eq)]
pub struct ReadFailed;

/// What a script is read from.
///
/// It counts its failures and, if it knows them, says which octets are still to be read; what was read is what they
/// lost at their front.
pub trait Source {
    // The octets that reads give from here on, if they are known, and the counts of its reads.
    ghost input: { Self → Input };

    /// Reads the next octets to the front of the buffer, and returns how many: 0 only at the end, or if the buffer is
    /// empty. After `ReadFailed` nothing was read.
    fn read(&mut self, buffer: &mut [u8]) -> Result<usize, ReadFailed>
        ensures bound { IfOk result (λ count. count ≤ length buffer.new) }
        ensures octets { ReadConsumes (input self.old).remaining (input self.new).remaining result buffer.new }
        ensures made { (input self.new).reads ≡ counted (input self.old).reads }
        ensures counted { (input self.new).failures ≡ failures_after (input self.old).failures result };
}

/// A source over a reader of the standard library, such as standard input.
///
/// Any error of the reader is a failed read.
#[derive(Drop)]
pub struct ReaderSource<R> {
    reader: R,
    reads: u64,
    failures: u64,
}

impl<R: Read> ReaderSource<R> {
    /// The source that reads from this reader.
    pub fn new(reader: R) -> ReaderSource<R>
        ensures { ⟦<ReaderSource<R> as Source>⟧.input result
            ≡ record { remaining = R.remaining reader; reads = 0; failures = 0 } }
    {
        ReaderSource {
            reader,
            reads: 0,
            failures: 0,
        }
    }

    /// How many reads failed.
    pub fn failures(&self) -> u64
        ensures { result ≡ (⟦<ReaderSource<R> as Source>⟧.input self.now).failures }
    {
        self.failures
    }
}

impl<R: Read> Source for ReaderSource<R> {
    ghost input = { λ s. record { remaining = R.remaining s.reader; reads = s.reads; failures = s.failures } };

    fn read(&mut self, buffer: &mut [u8]) -> Result<usize, ReadFailed> {
        self.reads = self.reads.saturating_add(1);
        match self.reader.read(buffer) {
            Ok(count) => Ok(count),
            Err(_) => {
                self.failures = self.failures.saturating_add(1);
                Err(ReadFailed)
            }
        }
    }
}

/// A source over octets in memory, which can be set to give only a few octets per read, and to fail at one read.
#[derive(Drop)]
pub struct MemorySource<'a> {
    rest: &'a [u8],
    most: usize,
    until_failure: Option<u64>,
    reads: u64,
    failures: u64,
}

impl<'a> Model for MemorySource<'a> {
    ghost use Rattle.std.specs.Prelude.{◌≤◌};
    ghost use Rattle.script.specs.Streams.{PlannedSource};

    ghost Value = { PlannedSource };

    ghost view = { λ s. record {
      rest = s.rest.now;
      most = s.most;
      until_failure = s.until_failure;
      reads = s.reads;
      failures = s.failures;
    } };

    ghost invariant = { λ s. 1 ≤ s.most };
}

impl<'a> MemorySource<'a> {
    /// The source that gives these octets, as many a read as the buffer holds.
    pub fn new(octets: &'a [u8]) -> MemorySource<'a>
        ensures { result
            ≡ record { rest = octets.now; most = usize.MAX; until_failure = None; reads = 0; failures = 0 } }
    {
        MemorySource {
            rest: octets,
            most: usize::MAX,
            until_failure: None,
            reads: 0,
            failures: 0,
        }
    }

    /// The same, but with at most this many octets a read, and at least one.
    pub fn in_pieces_of(self, most: usize) -> MemorySource<'a>
        ensures { result ≡ record self.entry { most = max most 1 } }
    {
        MemorySource {
            rest: self.rest,
            most: most.max(1),
            until_failure: self.until_failure,
            reads: self.reads,
            failures: self.failures,
        }
    }

    /// The same, but the read after this many more fails.
    pub fn failing_after(self, reads: u64) -> MemorySource<'a>
        ensures { result ≡ record self.entry { until_failure = Some reads } }
    {
        MemorySource {
            rest: self.rest,
            most: self.most,
            until_failure: Some(reads),
            reads: self.reads,
            failures: self.failures,
        }
    }

    /// How many reads failed.
    pub fn failures(&self) -> u64
        ensures { result ≡ self.now.failures }
    {
        self.failures
    }

    /// Moves the next octets to the front of the buffer, and returns how many.
    fn give(&mut self, buffer: &mut [u8]) -> usize
        ensures bound { result ≤ length buffer.new }
        ensures count { result ≡ min (min (length self.old.rest) (length buffer.old)) self.old.most }
        ensures octets { self.old.rest ≡ take result buffer.new ++ drop result self.old.rest }
        ensures end { result ≡ 0 → 0 < length buffer.new → drop result self.old.rest ≡ [] }
        ensures state { self.new ≡ record self.old { rest = drop result self.old.rest } }
    {
        let count = self.rest.len().min(buffer.len()).min(self.most);
        buffer[..count].copy_from_slice(&self.rest[..count]);
        self.rest = &self.rest[count..];
        count
    }
}

impl Source for MemorySource<'_> {
    ghost input = { λ s. record { remaining = Some s.rest; reads = s.reads; failures = s.failures } };

    fn read(&mut self, buffer: &mut [u8]) -> Result<usize, ReadFailed>
        ensures bound { IfOk result (λ count. count ≤ length buffer.new) }
        ensures count { IfOk result (λ n. n ≡ min (min (length self.old.rest) (length buffer.old)) self.old.most) }
        ensures octets { ReadConsumes (Some self.old.rest) (Some self.new.rest) result buffer.new }
        ensures made { self.new.reads ≡ counted self.old.reads }
        ensures counted { self.new.failures ≡ failures_after self.old.failures result }
        ensures planned { IsErr result ↔ (self.old.until_failure ≡ Some 0) }
        ensures plan { self.new.until_failure ≡ plan_after self.old.until_failure }
        ensures most { self.new.most ≡ self.old.most }
    {
        self.reads = self.reads.saturating_add(1);
        match self.until_failure {
            Some(0) => {
                self.until_failure = None;
                self.failures = self.failures.saturating_add(1);
                Err(ReadFailed)
            }
            Some(reads) => {
                self.until_failure = Some(reads - 1);
                Ok(self.give(buffer))
            }
            None => Ok(self.give(buffer)),
        }
    }
}
