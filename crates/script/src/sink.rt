//! Where a script's output is written to.

ghost use Rattle.std.specs.Prelude.{◌≡◌, ℕ, ◌<◌, ◌≤◌, ◌++◌, [], List};
ghost use Rattle.std.specs.Prelude.{Option, None, Some, length, take, IsOk, IsErr, OnOk, OnErr};
ghost use Rattle.std.specs.Io.KnownBytes.{Appends};
ghost use Rattle.script.specs.Streams.{Output, AppendsFirst, failures_after, plan_after};

use std::alloc::Global;
use std::io::Write;
use std::marker::Model;

/// A write failed. Some of the octets, from the first, may have been written.
#[derive(Clone, Copy, Debug, PartialEq, Eq)]
pub struct WriteFailed;

/// What a script's output is written to.
///
/// It counts its failures, and knows, if it can, the octets that were written.
pub trait Sink {
    // The octets that were written, if they are known, and the count of the writes that failed.
    ghost output: { Self → Output };

    /// Writes all the octets. After `WriteFailed` only the first of them were written, however many.
    fn write(&mut self, octets: &[u8]) -> Result<(), WriteFailed>
        ensures all { OnOk result (Appends (output self.old).written (output self.new).written octets.now) }
        ensures first { OnErr result (AppendsFirst (output self.old).written (output self.new).written octets.now) }
        ensures counted { (output self.new).failures ≡ failures_after (output self.old).failures result };
}

/// A sink over a writer of the standard library, such as standard output.
///
/// A write of the writer that fails, or that takes nothing, is a failed write.
#[derive(Drop)]
pub struct WriterSink<W> {
    writer: W,
    failures: u64,
}

impl<W: Write> WriterSink<W> {
    /// The sink that writes to this writer.
    pub fn new(writer: W) -> WriterSink<W>
        ensures { ⟦<WriterSink<W> as Sink>⟧.output result ≡ record { written = W.contents writer; failures = 0 } }
    {
        WriterSink {
            writer,
            failures: 0,
        }
    }

    /// How many writes failed.
    pub fn failures(&self) -> u64
        ensures { result ≡ (⟦<WriterSink<W> as Sink>⟧.output self.now).failures }
    {
        self.failures
    }
}

/// Writes octets until all are written, or one write fails or takes nothing.
pub fn write_whole<W: Write>(writer: &mut W, octets: &[u8]) -> Result<(), WriteFailed>
    ensures all { OnOk result (Appends (W.contents writer.old) (W.contents writer.new) octets.now) }
    ensures first { OnErr result (AppendsFirst (W.contents writer.old) (W.contents writer.new) octets.now) }
{
    let mut start = 0;
    while start < octets.len() {
        match writer.write(&octets[start..]) {
            Ok(0) | Err(_) => return Err(WriteFailed),
            Ok(count) => start += count,
        }
    }
    Ok(())
}

impl<W: Write> Sink for WriterSink<W> {
    ghost output = { λ s. record { written = W.contents s.writer; failures = s.failures } };

    fn write(&mut self, octets: &[u8]) -> Result<(), WriteFailed> {
        let result = write_whole(&mut self.writer, octets);
        if result.is_err() {
            self.failures = self.failures.saturating_add(1);
        }
        result
    }
}

/// A sink into memory, which may be told to fail at a write.
#[derive(Drop)]
pub struct MemorySink {
    octets: Vec<u8>,
    until_failure: Option<u64>,
    failures: u64,
}

impl Model for MemorySink {
    ghost use Rattle.script.specs.Streams.{PlannedSink};

    ghost Value = { PlannedSink };

    ghost view = { λ s. record { written = s.octets.items; until_failure = s.until_failure; failures = s.failures } };
}

impl MemorySink {
    /// The sink that takes all that is written, while memory is left.
    pub fn new(alloc: Global) -> MemorySink
        ensures { result ≡ record { written = []; until_failure = None; failures = 0 } }
    {
        MemorySink {
            octets: Vec::new(alloc),
            until_failure: None,
            failures: 0,
        }
    }

    /// The same, but the write after this many more fails, and nothing of it is written.
    pub fn failing_after(self, writes: u64) -> MemorySink
        ensures { result ≡ record self { until_failure = Some writes } }
    {
        MemorySink {
            octets: self.octets,
            until_failure: Some(writes),
            failures: self.failures,
        }
    }

    /// The octets that were written.
    pub fn written(&self) -> &[u8]
        ensures { result.now ≡ self.now.written }
    {
        self.octets.as_slice()
    }

    /// How many writes failed.
    pub fn failures(&self) -> u64
        ensures { result ≡ self.now.failures }
    {
        self.failures
    }
}

impl Sink for MemorySink {
    ghost output = { λ s. record { written = Some s.written; failures = s.failures } };

    fn write(&mut self, octets: &[u8]) -> Result<(), WriteFailed>
        ensures all { OnOk result (Appends (Some self.old.written) (Some self.new.written) octets.now) }
        ensures first { OnErr result (AppendsFirst (Some self.old.written) (Some self.new.written) octets.now) }
        ensures counted { self.new.failures ≡ failures_after self.old.failures result }
        ensures planned { self.old.until_failure ≡ Some 0 → IsErr result }
        ensures none { OnErr result (self.new.written ≡ self.old.written) }
        ensures plan { self.new.until_failure ≡ plan_after self.old.until_failure }
    {
        let is_refused = self.until_failure == Some(0);
        self.until_failure = match self.until_failure {
            Some(0) | None => None,
            Some(writes) => Some(writes - 1),
        };
        if is_refused || self.octets.extend_from_slice(octets).is_err() {
            self.failures = self.failures.saturating_add(1);
            return Err(WriteFailed);
        }
        Ok(())
    }
}
