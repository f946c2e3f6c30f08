//! A stream between two nodes that counts its reads, and the reads and writes that failed.

use script::{ReadFailed, Sink, Source, WriteFailed, write_whole};
use std::io::{Read, Write};

/// A stream that frames are written to and read from.
#[derive(Drop)]
pub(crate) struct Wire<S> {
    stream: S,
    reads: u64,
    failed_reads: u64,
    failed_writes: u64,
}

impl<S: Read + Write> Wire<S> {
    /// The wire over this stream.
    pub(crate) fn new(stream: S) -> Wire<S> {
        Wire {
            stream,
            reads: 0,
            failed_reads: 0,
            failed_writes: 0,
        }
    }
}

impl<S: Read + Write> Sink for Wire<S> {
    ghost output = { λ s. record { written = S.contents s.stream; failures = s.failed_writes } };

    fn write(&mut self, octets: &[u8]) -> Result<(), WriteFailed> {
        let result = write_whole(&mut self.stream, octets);
        if result.is_err() {
            self.failed_writes = self.failed_writes.saturating_add(1);
        }
        result
    }
}

impl<S: Read + Write> Source for Wire<S> {
    ghost input = { λ s. record { remaining = S.remaining s.stream; reads = s.reads; failures = s.failed_reads } };

    fn read(&mut self, buffer: &mut [u8]) -> Result<usize, ReadFailed> {
        self.reads = self.reads.saturating_add(1);
        match self.stream.read(buffer) {
            Ok(count) => Ok(count),
            Err(_) => {
                self.failed_reads = self.failed_reads.saturating_add(1);
                Err(ReadFailed)
            }
        }
    }
}
