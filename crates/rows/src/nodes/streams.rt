//! Streams that no memory of `script` and `lab` stands for.

use lab::{JoinFault, Joiner};
use script::{ReadFailed, Source};
use std::io;
use std::io::Read;

/// A writer that takes three octets a call while it has room, and then none.
#[derive(Drop)]
pub(crate) struct Narrow {
    pub taken: Vec<u8>,
    pub room: usize,
}

impl io::Write for Narrow {
    fn write(&mut self, octets: &[u8]) -> io::Result<usize> {
        let count = octets.len().min(3).min(self.room);
        match self.taken.extend_from_slice(&octets[..count]) {
            Ok(()) => self.room -= count,
            Err(_) => return Err(io::Error::from(io::ErrorKind::OutOfMemory)),
        }
        Ok(count)
    }

    fn flush(&mut self) -> io::Result<()> {
        Ok(())
    }
}

/// Empty lines for ever, one octet a read.
#[derive(Drop)]
pub(crate) struct Endless {
    pub reads: u64,
}

impl Source for Endless {
    ghost use Rattle.std.specs.Prelude.{None};

    ghost input = { λ s. record { remaining = None; reads = s.reads; failures = 0 } };

    fn read(&mut self, buffer: &mut [u8]) -> Result<usize, ReadFailed> {
        self.reads = self.reads.saturating_add(1);
        match buffer.first_mut() {
            Some(octet) => {
                *octet = b'\n';
                Ok(1)
            }
            None => Ok(0),
        }
    }
}

/// A stream that takes all that is written to it, and gives these octets and then its end. It also joins links by such
/// streams at either end.
#[derive(Clone, Copy)]
pub(crate) struct Replaying<'a> {
    pub octets: &'a [u8],
}

impl io::Read for Replaying<'_> {
    fn read(&mut self, buffer: &mut [u8]) -> io::Result<usize> {
        self.octets.read(buffer)
    }
}

impl io::Write for Replaying<'_> {
    fn write(&mut self, octets: &[u8]) -> io::Result<usize> {
        Ok(octets.len())
    }

    fn flush(&mut self) -> io::Result<()> {
        Ok(())
    }
}

impl<'a> Joiner for Replaying<'a> {
    type Stream = Replaying<'a>;

    fn join(&mut self) -> Result<(Replaying<'a>, Replaying<'a>), JoinFault> {
        Ok((*self, *self))
    }
}
