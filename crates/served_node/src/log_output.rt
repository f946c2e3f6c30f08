//! Where a log goes, and how it is written without a wait.

use crate::readiness::{Readiness, is_ready};
use crate::socket::{Progress, write_some};
use script::{Sink, WriteFailed};
use std::fs;
use std::fs::{File, OpenOptions};
use std::io::IsTerminal;
use std::os::fd::{OwnedFd, RawFd};
use std::os::unix::fs::FileTypeExt;
use std::os::unix::net::UnixStream;

/// The descriptor of standard output, and the path at which it can be opened anew.
const STANDARD_OUTPUT: RawFd = 1;

const STANDARD_OUTPUT_PATH: &str = "/proc/self/fd/1";

/// Octets of a write to a pipe or a socket that others write to, at most. If it takes any at once, it takes as many.
const PIECE_OCTETS: usize = 4096;

/// The log would go to a terminal that can't be opened anew, and a write to it may wait for as long as its user likes.
#[derive(Clone, Copy, Debug, PartialEq, Eq)]
pub struct SlowTerminal;

/// Where a log goes: to a pipe or a terminal that was opened anew, if there is one, so that its writes don't wait, and
/// those of others who have it open do; else to standard output as it is. That is then a file, a socket, or a pipe that
/// can't be opened anew, and what tells whether it takes octets at once is there for the last two.
#[derive(Drop)]
pub(crate) struct LogOutput<'a, W> {
    own: Option<File>,
    sink: &'a mut W,
    readiness: Option<Readiness>,
}

impl<'a, W: Sink> LogOutput<'a, W> {
    /// Standard output, to which this sink writes. SlowTerminal if a write may wait for its reader.
    pub(crate) fn of(rt: &HostRuntime, sink: &'a mut W) -> Result<LogOutput<'a, W>, SlowTerminal> {
        let is_terminal = rt.stdout().is_terminal();
        let own = opened_anew(rt, is_terminal);
        if is_terminal && own.is_none() {
            return Err(SlowTerminal);
        }
        let readiness = if own.is_some() {
            None
        } else {
            Readiness::of(rt, rt.alloc(), STANDARD_OUTPUT)
        };
        Ok(LogOutput {
            own,
            sink,
            readiness,
        })
    }

    /// Makes one write, of the first octets.
    pub(crate) fn write(&mut self, octets: &[u8]) -> Progress {
        if let Some(file) = &mut self.own {
            return write_some(file, octets);
        }
        if self.readiness.is_none() {
            return write_all(self.sink, octets);
        }
        if is_ready(&mut self.readiness) {
            write_all(self.sink, octets.get(..PIECE_OCTETS).unwrap_or(octets))
        } else {
            Progress::Later
        }
    }
}

/// Writes these octets.
fn write_all<W: Sink>(sink: &mut W, octets: &[u8]) -> Progress {
    match sink.write(octets) {
        Ok(()) => Progress::Octets(octets.len()),
        Err(WriteFailed) => Progress::Failed,
    }
}

/// Standard output, opened anew so that its writes don't wait. None if it is neither a terminal nor a pipe, or if it
/// can't be opened so.
fn opened_anew(rt: &HostRuntime, is_terminal: bool) -> Option<File> {
    if !is_terminal && !is_pipe(rt) {
        return None;
    }
    // A pipe is opened for both ways: to write alone would wait for a reader, if there is none.
    let file = OpenOptions::new()
        .read(!is_terminal)
        .write(true)
        .open(rt, STANDARD_OUTPUT_PATH)
        .ok()?;
    never_wait(&file)?;
    Some(file)
}

/// Whether standard output is a pipe.
fn is_pipe(rt: &HostRuntime) -> bool {
    match fs::metadata(rt, STANDARD_OUTPUT_PATH) {
        Ok(found) => found.file_type().is_fifo(),
        Err(_) => false,
    }
}

/// From now on no write to this file waits, by whichever of its descriptors. None if the system doesn't do that.
fn never_wait(file: &File) -> Option<()> {
    // (only a stream has the call; it is made of another descriptor, which is closed again)
    let stream = UnixStream::from(OwnedFd::from(file.try_clone().ok()?));
    stream.set_nonblocking(true).ok()
}
