//! Reads and writes of a socket.

ghost use Rattle.std.specs.Prelude.{ℕ, length};
ghost use Rattle.served_node.specs.Progress.{IsWithin};

use std::io::{ErrorKind, Read, Write};

/// What a read or a write of a socket came to.
#[derive(Clone, Copy)]
pub enum Progress {
    /// This many octets moved, one at least, and more may.
    Octets(usize),
    /// None can now: the socket tells when one may.
    Later,
    /// The call was interrupted.
    Again,
    /// None will: the peer has ended its half of the connection.
    End,
    /// The connection is over.
    Failed,
}

/// Makes one read, to the front of the buffer.
pub fn read_some<S: Read>(stream: &mut S, buffer: &mut [u8]) -> Progress
    ensures { IsWithin result (length buffer.new) }
{
    match stream.read(buffer) {
        Ok(0) => Progress::End,
        Ok(count) => Progress::Octets(count),
        Err(error) => unmoved(error.kind()),
    }
}

/// Makes one write, from the first of the octets on.
pub fn write_some<S: Write>(stream: &mut S, octets: &[u8]) -> Progress
    ensures { IsWithin result (length octets.now) }
{
    match stream.write(octets) {
        Ok(0) => Progress::Failed,
        Ok(count) => Progress::Octets(count),
        Err(error) => unmoved(error.kind()),
    }
}

/// What an error of this kind says of a socket.
pub fn unmoved(kind: ErrorKind) -> Progress
    ensures { (most : ℕ) → IsWithin result most }
{
    match kind {
        ErrorKind::WouldBlock => Progress::Later,
        ErrorKind::Interrupted => Progress::Again,
        _ => Progress::Failed,
    }
}
