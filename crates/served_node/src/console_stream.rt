//! A connection of the console, at either end.

ghost use Rattle.std.specs.Prelude.{length};
ghost use Rattle.served_node.specs.Progress.{IsWithin};

use crate::socket::{Progress, read_some, write_some};
use mio::event::Source;
use mio::net::{TcpStream, UnixStream};
use mio::{Interest, Registry, Token};
use std::io;
use std::net::Shutdown;

/// A connection of the console: over TCP, or over a Unix socket.
#[derive(Drop)]
pub enum ConsoleStream {
    /// One over TCP.
    Tcp(TcpStream),
    /// One over a Unix socket.
    Unix(UnixStream),
}

impl ConsoleStream {
    /// Makes one read, to the front of the buffer.
    pub fn read(&mut self, buffer: &mut [u8]) -> Progress
        ensures { IsWithin result (length buffer.new) }
    {
        match self {
            ConsoleStream::Tcp(stream) => read_some(stream, buffer),
            ConsoleStream::Unix(stream) => read_some(stream, buffer),
        }
    }

    /// Makes one write, from the first of the octets on.
    pub fn write(&mut self, octets: &[u8]) -> Progress
        ensures { IsWithin result (length octets.now) }
    {
        match self {
            ConsoleStream::Tcp(stream) => write_some(stream, octets),
            ConsoleStream::Unix(stream) => write_some(stream, octets),
        }
    }

    /// Ends the half that writes: the other end reads what was written, and then an end.
    pub fn end_writing(&self) -> io::Result<()> {
        match self {
            ConsoleStream::Tcp(stream) => stream.shutdown(Shutdown::Write),
            ConsoleStream::Unix(stream) => stream.shutdown(Shutdown::Write),
        }
    }

    /// Registers it with a poll, which then tells when it may be read or written.
    pub fn register(&mut self, registry: &Registry, token: Token) -> io::Result<()> {
        let interests = Interest::READABLE | Interest::WRITABLE;
        match self {
            ConsoleStream::Tcp(stream) => stream.register(registry, token, interests),
            ConsoleStream::Unix(stream) => stream.register(registry, token, interests),
        }
    }
}
