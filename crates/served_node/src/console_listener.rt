//! Where clients of the console come.

use crate::console_stream::ConsoleStream;
use crate::listener::Listener;
use crate::socket_file::SocketFile;
use std::fmt;
use std::fs::Files;
use std::net::SocketAddr;

/// Where clients of the console come.
#[derive(Drop)]
pub enum ConsoleListener {
    /// At an address, or nowhere.
    Tcp(Listener),
    /// At a Unix socket.
    Unix(SocketFile),
}

/// How the log names a client of the console.
#[derive(Clone, Copy)]
pub(crate) enum CallerName {
    /// By the address where its connection leads.
    Address(SocketAddr),
    /// By its number among those of the Unix socket, from 1: such a client has no address.
    Local(u64),
}

impl fmt::Display for CallerName {
    fn fmt<W: fmt::Write>(&self, f: &mut fmt::Formatter<W>) -> fmt::Result {
        match self {
            CallerName::Address(address) => write!(f, "{address}"),
            CallerName::Local(number) => write!(f, "local {number}"),
        }
    }
}

impl ConsoleListener {
    /// None come.
    pub(crate) fn none() -> ConsoleListener {
        ConsoleListener::Tcp(Listener::none())
    }

    /// One may have come, if any can.
    pub fn mark(&mut self) {
        match self {
            ConsoleListener::Tcp(listener) => listener.mark(),
            ConsoleListener::Unix(socket) => socket.may_accept = true,
        }
    }

    /// Whether one may have come.
    pub(crate) fn may_accept(&self) -> bool {
        match self {
            ConsoleListener::Tcp(listener) => listener.may_accept(),
            ConsoleListener::Unix(socket) => socket.may_accept,
        }
    }

    /// The connection of the next one that came, and its name. If there is none, the system isn't asked again until the
    /// next `mark`.
    pub(crate) fn accept(&mut self) -> Option<(ConsoleStream, CallerName)> {
        match self {
            ConsoleListener::Tcp(listener) => {
                let (stream, peer) = listener.accept()?;
                Some((ConsoleStream::Tcp(stream), CallerName::Address(peer)))
            }
            ConsoleListener::Unix(socket) => {
                let (stream, number) = socket.accept()?;
                Some((ConsoleStream::Unix(stream), CallerName::Local(number)))
            }
        }
    }

    /// Removes the file of its socket, if it has one.
    pub fn remove_file<F: Files>(&self, files: &F) {
        if let ConsoleListener::Unix(socket) = self {
            socket.remove(files);
        }
    }
}
