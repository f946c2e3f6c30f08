//! Whether a descriptor takes octets at once.

use mio::unix::SourceFd;
use mio::{Events, Interest, Poll, Token};
use std::alloc::Global;
use std::net::Net;
use std::os::fd::RawFd;
use std::time::Duration;

/// The one token of the poll.
const TOKEN: Token = Token(0);

/// A poll of one descriptor.
#[derive(Drop)]
pub(crate) struct Readiness {
    descriptor: RawFd,
    poll: Poll,
    events: Events,
}

impl Readiness {
    /// A poll of this descriptor. None if it has nothing to wait for, as a file, or if there is no poll to be had.
    pub(crate) fn of<N: Net>(net: &N, alloc: Global, descriptor: RawFd) -> Option<Readiness> {
        let events = Events::with_capacity(alloc, 1).ok()?;
        let poll = Poll::new(net).ok()?;
        let mut source = SourceFd(&descriptor);
        poll.registry()
            .register(&mut source, TOKEN, Interest::WRITABLE)
            .ok()?;
        Some(Readiness {
            descriptor,
            poll,
            events,
        })
    }

    /// Whether it is ready now, or says that it failed.
    pub(crate) fn is_there(&mut self) -> bool {
        let mut source = SourceFd(&self.descriptor);
        let asked = self
            .poll
            .registry()
            .reregister(&mut source, TOKEN, Interest::WRITABLE);
        let polled = self.poll.poll(&mut self.events, Some(Duration::ZERO));
        asked.is_err() || polled.is_err() || self.events.iter().next().is_some()
    }
}

/// Whether octets are taken at once; true if nothing tells.
pub(crate) fn is_ready(readiness: &mut Option<Readiness>) -> bool {
    match readiness {
        Some(readiness) => readiness.is_there(),
        None => true,
    }
}
