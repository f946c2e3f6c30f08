//! A client of the page and its socket.

ghost use Rattle.std.specs.Prelude.{◌≡◌, ◌<◌, ◌≤◌, ◌⊎◌, length, IsTrue};
ghost use Rattle.http_server.specs.Connection.{history};
ghost use Rattle.status_page.specs.Bounds.{answered, begun, is_over};

use http_server::{Connection, Service};
use mio::event::Event;
use mio::net::TcpStream;
use served_node::{Progress, read_some, unmoved, write_some};
use status_page::{Patience, limits};
use std::alloc::Global;
use std::hash::RandomState;
use std::net::Shutdown;

/// Octets that one read drops, at most.
const DROPPED_OCTETS: usize = 1024;

/// A client and its connection.
#[derive(Drop)]
pub(crate) struct PageClient {
    stream: TcpStream,
    connection: Connection,
    patience: Patience,
    /// When it came, or its last answer went out, in milliseconds since the start of the node.
    since_ms: u64,
    can_read: bool,
    can_write: bool,
    /// Whether the connection hasn't looked yet at what was read or written.
    is_due: bool,
    /// Whether the client has ended its half of the connection.
    has_ended: bool,
    /// Whether the client was told that no further answer comes.
    is_told: bool,
    is_closing: bool,
}

impl PageClient {
    /// A client that just came. Its connection hashes names of fields by these keys.
    pub(crate) fn new(
        alloc: Global,
        stream: TcpStream,
        keys: RandomState,
        now_ms: u64,
    ) -> PageClient
        ensures { result.patience ≡ begun now_ms }
    {
        let _soon = stream.set_nodelay(true);
        PageClient {
            stream,
            connection: Connection::new(alloc, keys, limits()),
            patience: Patience::begun(now_ms),
            since_ms: now_ms,
            can_read: true,
            can_write: true,
            is_due: false,
            has_ended: false,
            is_told: false,
            is_closing: false,
        }
    }

    /// Its socket may be ready.
    pub(crate) fn mark(&mut self, event: &Event)
        ensures { self.new.patience ≡ self.old.patience }
    {
        self.can_read = true;
        self.can_write = self.can_write || event.is_writable();
    }

    /// Until when it may stay, in milliseconds since the start.
    pub(crate) fn until_ms(&self) -> u64
        ensures { result ≡ self.now.patience.until_ms }
    {
        self.patience.until_ms
    }

    /// Whether its connection hasn't looked yet at what was read or written.
    pub(crate) fn is_due(&self) -> bool
        ensures { result ≡ self.now.is_due }
    {
        self.is_due
    }

    /// Whether there is something to read or to write now.
    pub(crate) fn is_busy(&self) -> bool {
        self.wants_read() || self.wants_write()
    }

    /// Whether something may be read now: what the connection wants, or what is dropped.
    fn wants_read(&self) -> bool {
        self.can_read && !self.is_due && (self.is_told || self.connection.wants_read())
    }

    /// Whether something waits that may be written now.
    fn wants_write(&self) -> bool {
        self.can_write && self.connection.wants_write()
    }

    /// Since when there is nothing to do for it, in milliseconds since the start of the node. If there is something, it
    /// never makes way for another client.
    pub(crate) fn idle_since_ms(&self) -> u64 {
        if self.is_due || self.connection.wants_write() {
            u64::MAX
        } else {
            self.since_ms
        }
    }

    /// Makes one read, if something may be read.
    pub(crate) fn read(&mut self)
        ensures { self.new.patience ≡ self.old.patience }
    {
        if !self.wants_read() {
            return;
        }
        let progress = if self.is_told {
            drop_some(&mut self.stream)
        } else {
            read_to(&mut self.stream, &mut self.connection)
        };
        match progress {
            Progress::Octets(_) => self.is_due = true,
            Progress::Later => self.can_read = false,
            Progress::Again => {}
            Progress::End => {
                self.can_read = false;
                self.has_ended = true;
                self.is_due = true;
            }
            Progress::Failed => self.is_closing = true,
        }
    }

    /// The connection looks at what was read and written. True if something waits to be written since: an answer, the
    /// refusal of what isn't a request, or a 100.
    pub(crate) fn advance<S: Service>(&mut self, service: &mut S) -> bool
        ensures waits { IsTrue result → 0 < length (history self.new.connection).pending }
        ensures due { IsTrue result → IsTrue self.old.is_due }
        ensures patience { self.new.patience ≡ self.old.patience }
    {
        if !self.is_due {
            return false;
        }
        self.is_due = false;
        self.connection.advance(service);
        self.connection.wants_write()
    }

    /// Makes one write, if something waits. The client gets more time only once all is written.
    pub(crate) fn write(&mut self, now_ms: u64)
        ensures { (self.new.patience ≡ self.old.patience)
            ⊎ ((self.new.patience ≡ answered now_ms) × (length (history self.new.connection).pending ≡ 0)) }
    {
        if !self.wants_write() {
            return;
        }
        match write_some(&mut self.stream, self.connection.output()) {
            Progress::Octets(count) => self.note_written(count, now_ms),
            Progress::Later => self.can_write = false,
            Progress::Again => {}
            Progress::End | Progress::Failed => self.is_closing = true,
        }
    }

    /// This many octets were written. Once that is all there is, the client may stay for a while.
    fn note_written(&mut self, count: usize, now_ms: u64)
        requires { count ≤ length (history self.old.connection).pending }
        ensures { (self.new.patience ≡ self.old.patience)
            ⊎ ((self.new.patience ≡ answered now_ms) × (length (history self.new.connection).pending ≡ 0)) }
    {
        self.connection.sent(count);
        if !self.connection.wants_write() {
            self.is_due = true;
            self.patience = Patience::answered(now_ms);
            self.since_ms = now_ms;
        }
    }

    /// Whether its connection must be closed: it failed, its time is over, or nothing more comes either way.
    pub(crate) fn is_over(&mut self, now_ms: u64) -> bool
        ensures time { IsTrue (is_over now_ms self.old.patience) → IsTrue result }
        ensures patience { self.new.patience ≡ self.old.patience }
    {
        if self.connection.is_done() {
            self.finish();
        }
        self.is_closing || self.patience.is_over(now_ms)
    }

    /// No further answer comes. The client is told, and what it still sends is dropped until it ends its half too. If
    /// octets were left when the connection is closed, it would be reset, and the last answer perhaps lost (RFC 9112
    /// §9.6).
    fn finish(&mut self)
        ensures { self.new.patience ≡ self.old.patience }
    {
        if self.has_ended {
            self.is_closing = true;
        } else if !self.is_told {
            self.is_told = true;
            let _told = self.stream.shutdown(Shutdown::Write);
        }
    }
}

/// Makes one read, for a connection.
fn read_to(stream: &mut TcpStream, connection: &mut Connection) -> Progress {
    match connection.read_from(stream) {
        Ok(0) => Progress::End,
        Ok(count) => Progress::Octets(count),
        Err(error) => unmoved(error.kind()),
    }
}

/// Makes one read, and drops what came.
fn drop_some(stream: &mut TcpStream) -> Progress {
    let mut dropped = [0; DROPPED_OCTETS];
    read_some(stream, &mut dropped)
}
