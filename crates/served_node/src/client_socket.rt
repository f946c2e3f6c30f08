//! A client of the console and its socket.

use crate::console_listener::CallerName;
use crate::console_session::{ConsoleClient, ConsoleContext, Ending, News};
use crate::console_stream::ConsoleStream;
use crate::log::Log;
use crate::order_line::{OrderLine, first_line, order_in};
use crate::socket::Progress;
use mio::event::Event;
use script::Sink;
use std::alloc::Global;
use std::time::Duration;

/// Octets that one read of a client asks for.
const PIECE_OCTETS: usize = 4096;

/// Lines of a client in one round, at most.
const LINES: usize = 64;

/// Writes of a client in one round, at most.
const WRITES: usize = 16;

/// While more octets than this wait for a client, none of its further lines is done.
const LOW_OCTETS: usize = 65_536;

/// A client that was answered is idle once nothing went to it or came from it for so many seconds.
const IDLE_SECONDS: u64 = 600;

/// How a client stands, from the first that makes way for another one to the last.
#[derive(Clone, Copy, PartialEq, Eq, PartialOrd, Ord)]
enum Standing {
    /// It wasn't answered yet, or it is idle. So silent ones, however many come at once, make way for one another.
    Idle,
    /// It was answered, and isn't idle.
    Answered,
    /// It asked for news.
    Watching,
}

/// A client's claim to its place: the client with the least one makes way for another.
#[derive(Clone, Copy, PartialEq, Eq, PartialOrd, Ord)]
pub(crate) struct Claim {
    standing: Standing,
    /// Of two that stand alike, the one that was idle longer has less.
    active_at: Duration,
}

/// A client and its connection.
#[derive(Drop)]
pub(crate) struct ClientSocket {
    stream: ConsoleStream,
    /// How the log names it.
    pub(crate) name: CallerName,
    pub(crate) client: ConsoleClient,
    piece: [u8; PIECE_OCTETS],
    start: usize,
    end: usize,
    can_read: bool,
    can_write: bool,
    /// Whether its lines are over: it ended its half, or it left.
    has_ended: bool,
    /// Whether it asked to be closed.
    has_left: bool,
    /// Whether octets came from it, or went to it, in this round.
    has_moved: bool,
    /// Whether octets went to it so far.
    was_answered: bool,
    /// When some last came or went, or when it came itself.
    active_at: Duration,
    /// Whether its connection is over.
    pub(crate) is_closing: bool,
}

impl ClientSocket {
    /// A client that came at this time.
    pub(crate) fn new(
        alloc: Global,
        stream: ConsoleStream,
        name: CallerName,
        now: Duration,
    ) -> ClientSocket {
        ClientSocket {
            stream,
            name,
            client: ConsoleClient::new(alloc),
            piece: [0; PIECE_OCTETS],
            start: 0,
            end: 0,
            can_read: true,
            can_write: true,
            has_ended: false,
            has_left: false,
            has_moved: false,
            was_answered: false,
            active_at: now,
            is_closing: false,
        }
    }

    /// Its socket may be ready.
    pub(crate) fn mark(&mut self, event: &Event) {
        self.can_read = !self.has_left;
        self.can_write = self.can_write || event.is_writable();
    }

    /// Whether there is something to read or to write now.
    pub(crate) fn is_busy(&self) -> bool {
        if self.has_much() {
            return self.can_write;
        }
        self.can_read
            || self.start < self.end
            || self.can_write && !self.client.pending().is_empty()
    }

    /// Whether so much waits for the client that no further line is done.
    fn has_much(&self) -> bool {
        self.client.pending().len() > LOW_OCTETS
    }

    /// Tells the client a line, if it asked for such news.
    pub(crate) fn tell(&mut self, news: News, line: &[u8]) {
        let told = self.client.tell(news, line);
        self.obey(told);
        let ended = self.client.tell(news, b"\n");
        self.obey(ended);
    }

    /// The connection is over if a call of the client says so.
    fn obey(&mut self, ending: Ending) {
        if ending == Ending::Closes {
            self.is_closing = true;
        }
    }

    /// Reads what came, and does some of its lines. The log is told of orders. True if one of them stops the node.
    pub(crate) fn read<W: Sink>(
        &mut self,
        context: &mut ConsoleContext<'_>,
        log: &mut Log<'_, W>,
    ) -> bool {
        for _ in 0..LINES {
            if self.is_closing || self.has_much() {
                return false;
            }
            if self.start >= self.end && !self.fill() {
                return false;
            }
            if self.do_first(context, log) {
                return true;
            }
        }
        false
    }

    /// Does the first line of what was read. True if it stops the node.
    fn do_first<W: Sink>(
        &mut self,
        context: &mut ConsoleContext<'_>,
        log: &mut Log<'_, W>,
    ) -> bool {
        let Some(octets) = self.piece.get(self.start..self.end) else {
            return false;
        };
        let order = order_in(self.client.line(), octets);
        let waiting = self.client.pending().len();
        let (count, ending) = self.client.read(octets, context);
        let is_whole = octets.get(..count).unwrap_or(&[]).ends_with(b"\n");
        self.start = self.start.saturating_add(count);
        self.obey(ending);
        if ending == Ending::Leaves {
            self.leave();
        }
        if let Some(order) = order
            && is_whole
        {
            self.tell_order(&order, waiting, log);
        }
        ending == Ending::Stops
    }

    /// Nothing more of it is read, and the connection is over once all is written.
    fn leave(&mut self) {
        self.start = self.end;
        self.can_read = false;
        self.has_left = true;
        self.has_ended = true;
    }

    /// Tells the log of an order, and of its answer, which is the first line behind so many octets that wait.
    fn tell_order<W: Sink>(&self, order: &OrderLine, waiting: usize, log: &mut Log<'_, W>) {
        let (name, order) = (self.name, order.as_str());
        let answer = first_line(self.client.pending(), waiting);
        log.tell(&format_args!("order {name} {order}: {answer}"));
    }

    /// Reads the next octets. False if none came.
    fn fill(&mut self) -> bool {
        if !self.can_read {
            return false;
        }
        match self.stream.read(&mut self.piece) {
            Progress::Octets(count) => {
                self.start = 0;
                self.end = count;
                self.has_moved = true;
                return true;
            }
            Progress::Later => self.can_read = false,
            Progress::Again => {}
            Progress::End => {
                self.can_read = false;
                self.has_ended = true;
            }
            Progress::Failed => self.is_closing = true,
        }
        false
    }

    /// Writes what waits, as far as the socket takes it. The connection is over once the client has ended its lines
    /// and all is written.
    pub(crate) fn write(&mut self) {
        for _ in 0..WRITES {
            if self.client.pending().is_empty() {
                self.is_closing = self.is_closing || self.has_ended;
                return;
            }
            if !self.can_write {
                return;
            }
            self.write_once();
        }
    }

    /// Notes whether octets moved in this round, at this time.
    pub(crate) fn note_moves(&mut self, now: Duration) {
        if self.has_moved {
            self.has_moved = false;
            self.active_at = now;
        }
    }

    /// Its claim to its place at this time.
    pub(crate) fn claim(&self, now: Duration) -> Claim {
        Claim {
            standing: self.standing(now),
            active_at: self.active_at,
        }
    }

    /// How it stands at this time.
    fn standing(&self, now: Duration) -> Standing {
        let idle = now.saturating_sub(self.active_at);
        if self.has_news() {
            Standing::Watching
        } else if self.was_answered && idle.as_secs() < IDLE_SECONDS {
            Standing::Answered
        } else {
            Standing::Idle
        }
    }

    /// Whether it asked for news.
    fn has_news(&self) -> bool {
        let client = &self.client;
        client.sees(News::Message) || client.sees(News::Notice) || client.sees(News::Frame)
    }

    /// Makes one write.
    fn write_once(&mut self) {
        match self.stream.write(self.client.pending()) {
            Progress::Octets(count) => {
                self.client.written(count);
                self.has_moved = true;
                self.was_answered = true;
            }
            Progress::Later => self.can_write = false,
            Progress::Again => {}
            Progress::End | Progress::Failed => {
                self.is_closing = true;
                self.can_write = false;
            }
        }
    }
}
