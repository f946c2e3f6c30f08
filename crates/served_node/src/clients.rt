//! The clients of the console, and their sockets.

use crate::client_socket::{Claim, ClientSocket};
use crate::console_listener::{CallerName, ConsoleListener};
use crate::console_session::{ConsoleContext, News};
use crate::console_stream::ConsoleStream;
use crate::log::Log;
use crate::naming::SocketName;
use mio::Registry;
use mio::event::Event;
use script::Sink;
use std::alloc::{AllocError, Global};
use std::time::Duration;

/// Clients at once, at most.
const MOST_CLIENTS: usize = 16;

/// Clients that are taken in one round, at most.
const ACCEPTS: usize = 16;

/// Writes what waits for a client. True if its connection is over; the log is told of it.
fn is_over<W: Sink>(socket: &mut ClientSocket, log: &mut Log<'_, W>) -> bool {
    socket.write();
    socket.note_moves(log.now);
    if socket.is_closing {
        let name = socket.name;
        log.tell(&format_args!("caller {name} gone"));
    }
    socket.is_closing
}

/// A place is free from now on. The connection of the client in it is closed.
fn clear(place: &mut Option<ClientSocket>) {
    *place = None;
}

/// The clients of the console, each in a place of its own, and the listener of the console.
#[derive(Drop)]
pub struct ConsoleClients {
    /// Where they come.
    pub listener: ConsoleListener,
    places: Vec<Option<ClientSocket>>,
    pub(crate) asked: Asked,
}

/// Which news any client asked for, so that nobody must be asked for each frame.
#[derive(Clone, Copy)]
pub(crate) struct Asked {
    pub(crate) messages: bool,
    pub(crate) frames: bool,
}

impl Asked {
    /// No client asked for any.
    fn none() -> Asked {
        Asked {
            messages: false,
            frames: false,
        }
    }
}

impl ConsoleClients {
    /// No client is there, and none can come.
    pub(crate) fn new(alloc: Global) -> Result<ConsoleClients, AllocError> {
        let mut places = Vec::with_capacity(alloc, MOST_CLIENTS)?;
        for _ in 0..MOST_CLIENTS {
            places.push(None)?;
        }
        Ok(ConsoleClients {
            listener: ConsoleListener::none(),
            places,
            asked: Asked::none(),
        })
    }

    /// The socket in a place may be ready.
    pub fn mark(&mut self, place: usize, event: &Event) {
        if let Some(Some(socket)) = self.places.get_mut(place) {
            socket.mark(event);
        }
    }

    /// Takes the clients that came.
    pub fn accept<W: Sink>(&mut self, alloc: Global, registry: &Registry, log: &mut Log<'_, W>) {
        for _ in 0..ACCEPTS {
            match self.listener.accept() {
                Some((stream, name)) => self.seat(alloc, stream, name, registry, log),
                None => return,
            }
        }
    }

    /// Gives a client a place. If none is free, another one makes way. Its connection is closed if the poll doesn't take
    /// it.
    fn seat<W: Sink>(
        &mut self,
        alloc: Global,
        mut stream: ConsoleStream,
        name: CallerName,
        registry: &Registry,
        log: &mut Log<'_, W>,
    ) {
        let place = self.place_for_one(log.now);
        let Ok(number) = u8::try_from(place) else {
            return;
        };
        self.make_way(place, log);
        let token = SocketName::Client(number).token();
        if stream.register(registry, token).is_ok() {
            log.tell(&format_args!("caller {name}"));
            let socket = ClientSocket::new(alloc, stream, name, log.now);
            self.put(place, socket);
        }
    }

    /// The first free place; if there is none, that of the client that makes way.
    fn place_for_one(&self, now: Duration) -> usize {
        for (k, place) in self.places.iter().enumerate() {
            if place.is_none() {
                return k;
            }
        }
        self.first_to_go(now)
    }

    /// The place of the client with the least claim to it.
    fn first_to_go(&self, now: Duration) -> usize {
        let mut first = 0;
        let mut least: Option<Claim> = None;
        for (k, place) in self.places.iter().enumerate() {
            let Some(socket) = place else {
                continue;
            };
            let claim = socket.claim(now);
            if least.is_none_or(|other| claim < other) {
                least = Some(claim);
                first = k;
            }
        }
        first
    }

    /// The place is free from now on. The connection of the client in it, if there is one, is closed.
    fn make_way<W: Sink>(&mut self, place: usize, log: &mut Log<'_, W>) {
        let Some(place) = self.places.get_mut(place) else {
            return;
        };
        if let Some(socket) = place {
            let name = socket.name;
            log.tell(&format_args!("caller {name} gone"));
        }
        clear(place);
    }

    /// A client has this place from now on.
    fn put(&mut self, free: usize, socket: ClientSocket) {
        if let Some(place) = self.places.get_mut(free) {
            *place = Some(socket);
        }
    }

    /// Does the lines that clients wrote, and tells the log of orders. True if one of them stops the node.
    pub(crate) fn read<W: Sink>(
        &mut self,
        context: &mut ConsoleContext<'_>,
        log: &mut Log<'_, W>,
    ) -> bool {
        let mut stops = false;
        for place in self.places.iter_mut() {
            if let Some(socket) = place {
                stops = socket.read(context, log) || stops;
            }
        }
        self.asked = self.asked_now();
        stops
    }

    /// Which news any client asked for by now.
    fn asked_now(&self) -> Asked {
        let mut asked = Asked::none();
        for place in self.places.iter() {
            if let Some(socket) = place {
                asked.messages = asked.messages || socket.client.sees(News::Message);
                asked.frames = asked.frames || socket.client.sees(News::Frame);
            }
        }
        asked
    }

    /// Writes what waits for the clients, and closes the connections that are over.
    pub fn write<W: Sink>(&mut self, log: &mut Log<'_, W>) {
        for place in self.places.iter_mut() {
            if let Some(socket) = place
                && is_over(socket, log)
            {
                clear(place);
            }
        }
    }

    /// Whether a client has something to read or to write now.
    pub fn is_busy(&self) -> bool {
        let mut is_busy = self.listener.may_accept();
        for place in self.places.iter() {
            if let Some(socket) = place {
                is_busy = is_busy || socket.is_busy();
            }
        }
        is_busy
    }

    /// Tells the clients that asked for such news a line, which is given without its line feed.
    pub(crate) fn tell_line(&mut self, news: News, line: &[u8]) {
        for place in self.places.iter_mut() {
            if let Some(socket) = place {
                socket.tell(news, line);
            }
        }
    }
}
