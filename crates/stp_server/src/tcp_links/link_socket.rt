//! The socket of a link: its listener or the address that it connects to, and its connection.

mod dialling;

use super::connection::{CloseReason, Connection, Transfer, tell_open};
use exchange::Wants;
use mio::Registry;
use mio::event::Event as Readiness;
use mio::net::TcpStream;
use script::Sink;
use served_link::{Association, Retry, Watch};
use served_node::{Listener, Log, Node, SocketName};
use settings::{FailureReason, LinkId};
use settings_file::serve::Endpoint;
use std::net::{Net, SocketAddr};
use std::time::Duration;

/// Reads of a link in one round, at most.
const READS: usize = 4;

/// Writes of a link in one round, at most. The reads of the other links bring no more octets, so what goes on from them
/// to one link doesn't pile up while its socket takes it.
const WRITES: usize = 64;

/// Connections that are taken in one round, at most.
const ACCEPTS: usize = 64;

/// How far a link's connection is.
#[derive(Clone, Copy)]
enum ConnectionState {
    /// There is none.
    Closed,
    /// This end makes it, or has made it, and nothing has come on it yet: the association isn't up.
    Silent,
    /// It is there, and so is the link's association.
    Up,
}

/// What a link's connection is made of, and the connection.
#[derive(Drop)]
pub(crate) struct LinkSocket {
    pub(crate) link: LinkId,
    endpoint: Endpoint,
    /// Where its connections come, if it is one that listens.
    pub(crate) listener: Listener,
    connection: Option<Connection>,
    retry: Retry,
    next_try: Duration,
    given_up_at: Duration,
    was_tried: bool,
}

impl LinkSocket {
    /// The socket of a link without a connection.
    pub(crate) fn new(link: LinkId, endpoint: Endpoint, listener: Listener) -> LinkSocket {
        LinkSocket {
            link,
            endpoint,
            listener,
            connection: None,
            retry: Retry::new(),
            next_try: Duration::ZERO,
            given_up_at: Duration::ZERO,
            was_tried: false,
        }
    }

    /// How far the connection is.
    fn state(&self) -> ConnectionState {
        match &self.connection {
            None => ConnectionState::Closed,
            Some(connection) if connection.association.is_up() => ConnectionState::Up,
            Some(_) => ConnectionState::Silent,
        }
    }

    /// The connection's socket may be ready.
    pub(crate) fn mark(&mut self, event: &Readiness) {
        if let Some(connection) = &mut self.connection {
            connection.mark(event);
        }
    }

    /// Whether there may be something to accept, to read or to write now, or to settle.
    pub(crate) fn is_busy(&self) -> bool {
        let may_accept = self.listener.may_accept();
        match &self.connection {
            None => may_accept,
            Some(connection) => may_accept || connection.can_read,
        }
    }

    /// When the connection is to be tried, or given up, if the link is one that connects and its association isn't
    /// up.
    pub(crate) fn next_try(&self) -> Option<Duration> {
        match (&self.endpoint, self.state()) {
            (Endpoint::Connect(_), ConnectionState::Closed) => Some(self.next_try),
            (Endpoint::Connect(_), ConnectionState::Silent) => Some(self.given_up_at),
            _ => None,
        }
    }

    /// Takes the connections that came: one if the link wants to open; the others are closed.
    pub(crate) fn accept<W: Sink>(
        &mut self,
        node: &mut Node,
        registry: &Registry,
        log: &mut Log<'_, W>,
    ) {
        for _ in 0..ACCEPTS {
            match self.listener.accept() {
                Some((stream, peer)) => self.admit(stream, peer, node, registry, log),
                None => return,
            }
        }
    }

    /// Takes a connection, if it comes from where it may, the link wants to open, and the poll tells of the connection
    /// from now on.
    fn admit<W: Sink>(
        &mut self,
        mut stream: TcpStream,
        peer: SocketAddr,
        node: &mut Node,
        registry: &Registry,
        log: &mut Log<'_, W>,
    ) {
        let wants_open = node.exchange.wants(self.link) == Wants::Open;
        if wants_open
            && self.may_come_from(peer)
            && self.name().is_registered(registry, &mut stream)
        {
            self.open(stream, peer, node, log);
        } else {
            log.tell_at("refuse", node.observers.name(self.link), peer);
        }
    }

    /// Whether the link takes connections from there.
    fn may_come_from(&self, peer: SocketAddr) -> bool {
        match self.endpoint {
            Endpoint::Listen(_, Some(host)) => peer.ip().to_canonical() == host.to_canonical(),
            _ => true,
        }
    }

    /// The name of the connection in the poll.
    fn name(&self) -> SocketName {
        SocketName::Link(self.link.index() as u8)
    }

    /// A connection was accepted: the link's association comes up over it. If it doesn't, the connection ends.
    fn open<W: Sink>(
        &mut self,
        stream: TcpStream,
        peer: SocketAddr,
        node: &mut Node,
        log: &mut Log<'_, W>,
    ) {
        let association = Association::accepted(self.link, &mut node.exchange);
        if association.is_up() {
            self.hold(Connection::new(stream, peer, association, true));
            tell_open(self.link, peer, node, log);
        }
    }

    /// This is the link's connection from now on.
    fn hold(&mut self, connection: Connection) {
        self.connection = Some(connection);
    }

    /// The link no longer has a connection.
    fn leave(&mut self) {
        self.connection = None;
    }

    /// A connection is over. If the association wasn't up, nothing is lost with it, and it couldn't be made.
    fn end<W: Sink>(&mut self, why: CloseReason, node: &mut Node, log: &mut Log<'_, W>) {
        match (self.state(), why) {
            (ConnectionState::Up, _) => self.close(why, node, log),
            (_, CloseReason::Node) => self.leave(),
            _ => self.fail(node, log),
        }
    }

    /// The link's association is gone: its connection is closed.
    fn close<W: Sink>(&mut self, why: CloseReason, node: &mut Node, log: &mut Log<'_, W>) {
        let Some(connection) = &mut self.connection else {
            return;
        };
        let (name, peer, word) = (node.observers.name(self.link), connection.peer, why.word());
        log.tell(&format_args!("close {name} {peer} {word}"));
        connection.association.fall(&mut node.exchange);
        self.leave();
        self.wait(log.now);
        node.look(FailureReason::Association, log);
    }

    /// The next try of the connection is a while from now.
    fn wait(&mut self, now: Duration) {
        let seconds = self.retry.next_wait();
        self.next_try = now.saturating_add(Duration::from_secs(seconds));
    }

    /// Makes a few reads, to the front of the buffer, and hands in what came. So each link has as many octets of a round
    /// as these reads bring, and none holds up the others. If something came, the next wait for a try is the first one
    /// again.
    pub(crate) fn read<W: Sink, U: Watch>(
        &mut self,
        buffer: &mut [u8],
        node: &mut Node,
        log: &mut Log<'_, W>,
        user: &mut U,
    ) {
        for _ in 0..READS {
            let Some(connection) = &mut self.connection else {
                return;
            };
            match connection.read(buffer, node, log, user) {
                Transfer::Some => self.retry.start_again(),
                Transfer::None => return,
                Transfer::Over(why) => return self.end(why, node, log),
            }
        }
    }

    /// Takes frames and writes them, as far as the socket takes them. True if more may be written at once, here or,
    /// if the connection is over, on other links.
    pub(crate) fn write<W: Sink, U: Watch>(
        &mut self,
        node: &mut Node,
        log: &mut Log<'_, W>,
        user: &mut U,
    ) -> bool {
        for _ in 0..WRITES {
            let Some(connection) = &mut self.connection else {
                return false;
            };
            match connection.write(node, user) {
                Transfer::Some => {}
                Transfer::None => return false,
                Transfer::Over(why) => {
                    self.end(why, node, log);
                    return true;
                }
            }
        }
        true
    }

    /// Opens the link's connection or closes it, as the link wants.
    pub(crate) fn settle<N: Net, W: Sink>(
        &mut self,
        net: &N,
        node: &mut Node,
        registry: &Registry,
        log: &mut Log<'_, W>,
    ) {
        match (node.exchange.wants(self.link), self.state()) {
            (Wants::Close, ConnectionState::Up) => self.close(CloseReason::Node, node, log),
            (Wants::Open, ConnectionState::Closed) => self.begin(net, node, registry, log),
            (Wants::Open, ConnectionState::Silent) => self.go_on(node, log),
            (Wants::Nothing, ConnectionState::Silent) => self.leave(),
            _ => {}
        }
    }
}
