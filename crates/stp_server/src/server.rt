//! A node on sockets. It has its links, its status page and the clients of its console; a function is lent those of
//! them that it uses, since a proof works out all that a whole server owns.

mod links;
mod opening;
mod showing;
mod stopping;
mod waiting;

use exchange::{Event, Exchange};
use links::ServerLinks;
use mio::{Events, Poll, Registry};
use script::Sink;
use served_link::Watch;
use served_node::{FileCapture, Log, Node};
use settings::{FailureReason, Outcome};
use settings_file::serve::{ConsolePlace, Endpoint, SctpTimes};
use showing::NodePage;
use std::alloc::Global;
use std::fs::Files;
use std::marker::Model;
use std::net::{Net, SocketAddr};
use std::time::Duration;
use trace::PointFormat;

/// Where a server is reached, and how it shows points.
#[derive(Clone, Copy)]
pub struct Places<'a> {
    /// How the association of each link comes about, in the order of the settings.
    pub links: &'a [Endpoint],
    /// Where the datagrams of its links over SCTP come and go, if it has such links.
    pub udp: Option<SocketAddr>,
    /// The times of these links.
    pub sctp: SctpTimes,
    /// Where the console is, if there is one.
    pub console: Option<ConsolePlace<'a>>,
    /// Where its status page is, if it has one.
    pub page: Option<SocketAddr>,
    /// Whether the page may be asked for by any name.
    pub is_page_open: bool,
    /// How point codes are read and shown.
    pub points: PointFormat,
    /// How many milliseconds a tick takes.
    pub tick_ms: u16,
}

/// A node on sockets. An association of a link is a TCP connection, or one of SCTP in UDP.
///
/// It has no clock: `tick` lets a tick pass, and `now` is the time since the start, as the client reads it.
pub struct Server {
    alloc: Global,
    node: Node,
    links: ServerLinks,
    page: NodePage,
    poll: Poll,
    events: Events,
    is_busy: bool,
    is_stopping: bool,
    longest_turn: Duration,
}

// By hand, so that no proof above has what a server owns.
impl Drop for Server {
    fn drop(self) {
        let Server {
            alloc: _,
            node: _,
            links: _,
            page: _,
            poll: _,
            events: _,
            is_busy: _,
            is_stopping: _,
            longest_turn: _,
        } = self;
    }
}

// No contract can say what sockets give, so nothing is said of a server's state.
impl Model for Server {
    ghost Value = { Unit {0} };

    ghost view = { λ _. tt };
}

impl Server {
    /// Each frame goes into this file too from now on.
    pub fn capture_to(&mut self, capture: FileCapture) {
        self.node.observers.capture_to(Some(capture));
    }

    /// The node.
    pub fn exchange(&self) -> &Exchange {
        &self.node.exchange
    }

    /// Whether a client asked the node to stop.
    pub fn is_stopping(&self) -> bool {
        self.is_stopping
    }

    /// Hands in an event that doesn't come from a socket: a message of a user part, or an operator's order.
    pub fn step<W: Sink>(&mut self, event: &Event<'_>, now: Duration, log: &mut W) -> Outcome {
        self.is_busy = true;
        self.node.step(event, FailureReason::Operator, &mut Log { sink: log, now })
    }

    /// Lets a tick pass. A link that fails in it fails by a timer. The next turn then asks each listener for
    /// connections again: one that came may still be waiting because there were no sockets left.
    pub fn tick<W: Sink>(&mut self, now: Duration, log: &mut W) {
        self.is_busy = true;
        self.node.tick(&mut Log { sink: log, now });
        self.links.tcp.mark_listeners();
        self.node.observers.clients.listener.mark();
        self.page.mark_listener();
    }

    /// Removes the file of its console, if that is a Unix socket, and closes its sockets. Only this drops a server: its
    /// parts are many, and so are the states of a body that drops them.
    pub fn close<F: Files>(self, files: &F) {
        self.node.observers.clients.listener.remove_file(files);
        drop(self);
    }

    /// A turn took so long, with the tick behind it. The page shows the longest.
    pub fn note_turn(&mut self, turn: Duration) {
        self.longest_turn = self.longest_turn.max(turn);
    }

    /// The clock is late by more ticks than a round can let pass, or no longer: an alarm is raised or cleared.
    pub fn note_behind<W: Sink>(&mut self, is_behind: bool, now: Duration, log: &mut W) {
        let settings = self.node.exchange.settings();
        self.node
            .observers
            .watch
            .note_behind(settings, is_behind, &mut Log { sink: log, now });
    }

    /// Does what there is to do on each socket, once or a few times, and returns. It hands in what came, takes, opens
    /// and closes connections as the links want, and takes frames and writes them while the sockets take them. Then
    /// what was captured goes out, as far as its file takes it.
    pub fn turn<N: Net, W: Sink, U: Watch>(
        &mut self,
        net: &N,
        now: Duration,
        log: &mut W,
        user: &mut U,
    ) {
        let mut log = Log { sink: log, now };
        let registry = self.poll.registry();
        let round = serve_sockets(
            net,
            self.alloc,
            registry,
            &mut self.links,
            &mut self.node,
            &mut log,
            user,
        );
        let is_page_busy = self.page.show(
            self.alloc,
            registry,
            &self.node,
            &self.links,
            now,
            self.longest_turn,
        );
        self.is_busy = round.is_busy || is_page_busy;
        self.is_stopping |= round.stops;
        self.node.observers.flush_capture(&mut log);
    }
}

/// What a round over the sockets of the links and the clients came to.
#[derive(Clone, Copy)]
struct Round {
    /// Whether there is more to do at once.
    is_busy: bool,
    /// Whether a client asked the node to stop.
    stops: bool,
}

/// Does what there is to do on each socket of the links and the clients, once or a few times.
fn serve_sockets<N: Net, W: Sink, U: Watch>(
    net: &N,
    alloc: Global,
    registry: &Registry,
    links: &mut ServerLinks,
    node: &mut Node,
    log: &mut Log<'_, W>,
    user: &mut U,
) -> Round {
    node.observers.now = log.now;
    links.read(node, log, user);
    links.tcp.accept(node, registry, log);
    node.observers.clients.accept(alloc, registry, log);
    let stops = node.read_clients(log);
    node.look(FailureReason::Operator, log);
    links.settle(net, node, registry, log, user);
    let are_links_busy = links.write(node, log, user);
    node.observers.clients.write(log);
    Round {
        is_busy: are_links_busy || node.observers.clients.is_busy(),
        stops,
    }
}
