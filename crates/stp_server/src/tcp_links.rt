//! The links of a node over TCP: of each its listener or the address that it connects to, and its connection. An
//! association of a link is a connection.

mod connection;
mod link_socket;

use exchange::Wants;
use link_socket::LinkSocket;
use mio::Registry;
use mio::event::Event;
use script::Sink;
use served_link::Watch;
use served_node::{Listener, Log, Node, OpenFault, SocketName};
use settings::LinkId;
use settings_file::serve::Endpoint;
use std::alloc::{AllocError, Global};
use std::marker::Model;
use std::net::{Net, SocketAddr};
use std::time::Duration;

/// Octets that one read of a link asks for. A link may bring those of a few reads in one round, and the socket for
/// datagrams as many (`sctp_links`).
const READ_OCTETS: usize = 65_536;

/// The links of a node over TCP, each with its listener or the address that it connects to, and its connection.
#[derive(Drop)]
pub struct TcpLinks {
    sockets: Vec<LinkSocket>,
    buffer: Vec<u8>,
}

// No contract can say what sockets give, so nothing is said of their state.
impl Model for TcpLinks {
    ghost Value = { Unit {0} };

    ghost view = { λ _. tt };
}

impl TcpLinks {
    /// No link yet. The error means that memory ran out.
    pub fn new(alloc: Global) -> Result<TcpLinks, AllocError> {
        Ok(TcpLinks {
            sockets: Vec::new(alloc),
            buffer: vec![in alloc; 0; READ_OCTETS]?,
        })
    }

    /// Adds the next link: it listens or connects from now on, as its endpoint says. One over SCTP is none of these.
    pub fn add<N: Net, W: Sink>(
        &mut self,
        net: &N,
        registry: &Registry,
        link: LinkId,
        endpoint: Endpoint,
        node: &Node,
        log: &mut Log<'_, W>,
    ) -> Result<(), OpenFault> {
        let name = node.observers.name(link);
        let listener = match endpoint {
            Endpoint::Listen(address, _) => listen(net, registry, link, address, name, log)?,
            Endpoint::Connect(address) => {
                log.tell_at("connect", name, address);
                Listener::none()
            }
            Endpoint::Remote(_) => return Ok(()),
        };
        self.sockets
            .push(LinkSocket::new(link, endpoint, listener))?;
        Ok(())
    }

    /// A connection may have come to the link of this number.
    pub fn mark_listener(&mut self, link: u8) {
        for socket in self.sockets.iter_mut() {
            if socket.link == LinkId::new(link) {
                socket.listener.mark();
            }
        }
    }

    /// A connection may have come to any link that listens.
    pub fn mark_listeners(&mut self) {
        for socket in self.sockets.iter_mut() {
            socket.listener.mark();
        }
    }

    /// The connection of the link of this number may be ready.
    pub fn mark(&mut self, link: u8, event: &Event) {
        for socket in self.sockets.iter_mut() {
            if socket.link == LinkId::new(link) {
                socket.mark(event);
            }
        }
    }

    /// Takes the connections that came.
    pub fn accept<W: Sink>(&mut self, node: &mut Node, registry: &Registry, log: &mut Log<'_, W>) {
        for socket in self.sockets.iter_mut() {
            socket.accept(node, registry, log);
        }
    }

    /// Reads what came on the links, and hands it in.
    pub fn read<W: Sink, U: Watch>(&mut self, node: &mut Node, log: &mut Log<'_, W>, user: &mut U) {
        for socket in self.sockets.iter_mut() {
            socket.read(&mut self.buffer, node, log, user);
        }
    }

    /// Opens and closes connections as the links want.
    pub fn settle<N: Net, W: Sink>(
        &mut self,
        net: &N,
        node: &mut Node,
        registry: &Registry,
        log: &mut Log<'_, W>,
    ) {
        for socket in self.sockets.iter_mut() {
            socket.settle(net, node, registry, log);
        }
    }

    /// Takes frames of the links and writes them. Returns whether there is more to do at once.
    pub fn write<W: Sink, U: Watch>(
        &mut self,
        node: &mut Node,
        log: &mut Log<'_, W>,
        user: &mut U,
    ) -> bool {
        let mut is_busy = false;
        for socket in self.sockets.iter_mut() {
            let has_more = socket.write(node, log, user);
            is_busy = is_busy || has_more || socket.is_busy();
        }
        is_busy
    }

    /// How long it takes until the next connection is to be tried.
    pub fn until_due(&self, node: &Node, now: Duration) -> Duration {
        let mut least = Duration::MAX;
        for socket in self.sockets.iter() {
            let wants = node.exchange.wants(socket.link);
            if let (Wants::Open, Some(next)) = (wants, socket.next_try()) {
                least = least.min(next.saturating_sub(now));
            }
        }
        least
    }
}

/// The listener of a link.
fn listen<N: Net, W: Sink>(
    net: &N,
    registry: &Registry,
    link: LinkId,
    address: SocketAddr,
    name: &str,
    log: &mut Log<'_, W>,
) -> Result<Listener, OpenFault> {
    let socket = SocketName::Listener(link.index() as u8);
    let (listener, address) = Listener::open(net, registry, address, socket)?;
    log.tell_at("listen", name, address);
    Ok(listener)
}
