//! Making the connection of a link that connects.

use super::LinkSocket;
use crate::tcp_links::connection::Connection;
use mio::Registry;
use mio::net::TcpStream;
use script::Sink;
use served_link::{Association, LONGEST_WAIT};
use served_node::{Log, Node};
use settings_file::serve::Endpoint;
use std::net::{Net, SocketAddr};
use std::time::Duration;

/// After this many seconds a connection that isn't made, or on which nothing came, is given up.
const GIVEN_UP_AFTER_SECONDS: u64 = LONGEST_WAIT;

impl LinkSocket {
    /// Begins to connect, if the link is one that does and it is time.
    pub(super) fn begin<N: Net, W: Sink>(
        &mut self,
        net: &N,
        node: &mut Node,
        registry: &Registry,
        log: &mut Log<'_, W>,
    ) {
        let Endpoint::Connect(address) = self.endpoint else {
            return;
        };
        if log.now < self.next_try {
            return;
        }
        if self.was_tried {
            node.observers.counters.count_retry(self.link);
        }
        self.was_tried = true;
        self.connect(net, address, node, registry, log);
    }

    /// Begins to connect.
    fn connect<N: Net, W: Sink>(
        &mut self,
        net: &N,
        address: SocketAddr,
        node: &Node,
        registry: &Registry,
        log: &mut Log<'_, W>,
    ) {
        match self.connecting(net, address, registry) {
            Some(stream) => {
                let most = Duration::from_secs(GIVEN_UP_AFTER_SECONDS);
                self.given_up_at = log.now.saturating_add(most);
                let association = Association::connected(self.link);
                self.hold(Connection::new(stream, address, association, false));
            }
            None => self.fail(node, log),
        }
    }

    /// A socket that begins to connect.
    fn connecting<N: Net>(
        &self,
        net: &N,
        address: SocketAddr,
        registry: &Registry,
    ) -> Option<TcpStream> {
        let mut stream = TcpStream::connect(net, address).ok()?;
        if self.name().is_registered(registry, &mut stream) {
            Some(stream)
        } else {
            None
        }
    }

    /// Goes on with a connection whose association isn't up. It is given up if it couldn't be made, or if it
    /// takes too long until something comes on it.
    pub(super) fn go_on<W: Sink>(&mut self, node: &Node, log: &mut Log<'_, W>) {
        let is_possible = match &mut self.connection {
            Some(connection) => connection.is_possible(),
            None => true,
        };
        if !is_possible || self.given_up_at <= log.now {
            self.fail(node, log);
        }
    }

    /// The connection couldn't be made, or ended before something came on it.
    pub(super) fn fail<W: Sink>(&mut self, node: &Node, log: &mut Log<'_, W>) {
        self.leave();
        self.wait(log.now);
        if let Endpoint::Connect(address) = self.endpoint {
            log.tell_at("fail", node.observers.name(self.link), address);
        }
    }
}
