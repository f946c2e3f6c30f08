//! Waiting for the sockets. A kind of socket has a `SocketName`, under which it is registered. `mark_ready` marks it
//! when the poll tells of it, and `until_due` of the links or of the page ends a wait when something is due at it that
//! the poll doesn't tell of.

use super::Server;
use super::links::ServerLinks;
use super::showing::NodePage;
use mio::Events;
use served_node::{ConsoleClients, SocketName};
use std::io;
use std::time::Duration;

impl Server {
    /// Waits until a socket is ready, something else is due, or `most` is over. If the last turn left something to do,
    /// it doesn't wait.
    pub fn wait(&mut self, now: Duration, most: Duration) -> io::Result<()> {
        let wait = if self.is_busy {
            Duration::ZERO
        } else {
            let least = self.links.until_due(&self.node, now);
            least.min(self.page.until_due(now)).min(most)
        };
        self.poll.poll(&mut self.events, Some(wait))?;
        let clients = &mut self.node.observers.clients;
        mark_ready(&self.events, &mut self.links, clients, &mut self.page);
        Ok(())
    }
}

/// Marks the sockets that the last wait told of.
fn mark_ready(
    events: &Events,
    links: &mut ServerLinks,
    clients: &mut ConsoleClients,
    page: &mut NodePage,
) {
    for event in events.iter() {
        match SocketName::of(event.token()) {
            Some(SocketName::Listener(link)) => links.tcp.mark_listener(link),
            Some(SocketName::Link(link)) => links.tcp.mark(link, event),
            Some(SocketName::Client(place)) => clients.mark(usize::from(place), event),
            Some(SocketName::Console) => clients.listener.mark(),
            Some(SocketName::Datagrams) => {
                if let Some(sctp) = &mut links.sctp {
                    sctp.mark(event);
                }
            }
            Some(SocketName::Page) => page.mark_listener(),
            Some(SocketName::PageClient(place)) => page.mark(place, event),
            None => {}
        }
    }
}
