//! The connection of a link: what comes on it is handed in, and frames are taken and written.

ghost use Rattle.std.specs.Prelude.{◌≡◌, ◌<◌, true, length};
ghost use Rattle.served_link.specs.Connections.{is_pending};

use mio::event::Event as Readiness;
use mio::net::TcpStream;
use script::Sink;
use served_link::{Association, Broken, Watch};
use served_node::{FrameObserver, Log, Node, Progress, read_some, write_some};
use settings::{FailureReason, LinkId};
use std::net::SocketAddr;

/// The connection of a link, from the moment it begins to be made.
#[derive(Drop)]
pub(crate) struct Connection {
    stream: TcpStream,
    /// Where it leads.
    pub(crate) peer: SocketAddr,
    pub(crate) association: Association,
    is_made: bool,
    /// Whether there may be something to read now, or to learn of how it was made.
    pub(crate) can_read: bool,
    can_write: bool,
}

/// Why a connection ends.
#[derive(Clone, Copy)]
pub(crate) enum CloseReason {
    /// The peer closed it.
    Peer,
    /// A read failed.
    Read,
    /// A write failed.
    Write,
    /// What came can't be cut into frames.
    Framing,
    /// The node wants it closed.
    Node,
}

impl CloseReason {
    /// The word of the log.
    pub(crate) fn word(self) -> &'static str {
        match self {
            CloseReason::Peer => "peer",
            CloseReason::Read => "read",
            CloseReason::Write => "write",
            CloseReason::Framing => "framing",
            CloseReason::Node => "node",
        }
    }
}

/// What a call of a connection came to.
pub(crate) enum Transfer {
    /// Some octets moved, and more may.
    Some,
    /// None can now.
    None,
    /// The connection is over.
    Over(CloseReason),
}

impl Connection {
    /// A connection that is made, since it was accepted, or that this end begins to make.
    pub(crate) fn new(
        stream: TcpStream,
        peer: SocketAddr,
        association: Association,
        is_made: bool,
    ) -> Connection {
        let _soon = stream.set_nodelay(true);
        Connection {
            stream,
            peer,
            association,
            is_made,
            can_read: is_made,
            can_write: is_made,
        }
    }

    /// Its socket may be ready; or, while it is being made, knows how that ended.
    pub(crate) fn mark(&mut self, event: &Readiness) {
        self.can_read = true;
        self.can_write = self.can_write || event.is_writable();
    }

    /// Learns whether it is made, if the socket knows. False if it couldn't be made.
    pub(crate) fn is_possible(&mut self) -> bool {
        if self.is_made || !self.can_read {
            return true;
        }
        self.is_made = is_connected(&self.stream);
        self.can_write = self.is_made;
        self.is_made
    }

    /// Makes one read, to the front of the buffer, and hands in what came.
    pub(crate) fn read<W: Sink, U: Watch>(
        &mut self,
        buffer: &mut [u8],
        node: &mut Node,
        log: &mut Log<'_, W>,
        user: &mut U,
    ) -> Transfer {
        if !self.is_made || !self.can_read {
            return Transfer::None;
        }
        match read_some(&mut self.stream, buffer) {
            Progress::Octets(count) => self.take_in(&buffer[..count], node, log, user),
            Progress::Later => {
                self.can_read = false;
                Transfer::None
            }
            Progress::Again => Transfer::None,
            Progress::End => Transfer::Over(CloseReason::Peer),
            Progress::Failed => Transfer::Over(CloseReason::Read),
        }
    }

    /// Octets came. They are handed in, unless the association comes up only now and the link no longer wants it.
    fn take_in<W: Sink, U: Watch>(
        &mut self,
        octets: &[u8],
        node: &mut Node,
        log: &mut Log<'_, W>,
        user: &mut U,
    ) -> Transfer
        requires { 0 < length octets.now }
    {
        if self.hear(octets, node, log) {
            self.hand_in(octets, node, log, user)
        } else {
            Transfer::Over(CloseReason::Node)
        }
    }

    /// Octets came: the association comes up, if it isn't, and if the link wants that. Returns whether it is up.
    fn hear<W: Sink>(&mut self, octets: &[u8], node: &mut Node, log: &mut Log<'_, W>) -> bool
        requires { 0 < length octets.now }
        ensures { result ≡ self.new.association.is_up }
    {
        if self.association.is_up() {
            return true;
        }
        let is_up = self.association.hear(octets, &mut node.exchange);
        if is_up {
            tell_open(self.association.link(), self.peer, node, log);
        }
        is_up
    }

    /// Hands in octets, and looks at the notices once: however many a peer causes, one read tells of no more than are
    /// kept.
    fn hand_in<W: Sink, U: Watch>(
        &mut self,
        octets: &[u8],
        node: &mut Node,
        log: &mut Log<'_, W>,
        user: &mut U,
    ) -> Transfer
        requires { self.old.association.is_up ≡ true }
    {
        let read = self.hand_in_octets(octets, node, user);
        node.look(FailureReason::Changeover, log);
        match read {
            Ok(()) => Transfer::Some,
            Err(Broken) => Transfer::Over(CloseReason::Framing),
        }
    }

    /// Hands in octets.
    fn hand_in_octets<U: Watch>(
        &mut self,
        octets: &[u8],
        node: &mut Node,
        user: &mut U,
    ) -> Result<(), Broken>
        requires { self.old.association.is_up ≡ true }
        ensures { self.new.association.is_up ≡ true }
    {
        let mut observer = FrameObserver {
            observers: &mut node.observers,
            user,
        };
        self.association
            .read(&mut node.exchange, octets, &mut observer)
    }

    /// Takes frames while there is room for them, and makes one write. Nothing is taken before the association is up,
    /// nor while the socket takes nothing.
    pub(crate) fn write<U: Watch>(&mut self, node: &mut Node, user: &mut U) -> Transfer {
        if !self.can_write || !self.association.is_up() || !self.fill(node, user) {
            return Transfer::None;
        }
        match write_some(&mut self.stream, self.association.pending()) {
            Progress::Octets(count) => {
                self.association.written(count);
                Transfer::Some
            }
            Progress::Later => {
                self.can_write = false;
                Transfer::None
            }
            Progress::Again => Transfer::Some,
            Progress::End | Progress::Failed => Transfer::Over(CloseReason::Write),
        }
    }

    /// Takes frames while there is room for them. Returns whether octets are left to write.
    fn fill<U: Watch>(&mut self, node: &mut Node, user: &mut U) -> bool
        requires { self.old.association.is_up ≡ true }
        ensures { result ≡ is_pending self.new.association.pending }
    {
        let mut observer = FrameObserver {
            observers: &mut node.observers,
            user,
        };
        self.association.fill(&mut node.exchange, &mut observer)
    }
}

/// Tells that a link's association is up over its connection.
pub(crate) fn tell_open<W: Sink>(
    link: LinkId,
    peer: SocketAddr,
    node: &mut Node,
    log: &mut Log<'_, W>,
) {
    log.tell_at("open", node.observers.name(link), peer);
    node.note_up();
    node.look(FailureReason::Association, log);
}

/// Whether a socket is connected, and not to itself: if nobody listens at a port of this machine, the system may give a
/// socket that connects there this very port.
fn is_connected(stream: &TcpStream) -> bool {
    let Ok(peer) = stream.peer_addr() else {
        return false;
    };
    let Ok(own) = stream.local_addr() else {
        return false;
    };
    peer != own
}
