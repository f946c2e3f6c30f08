//! The rounds over the one socket of the node.

ghost use Rattle.std.specs.Prelude.{◌≤◌};

use crate::hosts::socket_address_of;
use crate::keys::Keys;
use crate::links::SctpLinks;
use crate::observer::Datagrams;
use mio::Registry;
use mio::event::Event;
use script::Sink;
use sctp_endpoint::Address;
use served_link::{AssociationStatus, Unwatched, Watch};
use served_node::{DatagramSocket, Log, Node, OpenFault, Received};
use settings::{FailureReason, LinkId};
use settings_file::serve::{Remote, SctpTimes};
use std::alloc::Global;
use std::marker::Model;
use std::net::{Net, SocketAddr};
use std::time::Duration;

/// Octets of a datagram, at most.
const DATAGRAM_OCTETS: usize = 65_535;

/// Once so many octets were received in a round, no further datagram is: the reads of a link over TCP bring as many.
const ROUND_OCTETS: usize = 262_144;

/// Datagrams that are received in one round, at most. Short ones take time, too.
const DATAGRAMS: usize = 512;

/// The links of a node over SCTP, and the one socket through which their datagrams come and go.
#[derive(Drop)]
pub struct SctpSockets {
    links: SctpLinks,
    socket: DatagramSocket,
    buffer: Vec<u8>,
}

// No contract can say what a socket gives, so nothing is said of this.
impl Model for SctpSockets {
    ghost Value = { Unit {0} };

    ghost view = { λ _. tt };
}

impl Datagrams for DatagramSocket {
    fn send(&mut self, octets: &[u8], to: &Address) {
        let to = socket_address_of(to, self.is_ipv6());
        self.send_to(octets, to);
    }
}

impl SctpSockets {
    /// The socket at an address, without links. The log is told of it.
    pub fn open<N: Net, W: Sink>(
        net: &N,
        alloc: Global,
        registry: &Registry,
        address: SocketAddr,
        log: &mut Log<'_, W>,
    ) -> Result<SctpSockets, OpenFault> {
        let buffer = vec![in alloc; 0; DATAGRAM_OCTETS]?;
        let (socket, address) = DatagramSocket::open(net, registry, address)?;
        log.tell(&format_args!("udp {address}"));
        Ok(SctpSockets {
            links: SctpLinks::new(alloc),
            socket,
            buffer,
        })
    }

    /// Adds a link. The log is told of it.
    pub fn add<W: Sink>(
        &mut self,
        alloc: Global,
        link: LinkId,
        remote: &Remote,
        times: &SctpTimes,
        keys: &Keys,
        node: &Node,
        log: &mut Log<'_, W>,
    ) -> Result<(), OpenFault>
        requires initial { times.now.rto_initial_ms ≤ times.now.rto_max_ms }
        requires least { times.now.rto_min_ms ≤ times.now.rto_max_ms }
        requires most { times.now.rto_max_ms ≤ 60000 }
    {
        self.links.add(alloc, link, remote, times, keys)?;
        log.tell_at("remote", node.observers.name(link), remote.address);
        for other in remote.others.iter() {
            if let Some(address) = other {
                log.tell_at("remote", node.observers.name(link), *address);
            }
        }
        Ok(())
    }

    /// The socket may be ready.
    pub fn mark(&mut self, event: &Event) {
        self.socket.mark(event);
    }

    /// Whether there may be a datagram now.
    pub fn is_busy(&self) -> bool {
        self.socket.can_read()
    }

    /// Receives datagrams, and hands them in. After each of them what is new in the node is told; a failure whose
    /// notice was dropped for later ones is counted as one by a changeover.
    pub fn read<W: Sink, U: Watch>(&mut self, node: &mut Node, log: &mut Log<'_, W>, user: &mut U) {
        let mut received: usize = 0;
        for _ in 0..DATAGRAMS {
            if received >= ROUND_OCTETS {
                return;
            }
            match self.socket.receive(&mut self.buffer) {
                Received::Datagram(count, source) => {
                    received = received.saturating_add(count);
                    let octets = &self.buffer[..count];
                    self.links
                        .hear(octets, source, node, &mut self.socket, log, user);
                    node.look(FailureReason::Changeover, log);
                }
                Received::NoDatagram => return,
                Received::Error => {}
            }
        }
    }

    /// The timers that are due run out, and each endpoint does what its link wants.
    pub fn settle<W: Sink, U: Watch>(
        &mut self,
        node: &mut Node,
        log: &mut Log<'_, W>,
        user: &mut U,
    ) {
        self.links.settle(node, &mut self.socket, log, user);
    }

    /// Takes frames of each link and puts them out, unless the socket takes no datagram.
    pub fn write<W: Sink, U: Watch>(
        &mut self,
        node: &mut Node,
        log: &mut Log<'_, W>,
        user: &mut U,
    ) {
        if self.socket.can_write() {
            self.links.fill(node, &mut self.socket, log, user);
        }
    }

    /// Each association ends by ABORT.
    pub fn close<W: Sink>(&mut self, node: &mut Node, log: &mut Log<'_, W>) {
        self.links
            .close(node, &mut self.socket, log, &mut Unwatched);
    }

    /// How the association of a link does. None if the link isn't over SCTP, or if its association isn't up.
    pub fn status(&self, link: LinkId) -> Option<AssociationStatus> {
        self.links.status(link)
    }

    /// How long it takes until a timer is due, or a try may begin.
    pub fn until_due(&self, now: Duration) -> Duration {
        self.links.until_due(now)
    }
}
