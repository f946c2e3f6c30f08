//! The sockets of a link, and what comes from one.

use crate::datagrams::incoming::Incoming;
use crate::sockets::ANY_PORT;
use sctp_endpoint::Address;
use std::io;
use std::net::{Ipv4Addr, Net, UdpSocket};
use std::time::Duration;

/// How long a datagram that is on its way is waited for, in milliseconds.
const PATIENCE_MS: u64 = 1_000;

/// A socket of one end, from which datagrams of the other come.
#[derive(Drop)]
pub(crate) struct Inbox {
    socket: UdpSocket,
    /// Where the other end is.
    other: Address,
    /// How many datagrams of the other end came, or were lost.
    pub(crate) taken: u64,
}

impl Inbox {
    /// Nothing came yet.
    fn new(socket: UdpSocket, other: Address) -> Inbox {
        Inbox {
            socket,
            other,
            taken: 0,
        }
    }

    /// Where the other end is.
    pub(crate) fn other(&self) -> Address {
        self.other
    }
}

impl Incoming for Inbox {
    ghost use Rattle.std.specs.Prelude.{None};

    // No contract can say what a socket gives.
    ghost coming = { λ _. None };

    fn receive(&mut self, buffer: &mut [u8]) -> Option<(usize, Address)> {
        match self.socket.recv(buffer) {
            Ok(count) => Some((count, self.other)),
            Err(_) => None,
        }
    }
}

/// What an end of a link has: the socket, once more to send by, and where the other end is.
#[derive(Drop)]
pub(crate) struct Plug {
    /// What comes.
    pub(crate) inbox: Inbox,
    /// The same socket.
    pub(crate) outgoing: UdpSocket,
}

/// Two sockets of this machine that are connected to each other, that of the near end first.
pub(crate) fn connected<N: Net>(net: &N) -> io::Result<(Plug, Plug)> {
    let near = UdpSocket::bind(net, ANY_PORT)?;
    let far = UdpSocket::bind(net, ANY_PORT)?;
    let near_address = near.local_addr()?;
    let far_address = far.local_addr()?;
    near.connect(far_address)?;
    far.connect(near_address)?;
    let near = plugged(near, far_address.port())?;
    let far = plugged(far, near_address.port())?;
    Ok((near, far))
}

/// What an end has whose other end is at a port.
fn plugged(socket: UdpSocket, port: u16) -> io::Result<Plug> {
    socket.set_read_timeout(Some(Duration::from_millis(PATIENCE_MS)))?;
    let outgoing = socket.try_clone()?;
    let host = Ipv4Addr::LOCALHOST.to_ipv6_mapped().octets();
    let inbox = Inbox::new(socket, Address { host, port });
    Ok(Plug { inbox, outgoing })
}
