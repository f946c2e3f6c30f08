//! The socket of the datagrams of a node.

ghost use Rattle.std.specs.Prelude.{◌≤◌, length};
ghost use Rattle.served_node.specs.Progress.{IsDatagramWithin};

use crate::fault::OpenFault;
use crate::naming::SocketName;
use mio::event::Event;
use mio::net::UdpSocket;
use mio::{Interest, Registry};
use std::io::ErrorKind;
use std::net::{Net, SocketAddr};

/// What was received of a socket for datagrams.
#[derive(Clone, Copy)]
pub enum Received {
    /// A datagram of this many octets, from this address.
    Datagram(usize, SocketAddr),
    /// None is there: the socket tells when one may be.
    NoDatagram,
    /// An error, which is about one datagram.
    Error,
}

/// A socket for datagrams registered with a poll, and whether it may be read and written.
#[derive(Drop)]
pub struct DatagramSocket {
    socket: UdpSocket,
    is_ipv6: bool,
    can_read: bool,
    can_write: bool,
}

impl DatagramSocket {
    /// A socket at an address, registered with the poll, and the address that it has: with the port that the system
    /// gave it if none was asked for.
    ///
    /// Listen if the system refuses the address, Poll if the poll takes no further socket.
    pub fn open<N: Net>(
        net: &N,
        registry: &Registry,
        address: SocketAddr,
    ) -> Result<(DatagramSocket, SocketAddr), OpenFault> {
        let mut socket = match UdpSocket::bind(net, address) {
            Ok(socket) => socket,
            Err(error) => return Err(OpenFault::Listen(address, error.kind())),
        };
        let interests = Interest::READABLE | Interest::WRITABLE;
        let registered = registry.register(&mut socket, SocketName::Datagrams.token(), interests);
        if registered.is_err() {
            return Err(OpenFault::Poll);
        }
        match socket.local_addr() {
            Ok(address) => Ok((DatagramSocket::over(socket, address.is_ipv6()), address)),
            Err(error) => Err(OpenFault::Listen(address, error.kind())),
        }
    }

    /// A socket that may be read and written.
    fn over(socket: UdpSocket, is_ipv6: bool) -> DatagramSocket {
        DatagramSocket {
            socket,
            is_ipv6,
            can_read: true,
            can_write: true,
        }
    }

    /// It may be ready.
    pub fn mark(&mut self, event: &Event) {
        self.can_read = true;
        self.can_write = self.can_write || event.is_writable();
    }

    /// Whether there may be a datagram.
    pub fn can_read(&self) -> bool {
        self.can_read
    }

    /// Whether it may take a datagram.
    pub fn can_write(&self) -> bool {
        self.can_write
    }

    /// Whether its addresses are those of IPv6.
    pub fn is_ipv6(&self) -> bool {
        self.is_ipv6
    }

    /// Receives a datagram, to the front of the buffer. One that is longer is cut.
    pub fn receive(&mut self, buffer: &mut [u8]) -> Received
        ensures { IsDatagramWithin result (length buffer.new) }
    {
        if !self.can_read {
            return Received::NoDatagram;
        }
        match self.socket.recv_from(buffer) {
            Ok((count, source)) => Received::Datagram(count, source),
            Err(error) if error.kind() == ErrorKind::WouldBlock => {
                self.can_read = false;
                Received::NoDatagram
            }
            Err(_) => Received::Error,
        }
    }

    /// Sends a datagram. One that the socket doesn't take is lost, and so is one that it refuses: an error is about one
    /// datagram.
    pub fn send_to(&mut self, octets: &[u8], to: SocketAddr) {
        if let Err(error) = self.socket.send_to(octets, to)
            && error.kind() == ErrorKind::WouldBlock
        {
            self.can_write = false;
        }
    }
}
