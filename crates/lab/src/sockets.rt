//! Links over TCP on this machine.

ghost use Rattle.std.specs.Prelude.{◌≡◌};

use crate::joining::{JoinFault, Joiner};
use std::net::{Net, OpenListener, TcpListener, TcpStream};

/// Any free port of the machine itself.
pub(crate) const ANY_PORT: &str = "127.0.0.1:0";

/// Joins the ends of a link by a TCP connection of the machine with itself: it listens, connects and accepts, one after
/// the other, and then listens no longer.
#[derive(Clone, Copy)]
pub struct Loopback<'a, R> {
    net: &'a R,
}

impl<'a, R: Net> Loopback<'a, R> {
    /// The connections that this runtime makes.
    pub fn new(net: &'a R) -> Loopback<'a, R>
        ensures { result.net.now ≡ net.now }
    {
        Loopback { net }
    }
}

impl<'a, R: Net> Joiner for Loopback<'a, R> {
    type Stream = R::Stream;

    fn join(&mut self) -> Result<(R::Stream, R::Stream), JoinFault> {
        let Ok(listener) = TcpListener::bind(self.net, ANY_PORT) else {
            return Err(JoinFault::Listen);
        };
        let Ok(address) = listener.local_addr() else {
            return Err(JoinFault::Listen);
        };
        let Ok(near) = TcpStream::connect(self.net, address) else {
            return Err(JoinFault::Connect);
        };
        match listener.accept() {
            Ok((far, _)) => Ok((near, far)),
            Err(_) => Err(JoinFault::Accept),
        }
    }
}
