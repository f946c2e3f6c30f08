//! Where connections come.

ghost use Rattle.std.specs.Prelude.{◌≡◌, false, is_some, IsNone, IfOk, true};
ghost use Rattle.served_node.specs.Listening.{nowhere};

use crate::fault::OpenFault;
use crate::naming::SocketName;
use mio::net::{TcpListener, TcpStream};
use mio::{Interest, Registry};
use std::marker::Model;
use std::net::{Net, SocketAddr};

/// A listener registered with a poll, if there is one, and whether a connection may have come to it.
#[derive(Drop)]
pub struct Listener {
    listener: Option<TcpListener>,
    may_accept: bool,
}

impl Model for Listener {
    ghost use Rattle.std.specs.Prelude.{is_some};
    ghost use Rattle.served_node.specs.Listening.{Listening};

    ghost Value = { Listening };

    ghost view = { λ l. record { is_there = is_some l.listener; may_accept = l.may_accept } };
}

impl Listener {
    /// None: no connection comes.
    pub fn none() -> Listener
        ensures { result ≡ nowhere }
    {
        Listener {
            listener: None,
            may_accept: false,
        }
    }

    /// A listener at an address, registered with the poll under this name, and the address that it has: with the port
    /// that the system gave it if none was asked for. A connection may have come at once.
    ///
    /// Listen if the system refuses the address, Poll if the poll takes no further socket.
    pub fn open<N: Net>(
        net: &N,
        registry: &Registry,
        address: SocketAddr,
        name: SocketName,
    ) -> Result<(Listener, SocketAddr), OpenFault>
        ensures { IfOk result (λ opened. opened.0 ≡ record { is_there = true; may_accept = true }) }
    {
        let mut listener = match TcpListener::bind(net, address) {
            Ok(listener) => listener,
            Err(error) => return Err(OpenFault::Listen(address, error.kind())),
        };
        let registered = registry.register(&mut listener, name.token(), Interest::READABLE);
        if registered.is_err() {
            return Err(OpenFault::Poll);
        }
        match listener.local_addr() {
            Ok(address) => Ok((Listener::over(listener), address)),
            Err(error) => Err(OpenFault::Listen(address, error.kind())),
        }
    }

    /// A listener to which a connection may have come.
    fn over(listener: TcpListener) -> Listener
        ensures { result ≡ record { is_there = true; may_accept = true } }
    {
        Listener {
            listener: Some(listener),
            may_accept: true,
        }
    }

    /// A connection may have come, if there is a listener.
    pub fn mark(&mut self)
        ensures { self.new ≡ record self.old { may_accept = self.old.is_there } }
    {
        self.may_accept = self.listener.is_some();
    }

    /// Whether a connection may have come.
    pub fn may_accept(&self) -> bool
        ensures { result ≡ self.now.may_accept }
    {
        self.may_accept
    }

    /// The next connection that came, and where it leads. If there is none, the system isn't asked again until the next
    /// `mark`.
    pub fn accept(&mut self) -> Option<(TcpStream, SocketAddr)>
        ensures state { self.new ≡ record self.old { may_accept = is_some result } }
        ensures none { self.old.may_accept ≡ false → IsNone result }
    {
        if !self.may_accept {
            return None;
        }
        let accepted = self.accepted();
        self.may_accept = accepted.is_some();
        accepted
    }

    /// What the system gives of the next connection that came.
    fn accepted(&self) -> Option<(TcpStream, SocketAddr)> {
        self.listener.as_ref()?.accept().ok()
    }
}
