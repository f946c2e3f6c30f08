//! The names of sockets in the events of a poll.

ghost use Rattle.std.specs.Prelude.{◌≡◌, ◌<◌, ◌≤◌, IfSome, IsSome};
ghost use Rattle.served_node.specs.Naming.{number_of};

use mio::net::TcpStream;
use mio::{Interest, Registry, Token};

/// Tokens of each kind of socket.
const KIND: usize = 256;

/// A socket of a server.
#[derive(Clone, Copy)]
pub enum SocketName {
    /// The listener of the link of this number.
    Listener(u8),
    /// The connection of the link of this number.
    Link(u8),
    /// The connection of the client in this place.
    Client(u8),
    /// The listener of the console.
    Console,
    /// The socket of the node's datagrams.
    Datagrams,
    /// The listener of the status page.
    Page,
    /// The connection of the page's client in this place.
    PageClient(u8),
}

impl SocketName {
    /// The socket's token.
    pub fn token(self) -> Token
        ensures { result.0 ≡ number_of self }
    {
        match self {
            SocketName::Listener(link) => Token(usize::from(link)),
            SocketName::Link(link) => Token(KIND + usize::from(link)),
            SocketName::Client(place) => Token(2 * KIND + usize::from(place)),
            SocketName::Console => Token(3 * KIND),
            SocketName::Datagrams => Token(3 * KIND + 1),
            SocketName::Page => Token(3 * KIND + 2),
            SocketName::PageClient(place) => Token(4 * KIND + usize::from(place)),
        }
    }

    /// The socket of a token, if one has it.
    pub fn of(token: Token) -> Option<SocketName>
        ensures named { IfSome result (λ name. number_of name ≡ token.0) }
        ensures found { token.0 ≤ number_of SocketName.Page → IsSome result }
        ensures clients { number_of (SocketName.PageClient 0) ≤ token.0 → token.0 < number_of (SocketName.PageClient KIND)
            → IsSome result }
    {
        let number = (token.0 % KIND) as u8;
        match token.0 / KIND {
            0 => Some(SocketName::Listener(number)),
            1 => Some(SocketName::Link(number)),
            2 => Some(SocketName::Client(number)),
            3 if number == 0 => Some(SocketName::Console),
            3 if number == 1 => Some(SocketName::Datagrams),
            3 if number == 2 => Some(SocketName::Page),
            4 => Some(SocketName::PageClient(number)),
            _ => None,
        }
    }

    /// Registers this connection with the poll, under this name. False if the poll refuses.
    pub fn is_registered(self, registry: &Registry, stream: &mut TcpStream) -> bool {
        let interests = Interest::READABLE | Interest::WRITABLE;
        registry.register(stream, self.token(), interests).is_ok()
    }
}
