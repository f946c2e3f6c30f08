//! Why a server doesn't start.

use exchange::NoMemory;
use std::alloc::{AllocError, AllocFailed};
use std::io::ErrorKind;
use std::net::SocketAddr;

/// Why a server doesn't start.
#[derive(Clone, Copy)]
pub enum OpenFault {
    /// Memory ran out.
    NoMemory,
    /// The system has no poll to give, or the poll takes no further socket.
    Poll,
    /// The system has no random octets to give.
    Random,
    /// It can't listen at this address, for this reason.
    Listen(SocketAddr, ErrorKind),
    /// The console can't listen at its path, for this reason; AddrInUse if somebody answers there.
    Console(ErrorKind),
    /// A file that isn't a socket is at the path of the console.
    Occupied,
}

impl From<AllocError> for OpenFault {
    fn from(_error: AllocError) -> OpenFault {
        OpenFault::NoMemory
    }
}

impl<T: Drop> From<AllocFailed<T>> for OpenFault {
    fn from(_error: AllocFailed<T>) -> OpenFault {
        OpenFault::NoMemory
    }
}

impl From<NoMemory> for OpenFault {
    fn from(_error: NoMemory) -> OpenFault {
        OpenFault::NoMemory
    }
}
