//! A Unix socket that listens, and its file.

use crate::fault::OpenFault;
use crate::naming::SocketName;
use mio::net::{UnixListener, UnixStream};
use mio::{Interest, Registry};
use std::alloc::Global;
use std::fs;
use std::fs::{Files, Permissions};
use std::io::ErrorKind;
use std::net::Net;
use std::os::unix::fs::{FileTypeExt, PermissionsExt};

/// The permissions of the file: its owner alone may connect.
const OWNER_ALONE: u32 = 0o600;

/// Connections that may have come before the file had its permissions, at most: as many as the system lets wait by
/// default.
const EARLY_CONNECTIONS: usize = 4096;

/// A Unix socket that listens, registered with a poll, and whether a connection may have come to it.
#[derive(Drop)]
pub struct SocketFile {
    listener: UnixListener,
    path: String,
    /// Whether a connection may have come.
    pub(crate) may_accept: bool,
    /// Connections that came so far.
    count: u64,
}

impl SocketFile {
    /// A socket at this path, registered with the poll under this name. Its owner alone may connect. A socket that a
    /// node left there, which is gone, is removed first.
    ///
    /// Occupied if another file is there, which stays; Console if somebody answers there or the system refuses, with
    /// the reason; Poll if the poll takes no further socket; NoMemory.
    pub fn open<N: Net + Files>(
        net: &N,
        alloc: Global,
        registry: &Registry,
        path: &str,
        name: SocketName,
    ) -> Result<SocketFile, OpenFault> {
        let kept = String::from_str(alloc, path)?;
        make_room(net, path)?;
        let mut listener = listener(net, path)?;
        let registered = registry.register(&mut listener, name.token(), Interest::READABLE);
        let socket = SocketFile {
            listener,
            path: kept,
            may_accept: true,
            count: 0,
        };
        match registered {
            Ok(()) => Ok(socket),
            Err(_) => {
                socket.remove(net);
                Err(OpenFault::Poll)
            }
        }
    }

    /// The next connection that came, and its number, from 1. If there is none, the system isn't asked again until the
    /// socket is marked.
    pub(crate) fn accept(&mut self) -> Option<(UnixStream, u64)> {
        if !self.may_accept {
            return None;
        }
        match self.listener.accept() {
            Ok((stream, _)) => {
                self.count = self.count.saturating_add(1);
                Some((stream, self.count))
            }
            Err(_) => {
                self.may_accept = false;
                None
            }
        }
    }

    /// Removes its file, so that nobody finds a socket at which nobody listens.
    pub(crate) fn remove<F: Files>(&self, files: &F) {
        let _removed = fs::remove_file(files, self.path.as_str());
    }
}

/// Makes room for a socket at this path.
fn make_room<N: Net + Files>(net: &N, path: &str) -> Result<(), OpenFault> {
    match fs::symlink_metadata(net, path) {
        Ok(file) if file.file_type().is_socket() => remove_left(net, path),
        Ok(_) => Err(OpenFault::Occupied),
        Err(error) if error.kind() == ErrorKind::NotFound => Ok(()),
        Err(error) => Err(OpenFault::Console(error.kind())),
    }
}

/// Removes a socket at which nobody listens.
fn remove_left<N: Net + Files>(net: &N, path: &str) -> Result<(), OpenFault> {
    match UnixStream::connect(net, path) {
        Ok(_) => Err(OpenFault::Console(ErrorKind::AddrInUse)),
        Err(error) => match error.kind() {
            ErrorKind::ConnectionRefused => removed(net, path),
            // Somebody listens, who has as many callers waiting as the system allows.
            ErrorKind::WouldBlock => Err(OpenFault::Console(ErrorKind::AddrInUse)),
            kind => Err(OpenFault::Console(kind)),
        },
    }
}

fn removed<F: Files>(files: &F, path: &str) -> Result<(), OpenFault> {
    match fs::remove_file(files, path) {
        Ok(()) => Ok(()),
        Err(error) => Err(OpenFault::Console(error.kind())),
    }
}

/// A socket that listens at this path, to which its owner alone may connect.
fn listener<N: Net + Files>(net: &N, path: &str) -> Result<UnixListener, OpenFault> {
    let listener = match UnixListener::bind(net, path) {
        Ok(listener) => listener,
        Err(error) => return Err(OpenFault::Console(error.kind())),
    };
    match fs::set_permissions(net, path, Permissions::from_mode(OWNER_ALONE)) {
        Ok(()) => {
            turn_away(&listener);
            Ok(listener)
        }
        Err(error) => {
            let _removed = fs::remove_file(net, path);
            Err(OpenFault::Console(error.kind()))
        }
    }
}

/// Closes the connections that came before the file had its permissions.
fn turn_away(listener: &UnixListener) {
    for _ in 0..EARLY_CONNECTIONS {
        if listener.accept().is_err() {
            return;
        }
    }
}
