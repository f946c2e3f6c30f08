//! Where a console is.

ghost use Rattle.std.specs.Prelude.{◌≡◌, IfOk};
ghost use Rattle.std.specs.List.{list_all};
ghost use Rattle.std.specs.Option.{option_map};
ghost use Rattle.settings_file.specs.Addresses.{Spelling};
ghost use Rattle.settings_file.specs.Faults.{Answers};
ghost use Rattle.settings_file.specs.Consoles.{place_of, kept_place, address_of, is_path, is_socket_path, is_printed, unix_place, tcp_place, place_in};

use crate::serve::address::{guarded, spelled};
use crate::serve::fault::ServeFault;
use crate::serve::key::ServeKey;
use std::alloc::{AllocError, Global};
use std::fmt;
use std::net::SocketAddr;

/// Octets of the path of a Unix socket, at most: those of `sun_path` but for its last, a NUL (unix(7)).
const PATH_OCTETS: usize = 107;

/// The one control character behind those that are printed.
const DELETE: u8 = 0x7f;

/// Where a console is.
#[derive(Clone, Copy)]
pub enum ConsolePlace<'a> {
    /// It listens at this address, over TCP.
    Tcp(SocketAddr),
    /// It is the Unix socket of this path.
    Unix(&'a str),
}

impl fmt::Display for ConsolePlace<'_> {
    fn fmt<W: fmt::Write>(&self, f: &mut fmt::Formatter<W>) -> fmt::Result {
        match self {
            ConsolePlace::Tcp(address) => write!(f, "{address}"),
            ConsolePlace::Unix(path) => f.write_str(path),
        }
    }
}

/// Where a console is, kept in settings.
#[derive(Drop)]
pub(crate) enum KeptPlace {
    /// It listens at this address, over TCP.
    Tcp(SocketAddr),
    /// It is the Unix socket of this path.
    Unix(String),
}

/// The place, kept, if there is one. The error means that memory ran out.
pub(crate) fn kept(
    alloc: Global,
    place: Option<ConsolePlace<'_>>,
) -> Result<Option<KeptPlace>, AllocError>
    ensures { IfOk result (λ kept. option_map kept_place kept ≡ option_map place_of place.entry) }
{
    match place {
        Some(ConsolePlace::Tcp(address)) => Ok(Some(KeptPlace::Tcp(address))),
        Some(ConsolePlace::Unix(path)) => Ok(Some(KeptPlace::Unix(String::from_str(alloc, path)?))),
        None => Ok(None),
    }
}

/// The address of a console over TCP.
pub(crate) fn address_of(place: Option<ConsolePlace<'_>>) -> Option<SocketAddr>
    ensures { result ≡ address_of (option_map place_of place.entry) }
{
    match place {
        Some(ConsolePlace::Tcp(address)) => Some(address),
        Some(ConsolePlace::Unix(_)) | None => None,
    }
}

/// Whether a text names a Unix socket, and no address: it begins with a slash.
pub(crate) fn is_path(text: &str) -> bool
    ensures { result ≡ is_path text.now }
{
    matches!(text.as_bytes(), [b'/', ..])
}

/// Whether an octet is of a character that is printed, and so forges no line of the log.
fn is_printed(octet: u8) -> bool
    ensures { result ≡ is_printed octet }
{
    octet >= b' ' && octet != DELETE
}

/// Whether a socket can have this path: the system takes no longer one.
fn is_socket_path(path: &str) -> bool
    ensures { result ≡ is_socket_path path.now }
{
    path.len() <= PATH_OCTETS && are_printed(path.as_bytes())
}

fn are_printed(octets: &[u8]) -> bool
    ensures { result ≡ list_all is_printed octets.now }
{
    octets.iter().all(|octet| is_printed(*octet))
}

/// The Unix socket of this path.
fn unix_place(path: &str) -> Result<ConsolePlace<'_>, ServeFault>
    ensures { Answers place_of (unix_place path.now) result }
{
    if is_socket_path(path) {
        Ok(ConsolePlace::Unix(path))
    } else {
        Err(ServeFault::Range(ServeKey::Console))
    }
}

/// The address that a text spells, if it is open, or if no other machine reaches it.
fn tcp_place(text: &str, opened: bool) -> Result<ConsolePlace<'_>, ServeFault>
    ensures { (s : Spelling) → Answers place_of (tcp_place s opened text.now) result }
{
    let address = spelled(text, ServeKey::Console)?;
    Ok(ConsolePlace::Tcp(guarded(address, opened, ServeKey::Console)?))
}

/// Where the console is whose place this text names. It asks for no password, so unless it is open no other machine may
/// reach its address.
#[tactic(auto, unfolding(crate::specs::Consoles::place_in))]
pub(crate) fn place_in(text: &str, opened: bool) -> Result<ConsolePlace<'_>, ServeFault>
    ensures { (s : Spelling) → Answers place_of (place_in s opened text.now) result }
{
    if is_path(text) {
        unix_place(text)
    } else {
        tcp_place(text, opened)
    }
}
