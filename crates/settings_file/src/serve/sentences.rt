//! The sentence that says what is wrong with the settings of a server.

ghost use Rattle.std.specs.Prelude.{◌≡◌, Some, IfOk, string_bytes};
ghost use Rattle.settings_file.specs.ServeKeys.{key_place};
ghost use Rattle.settings_file.specs.ServeSentences.{Explains, place_of};

use crate::fault::SettingsFault;
use crate::key_rows::KeyRow;
use crate::known_keys::has_fourth;
use crate::phrases::{missing, must_be, value_is};
use crate::places::{about, value_at};
use crate::serve::address::address_in;
use crate::serve::console_place::is_path;
use crate::serve::fault::ServeFault;
use crate::serve::key::ServeKey;
use crate::serve::key_rows::key_row;
use settings::DraftFault;
use std::alloc::{AllocError, Global};
use toml::{Table, Value};

/// What is wrong with a link that has none of the three keys.
const NONE_THERE: &str = "is missing, and connect and remote are missing too";

/// What is wrong with a server that has no address for its links over SCTP.
const NO_SOURCE: &str = "is missing, and a link has remote";

/// What is wrong with an initial timeout that is left out.
const NOT_USUAL: &str = "is missing, and 300 isn't from rto_min_ms to rto_max_ms";

/// The same from version 4 on.
const NOT_USUAL_SINCE: &str = "is missing, and 400 isn't from rto_min_ms to rto_max_ms";

const LOOPBACK: &str = "a loopback address unless console_open is true";

const LOOPBACK_PAGE: &str = "a loopback address unless page_open is true";

/// What the path of a console must be.
const SOCKET_PATH: &str = "a path of at most 107 octets without control characters";

/// What the address of a peer must be.
const OF_VERSION: &str = "an address of the same version of IP as serve.udp";

/// What a peer must be that has several addresses.
const PEER_ADDRESSES: &str =
    "at most eight addresses with a port from 1 on, of the same version of IP as serve.udp";

/// What `remote` must be from version 4 on.
const TEXT_OR_TEXTS: &str = "a text or a list of at least one text";

/// What is wrong with an address that two listen on.
const TAKEN: &str = "where the console, the page or another link listens too";

/// What is wrong with a page at the console's address.
const TAKEN_BY_CONSOLE: &str = "where the console listens too";

/// What is wrong with a key that a link may not have together with `listen`.
const LISTENS: &str = "but the link has listen too";

/// What is wrong with a key that a link may not have together with `connect`.
const CONNECTS: &str = "but the link has connect too";

/// What is wrong with `from` of a link that takes no connections.
const NO_LISTENER: &str = "but the link has no listen";

/// What is wrong with a peer that another link has.
const SAME_PEER: &str = "whose host and SCTP ports another link has too";

/// What is wrong with several addresses of a peer.
const SAME_HOST: &str = "with a host twice, or one that another link has with the same SCTP ports";

/// What is wrong with own addresses that aren't different.
const SAME_ADDRESS: &str = "with an address twice";

/// The sentence that says what this fault is, in the document of a settings file of this name, with a line feed:
/// `node.toml: serve.tick_ms is 5, must be 10 to 10000`. A fault of the node's settings gives what
/// `settings_file::sentence` says.
///
/// `AllocError` if memory ran out.
pub fn sentence(
    alloc: Global,
    file: &str,
    document: &Table,
    fault: ServeFault,
) -> Result<String, AllocError>
    ensures { IfOk result (λ sentence. Explains file.now fault (string_bytes sentence)) }
{
    match fault {
        ServeFault::Settings(found) => crate::sentence(alloc, file, document, found),
        ServeFault::NoMemory => {
            let found = SettingsFault::Draft(DraftFault::NoMemory);
            crate::sentence(alloc, file, document, found)
        }
        ServeFault::Missing(key)
        | ServeFault::Kind(key)
        | ServeFault::Range(key)
        | ServeFault::Duplicate(key) => at_key(alloc, file, document, key, fault),
    }
}

/// The sentence about a fault at this key.
fn at_key(
    alloc: Global,
    file: &str,
    document: &Table,
    key: ServeKey,
    fault: ServeFault,
) -> Result<String, AllocError>
    requires { place_of fault ≡ Some (key_place key) }
    ensures { IfOk result (λ sentence. Explains file.now fault (string_bytes sentence)) }
{
    let row = key_row(key);
    let wrong = wrong(alloc, document, &row, fault)?;
    about(alloc, file, document, &row, wrong.as_str())
}

/// What is wrong at a key of this row.
fn wrong(
    alloc: Global,
    document: &Table,
    row: &KeyRow,
    fault: ServeFault,
) -> Result<String, AllocError> {
    match value_at(document, row) {
        None => wrong_without(alloc, document, row, fault),
        Some(value) => wrong_with(alloc, document, row, value, fault),
    }
}

/// What is wrong at a key of this row, which has no value.
fn wrong_without(
    alloc: Global,
    document: &Table,
    row: &KeyRow,
    fault: ServeFault,
) -> Result<String, AllocError> {
    match fault {
        ServeFault::Missing(ServeKey::LinkListen(_)) => String::from_str(alloc, NONE_THERE),
        ServeFault::Missing(ServeKey::Udp) => String::from_str(alloc, NO_SOURCE),
        ServeFault::Range(ServeKey::RtoInitialMs) if has_fourth(document) => {
            String::from_str(alloc, NOT_USUAL_SINCE)
        }
        ServeFault::Range(ServeKey::RtoInitialMs) => String::from_str(alloc, NOT_USUAL),
        _ => missing(alloc, row.kind),
    }
}

/// What is wrong at a key of this row, which has this value.
fn wrong_with(
    alloc: Global,
    document: &Table,
    row: &KeyRow,
    value: &Value,
    fault: ServeFault,
) -> Result<String, AllocError> {
    match fault {
        ServeFault::Kind(ServeKey::LinkRemote(_)) if has_entries(document, value) => {
            must_be(alloc, value, TEXT_OR_TEXTS)
        }
        ServeFault::Kind(_) => must_be(alloc, value, row.kind),
        ServeFault::Range(ServeKey::LinkRemote(_)) if value.as_array().is_some() => {
            must_be(alloc, value, PEER_ADDRESSES)
        }
        ServeFault::Range(ServeKey::Console) if names_path(value) => {
            must_be(alloc, value, SOCKET_PATH)
        }
        ServeFault::Range(key) if is_address(value) => must_be(alloc, value, demand(key, row)),
        ServeFault::Duplicate(key) => value_is(alloc, value, twice(document, key)),
        _ => must_be(alloc, value, row.demand),
    }
}

/// What an address must be that is one with a port from 1 on.
fn demand(key: ServeKey, row: &KeyRow) -> &'static str {
    match key {
        ServeKey::Console => LOOPBACK,
        ServeKey::Page => LOOPBACK_PAGE,
        ServeKey::LinkRemote(_) => OF_VERSION,
        _ => row.demand,
    }
}

/// What is wrong with a key that may not be there, or not with its value, because of another.
fn twice(document: &Table, key: ServeKey) -> &'static str {
    match key {
        ServeKey::LinkListen(_) => TAKEN,
        ServeKey::LinkFrom(_) => NO_LISTENER,
        ServeKey::LinkConnect(i)
        | ServeKey::LinkRemote(i)
        | ServeKey::LinkSctpPort(i)
        | ServeKey::LinkRemoteSctpPort(i)
        | ServeKey::LinkTries(i)
        | ServeKey::LinkRemotePortFixed(i)
        | ServeKey::LinkAddresses(i) => beside(document, i, key),
        _ => TAKEN_BY_CONSOLE,
    }
}

/// What is wrong with a key of link `i`, by what else the link has.
fn beside(document: &Table, i: usize, key: ServeKey) -> &'static str {
    if has_value(document, ServeKey::LinkListen(i)) {
        LISTENS
    } else if has_value(document, ServeKey::LinkConnect(i)) {
        CONNECTS
    } else if matches!(key, ServeKey::LinkAddresses(_)) {
        SAME_ADDRESS
    } else if is_list(document, key) {
        SAME_HOST
    } else {
        SAME_PEER
    }
}

fn has_value(document: &Table, key: ServeKey) -> bool {
    value_at(document, &key_row(key)).is_some()
}

fn is_list(document: &Table, key: ServeKey) -> bool {
    match value_at(document, &key_row(key)) {
        Some(value) => value.as_array().is_some(),
        None => false,
    }
}

/// Whether a value is a list, in a file in which `remote` may be one.
fn has_entries(document: &Table, value: &Value) -> bool {
    value.as_array().is_some() && has_fourth(document)
}

/// Whether a value is a text that names a Unix socket.
fn names_path(value: &Value) -> bool {
    match value.as_str() {
        Some(text) => is_path(text),
        None => false,
    }
}

/// Whether a value is an address with a port from 1 on.
fn is_address(value: &Value) -> bool {
    address_in(value, ServeKey::Console).is_ok()
}
