//! What is wrong with the settings of a server.

ghost use Rattle.std.specs.Option.{option_map};
ghost use Rattle.std.specs.Prelude.{◌≡◌, Some};
ghost use Rattle.settings_file.specs.Places.{row_place};
ghost use Rattle.settings_file.specs.ServeFaults.{fault_line, fault_of};
ghost use Rattle.settings_file.specs.ServeSentences.{place_of};

use crate::fault::SettingsFault;
use crate::key_rows::KeyRow;
use crate::sentences::key_of;
use crate::serve::key::ServeKey;
use crate::serve::key_rows::key_row;
use settings::DraftFault;
use std::alloc::{AllocError, AllocFailed};
use std::error::Error;
use std::fmt;

/// The first fault of a server's settings. It prints as the line that tells it, with the numbers of
/// the faults of settings: `fault 2 serve.tick_ms`, `fault 5 link[2].listen`, `fault NoMemory`.
#[derive(Clone, Copy)]
pub enum ServeFault {
    /// A fault of the settings of the node, other than lack of memory.
    Settings(SettingsFault),
    /// 2: a required key is missing: `listen` of a link that has none of `listen`, `connect` and `remote`, `udp` of a
    /// server that has a link with `remote`, `console` for a caller of the console, or one of `capture`, `capture_size` and
    /// `capture_files`, where the others ask for it.
    Missing(ServeKey),
    /// 3: a value of another type than its key asks for.
    Kind(ServeKey),
    /// 4: a number out of its range, a text that is none of its key's words, or isn't an address with a port from 1 on, a
    /// path that no socket can have, a console or a page that others reach, or a peer that `udp` doesn't reach since only
    /// one of the two is an IPv4 address.
    Range(ServeKey),
    /// 5: an address that two listen on; `connect` of a link that has `listen` too; `remote`, or another key of SCTP,
    /// of a link that has `listen` or `connect`; or `remote` of a link whose datagrams an earlier link would take,
    /// since both have the same hosts and SCTP ports.
    Duplicate(ServeKey),
    /// Memory ran out.
    NoMemory,
}

/// The row of the key that a fault is at, if it is at one.
pub(crate) fn row_of(fault: ServeFault) -> Option<KeyRow>
    ensures { option_map row_place result ≡ place_of fault }
{
    match fault {
        ServeFault::Settings(found) => {
            let key = key_of(found)?;
            Some(crate::key_rows::key_row(key))
        }
        ServeFault::Missing(key)
        | ServeFault::Kind(key)
        | ServeFault::Range(key)
        | ServeFault::Duplicate(key) => Some(key_row(key)),
        ServeFault::NoMemory => None,
    }
}

impl fmt::Display for ServeFault {
    ghost output = { λ fault. Some (fault_line fault) };

    fn fmt<W: fmt::Write>(&self, f: &mut fmt::Formatter<W>) -> fmt::Result {
        match *self {
            ServeFault::Settings(fault) => write!(f, "{fault}"),
            ServeFault::Missing(key) => write!(f, "fault 2 {key}"),
            ServeFault::Kind(key) => write!(f, "fault 3 {key}"),
            ServeFault::Range(key) => write!(f, "fault 4 {key}"),
            ServeFault::Duplicate(key) => write!(f, "fault 5 {key}"),
            ServeFault::NoMemory => f.write_str("fault NoMemory"),
        }
    }
}

impl fmt::Debug for ServeFault {
    fn fmt<W: fmt::Write>(&self, f: &mut fmt::Formatter<W>) -> fmt::Result {
        fmt::Display::fmt(self, f)
    }
}

impl Error for ServeFault {}

impl From<SettingsFault> for ServeFault {
    ghost from_gives = { λ found fault. fault ≡ fault_of found };

    fn from(fault: SettingsFault) -> ServeFault {
        match fault {
            SettingsFault::Draft(DraftFault::NoMemory) => ServeFault::NoMemory,
            _ => ServeFault::Settings(fault),
        }
    }
}

impl From<AllocError> for ServeFault {
    ghost use Rattle.settings_file.specs.declared.serve.fault.ServeFault.TheVariants.{NoMemory};

    ghost from_gives = { λ _ fault. fault ≡ NoMemory };

    fn from(_error: AllocError) -> ServeFault {
        ServeFault::NoMemory
    }
}

impl<T: Drop> From<AllocFailed<T>> for ServeFault {
    ghost use Rattle.settings_file.specs.declared.serve.fault.ServeFault.TheVariants.{NoMemory};

    ghost from_gives = { λ _ fault. fault ≡ NoMemory };

    fn from(_error: AllocFailed<T>) -> ServeFault {
        ServeFault::NoMemory
    }
}
