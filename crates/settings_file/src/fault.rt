//! What is wrong with a settings file.

ghost use Rattle.std.specs.Prelude.{◌≡◌, Some};
ghost use Rattle.settings_file.specs.Faults.{fault_number, fault_line, no_memory};

use settings::{DraftFault, Key};
use std::alloc::{AllocError, AllocFailed};
use std::error::Error;
use std::fmt;

/// The first fault of a settings file. It prints as the line that tells it: `fault 1`, `fault 3
/// link[2].slc`, `fault NoMemory`. The numbers are part of the interface.
#[derive(Clone, Copy)]
pub enum SettingsFault {
    /// 1: the text isn't TOML.
    Text,
    /// 2: a required key is missing, or an array that needs an entry has none.
    Missing(Key),
    /// 3: a value of another type than its key asks for.
    Kind(Key),
    /// 4, at `version`: the file is written for another version than 1 and 2.
    Version,
    /// 4 to 8: what the check of settings finds, lack of memory included.
    Draft(DraftFault),
}

impl SettingsFault {
    /// The fault's number, 1 to 8.
    pub fn number(self) -> u8
        ensures { result ≡ fault_number self }
    {
        match self {
            SettingsFault::Text => 1,
            SettingsFault::Missing(_) => 2,
            SettingsFault::Kind(_) => 3,
            SettingsFault::Version => 4,
            SettingsFault::Draft(fault) => fault.number(),
        }
    }
}

impl fmt::Display for SettingsFault {
    ghost output = { λ fault. Some (fault_line fault) };

    fn fmt<W: fmt::Write>(&self, f: &mut fmt::Formatter<W>) -> fmt::Result {
        match *self {
            SettingsFault::Text => write!(f, "fault 1"),
            SettingsFault::Missing(key) => write!(f, "fault 2 {key}"),
            SettingsFault::Kind(key) => write!(f, "fault 3 {key}"),
            SettingsFault::Version => write!(f, "fault 4 version"),
            SettingsFault::Draft(fault) => write!(f, "{fault}"),
        }
    }
}

impl fmt::Debug for SettingsFault {
    fn fmt<W: fmt::Write>(&self, f: &mut fmt::Formatter<W>) -> fmt::Result {
        fmt::Display::fmt(self, f)
    }
}

impl Error for SettingsFault {}

impl From<AllocError> for SettingsFault {
    ghost from_gives = { λ _ fault. fault ≡ no_memory };

    fn from(_error: AllocError) -> SettingsFault {
        SettingsFault::Draft(DraftFault::NoMemory)
    }
}

impl<T: Drop> From<AllocFailed<T>> for SettingsFault {
    ghost from_gives = { λ _ fault. fault ≡ no_memory };

    fn from(_error: AllocFailed<T>) -> SettingsFault {
        SettingsFault::Draft(DraftFault::NoMemory)
    }
}
