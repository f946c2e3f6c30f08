//! What is wrong with settings as they were written.

ghost use Rattle.std.specs.Prelude.{◌≡◌, Some};
ghost use Rattle.settings.specs.Faults.{fault_number, fault_line, kind_number};

use crate::key::Key;
use std::alloc::{AllocError, AllocFailed};
use std::error::Error;
use std::fmt;

/// What is wrong at a key. The numbers are part of the interface.
#[derive(Clone, Copy)]
pub enum FaultKind {
    /// A number out of its range, a malformed text, or an empty list that must have an entry.
    Range = 4,
    /// What must be distinct occurs twice.
    Duplicate = 5,
    /// A name that nothing has.
    UnknownName = 6,
    /// More entries than the node carries.
    TooMany = 7,
}

impl FaultKind {
    /// The kind's number, 4 to 7.
    pub fn number(self) -> u8
        ensures { result ≡ kind_number self }
    {
        self as u8
    }
}

/// The first fault of settings as they were written. It prints as the line that tells it: `fault 4
/// link[2].slc`, or `fault NoMemory`.
#[derive(Clone, Copy)]
pub enum DraftFault {
    /// Memory ran out.
    NoMemory,
    /// Something is wrong at this key.
    At(FaultKind, Key),
}

impl DraftFault {
    /// The fault's number: 4 to 7 for what is wrong at a key, 8 if memory ran out.
    pub fn number(self) -> u8
        ensures { result ≡ fault_number self }
    {
        match self {
            DraftFault::NoMemory => 8,
            DraftFault::At(kind, _) => kind.number(),
        }
    }
}

impl fmt::Display for DraftFault {
    ghost output = { λ fault. Some (fault_line fault) };

    fn fmt<W: fmt::Write>(&self, f: &mut fmt::Formatter<W>) -> fmt::Result {
        match *self {
            DraftFault::NoMemory => f.write_str("fault NoMemory"),
            DraftFault::At(kind, key) => {
                let number = kind.number();
                write!(f, "fault {number} {key}")
            }
        }
    }
}

impl fmt::Debug for DraftFault {
    fn fmt<W: fmt::Write>(&self, f: &mut fmt::Formatter<W>) -> fmt::Result {
        fmt::Display::fmt(self, f)
    }
}

impl Error for DraftFault {}

impl From<AllocError> for DraftFault {
    ghost use Rattle.settings.specs.declared.fault.DraftFault.TheVariants.{NoMemory};

    ghost from_gives = { λ _ fault. fault ≡ NoMemory };

    fn from(_error: AllocError) -> DraftFault {
        DraftFault::NoMemory
    }
}

impl<T: Drop> From<AllocFailed<T>> for DraftFault {
    ghost use Rattle.settings.specs.declared.fault.DraftFault.TheVariants.{NoMemory};

    ghost from_gives = { λ _ fault. fault ≡ NoMemory };

    fn from(_error: AllocFailed<T>) -> DraftFault {
        DraftFault::NoMemory
    }
}
