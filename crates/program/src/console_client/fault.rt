//! Why a console wasn't told everything, or its answers weren't read.

ghost use Rattle.std.specs.Prelude.{◌≡◌};

use std::alloc::{AllocError, AllocFailed};
use std::io::ErrorKind;

/// Why a console wasn't told everything, or its answers weren't read.
#[derive(Clone, Copy)]
pub enum CallFault {
    /// Memory ran out.
    NoMemory,
    /// There is no connection to it, for this reason.
    Connect(ErrorKind),
    /// The system has no poll to give, or a wait failed.
    Poll,
    /// A read of the lines failed.
    Read,
    /// A write of the answers failed.
    Write,
    /// The connection ended before all was answered.
    Lost,
}

impl From<AllocError> for CallFault {
    ghost use Rattle.program.specs.declared.console_client.fault.CallFault.TheVariants.{NoMemory};

    ghost from_gives = { λ _ fault. fault ≡ NoMemory };

    fn from(_error: AllocError) -> CallFault {
        CallFault::NoMemory
    }
}

impl<T: Drop> From<AllocFailed<T>> for CallFault {
    ghost use Rattle.program.specs.declared.console_client.fault.CallFault.TheVariants.{NoMemory};

    ghost from_gives = { λ _ fault. fault ≡ NoMemory };

    fn from(_error: AllocFailed<T>) -> CallFault {
        CallFault::NoMemory
    }
}
