//! What is wrong with a management or test message.

ghost use Rattle.std.specs.Prelude.{◌≡◌};
ghost use Rattle.mtp3_codec.specs.Faults.{fault_number};

/// Why a management or test message isn't read. The numbers are part of the interface.
#[derive(Clone, Copy, Debug, PartialEq, Eq)]
pub enum MgmtFault {
    /// The message has no heading, or too few octets after it.
    Short = 1,
    /// Its heading is one that the node leaves out.
    NotInProfile = 2,
}

impl MgmtFault {
    /// The fault's number, 1 or 2.
    pub fn number(self) -> u8
        ensures { result ≡ fault_number self }
    {
        self as u8
    }
}
