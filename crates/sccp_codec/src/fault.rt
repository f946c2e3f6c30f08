//! What is wrong with a message.

ghost use Rattle.std.specs.Prelude.{◌≡◌};
ghost use Rattle.sccp_codec.specs.Faults.{fault_number};

/// What is wrong with a message that can't be read. The numbers are part of the interface.
#[derive(Clone, Copy, Debug, PartialEq, Eq)]
pub enum SccpFault {
    /// The message has too few octets, or an address fewer than it announces.
    Short = 1,
    /// A pointer names no whole part of the message, or an optional part that doesn't end, or that has
    /// a parameter of a wrong length.
    Pointer = 2,
    /// The message isn't of a kind that is read.
    Kind = 3,
}

impl SccpFault {
    /// The fault's number, 1 to 3.
    pub fn number(self) -> u8
        ensures { result ≡ fault_number self }
    {
        self as u8
    }
}
