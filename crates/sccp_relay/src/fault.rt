//! Why a value isn't stored.

ghost use Rattle.std.specs.Prelude.{◌≡◌};
ghost use Rattle.sccp_relay.specs.Faults.{fault_number};

/// Why a value isn't stored. The numbers are part of the interface.
#[derive(Clone, Copy, Debug, PartialEq, Eq)]
pub enum TrieFault {
    /// A value is stored at these digits.
    Present = 1,
    /// There is no memory for it.
    NoMemory = 2,
}

impl TrieFault {
    /// The fault's number, 1 or 2.
    pub fn number(self) -> u8
        ensures { result ≡ fault_number self }
    {
        self as u8
    }
}
