//! What is wrong with the numbers of a frame.

ghost use Rattle.std.specs.Prelude.{◌≡◌};
ghost use Rattle.link.specs.Faults.{seq_fault_number};

/// What is wrong with the numbers of a frame: the first fault, in this order (RFC 4165 §2.2).
#[derive(Clone, Copy, Debug, PartialEq, Eq)]
pub enum SeqFault {
    /// The forward number isn't the next one, or without a message not the last one again.
    BadFsn = 1,
    /// The backward number names nothing that was sent and not confirmed.
    BadBsn = 2,
}

impl SeqFault {
    /// The fault's number.
    pub fn number(self) -> u8
        ensures { result ≡ seq_fault_number self }
    {
        self as u8
    }
}
