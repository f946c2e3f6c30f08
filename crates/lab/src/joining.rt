//! How the ends of a link are joined.

ghost use Rattle.std.specs.Prelude.{◌≡◌};
ghost use Rattle.lab.specs.Faults.{join_fault_number};

use std::io::{Read, Write};

/// Why the ends of a link weren't joined. The numbers are part of the interface.
#[derive(Clone, Copy, Debug, PartialEq, Eq)]
pub enum JoinFault {
    /// Nothing listens for the connection.
    Listen = 1,
    /// The near end has no connection.
    Connect = 2,
    /// The far end didn't accept the connection.
    Accept = 3,
}

impl JoinFault {
    /// The fault's number, 1 to 3.
    pub fn number(self) -> u8
        ensures { result ≡ join_fault_number self }
    {
        self as u8
    }
}

/// What joins the two ends of a link by streams.
pub trait Joiner {
    /// One end of a pair of streams: it gives what is written to the other end, in order.
    type Stream: Read + Write + Drop;

    /// Two new streams that are joined, that of the near end first.
    fn join(&mut self) -> Result<(Self::Stream, Self::Stream), JoinFault>;
}
