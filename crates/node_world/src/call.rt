//! What is called at a gate.

use sctp_endpoint::Address;

/// What is called at the gate of a link.
#[derive(Clone, Copy)]
pub enum Call {
    /// The datagram at this index of all that the gate at the other end of the link put out comes, from an address.
    Hear(usize, Address),
    /// Time went by.
    Tick,
    /// The endpoint is set to what the link wants.
    Settle,
    /// Frames of the link go out.
    Fill,
    /// The association ends.
    Close,
}
