//! What a frame says.

use crate::status::LinkStatus;
use signalling_types::Number24;

/// Octets of the buffer that a frame is written into: more than any frame that is written has.
pub const BUFFER_OCTETS: usize = 300;

/// A frame of M2PA. BSN names the last message accepted, FSN the last message sent (RFC 4165 §2.2).
#[derive(Clone, Copy, Debug, PartialEq, Eq)]
pub enum Frame<'a> {
    /// User Data without a message.
    Empty {
        /// The backward sequence number.
        bsn: Number24,
        /// The forward sequence number.
        fsn: Number24,
    },
    /// User Data with a message (RFC 4165 §2.3.1).
    Message {
        /// The backward sequence number.
        bsn: Number24,
        /// The forward sequence number, that of the message.
        fsn: Number24,
        /// The message's service information octet.
        sio: u8,
        /// The message's signalling information field, of any length.
        sif: &'a [u8],
    },
    /// Link Status (RFC 4165 §2.3.2).
    Status {
        /// The backward sequence number.
        bsn: Number24,
        /// The forward sequence number.
        fsn: Number24,
        /// The state that it tells.
        status: LinkStatus,
    },
}
