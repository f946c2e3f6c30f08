//! A message as it goes out.

use crate::message::Message;

/// A message as it goes out, lent (RFC 9260 §3.3.1).
#[derive(Clone, Copy)]
pub struct Data<'a> {
    /// Its TSN.
    pub tsn: u32,
    /// Its number on its stream.
    pub sequence: u16,
    /// What it says.
    pub message: Message<'a>,
}
