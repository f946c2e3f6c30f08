//! Extended unitdata messages.

use crate::optional::OptionalPart;
use crate::unitdata::Parts;

/// Which extended message it is, and the octet after its message type.
#[derive(Clone, Copy, PartialEq, Eq)]
pub enum ExtendedKind {
    /// An XUDT, with the octet of its protocol class: the class in its low half, the message handling
    /// in its high half (Q.713 §3.6).
    Xudt(u8),
    /// An XUDTS, with its return cause (Q.713 §3.12).
    Xudts(u8),
}

/// An extended unitdata message, XUDT, or the extended unitdata service message, XUDTS, which returns
/// one that couldn't be delivered (Q.713 §4.18, §4.19).
#[derive(Clone, Copy)]
pub struct ExtendedUnitdata<'a> {
    /// Which of the two it is.
    pub kind: ExtendedKind,
    /// How many translations it may still meet: 1 to 15, though any octet is read (Q.713 §3.18).
    pub hop_counter: u8,
    /// Its addresses and data.
    pub parts: Parts<'a>,
    /// Its optional parameters.
    pub optional: OptionalPart<'a>,
}
