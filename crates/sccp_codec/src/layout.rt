//! Where the fields of a unitdata message are, and the octets that never change (Q.713 §3, §4).

/// The message type of unitdata (Q.713 §2.1).
pub(crate) const UDT: u8 = 0x09;

/// The message type of unitdata service (Q.713 §2.1).
pub(crate) const UDTS: u8 = 0x0a;

/// Where the pointers begin: to the called address, the calling address and the data (Q.713 §4.10).
pub(crate) const POINTERS_AT: usize = 2;

/// Where the first part may be: after the message type, the octet after it and the pointers.
pub(crate) const PARTS_AT: usize = 5;

/// The pointer to a part that is first: from the first pointer to the first length.
pub(crate) const FIRST_POINTER: u8 = (PARTS_AT - POINTERS_AT) as u8;

/// The message type of extended unitdata (Q.713 §2.1).
pub(crate) const XUDT: u8 = 0x11;

/// The message type of extended unitdata service (Q.713 §2.1).
pub(crate) const XUDTS: u8 = 0x12;

/// Where the pointers of an extended message begin: to the called address, the calling address, the data and the
/// optional part (Q.713 §4.18).
pub(crate) const EXTENDED_POINTERS_AT: usize = 3;

/// Where the pointer to the optional part is (Q.713 §4.18).
pub(crate) const OPTIONAL_POINTER: usize = 6;

/// Where the first part of an extended message may be.
pub(crate) const EXTENDED_PARTS_AT: usize = 7;

/// The pointer to a part of an extended message that is first.
pub(crate) const FIRST_EXTENDED_POINTER: u8 = (EXTENDED_PARTS_AT - EXTENDED_POINTERS_AT) as u8;

/// Octets of the routing label, which comes before the message (Q.704 §2.2).
pub(crate) const LABEL_OCTETS: usize = 4;

/// The bit of an indicator octet that says that a point code follows (Q.713 §3.4.1).
pub(crate) const POINT_BIT: u32 = 0;

/// The bit that says that a subsystem number follows.
pub(crate) const SSN_BIT: u32 = 1;

/// The bit that says what the address is routed by.
pub(crate) const ROUTING_BIT: u32 = 6;

/// The bit reserved for national use.
pub(crate) const NATIONAL_BIT: u32 = 7;
