//! The numbers of chunks, and how many octets the fields have (RFC 9260 §3).

/// Octets of a number and a length, before each value (RFC 9260 §3.2).
pub(crate) const ITEM_HEADER_OCTETS: usize = 4;

/// Values are padded to a multiple of this many octets (RFC 9260 §3.2).
pub(crate) const WORD_OCTETS: usize = 4;

/// Octets of the common header (RFC 9260 §3.1).
pub(crate) const HEADER_OCTETS: usize = 12;

/// Where the checksum is in it, after the ports and the tag.
pub(crate) const CHECKSUM_AT: usize = 8;

/// Octets of the fields of a DATA chunk, before the user data (RFC 9260 §3.3.1).
pub(crate) const DATA_OCTETS: usize = 12;

/// Octets of the fields of an INIT or INIT ACK chunk, before the parameters (RFC 9260 §3.3.2).
pub(crate) const INIT_OCTETS: usize = 16;

/// Octets of the fields of a SACK chunk, before the gap blocks (RFC 9260 §3.3.4).
pub(crate) const SACK_OCTETS: usize = 12;

/// Octets of a gap block, and of a 32-bit number.
pub(crate) const BLOCK_OCTETS: usize = 4;

pub(crate) const DATA: u8 = 0;

pub(crate) const INIT: u8 = 1;

pub(crate) const INIT_ACK: u8 = 2;

pub(crate) const SACK: u8 = 3;

pub(crate) const HEARTBEAT: u8 = 4;

pub(crate) const HEARTBEAT_ACK: u8 = 5;

pub(crate) const ABORT: u8 = 6;

pub(crate) const SHUTDOWN: u8 = 7;

pub(crate) const SHUTDOWN_ACK: u8 = 8;

pub(crate) const ERROR: u8 = 9;

pub(crate) const COOKIE_ECHO: u8 = 10;

pub(crate) const COOKIE_ACK: u8 = 11;

pub(crate) const SHUTDOWN_COMPLETE: u8 = 14;

/// The bit of a DATA chunk that asks for an acknowledgement at once (RFC 9260 §3.3.1).
pub(crate) const IMMEDIATE_BIT: u32 = 3;

/// The bit of a DATA chunk whose message is unordered.
pub(crate) const UNORDERED_BIT: u32 = 2;

/// The bit of a DATA chunk that begins its message.
pub(crate) const BEGINNING_BIT: u32 = 1;

/// The bit of a DATA chunk that ends its message.
pub(crate) const ENDING_BIT: u32 = 0;

/// The bit of an ABORT or a SHUTDOWN COMPLETE whose tag is reflected (RFC 9260 §3.3.7, §3.3.13).
pub(crate) const REFLECTED_BIT: u32 = 0;

/// The parameter of HEARTBEAT and HEARTBEAT ACK (RFC 9260 §3.3.5).
pub(crate) const HEARTBEAT_INFORMATION: u16 = 1;

/// The parameters of INIT and INIT ACK whose types are known (RFC 9260 §3.3.2, §3.3.3).
pub(crate) const IPV4_ADDRESS: u16 = 5;

pub(crate) const IPV6_ADDRESS: u16 = 6;

pub(crate) const STATE_COOKIE: u16 = 7;

pub(crate) const UNRECOGNIZED_PARAMETER: u16 = 8;

pub(crate) const COOKIE_PRESERVATIVE: u16 = 9;

pub(crate) const HOST_NAME_ADDRESS: u16 = 11;

pub(crate) const SUPPORTED_ADDRESS_TYPES: u16 = 12;

/// The cause that the cookie was stale (RFC 9260 §3.3.10.3).
pub(crate) const STALE_COOKIE: u16 = 3;

/// The cause that parameters weren't recognized (RFC 9260 §3.3.10.8).
pub(crate) const UNRECOGNIZED_PARAMETERS: u16 = 8;

/// Octets of reported parameters that are sent at most.
pub(crate) const REPORT_OCTETS: usize = 512;
