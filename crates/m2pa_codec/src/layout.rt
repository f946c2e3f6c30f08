//! The octets of a frame that never change, and how many the headers have (RFC 4165 §2).

/// The version of M2PA (RFC 4165 §2.1.1).
pub(crate) const VERSION: u8 = 1;

/// The message class of M2PA (RFC 4165 §2.1.3).
pub(crate) const CLASS: u8 = 11;

/// The message type of User Data (RFC 4165 §2.1.4).
pub(crate) const USER_DATA: u8 = 1;

/// The message type of Link Status (RFC 4165 §2.1.4).
pub(crate) const LINK_STATUS: u8 = 2;

/// What is written into octets that readers skip.
pub(crate) const SPARE: u8 = 0;

/// Octets of the common header (RFC 4165 §2.1).
pub(crate) const COMMON_HEADER_OCTETS: usize = 8;

/// Octets of both headers (RFC 4165 §2.1, §2.2).
pub(crate) const HEADER_OCTETS: usize = 16;

/// Octets before the field of a message: both headers, the priority octet and the service
/// information octet (RFC 4165 §2.3.1).
pub(crate) const MESSAGE_HEADER_OCTETS: usize = HEADER_OCTETS + 2;

/// Octets of a Link Status message without filler: both headers and the state (RFC 4165 §2.3.2).
pub(crate) const STATUS_OCTETS: usize = HEADER_OCTETS + 4;

/// Where the backward sequence number is (RFC 4165 §2.2).
pub(crate) const BSN_AT: usize = 9;

/// Where the forward sequence number is (RFC 4165 §2.2).
pub(crate) const FSN_AT: usize = 13;
