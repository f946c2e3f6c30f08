//! What the octets of a datagram say.

/// The place of the verification tag in a packet, of the type of its first chunk, of the TSN of a DATA chunk, and of
/// the code of an ERROR chunk's first cause (RFC 9260 §3).
const TAG_AT: usize = 4;

const KIND_AT: usize = 12;

const TSN_AT: usize = 16;

const CAUSE_AT: usize = 17;

/// Types of chunks (RFC 9260 §3.2).
pub const DATA: u8 = 0;

pub const ERROR: u8 = 9;

pub const COOKIE_ECHO: u8 = 10;

pub const COOKIE_ACK: u8 = 11;

/// The code of a stale cookie (RFC 9260 §3.3.10.3).
pub const STALE_COOKIE: u8 = 3;

/// The type of the first chunk.
pub fn kind(octets: &[u8]) -> u8 {
    octet(octets, KIND_AT)
}

/// The code of the first cause of an ERROR.
pub fn cause(octets: &[u8]) -> u8 {
    octet(octets, CAUSE_AT)
}

/// The verification tag.
pub fn tag(octets: &[u8]) -> u32 {
    number(octets, TAG_AT)
}

/// The TSN of a DATA chunk.
pub fn tsn(octets: &[u8]) -> u32 {
    number(octets, TSN_AT)
}

/// The 32-bit number at an offset.
pub fn number(octets: &[u8], at: usize) -> u32 {
    let mut value = 0u32;
    for i in 0..4usize {
        value = value << 8 | u32::from(octet(octets, at.saturating_add(i)));
    }
    value
}

/// The octet at an offset; 255 if there is none.
fn octet(octets: &[u8], at: usize) -> u8 {
    octets.get(at).copied().unwrap_or(u8::MAX)
}
