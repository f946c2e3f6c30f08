//! Causes of ABORT and ERROR (RFC 9260 §3.3.10).

ghost use Rattle.std.specs.Prelude.{◌≡◌, ◌+◌, ◌<◌, ◌≤◌, ◌^◌, ◌++◌, length};
ghost use Rattle.sctp_codec.specs.Items.{item_octets};
ghost use Rattle.sctp_codec.specs.Parameters.{cause_item};
ghost use Rattle.sctp_codec.specs.Causes.{cause_of, parts_of};

use crate::chunk::{StreamId, Tsn};
use crate::item::numbered;
use crate::layout::{HOST_NAME_ADDRESS, ITEM_HEADER_OCTETS};

/// A cause that is sent.
#[derive(Clone, Copy)]
pub enum Cause<'a> {
    /// DATA came on a stream that doesn't exist (RFC 9260 §3.3.10.1).
    NoStream(StreamId),
    /// The cookie is too old (RFC 9260 §3.3.10.3).
    StaleCookie {
        /// By how much.
        microseconds: u32,
    },
    /// This host name gives no address (RFC 9260 §3.3.10.5).
    UnresolvableAddress(&'a [u8]),
    /// A chunk of an unknown type that is to be reported (RFC 9260 §3.3.10.6).
    UnrecognizedChunk {
        /// Its type.
        kind: u8,
        /// Its flags.
        flags: u8,
        /// Its value.
        value: &'a [u8],
    },
    /// A required parameter is missing or wrong (RFC 9260 §3.3.10.7).
    InvalidParameter,
    /// A DATA chunk of this number has no user data (RFC 9260 §3.3.10.9).
    NoUserData(Tsn),
    /// A cookie came while the association is shut down (RFC 9260 §3.3.10.10).
    CookieInShutdown,
    /// The user ended the association (RFC 9260 §3.3.10.12).
    EndedByUser,
    /// What the peer did wrong, in words (RFC 9260 §3.3.10.13).
    ProtocolViolation(&'a [u8]),
}

/// A cause as it is written: its code, four octets of its value, if they aren't a slice, and those after them.
#[derive(Clone, Copy)]
pub(crate) struct CauseParts<'a> {
    pub(crate) code: u16,
    pub(crate) front: Option<[u8; 4]>,
    pub(crate) behind: &'a [u8],
}

impl<'a> Cause<'a> {
    /// The cause as it is written.
    pub(crate) fn parts(&self) -> CauseParts<'a>
        requires { length (cause_item (cause_of self.now)).value < 2 ^ 16 }
        ensures { parts_of result ≡ cause_item (cause_of self.now) }
    {
        match *self {
            Cause::NoStream(stream) => {
                let [high, low] = stream.to_be_bytes();
                fixed(1, [high, low, 0, 0])
            }
            Cause::StaleCookie { microseconds } => fixed(3, microseconds.to_be_bytes()),
            Cause::UnresolvableAddress(name) => nested(5, HOST_NAME_ADDRESS, name),
            Cause::UnrecognizedChunk { kind, flags, value } => nested(
                6,
                numbered(kind, flags),
                value,
            ),
            Cause::InvalidParameter => bare(7, &[]),
            Cause::NoUserData(tsn) => fixed(9, tsn.to_be_bytes()),
            Cause::CookieInShutdown => bare(10, &[]),
            Cause::EndedByUser => bare(12, &[]),
            Cause::ProtocolViolation(words) => bare(13, words),
        }
    }
}

/// A cause whose value is four octets.
fn fixed<'a>(code: u16, front: [u8; 4]) -> CauseParts<'a>
    ensures { parts_of result ≡ record { kind = code; value = front } }
{
    CauseParts {
        code,
        front: Some(front),
        behind: &[],
    }
}

/// A cause whose value is a slice.
fn bare(code: u16, behind: &[u8]) -> CauseParts<'_>
    ensures { parts_of result ≡ record { kind = code; value = behind.now } }
{
    CauseParts {
        code,
        front: None,
        behind,
    }
}

/// A cause whose value is an item of this number and this value.
fn nested(code: u16, kind: u16, value: &[u8]) -> CauseParts<'_>
    requires { 4 + length value.now < 2 ^ 16 }
    ensures { parts_of result
        ≡ record { kind = code; value = item_octets (record { kind = kind; value = value.now }) } }
{
    let length = (ITEM_HEADER_OCTETS + value.len()) as u16;
    let [kind_high, kind_low] = kind.to_be_bytes();
    let [length_high, length_low] = length.to_be_bytes();
    CauseParts {
        code,
        front: Some([kind_high, kind_low, length_high, length_low]),
        behind: value,
    }
}
