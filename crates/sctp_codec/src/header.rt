//! The header of a packet in its checksum.

ghost use Rattle.std.specs.Prelude.{◌≡◌};
ghost use Rattle.std.specs.Int.{w64, to_le_bytes};
ghost use Rattle.sctp_codec.specs.Headers.{remainder_behind};

use crc32c::{INITIAL, remainder};

/// The ports and the tag of a packet, and the remainder of the division after its header. Most packets have the header
/// of the one before: then its octets aren't divided again.
#[derive(Clone, Copy)]
pub struct Header {
    front: u64,
    remainder: u32,
    ghost right: { remainder ≡ remainder_behind front },
}

impl Header {
    /// The header of no packet: zeros.
    pub fn zeros() -> Header {
        Header::divided(0)
    }

    /// The header that begins with these octets.
    #[inline(never)]
    fn divided(front: u64) -> Header
        ensures { result.front ≡ front }
    {
        Header {
            front,
            remainder: remainder_behind(front),
        }
    }

    /// Becomes the header that begins with these octets.
    #[inline(always)]
    pub(crate) fn turn(&mut self, octets: &[u8; 8])
        ensures { to_le_bytes w64 self.new.front ≡ octets.now }
    {
        let front = front_of(octets);
        if front != self.front {
            *self = Header::divided(front);
        }
    }

    /// The remainder after it.
    #[inline(always)]
    pub(crate) fn remainder(&self) -> u32
        ensures { result ≡ remainder_behind self.now.front }
    {
        self.remainder
    }
}

/// Eight octets as one number.
#[inline(always)]
fn front_of(octets: &[u8; 8]) -> u64
    ensures { to_le_bytes w64 result ≡ octets.now }
{
    u64::from_le_bytes(*octets)
}

/// The remainder after a header that begins with these octets, with zeros in the checksum's place.
fn remainder_behind(front: u64) -> u32
    ensures { result ≡ remainder_behind front }
{
    let ports_and_tag = remainder(INITIAL, &front.to_le_bytes());
    remainder(ports_and_tag, &[0; 4])
}
