//! The code that authenticates a message under a key.

ghost use Rattle.std.specs.Prelude.{◌≡◌, ◌≤◌, ◌++◌, length};
ghost use Rattle.sha2.specs.Sha256.{sha256};
ghost use Rattle.sctp_cookie.specs.Hmac.{block_octets, padded, masked, hmac};

use sha2::{Digest, Sha256};

/// Octets of the code.
pub const MAC_OCTETS: usize = 32;

/// Octets of a block of the hash (FIPS 180-4 §1).
const BLOCK_OCTETS: usize = 64;

/// The octet that ipad repeats (RFC 2104 §2).
const INNER_OCTET: u8 = 0x36;

/// The octet that opad repeats (RFC 2104 §2).
const OUTER_OCTET: u8 = 0x5c;

/// The code of a message under a key of at most 64 octets: HMAC with SHA-256 (RFC 2104 §2, FIPS 198-1).
#[tactic(auto, unfolding(crate::specs::Hmac::hmac))]
pub fn hmac_sha256(key: &[u8], message: &[u8]) -> [u8; MAC_OCTETS]
    requires { length key.now ≤ block_octets }
    ensures { result ≡ hmac key.now message.now }
{
    let inner = hash(&masked(key, INNER_OCTET), message);
    hash(&masked(key, OUTER_OCTET), &inner)
}

/// The hash of two pieces taken as one message.
fn hash(first: &[u8; BLOCK_OCTETS], second: &[u8]) -> [u8; MAC_OCTETS]
    ensures { result ≡ sha256 (first.now ++ second.now) }
{
    let mut hasher = Sha256::new();
    hasher.update(first);
    hasher.update(second);
    hasher.finalize()
}

/// The key, with zeros after it up to a block, each octet altered by this one.
fn masked(key: &[u8], mask: u8) -> [u8; BLOCK_OCTETS]
    requires { length key.now ≤ block_octets }
    ensures { result ≡ masked mask (padded key.now) }
{
    let mut block = padded(key);
    mask_all(&mut block, mask);
    block
}

/// The key, with zeros after it up to a block.
fn padded(key: &[u8]) -> [u8; BLOCK_OCTETS]
    requires { length key.now ≤ block_octets }
    ensures { result ≡ padded key.now }
{
    let mut block = [0; BLOCK_OCTETS];
    block[..key.len()].copy_from_slice(key);
    block
}

/// Alters each octet by this one.
fn mask_all(block: &mut [u8; BLOCK_OCTETS], mask: u8)
    ensures { block.new ≡ masked mask block.old }
{
    for place in 0..BLOCK_OCTETS {
        block[place] ^= mask;
    }
}
