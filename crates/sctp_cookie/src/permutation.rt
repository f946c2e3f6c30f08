//! The permutation of the 32-bit numbers that gives an endpoint's tags.

ghost use Rattle.std.specs.Prelude.{◌≡◌, ◌<◌};
ghost use Rattle.sctp_cookie.specs.Permutation.{round};
ghost use Rattle.sctp_cookie.specs.Tags.{half_given, permutation};

use crate::tags::KEY_OCTETS;
use sha2::{Digest, Sha256};

/// How many values a half has.
const HALVES: u32 = 1 << 16;

/// The number that the permutation under this key gives for a number.
#[tactic(auto, unfolding(crate::specs::Tags::permutation))]
pub(crate) fn permuted(key: &[u8; KEY_OCTETS], number: u32) -> u32
    ensures { result ≡ permutation key.now number }
{
    let once = round(key, 0, number);
    let twice = round(key, 1, once);
    let thrice = round(key, 2, twice);
    round(key, 3, thrice)
}

/// One round of the network.
#[tactic(auto, unfolding(crate::specs::Permutation::round))]
fn round(key: &[u8; KEY_OCTETS], number: u8, halves: u32) -> u32
    ensures { result ≡ round (half_given key.now number) halves }
{
    let (high, low) = ((halves / HALVES) as u16, (halves % HALVES) as u16);
    let altered = high ^ half_given(key, number, low);
    u32::from(low) * HALVES + u32::from(altered)
}

/// What a half gives in a round, which the other half is altered by.
fn half_given(key: &[u8; KEY_OCTETS], number: u8, half: u16) -> u16
    ensures { result ≡ half_given key.now number half }
{
    let mut hasher = Sha256::new();
    hasher.update(key);
    hasher.update(&[number]);
    hasher.update(&half.to_be_bytes());
    let [high, low, ..] = hasher.finalize();
    u16::from_be_bytes([high, low])
}
