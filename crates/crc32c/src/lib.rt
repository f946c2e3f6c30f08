//! CRC32c, the checksum of SCTP packets (RFC 9260 appendix A), by eight tables of 1,024 octets.
#![tactic(auto)]

pub mod laws;
mod tables;

ghost use Rattle.std.specs.Prelude.{◌≡◌, [], ◌∷◌, ◌+◌, ◌*◌, ◌^◌};
ghost use Rattle.crc32c.specs.Division.{ones, after_octets, crc32c_of, divided_by};

use tables::TABLES;

/// What the division begins with: 32 bits that are set.
pub const INITIAL: u32 = u32::MAX;

/// The checksum of the octets: the remainder after them from `INITIAL` on, each bit inverted.
pub fn crc32c(octets: &[u8]) -> u32
    ensures { result ≡ crc32c_of octets.now }
{
    !remainder(INITIAL, octets)
}

/// The remainder after the octets, from the remainder before them. Octets may come in pieces of any
/// length: the remainder after one is that before the next. Blocks of 32 octets take four steps, without a count.
#[inline(always)]
pub fn remainder(before: u32, octets: &[u8]) -> u32
    ensures { result ≡ after_octets before octets.now }
{
    let mut remainder = before;
    let mut rest = octets;
    'each_block: while let Some((block, behind)) = rest.split_first_chunk::<32>() {
        remainder = remainder_by_eights(remainder, block);
        rest = behind;
    }
    remainder_below_32(remainder, rest)
}

/// The same, if there are fewer than 32: 16 octets take two steps.
#[inline(always)]
fn remainder_below_32(before: u32, octets: &[u8]) -> u32
    ensures { result ≡ after_octets before octets.now }
{
    match octets.split_first_chunk::<16>() {
        Some((block, behind)) => remainder_below_16(remainder_by_eights(before, block), behind),
        None => remainder_below_16(before, octets),
    }
}

/// The same, if there are fewer than 16: eight octets take one step.
#[inline(always)]
fn remainder_below_16(before: u32, octets: &[u8]) -> u32
    ensures { result ≡ after_octets before octets.now }
{
    match octets.split_first_chunk::<8>() {
        Some((eight, behind)) => remainder_below_8(after_eight(before, eight), behind),
        None => remainder_below_8(before, octets),
    }
}

/// The same, if there are fewer than eight: four octets take one step.
#[inline(always)]
fn remainder_below_8(before: u32, octets: &[u8]) -> u32
    ensures { result ≡ after_octets before octets.now }
{
    match octets.split_first_chunk::<4>() {
        Some((four, behind)) => remainder_by_octets(after_four(before, four), behind),
        None => remainder_by_octets(before, octets),
    }
}

/// The same: each octet takes one step.
#[inline(always)]
fn remainder_by_octets(before: u32, octets: &[u8]) -> u32
    ensures { result ≡ after_octets before octets.now }
{
    let mut remainder = before;
    'octets: for octet in octets {
        remainder = after_octet(remainder, *octet);
    }
    remainder
}

/// The same: eight octets take one step, as often as there are eight.
#[inline(always)]
fn remainder_by_eights(before: u32, octets: &[u8]) -> u32
    ensures { result ≡ after_octets before octets.now }
{
    let mut remainder = before;
    let mut rest = octets;
    'eights: while let Some((eight, behind)) = rest.split_first_chunk::<8>() {
        remainder = after_eight(remainder, eight);
        rest = behind;
    }
    remainder_below_8(remainder, rest)
}

/// The remainder after eight octets more: what each leaves, by its own table.
#[inline(always)]
fn after_eight(remainder: u32, octets: &[u8; 8]) -> u32
    ensures { result ≡ after_octets remainder octets.now }
{
    let [first, second, third, fourth, fifth, sixth, seventh, eighth] = *octets;
    let word = u32::from_le_bytes([first, second, third, fourth]);
    after_64_of_word(remainder ^ word) ^ after_32_of_octets(fifth, sixth, seventh, eighth)
}

/// The remainder after four octets more: what each leaves, by its own table.
#[inline(always)]
fn after_four(remainder: u32, octets: &[u8; 4]) -> u32
    ensures { result ≡ after_octets remainder octets.now }
{
    after_32_of_word(remainder ^ u32::from_le_bytes(*octets))
}

/// What a word leaves after 32 steps.
#[inline(always)]
fn after_32_of_word(word: u32) -> u32
    ensures { result ≡ divided_by 32 word }
{
    let [first, second, third, fourth] = word.to_le_bytes();
    after_32_of_octets(first, second, third, fourth)
}

/// What a word leaves after 64 steps.
#[inline(always)]
fn after_64_of_word(word: u32) -> u32
    ensures { result ≡ divided_by 64 word }
{
    let [first, second, third, fourth] = word.to_le_bytes();
    after_64(first) ^ (after_56(second) ^ (after_48(third) ^ after_40(fourth)))
}

/// What four octets, the lowest first, leave after 32 steps.
#[inline(always)]
fn after_32_of_octets(first: u8, second: u8, third: u8, fourth: u8) -> u32
    ensures { result ≡ divided_by 32 (first + (second + (third + fourth * 2 ^ 8) * 2 ^ 8) * 2 ^ 8) }
{
    after_32(first) ^ (after_24(second) ^ (after_16(third) ^ after_8(fourth)))
}

/// The remainder after one octet more.
#[inline(always)]
fn after_octet(remainder: u32, octet: u8) -> u32
    ensures { result ≡ after_octets remainder (octet ∷ []) }
{
    let [first, ..] = remainder.to_le_bytes();
    after_8(first ^ octet) ^ (remainder >> 8)
}

/// What an octet leaves after 8 steps.
#[inline(always)]
fn after_8(octet: u8) -> u32
    ensures { result ≡ divided_by 8 octet }
{
    TABLES[0][usize::from(octet)]
}

/// What an octet leaves after 16 steps.
#[inline(always)]
fn after_16(octet: u8) -> u32
    ensures { result ≡ divided_by 16 octet }
{
    TABLES[1][usize::from(octet)]
}

/// What an octet leaves after 24 steps.
#[inline(always)]
fn after_24(octet: u8) -> u32
    ensures { result ≡ divided_by 24 octet }
{
    TABLES[2][usize::from(octet)]
}

/// What an octet leaves after 32 steps.
#[inline(always)]
fn after_32(octet: u8) -> u32
    ensures { result ≡ divided_by 32 octet }
{
    TABLES[3][usize::from(octet)]
}

/// What an octet leaves after 40 steps.
#[inline(always)]
fn after_40(octet: u8) -> u32
    ensures { result ≡ divided_by 40 octet }
{
    TABLES[4][usize::from(octet)]
}

/// What an octet leaves after 48 steps.
#[inline(always)]
fn after_48(octet: u8) -> u32
    ensures { result ≡ divided_by 48 octet }
{
    TABLES[5][usize::from(octet)]
}

/// What an octet leaves after 56 steps.
#[inline(always)]
fn after_56(octet: u8) -> u32
    ensures { result ≡ divided_by 56 octet }
{
    TABLES[6][usize::from(octet)]
}

/// What an octet leaves after 64 steps.
#[inline(always)]
fn after_64(octet: u8) -> u32
    ensures { result ≡ divided_by 64 octet }
{
    TABLES[7][usize::from(octet)]
}
