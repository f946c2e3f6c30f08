//! An item: chunks, parameters and error causes have this form (RFC 9260 §3.2, §3.2.1).

ghost use Rattle.std.specs.Prelude.{◌≡◌, ◌+◌, ◌*◌, ◌^◌, ◌<◌, ◌≤◌, false, true, length, slice_index, MatchOption};
ghost use Rattle.sctp_codec.specs.Items.{begins_whole, first_item, behind_first, padding_behind};
ghost use Rattle.sctp_codec.specs.Values.{item_of};

use crate::layout::{ITEM_HEADER_OCTETS, WORD_OCTETS};

/// A number and a value.
#[derive(Clone, Copy)]
pub struct Item<'a> {
    /// Of a parameter or an error cause its type; of a chunk its type and its flags, an octet each.
    pub kind: u16,
    /// The value, without padding.
    pub value: &'a [u8],
}

/// The first item of the octets, and what is after its padding. None if they don't begin with a whole item.
#[inline(always)]
pub(crate) fn first(octets: &[u8]) -> Option<(Item<'_>, &[u8])>
    ensures { MatchOption result (begins_whole octets.now ≡ false) (λ found.
        (begins_whole octets.now ≡ true) × (item_of found.0 ≡ first_item octets.now)
        × (found.1.now ≡ behind_first octets.now)) }
{
    let [kind_high, kind_low, length_high, length_low, ..] = *octets else {
        return None;
    };
    let length = usize::from(u16::from_be_bytes([length_high, length_low]));
    if length < ITEM_HEADER_OCTETS || octets.len() < length {
        return None;
    }
    let end = octets.len().min(length + padding_behind(length));
    let item = Item {
        kind: u16::from_be_bytes([kind_high, kind_low]),
        value: &octets[ITEM_HEADER_OCTETS..length],
    };
    Some((item, &octets[end..]))
}

/// How many octets of padding are after this many octets.
#[inline(always)]
pub(crate) fn padding_behind(count: usize) -> usize
    ensures value { result ≡ padding_behind count }
    ensures small { result < 4 }
{
    (WORD_OCTETS - count % WORD_OCTETS) % WORD_OCTETS
}

/// The number of a chunk as an item: its type and its flags.
#[inline(always)]
pub(crate) fn numbered(kind: u8, flags: u8) -> u16
    ensures { result ≡ kind * 2 ^ 8 + flags }
{
    u16::from_be_bytes([kind, flags])
}
