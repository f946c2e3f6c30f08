//! Global titles with a translation type, a numbering plan, an encoding scheme and a nature of
//! address, and their digits.

ghost use Rattle.std.specs.Prelude.{◌≡◌, ◌≤◌, ◌<◌, ◌*◌, ◌/◌, ◌%◌, ◌^◌, if◌then◌else◌, length, slice_get, take, IfOk, IfSome};
ghost use Rattle.std.specs.List.{flat_map};
ghost use Rattle.sccp_codec.specs.Titles.{halves, digits_in, read_title, GivesTitle};
ghost use Rattle.sccp_codec.specs.Values.{address_of};

use crate::address::Address;
use arrayvec::ArrayVec;
use signalling_types::{Cause, Limits};

/// The title indicator of the titles that are read (Q.713 §3.4.2.3.4).
const WHOLE_TITLE: u8 = 4;

/// Octets that hold as many digits as a translation row may have.
const DIGIT_OCTETS: usize = 16;

/// How the digits of a title are in its octets (Q.713 §3.4.2.3.4).
#[derive(Clone, Copy, PartialEq, Eq)]
pub enum EncodingScheme {
    /// An odd number of digits: the high half of the last octet is filler.
    Odd,
    /// An even number of digits.
    Even,
}

/// What a translation looks at besides the digits of a title (Q.714 §2.4).
#[derive(Clone, Copy, PartialEq, Eq)]
pub struct TitleKey {
    /// The translation type.
    pub translation: u8,
    /// The numbering plan, 0 to 15 in a title.
    pub plan: u8,
    /// The nature of address, 0 to 127 in a title.
    pub nature: u8,
}

/// A global title of indicator 4: what its octets say (Q.713 §3.4.2.3.4).
#[derive(Clone, Copy, PartialEq, Eq)]
pub struct GlobalTitle<'a> {
    /// Its translation type, numbering plan and nature of address.
    pub key: TitleKey,
    /// Its encoding scheme.
    pub scheme: EncodingScheme,
    /// The octets of its digits, the low half first.
    pub digit_octets: &'a [u8],
}

impl<'a> Address<'a> {
    /// The global title of the address. Its digits are a slice of the address.
    ///
    /// Refused NoNature if its indicator isn't 4; otherwise BadSccp if the title has under three octets; otherwise
    /// NoNature if its encoding scheme is neither 1 (odd) nor 2 (even) (Q.713 §3.4.2.3.4; the order of refusals is this
    /// node's).
    pub fn global_title(&self) -> Result<GlobalTitle<'a>, Cause>
        ensures exact { GivesTitle result (read_title (address_of self.now).title_indicator (address_of self.now).title) }
        ensures ranges { IfOk result (λ title. (title.key.plan < 2 ^ 4) × (title.key.nature < 2 ^ 7)) }
    {
        if self.title_indicator.number() != WHOLE_TITLE {
            return Err(Cause::NoNature);
        }
        let [translation, plan_and_scheme, nature, ref digit_octets @ ..] = *self.title else {
            return Err(Cause::BadSccp);
        };
        let scheme = match plan_and_scheme % 16 {
            1 => EncodingScheme::Odd,
            2 => EncodingScheme::Even,
            _ => return Err(Cause::NoNature),
        };
        Ok(GlobalTitle {
            key: TitleKey {
                translation,
                plan: plan_and_scheme / 16,
                nature: nature % 128,
            },
            scheme,
            digit_octets,
        })
    }
}

impl GlobalTitle<'_> {
    /// How many digits the title has.
    pub fn count(&self) -> usize
        ensures { result ≡ length (digits_in self.now.scheme self.now.digit_octets.now) }
    {
        let halves = 2 * self.digit_octets.len();
        match self.scheme {
            EncodingScheme::Odd => halves.saturating_sub(1),
            EncodingScheme::Even => halves,
        }
    }

    /// The digit of this index, from 0: 0 to 15. None past the last.
    pub fn digit(&self, index: usize) -> Option<u8>
        ensures value { result ≡ slice_get (digits_in self.now.scheme self.now.digit_octets.now) index }
        ensures fits { IfSome result (λ digit. digit < 2 ^ 4) }
    {
        if index >= self.count() {
            return None;
        }
        Some(half(self.digit_octets[index / 2], index % 2 == 0))
    }

    /// The digits of the title, 0 to 15 each: the first 32, since no translation looks at more. It
    /// takes a step for each octet of these.
    ///
    /// Its k octets have 2k digits, and 2k - 1 in the odd scheme; none if k is 0.
    pub fn digits(&self) -> ArrayVec<u8, { Limits::TITLE_DIGITS }>
        ensures { result.items ≡ take Limits.TITLE_DIGITS (digits_in self.now.scheme self.now.digit_octets.now) }
    {
        let octets = self.digit_octets;
        if octets.len() > DIGIT_OCTETS {
            return both_halves(&octets[..DIGIT_OCTETS]);
        }
        let mut digits = both_halves(octets);
        match self.scheme {
            EncodingScheme::Odd => {
                digits.pop();
                digits
            }
            EncodingScheme::Even => digits,
        }
    }
}

/// The digit in the low half of an octet, or in its high half.
fn half(octet: u8, low: bool) -> u8
    ensures value { result ≡ (if low then octet % 16 else octet / 16) }
    ensures fits { result < 2 ^ 4 }
{
    if low { octet % 16 } else { octet / 16 }
}

/// The two digits of each octet, the low half first.
fn both_halves(octets: &[u8]) -> ArrayVec<u8, { Limits::TITLE_DIGITS }>
    requires { length octets.now ≤ 16 }
    ensures { result.items ≡ flat_map halves octets.now }
{
    let mut digits = ArrayVec::new();
    for octet in octets {
        digits.push(*octet % 16);
        digits.push(*octet / 16);
    }
    digits
}
