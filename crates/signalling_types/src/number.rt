//! The sequence numbers of a link: 24 bits, and after the last comes 0 again.

ghost use Rattle.std.specs.Prelude.{◌≡◌, ℕ, ◌+◌, ◌%◌, ◌^◌, ◌<◌, ◌≤◌, ◌↔◌, IsTrue, IsSome, IfSome, ◌∷◌, drop};
ghost use Rattle.signalling_types.specs.Numbers.{next_number, previous_number, steps_between, is_within};
ghost use Rattle.signalling_types.specs.Numbers.{three_octets, number_of};

use std::marker::Model;

/// A 24-bit sequence number, as FSN and BSN are (RFC 4165 §2.2).
#[derive(Clone, Copy, Debug, PartialEq, Eq)]
pub struct Number24 {
    value: u32,
}

impl Model for Number24 {
    ghost Value = { ℕ };

    ghost view = { λ n. n.value };

    ghost invariant = { λ n. n.value < 2 ^ 24 };

    ghost inverse = { λ n. record { value = n } };
}

impl Number24 {
    /// How many numbers there are.
    pub const MODULUS: u32 = 1 << 24;

    /// The number 0, which the first message of an epoch has.
    pub fn zero() -> Number24
        ensures { result ≡ 0 }
    {
        Number24 { value: 0 }
    }

    /// The number of this value, if it has at most 24 bits.
    pub fn new(value: u32) -> Option<Number24>
        ensures fits { IsSome result ↔ (value < 2 ^ 24) }
        ensures value { IfSome result (λ number. number ≡ value) }
    {
        if value < Number24::MODULUS {
            Some(Number24 { value })
        } else {
            None
        }
    }

    /// The number's value, 0 to 16,777,215.
    pub fn value(self) -> u32
        ensures value { result ≡ self }
        ensures fits { self < 2 ^ 24 }
    {
        self.value
    }

    /// The number in three octets, most significant first.
    pub fn from_be_bytes(octets: [u8; 3]) -> Number24
        ensures number { result ≡ number_of octets }
        ensures back { three_octets result ≡ octets }
        ensures fits { result < 2 ^ 24 }
    {
        let [high, middle, low] = octets;
        Number24 {
            value: u32::from_be_bytes([0, high, middle, low]),
        }
    }

    /// The number's three octets, most significant first.
    pub fn to_be_bytes(self) -> [u8; 3]
        ensures octets { result ≡ three_octets self }
        ensures back { number_of result ≡ self }
        ensures fits { self < 2 ^ 24 }
    {
        let [_, high, middle, low] = self.value.to_be_bytes();
        [high, middle, low]
    }

    /// The number in four octets, most significant first, of which the first is 0.
    pub fn to_four_octets(self) -> [u8; 4]
        ensures octets { result ≡ 0 ∷ three_octets self }
        ensures fits { self < 2 ^ 24 }
    {
        self.value.to_be_bytes()
    }

    /// The number in the last three of four octets, most significant first. The first octet may be any.
    pub fn from_four_octets(octets: [u8; 4]) -> Number24
        ensures number { result ≡ number_of (drop 1 octets) }
        ensures fits { result < 2 ^ 24 }
    {
        Number24 {
            value: u32::from_be_bytes(octets) % Number24::MODULUS,
        }
    }

    /// The number before this one; before 0 comes the last.
    pub fn previous(self) -> Number24
        ensures number { result ≡ previous_number self }
        ensures back { next_number result ≡ self }
    {
        Number24 {
            value: (self.value + Number24::MODULUS - 1) % Number24::MODULUS,
        }
    }
}

/// The number after this one; after the last comes 0.
pub fn next(number: Number24) -> Number24
    ensures number { result ≡ next_number number }
    ensures back { previous_number result ≡ number }
{
    Number24 {
        value: (number.value + 1) % Number24::MODULUS,
    }
}

/// How many times `next` leads from one number to the other, 0 to 16,777,215.
pub fn distance(from: Number24, to: Number24) -> u32
    ensures steps { result ≡ steps_between from to }
    ensures leads { (from + result) % 2 ^ 24 ≡ to }
    ensures fits { result < 2 ^ 24 }
{
    (to.value + Number24::MODULUS - from.value) % Number24::MODULUS
}

/// Whether `next` meets x on the way from low to high, both ends included.
pub fn within(low: Number24, high: Number24, x: Number24) -> bool
    ensures test { result ≡ is_within low high x }
    ensures steps { IsTrue result ↔ (steps_between low x ≤ steps_between low high) }
{
    distance(low, x) <= distance(low, high)
}
