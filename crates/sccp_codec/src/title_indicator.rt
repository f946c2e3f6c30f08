//! What the title of an address is made of.

ghost use Rattle.std.specs.Prelude.{◌≡◌, ℕ, ◌/◌, ◌%◌, ◌^◌, ◌<◌, ◌↔◌, IsSome, IfSome};

use std::marker::Model;

/// What the global title of an address is made of, 0 to 15: 0 if there is none, 4 if it has a
/// translation type, a numbering plan, an encoding scheme and a nature of address (Q.713 §3.4.1).
#[derive(Clone, Copy, PartialEq, Eq)]
pub struct TitleIndicator {
    number: u8,
}

impl Model for TitleIndicator {
    ghost Value = { ℕ };

    ghost view = { λ t. t.number };

    ghost invariant = { λ t. t.number < 2 ^ 4 };

    ghost inverse = { λ n. record { number = n } };
}

impl TitleIndicator {
    /// The indicator of this number, if it has at most four bits.
    pub fn new(number: u8) -> Option<TitleIndicator>
        ensures fits { IsSome result ↔ (number < 2 ^ 4) }
        ensures value { IfSome result (λ indicator. indicator ≡ number) }
    {
        if number < 1 << 4 {
            Some(TitleIndicator { number })
        } else {
            None
        }
    }

    /// The indicator's number.
    pub fn number(self) -> u8
        ensures value { result ≡ self }
        ensures fits { self < 2 ^ 4 }
    {
        self.number
    }

    /// The indicator in the indicator octet of an address: its bits 2 to 5.
    pub(crate) fn of_octet(octet: u8) -> TitleIndicator
        ensures { result ≡ octet / 4 % 16 }
    {
        TitleIndicator {
            number: octet / 4 % 16,
        }
    }
}
