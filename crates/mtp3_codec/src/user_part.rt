//! User parts.

ghost use Rattle.std.specs.Prelude.{◌≡◌, ℕ, ◌%◌, ◌^◌, ◌<◌};

use std::marker::Model;

/// A user part, by the service indicator of its messages: four bits (Q.704 §14.2.1).
#[derive(Clone, Copy, Debug, PartialEq, Eq)]
pub struct UserPart {
    number: u8,
}

impl Model for UserPart {
    ghost Value = { ℕ };

    ghost view = { λ u. u.number };

    ghost invariant = { λ u. u.number < 2 ^ 4 };

    ghost inverse = { λ n. record { number = n } };
}

impl UserPart {
    /// The user part of an octet's low half, which is where a service information octet has its service indicator.
    pub fn of_low_half(octet: u8) -> UserPart
        ensures { result ≡ octet % 16 }
    {
        UserPart { number: octet % 16 }
    }

    /// The service indicator.
    pub fn number(self) -> u8
        ensures value { result ≡ self }
        ensures fits { self < 2 ^ 4 }
    {
        self.number
    }
}
