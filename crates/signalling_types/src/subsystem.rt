//! Subsystems of SCCP by number.

ghost use Rattle.std.specs.Prelude.{◌≡◌, ℕ, ◌^◌, ◌<◌, ◌≤◌, ◌↔◌, IsSome, IfSome};

use std::marker::Model;

/// A subsystem number: 1 to 255 (Q.713 §3.4.2.2).
#[derive(Clone, Copy, PartialEq, Eq)]
pub struct Ssn {
    number: u8,
}

impl Model for Ssn {
    ghost use Rattle.std.specs.Prelude.{ℕ, ◌^◌, ◌<◌, ◌≤◌};

    ghost Value = { ℕ };

    ghost view = { λ s. s.number };

    ghost invariant = { λ s. (1 ≤ s.number) × (s.number < 2 ^ 8) };

    ghost inverse = { λ n. record { number = n } };
}

impl Ssn {
    /// The subsystem of this number, or `None` for 0.
    pub fn new(number: u8) -> Option<Ssn>
        ensures known { IsSome result ↔ (1 ≤ number) }
        ensures value { IfSome result (λ ssn. ssn ≡ number) }
    {
        if number == 0 {
            None
        } else {
            Some(Ssn { number })
        }
    }

    /// The subsystem's number.
    pub fn number(self) -> u8
        ensures value { result ≡ self }
        ensures above { 1 ≤ self }
        ensures fits { self < 2 ^ 8 }
    {
        self.number
    }
}
