//! Points, links, link sets and flows by number.

ghost use Rattle.std.specs.Prelude.{◌≡◌, ℕ, ◌%◌, ◌^◌, ◌<◌, ◌↔◌, IsSome, IfSome};

use std::marker::Model;

/// A signalling point code of the international network: 14 bits (Q.704 §2.2.3).
#[derive(Clone, Copy, Debug, PartialEq, Eq, Hash)]
pub struct PointCode {
    code: u16,
}

impl Model for PointCode {
    ghost Value = { ℕ };

    ghost view = { λ p. p.code };

    ghost invariant = { λ p. p.code < 2 ^ 14 };

    ghost inverse = { λ n. record { code = n } };
}

impl PointCode {
    /// The point of this number, if it has at most 14 bits.
    pub fn new(code: u16) -> Option<PointCode>
        ensures fits { IsSome result ↔ (code < 2 ^ 14) }
        ensures value { IfSome result (λ point. point ≡ code) }
    {
        if code < 1 << 14 {
            Some(PointCode { code })
        } else {
            None
        }
    }

    /// The point of a number's low 14 bits. The bits above them are left out.
    #[inline(always)]
    pub fn of_low_bits(number: u32) -> PointCode
        ensures { result ≡ number % 2 ^ 14 }
    {
        PointCode {
            code: (number % (1 << 14)) as u16,
        }
    }

    /// The point's number.
    pub fn code(self) -> u16
        ensures value { result ≡ self }
        ensures fits { self < 2 ^ 14 }
    {
        self.code
    }
}

/// A signalling link selection: four bits (Q.704 §2.2.4).
#[derive(Clone, Copy, Debug, PartialEq, Eq, Hash)]
pub struct Sls {
    number: u8,
}

impl Model for Sls {
    ghost Value = { ℕ };

    ghost view = { λ s. s.number };

    ghost invariant = { λ s. s.number < 2 ^ 4 };

    ghost inverse = { λ n. record { number = n } };
}

impl Sls {
    /// The selection of this number, if it has at most four bits.
    pub fn new(number: u8) -> Option<Sls>
        ensures fits { IsSome result ↔ (number < 2 ^ 4) }
        ensures value { IfSome result (λ sls. sls ≡ number) }
    {
        if number < 1 << 4 {
            Some(Sls { number })
        } else {
            None
        }
    }

    /// The selection of a number's low four bits. The bits above them are left out.
    #[inline(always)]
    pub fn of_low_bits(number: u32) -> Sls
        ensures { result ≡ number % 2 ^ 4 }
    {
        Sls {
            number: (number % (1 << 4)) as u8,
        }
    }

    /// The selection's number.
    pub fn number(self) -> u8
        ensures value { result ≡ self }
        ensures fits { self < 2 ^ 4 }
    {
        self.number
    }
}

/// A link, by its number in the order of the settings, from 0. It may name no link of a node.
#[derive(Clone, Copy, Debug, Default, PartialEq, Eq, Hash)]
pub struct LinkId {
    number: u8,
}

impl Model for LinkId {
    ghost Value = { ℕ };

    ghost view = { λ l. l.number };

    ghost invariant = { λ l. l.number < 2 ^ 8 };

    ghost inverse = { λ n. record { number = n } };
}

impl LinkId {
    /// The link of this number.
    pub fn new(number: u8) -> LinkId
        ensures { result ≡ number }
    {
        LinkId { number }
    }

    /// The link's number, as an index.
    pub fn index(self) -> usize
        ensures value { result ≡ self }
        ensures fits { self < 2 ^ 8 }
    {
        self.number as usize
    }
}

/// A link set, by its number in the order of the settings, from 0. It may name no set of a node.
#[derive(Clone, Copy, Default, PartialEq, Eq, Hash)]
pub struct SetId {
    number: u8,
}

impl Model for SetId {
    ghost Value = { ℕ };

    ghost view = { λ s. s.number };

    ghost invariant = { λ s. s.number < 2 ^ 8 };

    ghost inverse = { λ n. record { number = n } };
}

impl SetId {
    /// The set of this number.
    pub fn new(number: u8) -> SetId
        ensures { result ≡ number }
    {
        SetId { number }
    }

    /// The set's number, as an index.
    pub fn index(self) -> usize
        ensures value { result ≡ self }
        ensures fits { self < 2 ^ 8 }
    {
        usize::from(self.number)
    }
}

/// A flow: the messages to one destination with one signalling link selection, which keep their order.
#[derive(Clone, Copy, PartialEq, Eq, Hash)]
pub struct Flow {
    /// Where the messages go.
    pub point: PointCode,
    /// Their signalling link selection.
    pub sls: Sls,
}
