//! Unitdata messages.

ghost use Rattle.std.specs.Prelude.{◌≡◌, ◌/◌, ◌%◌, ◌==◌};
ghost use Rattle.sccp_codec.specs.Messages.{parts_of};
ghost use Rattle.sccp_codec.specs.Values.{parts_value, unitdata_of};

use crate::address::Address;

/// The parts that a UDT and a UDTS share: slices of the message.
#[derive(Clone, Copy, PartialEq, Eq)]
pub struct Parts<'a> {
    /// Where the message goes (Q.713 §3.4).
    pub called: Address<'a>,
    /// Where it comes from (Q.713 §3.5).
    pub calling: Address<'a>,
    /// What it carries (Q.713 §3.16).
    pub data: &'a [u8],
}

/// A unitdata message (Q.713 §4.10).
#[derive(Clone, Copy, PartialEq, Eq)]
pub struct Udt<'a> {
    /// The octet of the protocol class: the class in its low half, the message handling in its high
    /// half (Q.713 §3.6).
    pub class_octet: u8,
    /// Its addresses and data.
    pub parts: Parts<'a>,
}

impl Udt<'_> {
    /// The protocol class, 0 to 15.
    pub fn class(&self) -> u8
        ensures { result ≡ self.now.class_octet % 16 }
    {
        self.class_octet % 16
    }

    /// Whether the message is to be returned if it can't be delivered (Q.713 §3.6).
    pub fn returns_on_error(&self) -> bool
        ensures { result ≡ (self.now.class_octet / 16 == 8) }
    {
        self.class_octet / 16 == RETURN_ON_ERROR
    }
}

/// The message handling that asks for a return on error (Q.713 §3.6).
const RETURN_ON_ERROR: u8 = 8;

/// A unitdata service message, which returns a unitdata message that couldn't be delivered
/// (Q.713 §4.11).
#[derive(Clone, Copy, PartialEq, Eq)]
pub struct Udts<'a> {
    /// Why it couldn't be delivered (Q.713 §3.12).
    pub return_cause: u8,
    /// Its addresses and data.
    pub parts: Parts<'a>,
}

/// A message of the connectionless service.
#[derive(Clone, Copy, PartialEq, Eq)]
pub enum Unitdata<'a> {
    /// A UDT.
    Udt(Udt<'a>),
    /// A UDTS.
    Udts(Udts<'a>),
}

impl Unitdata<'_> {
    /// The addresses and the data.
    pub fn parts(&self) -> &Parts<'_>
        ensures { parts_value result.now ≡ parts_of (unitdata_of self.now) }
    {
        match self {
            Unitdata::Udt(udt) => &udt.parts,
            Unitdata::Udts(udts) => &udts.parts,
        }
    }
}
