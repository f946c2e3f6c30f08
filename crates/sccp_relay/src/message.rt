//! The messages of SCCP without a connection.

ghost use Rattle.std.specs.Prelude.{◌≡◌, ◌-◌};
ghost use Rattle.sccp_codec.specs.Values.{parts_value, Gives};
ghost use Rattle.sccp_relay.specs.Sccp as rule;
ghost use Rattle.sccp_relay.specs.Values.{sccp_of};

use sccp_codec::{ExtendedKind, ExtendedUnitdata, Parts, SccpFault, Unitdata};

/// The message type of extended unitdata (Q.713 §2.1).
const XUDT: u8 = 0x11;

/// The message type of extended unitdata service (Q.713 §2.1).
const XUDTS: u8 = 0x12;

/// The highest protocol class without a connection (Q.713 §3.6).
const LAST_CONNECTIONLESS_CLASS: u8 = 1;

/// The message handling that asks for a return on error (Q.713 §3.6).
const RETURN_ON_ERROR: u8 = 8;

/// The most hops that a hop counter says (Q.713 §3.18).
pub(crate) const MAX_HOPS: u8 = 15;

/// A message without a connection.
#[derive(Clone, Copy)]
pub(crate) enum Message<'a> {
    /// A UDT or a UDTS.
    Plain(Unitdata<'a>),
    /// An XUDT or an XUDTS.
    Extended(ExtendedUnitdata<'a>),
}

impl<'a> Message<'a> {
    /// The message that octets are, or their first fault, where extended messages are relayed or not.
    pub(crate) fn read(extended: bool, octets: &'a [u8]) -> Result<Message<'a>, SccpFault>
        ensures { Gives sccp_of result (rule.read_sccp extended octets.now) }
    {
        if extended && is_extended(octets) {
            match ExtendedUnitdata::read(octets) {
                Ok(extended) => Ok(Message::Extended(extended)),
                Err(fault) => Err(fault),
            }
        } else {
            match Unitdata::read(octets) {
                Ok(unitdata) => Ok(Message::Plain(unitdata)),
                Err(fault) => Err(fault),
            }
        }
    }

    /// Its addresses and its data.
    pub(crate) fn parts(&self) -> &Parts<'a>
        ensures { parts_value result.now ≡ rule.sccp_parts (sccp_of self.now) }
    {
        match self {
            Message::Plain(Unitdata::Udt(udt)) => &udt.parts,
            Message::Plain(Unitdata::Udts(udts)) => &udts.parts,
            Message::Extended(extended) => &extended.parts,
        }
    }

    /// Whether it asks for no connection: a UDT or an XUDT of a class above 1 does.
    pub(crate) fn is_connectionless(&self) -> bool
        ensures { result ≡ rule.is_connectionless (sccp_of self.now) }
    {
        match self {
            Message::Plain(Unitdata::Udt(udt)) => is_class_connectionless(udt.class_octet),
            Message::Plain(Unitdata::Udts(_)) => true,
            Message::Extended(extended) => match extended.kind {
                ExtendedKind::Xudt(class_octet) => is_class_connectionless(class_octet),
                ExtendedKind::Xudts(_) => true,
            },
        }
    }

    /// Whether it asks to be returned on error: a UDT or an XUDT may.
    pub(crate) fn asks_for_return(&self) -> bool
        ensures { result ≡ rule.asks_for_return (sccp_of self.now) }
    {
        match self {
            Message::Plain(Unitdata::Udt(udt)) => is_class_returned(udt.class_octet),
            Message::Plain(Unitdata::Udts(_)) => false,
            Message::Extended(extended) => match extended.kind {
                ExtendedKind::Xudt(class_octet) => is_class_returned(class_octet),
                ExtendedKind::Xudts(_) => false,
            },
        }
    }

    /// Whether the hop counter of an extended message is 1 to 15.
    pub(crate) fn has_valid_hops(&self) -> bool
        ensures { result ≡ rule.has_valid_hops (sccp_of self.now) }
    {
        match self {
            Message::Plain(_) => true,
            Message::Extended(extended) => (1..=MAX_HOPS).contains(&extended.hop_counter),
        }
    }

    /// Whether a translation lowers the hop counter of an extended message to 0.
    pub(crate) fn is_at_last_hop(&self) -> bool
        ensures { result ≡ rule.is_spent (rule.lowered (sccp_of self.now)) }
    {
        match self {
            Message::Plain(_) => false,
            Message::Extended(extended) => lowered_hops(extended) == 0,
        }
    }
}

/// The hop counter after a translation: one lower.
pub(crate) fn lowered_hops(extended: &ExtendedUnitdata<'_>) -> u8
    ensures { result ≡ extended.now.hop_counter - 1 }
{
    extended.hop_counter.saturating_sub(1)
}

/// Whether octets begin with the message type of an extended message.
fn is_extended(octets: &[u8]) -> bool
    ensures { result ≡ rule.is_extended octets.now }
{
    let [kind, ..] = *octets else {
        return false;
    };
    kind == XUDT || kind == XUDTS
}

fn is_class_connectionless(class_octet: u8) -> bool
    ensures { result ≡ rule.is_class_connectionless class_octet }
{
    class_octet % 16 <= LAST_CONNECTIONLESS_CLASS
}

fn is_class_returned(class_octet: u8) -> bool
    ensures { result ≡ rule.is_class_returned class_octet }
{
    class_octet / 16 == RETURN_ON_ERROR
}
