//! Messages rewritten.

ghost use Rattle.std.specs.Prelude.{◌≡◌, ◌≤◌, Some, None, IfSome, if◌then◌else◌};
ghost use Rattle.sccp_codec.specs.ExtendedValues.{extended_of};
ghost use Rattle.sccp_codec.specs.Values.{address_of, parts_value};
ghost use Rattle.sccp_relay.specs.Relay as rule;
ghost use Rattle.sccp_relay.specs.Sccp.{Extended, with_new_parts, lowered};
ghost use Rattle.sccp_relay.specs.Values.{made_or, sccp_of, written_in};

use crate::changing::TitleOctets;
use crate::message::{Message, lowered_hops};
use mtp3_codec::Label;
use sccp_codec::{Address, ExtendedUnitdata, Field, Parts, Routing, Udt, Udts, Unitdata};
use settings::{TitleRoute, TitleRow};
use signalling_types::{Limits, PointCode, Ssn};

/// Writes a message for another point with these parts at the front of the field, after a label from this one with the
/// same link selection, and returns how many octets it has. Its hop counter is one lower. None if it would be too long.
pub(crate) fn write_lowered(
    point: PointCode,
    own: PointCode,
    label: Label,
    message: &Message<'_>,
    parts: &Parts<'_>,
    field: &mut Field,
) -> Option<usize>
    ensures text { written_in result field.new ≡ rule.written point own label
        (with_new_parts (lowered (sccp_of message.now)) (parts_value parts.now)) }
    ensures label { IfSome result (λ count. 4 ≤ count) }
    ensures fits { IfSome result (λ count. count ≤ Limits.SIF_OCTETS) }
{
    let label = label_to(point, own, label).write();
    let written = match message {
        Message::Plain(Unitdata::Udt(udt)) => {
            let udt = Udt {
                class_octet: udt.class_octet,
                parts: same_parts(parts),
            };
            udt.write(label, field)
        }
        Message::Plain(Unitdata::Udts(udts)) => {
            let udts = Udts {
                return_cause: udts.return_cause,
                parts: same_parts(parts),
            };
            udts.write(label, field)
        }
        Message::Extended(extended) => lowered(extended, parts).write(label, field),
    };
    written.ok()
}

/// An extended message with these parts, and its hop counter one lower.
fn lowered<'a>(extended: &'a ExtendedUnitdata<'_>, parts: &'a Parts<'_>) -> ExtendedUnitdata<'a>
    ensures { Extended (extended_of result)
        ≡ with_new_parts (lowered (Extended (extended_of extended.now))) (parts_value parts.now) }
{
    ExtendedUnitdata {
        kind: extended.kind,
        hop_counter: lowered_hops(extended),
        parts: Parts {
            called: anew(&parts.called),
            calling: anew(&parts.calling),
            data: parts.data,
        },
        optional: extended.optional,
    }
}

/// The label of a message from this point to another, which keeps the link selection.
pub(crate) fn label_to(point: PointCode, own: PointCode, label: Label) -> Label
    ensures { result ≡ rule.label_to point own label }
{
    Label {
        dpc: point,
        opc: own,
        sls: label.sls,
    }
}

/// The subsystem number at the point that a row leads to: that of the row, if it has one, else that of the address, if
/// it has one (Q.714 §2.4).
pub(crate) fn ssn_by(route: TitleRoute, ssn: Option<u8>) -> Option<u8>
    ensures { result ≡ rule.ssn_by route ssn }
{
    match route {
        TitleRoute::Title(other) => number_or(other, ssn),
        TitleRoute::Ssn(other) => Some(other.number()),
    }
}

/// The number of a subsystem, if there is one, else the other.
fn number_or(ssn: Option<Ssn>, other: Option<u8>) -> Option<u8>
    ensures { result ≡ rule.number_or ssn other }
{
    match ssn {
        Some(ssn) => Some(ssn.number()),
        None => other,
    }
}

/// What an address is routed by at that point.
fn routing_by(route: TitleRoute) -> Routing
    ensures { result ≡ rule.routing_by route }
{
    match route {
        TitleRoute::Title(_) => Routing::Title,
        TitleRoute::Ssn(_) => Routing::Ssn,
    }
}

/// The called address, as a row leads it on with these octets as its title, or without any with its own: it no longer
/// names a point.
pub(crate) fn led<'a>(
    row: &TitleRow,
    address: &'a Address<'_>,
    changed: &'a Option<TitleOctets>,
) -> Address<'a>
    ensures { address_of result ≡ rule.led row.now (address_of address.now)
        (made_or address.now.title.now (λ octets. octets.items) changed.now) }
{
    Address {
        national: address.national,
        routing: routing_by(row.route()),
        point: None,
        ssn: ssn_by(row.route(), address.ssn),
        title_indicator: address.title_indicator,
        title: title_or(address.title, changed),
    }
}

/// The octets that were made, or else these.
fn title_or<'a>(came: &'a [u8], changed: &'a Option<TitleOctets>) -> &'a [u8]
    ensures { result.now ≡ made_or came.now (λ octets. octets.items) changed.now }
{
    match changed {
        Some(octets) => octets.as_slice(),
        None => came,
    }
}

pub(crate) fn same<'a>(address: &Address<'a>) -> Address<'a>
    ensures { address_of result ≡ address_of address.now }
{
    Address {
        point: address.point,
        ..*address
    }
}

/// The same address, for as long as it is lent.
pub(crate) fn anew<'a>(address: &'a Address<'_>) -> Address<'a>
    ensures { address_of result ≡ address_of address.now }
{
    Address {
        national: address.national,
        routing: address.routing,
        point: address.point,
        ssn: address.ssn,
        title_indicator: address.title_indicator,
        title: address.title,
    }
}

pub(crate) fn same_parts<'a>(parts: &Parts<'a>) -> Parts<'a>
    ensures { parts_value result ≡ parts_value parts.now }
{
    Parts {
        called: same(&parts.called),
        calling: same(&parts.calling),
        data: parts.data,
    }
}
