//! The message that returns another: a UDTS, or an XUDTS.

ghost use Rattle.std.specs.Prelude.{◌≡◌, ◌≤◌, ◌++◌, [], length, IsSome, IfSome, Some, None, unwrap_or, Ok};
ghost use Rattle.sccp_codec.specs.Extended.{first_named, read_parameters};
ghost use Rattle.sccp_codec.specs.ExtendedValues.{extended_of, parameters_of};
ghost use Rattle.sccp_codec.specs.Values.{address_of, parts_value};
ghost use Rattle.sccp_relay.specs.Returning as rule;
ghost use Rattle.sccp_relay.specs.Points.{point_by};
ghost use Rattle.sccp_relay.specs.Relay.{translated};
ghost use Rattle.sccp_relay.specs.Sccp.{sccp_parts};
ghost use Rattle.sccp_relay.specs.Values.{four_octets, one_octet, own_value, sccp_of, written_in};

use crate::Titles;
use crate::changing::changed_title;
use crate::message::{MAX_HOPS, Message};
use crate::own::{Own, Ways};
use crate::relaying::{behind_label, open_row};
use crate::subsystem::Subsystem;
use crate::writing::{anew, label_to, led, same, same_parts};
use mtp3_codec::Label;
use sccp_codec::{
    Address, ExtendedKind, ExtendedUnitdata, Field, OptionalPart, Parts, Routing, Udts,
};
use settings::TitleRow;
use signalling_types::{Cause, Limits, PointCode};

/// The name of segmentation, which has four octets (Q.713 §3.17).
const SEGMENTATION: u8 = 0x10;

/// The name of importance, which has one octet (Q.713 §3.19).
const IMPORTANCE: u8 = 0x12;

/// The name that ends optional parameters (Q.713 §3.1).
const END: u8 = 0;

/// Octets of segmentation and importance, each after its name and its length, and of the end.
const KEPT_OCTETS: usize = 2 + 4 + 2 + 1 + 1;

/// Writes the message that returns that of this signalling information field, which came for this point and was refused
/// for this cause: a UDTS for a UDT, an XUDTS for an XUDT where these are relayed. It is written at the front of the
/// field that is lent, each octet once. Returns how many octets it has. Its addresses are those of the message,
/// exchanged; a called address by title is translated as in a relayed message. An XUDTS has hop counter 15, and of the
/// optional parameters the first segmentation and the first importance. If nothing is returned, the field that is lent
/// may hold anything (Q.714 §4.2).
///
/// None if the message is neither a UDT nor an XUDT, or doesn't ask for a return on error; if the cause is none of
/// NoNature, NoDigits, SubsystemProhibited, Unequipped, HopCounter, UnknownDestination, NoRoute and TooLong; and if
/// what returns it would go to this point or to a prohibited subsystem, finds no translation, or would be too long.
#[tactic(auto, unfolding(crate::specs::Returning::returned))]
pub fn returned<W: Ways>(
    sif: &[u8],
    cause: Cause,
    titles: &Titles,
    own: &Own<'_, W>,
    field: &mut Field,
) -> Option<usize>
    requires label { 4 ≤ length sif.now }
    ensures exact { written_in result field.new ≡ rule.returned (own_value W.leads own.now) titles.now sif.now cause }
    ensures label { IfSome result (λ count. 4 ≤ count) }
    ensures fits { IfSome result (λ count. count ≤ Limits.SIF_OCTETS) }
{
    let label = Label::at(sif);
    let number = return_cause(cause)?;
    match Message::read(own.extended, behind_label(sif)) {
        Ok(message) => return_read(&message, number, label, titles, own, field),
        Err(_) => None,
    }
}

/// The return cause (Q.713 §3.12); nothing is returned for any other refusal.
fn return_cause(cause: Cause) -> Option<u8>
    ensures { result ≡ rule.return_cause cause }
{
    match cause {
        Cause::NoNature => Some(0),
        Cause::NoDigits => Some(1),
        Cause::SubsystemProhibited => Some(3),
        Cause::Unequipped => Some(4),
        Cause::UnknownDestination | Cause::NoRoute => Some(5),
        Cause::TooLong => Some(7),
        Cause::HopCounter => Some(12),
        _ => None,
    }
}

/// A message that asks for it is returned with this return cause.
fn return_read<W: Ways>(
    message: &Message<'_>,
    number: u8,
    label: Label,
    titles: &Titles,
    own: &Own<'_, W>,
    field: &mut Field,
) -> Option<usize>
    ensures text { written_in result field.new
        ≡ rule.return_read (own_value W.leads own.now) titles.now label (Some number) (Ok (sccp_of message.now)) }
    ensures label { IfSome result (λ count. 4 ≤ count) }
    ensures fits { IfSome result (λ count. count ≤ Limits.SIF_OCTETS) }
{
    if message.asks_for_return() {
        return_by(number, message, label, titles, own, field)
    } else {
        None
    }
}

/// It goes to the address that called. By subsystem number that is the point that it names, else the point that the
/// message came from; by title it is where a row leads.
fn return_by<W: Ways>(
    number: u8,
    message: &Message<'_>,
    label: Label,
    titles: &Titles,
    own: &Own<'_, W>,
    field: &mut Field,
) -> Option<usize>
    ensures text { written_in result field.new ≡ rule.return_by (sccp_parts (sccp_of message.now)).calling.routing
        (own_value W.leads own.now) titles.now label number (sccp_of message.now) }
    ensures label { IfSome result (λ count. 4 ≤ count) }
    ensures fits { IfSome result (λ count. count ≤ Limits.SIF_OCTETS) }
{
    let parts = message.parts();
    let caller = &parts.calling;
    if caller.routing == Routing::Ssn {
        let point = caller.point.unwrap_or(label.opc);
        return return_by_number(point, own.point, label, number, message, titles, field);
    }
    match open_row(caller, None, label.sls, titles, own) {
        Ok(row) => return_led(number, message, &row, label, titles, own, field),
        Err(_) => None,
    }
}

/// It goes to the subsystem that called, at this point, unless that is prohibited there.
fn return_by_number(
    point: PointCode,
    own: PointCode,
    label: Label,
    number: u8,
    message: &Message<'_>,
    titles: &Titles,
    field: &mut Field,
) -> Option<usize>
    ensures text { written_in result field.new
        ≡ rule.return_by_number own titles.now.prohibited label number (sccp_of message.now) point }
    ensures label { IfSome result (λ count. 4 ≤ count) }
    ensures fits { IfSome result (λ count. count ≤ Limits.SIF_OCTETS) }
{
    let parts = message.parts();
    if is_kept_off(point, parts.calling.ssn, titles) {
        return None;
    }
    return_to(point, own, label, number, message, &sent_back(parts), field)
}

/// Whether the subsystem of this number is prohibited at a point; without a number none is.
fn is_kept_off(point: PointCode, ssn: Option<u8>, titles: &Titles) -> bool
    ensures { result ≡ rule.is_kept_off titles.now.prohibited point ssn }
{
    match ssn {
        Some(ssn) => titles.is_prohibited(&Subsystem { point, ssn }),
        None => false,
    }
}

/// It goes to the point that a row leads to, which leads the address that called on.
fn return_led<W: Ways>(
    number: u8,
    message: &Message<'_>,
    row: &TitleRow,
    label: Label,
    titles: &Titles,
    own: &Own<'_, W>,
    field: &mut Field,
) -> Option<usize>
    ensures text { written_in result field.new ≡ rule.return_led (own_value W.leads own.now) label number
        (sccp_of message.now) (point_by (own_value W.leads own.now) titles.now.prohibited None label.sls row.now)
        (translated row.now (sccp_parts (sccp_of message.now)).calling) }
    ensures label { IfSome result (λ count. 4 ≤ count) }
    ensures fits { IfSome result (λ count. count ≤ Limits.SIF_OCTETS) }
{
    let came = message.parts();
    let Ok(changed) = changed_title(row, &came.calling) else {
        return None;
    };
    let parts = Parts {
        called: led(row, &came.calling, &changed),
        calling: same(&came.called),
        data: came.data,
    };
    let point = own.point_by(row, None, label.sls, titles);
    return_to(point, own.point, label, number, message, &parts, field)
}

/// The parts, sent back: to the address that called, from the one that was called.
fn sent_back<'a>(parts: &Parts<'a>) -> Parts<'a>
    ensures { parts_value result ≡ rule.sent_back (parts_value parts.now) }
{
    Parts {
        called: same(&parts.calling),
        calling: same(&parts.called),
        data: parts.data,
    }
}

/// What returns a message, with these parts, is written to another point.
fn return_to(
    point: PointCode,
    own: PointCode,
    label: Label,
    number: u8,
    message: &Message<'_>,
    parts: &Parts<'_>,
    field: &mut Field,
) -> Option<usize>
    ensures text { written_in result field.new ≡ rule.return_to own label point
        (rule.service number (sccp_of message.now) (parts_value parts.now)) }
    ensures label { IfSome result (λ count. 4 ≤ count) }
    ensures fits { IfSome result (λ count. count ≤ Limits.SIF_OCTETS) }
{
    if point == own {
        return None;
    }
    let label = label_to(point, own, label).write();
    let written = match message {
        Message::Plain(_) => {
            let udts = Udts {
                return_cause: number,
                parts: same_parts(parts),
            };
            udts.write(label, field)
        }
        Message::Extended(extended) => {
            let octets = kept_octets(&extended.optional);
            xudts(number, parts, &octets).write(label, field)
        }
    };
    written.ok()
}

/// An XUDTS with these parts, and the optional parameters at the front of these octets.
fn xudts<'a>(number: u8, parts: &'a Parts<'_>, octets: &'a [u8]) -> ExtendedUnitdata<'a>
    requires { IsSome (read_parameters octets.now) }
    ensures { extended_of result
        ≡ rule.xudts number (parts_value parts.now) (unwrap_or (read_parameters octets.now) []) }
{
    ExtendedUnitdata {
        kind: ExtendedKind::Xudts(number),
        hop_counter: MAX_HOPS,
        parts: Parts {
            called: anew(&parts.called),
            calling: anew(&parts.calling),
            data: parts.data,
        },
        optional: OptionalPart::read(octets).unwrap(),
    }
}

/// The octets of the optional parameters that a returned message keeps, and their end.
fn kept_octets(optional: &OptionalPart<'_>) -> [u8; KEPT_OCTETS]
    ensures { read_parameters result ≡ Some (rule.returned_parameters (parameters_of optional.now)) }
{
    both_octets(segmentation(optional), importance(optional))
}

/// The four octets of the first segmentation.
fn segmentation(optional: &OptionalPart<'_>) -> Option<(u8, u8, u8, u8)>
    ensures { four_octets result ≡ first_named 16 (parameters_of optional.now) }
{
    if optional.octets().is_empty() {
        return None;
    }
    match optional.parameter(SEGMENTATION)? {
        [first, second, third, fourth] => Some((*first, *second, *third, *fourth)),
        _ => None,
    }
}

/// The octet of the first importance.
fn importance(optional: &OptionalPart<'_>) -> Option<u8>
    ensures { one_octet result ≡ first_named 18 (parameters_of optional.now) }
{
    if optional.octets().is_empty() {
        return None;
    }
    match optional.parameter(IMPORTANCE)? {
        [octet] => Some(*octet),
        _ => None,
    }
}

/// The octets of a segmentation and an importance, if there are these, and their end.
fn both_octets(segmentation: Option<(u8, u8, u8, u8)>, importance: Option<u8>) -> [u8; KEPT_OCTETS]
    ensures { read_parameters result
        ≡ Some (rule.parameter_of 16 (four_octets segmentation) ++ rule.parameter_of 18 (one_octet importance)) }
{
    match (segmentation, importance) {
        (Some((a, b, c, d)), Some(e)) => [SEGMENTATION, 4, a, b, c, d, IMPORTANCE, 1, e, END],
        (Some((a, b, c, d)), None) => [SEGMENTATION, 4, a, b, c, d, END, END, END, END],
        (None, Some(e)) => [IMPORTANCE, 1, e, END, END, END, END, END, END, END],
        (None, None) => [END; KEPT_OCTETS],
    }
}
