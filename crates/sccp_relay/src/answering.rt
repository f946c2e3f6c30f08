//! The answer to a test of a subsystem.

ghost use Rattle.std.specs.Prelude.{◌≡◌, ◌≤◌, IfSome, Some, None};
ghost use Rattle.sccp_codec.specs.Management.{management_of, read_management};
ghost use Rattle.sccp_codec.specs.Values.{address_of};
ghost use Rattle.sccp_relay.specs.Relay as rule;
ghost use Rattle.sccp_relay.specs.Values.{own_value, sccp_of, written_in};

use crate::message::Message;
use crate::own::{MANAGEMENT, Own, Ways};
use crate::writing::label_to;
use mtp3_codec::Label;
use sccp_codec::{
    Address, Field, ManagementKind, Parts, Routing, SubsystemManagement, TitleIndicator, Udt,
    Unitdata,
};
use signalling_types::{Limits, PointCode};

/// Writes the SSA that answers a message for this subsystem here at the front of the field that is lent, and returns
/// how many octets it has. None if the message is none to answer: a UDT for SCCP management with an SST about this
/// point and a subsystem that is here, from another point, where tests are answered (Q.714 §5.3.4).
pub(crate) fn answer<W: Ways>(
    message: &Message<'_>,
    ssn: Option<u8>,
    label: Label,
    own: &Own<'_, W>,
    field: &mut Field,
) -> Option<usize>
    ensures text { written_in result field.new
        ≡ rule.answer (own_value W.leads own.now) label (sccp_of message.now) ssn }
    ensures label { IfSome result (λ count. 4 ≤ count) }
    ensures fits { IfSome result (λ count. count ≤ Limits.SIF_OCTETS) }
{
    let Message::Plain(Unitdata::Udt(udt)) = message else {
        return None;
    };
    if own.answers_tests && is_management(ssn) {
        answer_to(udt.parts.data, label, own, field)
    } else {
        None
    }
}

/// Whether a subsystem number is that of SCCP management.
pub(crate) fn is_management(ssn: Option<u8>) -> bool
    ensures { result ≡ rule.is_management ssn }
{
    match ssn {
        Some(ssn) => ssn == MANAGEMENT,
        None => false,
    }
}

/// Writes the answer to these data of a UDT for SCCP management.
fn answer_to<W: Ways>(
    carried: &[u8],
    label: Label,
    own: &Own<'_, W>,
    field: &mut Field,
) -> Option<usize>
    ensures text { written_in result field.new
        ≡ rule.answer_to (own_value W.leads own.now) label (read_management carried.now) }
    ensures label { IfSome result (λ count. 4 ≤ count) }
    ensures fits { IfSome result (λ count. count ≤ Limits.SIF_OCTETS) }
{
    match SubsystemManagement::read(carried) {
        Ok(test) if is_answered(&test, label.opc, own) => write_allowed(&test, label, own, field),
        _ => None,
    }
}

/// Whether it is an SST about this point and a subsystem that is here, and another point sent it.
fn is_answered<W: Ways>(test: &SubsystemManagement, sender: PointCode, own: &Own<'_, W>) -> bool
    ensures { result ≡ rule.is_answered (own_value W.leads own.now) sender (management_of test.now) }
{
    is_test(test.kind)
        && test.point == own.point
        && own.is_equipped(Some(test.ssn))
        && sender != own.point
}

fn is_test(kind: ManagementKind) -> bool
    ensures { result ≡ rule.is_test kind }
{
    match kind {
        ManagementKind::SubsystemAllowed | ManagementKind::SubsystemProhibited => false,
        ManagementKind::SubsystemStatusTest => true,
    }
}

/// Writes an SSA about the subsystem of a test to SCCP management at the point that sent the test.
fn write_allowed<W: Ways>(
    test: &SubsystemManagement,
    label: Label,
    own: &Own<'_, W>,
    field: &mut Field,
) -> Option<usize>
    ensures text { written_in result field.new
        ≡ rule.written label.opc own.now.point label (rule.allowed (management_of test.now)) }
    ensures label { IfSome result (λ count. 4 ≤ count) }
    ensures fits { IfSome result (λ count. count ≤ Limits.SIF_OCTETS) }
{
    let allowed = SubsystemManagement {
        kind: ManagementKind::SubsystemAllowed,
        multiplicity: 0,
        ..*test
    };
    write_said(label.opc, own.point, label, &allowed, field)
}

/// Writes what SCCP management of this point says to that of another one, in a UDT of class 0, at the front of the
/// field, after a label with the same link selection as this one, and returns how many octets it has.
pub(crate) fn write_said(
    point: PointCode,
    own: PointCode,
    label: Label,
    about: &SubsystemManagement,
    field: &mut Field,
) -> Option<usize>
    ensures text { written_in result field.new
        ≡ rule.written point own label (rule.said (management_of about.now)) }
    ensures label { IfSome result (λ count. 4 ≤ count) }
    ensures fits { IfSome result (λ count. count ≤ Limits.SIF_OCTETS) }
{
    let octets = about.write();
    let udt = Udt {
        class_octet: 0,
        parts: Parts {
            called: management_address(),
            calling: management_address(),
            data: &octets,
        },
    };
    udt.write(label_to(point, own, label).write(), field).ok()
}

/// The address of SCCP management: its subsystem number alone.
fn management_address() -> Address<'static>
    ensures { address_of result ≡ rule.management_address }
{
    Address {
        national: false,
        routing: Routing::Ssn,
        point: None,
        ssn: Some(MANAGEMENT),
        title_indicator: TitleIndicator::new(0).unwrap(),
        title: &[],
    }
}
