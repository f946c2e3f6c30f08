//! A message for this point.

ghost use Rattle.std.specs.Prelude.{◌≡◌, ◌≤◌, length, drop, List, ℕ, Ok};
ghost use Rattle.mtp3_codec.specs.Headings.{label_at};
ghost use Rattle.sccp_codec.specs.Values.{address_of};
ghost use Rattle.sccp_relay.specs.Points.{unless_barred};
ghost use Rattle.sccp_relay.specs.Relay as rule;
ghost use Rattle.sccp_relay.specs.Sccp.{sccp_parts};
ghost use Rattle.sccp_relay.specs.Values.{own_value, relayed_of, sccp_of, IfOnward};

use crate::Titles;
use crate::answering::answer;
use crate::changing::changed_title;
use crate::hearing::news;
use crate::message::Message;
use crate::own::{Own, Ways};
use crate::relayed::Relayed;
use crate::writing::{led, ssn_by, write_lowered};
use mtp3_codec::Label;
use sccp_codec::{Address, Field, Parts, Routing, SccpFault};
use settings::TitleRow;
use signalling_types::{Cause, Limits, PointCode, Sls};

/// Octets of the routing label, which comes before the message (Q.704 §2.2).
const LABEL_OCTETS: usize = 4;

/// What becomes of the message of a signalling information field that came for this point. If it goes on, it is
/// rewritten at the front of the field that is lent, each octet once; the answer to a test of a subsystem goes in its
/// place. What follows it there may change, and so may all of that field if it doesn't go on (Q.714 §2.3, §5.3.4).
///
/// Refused, in this order: NotInProfile if it is neither a UDT nor a UDTS, nor an XUDT nor an XUDTS where these are
/// relayed, and BadSccp if it can't be read; NotInProfile if it is a UDT or an XUDT of a class above 1; HopCounter if
/// it has a hop counter of 0 or above 15, or of 1 if it is routed by title; if it is routed by title, as
/// `Address::global_title` and then `Titles::translate` refuse the title of its called address; SubsystemProhibited if
/// neither the row's point nor its backup serves it, and the subsystem at one that is reached is prohibited (§5.3.2);
/// Unequipped if it is for a subsystem that isn't here; TooLong if it goes on and a pointer is over 255, or the field
/// over 272 octets.
#[tactic(auto, unfolding(crate::specs::Relay::relay))]
pub fn relay<W: Ways>(sif: &[u8], titles: &Titles, own: &Own<'_, W>, field: &mut Field) -> Relayed
    requires label { 4 ≤ length sif.now }
    ensures exact { relayed_of result field.new ≡ rule.relay (own_value W.leads own.now) titles.now sif.now }
    ensures label { IfOnward result (λ count. 4 ≤ count) }
    ensures fits { IfOnward result (λ count. count ≤ Limits.SIF_OCTETS) }
{
    let label = Label::at(sif);
    match Message::read(own.extended, behind_label(sif)) {
        Err(fault) => Relayed::Refused(sccp_cause(fault)),
        Ok(message) => relay_read(&message, label, titles, own, field),
    }
}

/// The message after the label.
pub(crate) fn behind_label(sif: &[u8]) -> &[u8]
    requires { 4 ≤ length sif.now }
    ensures { result.now ≡ drop 4 sif.now }
{
    &sif[LABEL_OCTETS..]
}

/// Why a message that can't be read is refused.
fn sccp_cause(fault: SccpFault) -> Cause
    ensures { result ≡ rule.sccp_cause fault }
{
    match fault {
        SccpFault::Short | SccpFault::Pointer => Cause::BadSccp,
        SccpFault::Kind => Cause::NotInProfile,
    }
}

/// A message that was read.
fn relay_read<W: Ways>(
    message: &Message<'_>,
    label: Label,
    titles: &Titles,
    own: &Own<'_, W>,
    field: &mut Field,
) -> Relayed
    ensures exact { relayed_of result field.new
        ≡ rule.relay_read (own_value W.leads own.now) titles.now label (Ok (sccp_of message.now)) }
    ensures label { IfOnward result (λ count. 4 ≤ count) }
    ensures fits { IfOnward result (λ count. count ≤ Limits.SIF_OCTETS) }
{
    if !message.is_connectionless() {
        return Relayed::Refused(Cause::NotInProfile);
    }
    if !message.has_valid_hops() {
        return Relayed::Refused(Cause::HopCounter);
    }
    let called = &message.parts().called;
    match called.routing {
        Routing::Ssn => match news(message, called.ssn, label.opc, own) {
            Some(news) => Relayed::Heard(news),
            None => for_subsystem(message, called.ssn, label, own, field),
        },
        Routing::Title => relay_by_title(message, label, titles, own, field),
    }
}

/// A message for SCCP management or another subsystem of this point.
fn for_subsystem<W: Ways>(
    message: &Message<'_>,
    ssn: Option<u8>,
    label: Label,
    own: &Own<'_, W>,
    field: &mut Field,
) -> Relayed
    ensures exact { relayed_of result field.new
        ≡ rule.for_subsystem (own_value W.leads own.now) label (sccp_of message.now) ssn }
    ensures label { IfOnward result (λ count. 4 ≤ count) }
    ensures fits { IfOnward result (λ count. count ≤ Limits.SIF_OCTETS) }
{
    match answer(message, ssn, label, own, field) {
        Some(count) => Relayed::Onward(count),
        None => to_subsystem(own, ssn),
    }
}

/// A message for a subsystem of this point.
fn to_subsystem<W: Ways>(own: &Own<'_, W>, ssn: Option<u8>) -> Relayed
    ensures exact { (field : List ℕ) → relayed_of result field ≡ rule.to_subsystem (own_value W.leads own.now) ssn }
    ensures label { IfOnward result (λ count. 4 ≤ count) }
    ensures fits { IfOnward result (λ count. count ≤ Limits.SIF_OCTETS) }
{
    if own.is_equipped(ssn) {
        Relayed::Delivered
    } else {
        Relayed::Refused(Cause::Unequipped)
    }
}

/// A message whose called address is by title.
fn relay_by_title<W: Ways>(
    message: &Message<'_>,
    label: Label,
    titles: &Titles,
    own: &Own<'_, W>,
    field: &mut Field,
) -> Relayed
    ensures exact { relayed_of result field.new
        ≡ rule.relay_by_title (own_value W.leads own.now) titles.now label (sccp_of message.now) }
    ensures label { IfOnward result (λ count. 4 ≤ count) }
    ensures fits { IfOnward result (λ count. count ≤ Limits.SIF_OCTETS) }
{
    if message.is_at_last_hop() {
        return Relayed::Refused(Cause::HopCounter);
    }
    let called = &message.parts().called;
    match open_row(called, Some(label.opc), label.sls, titles, own) {
        Err(cause) => Relayed::Refused(cause),
        Ok(row) => relay_by_row(message, &row, label, titles, own, field),
    }
}

/// A message that a row leads: for a subsystem of this point, or on to another.
fn relay_by_row<W: Ways>(
    message: &Message<'_>,
    row: &TitleRow,
    label: Label,
    titles: &Titles,
    own: &Own<'_, W>,
    field: &mut Field,
) -> Relayed
    ensures exact { relayed_of result field.new
        ≡ rule.relay_by_row (own_value W.leads own.now) titles.now.prohibited label (sccp_of message.now) (Ok row.now) }
    ensures label { IfOnward result (λ count. 4 ≤ count) }
    ensures fits { IfOnward result (λ count. count ≤ Limits.SIF_OCTETS) }
{
    let point = own.point_by(row, Some(label.opc), label.sls, titles);
    if point == own.point {
        let ssn = ssn_by(row.route(), message.parts().called.ssn);
        return for_subsystem(message, ssn, label, own, field);
    }
    lead_on(point, message, row, label, own, field)
}

/// The row that leads on a message of this link selection, from this sender, if from any, to an address by title.
/// Refused as `Address::global_title` and then `Titles::translate` refuse the title; SubsystemProhibited if it can be
/// led neither to the row's point nor to its backup, and the subsystem at one that is reached is prohibited.
pub(crate) fn open_row<W: Ways>(
    address: &Address<'_>,
    sender: Option<PointCode>,
    sls: Sls,
    titles: &Titles,
    own: &Own<'_, W>,
) -> Result<TitleRow, Cause>
    ensures { result ≡ unless_barred (own_value W.leads own.now) titles.now.prohibited sender sls
        (rule.row_of titles.now.rows (address_of address.now)) }
{
    match row_of(titles, address) {
        Ok(row) => own.unless_barred(row, sender, sls, titles),
        Err(cause) => Err(cause),
    }
}

/// The row that the title of an address is translated by.
fn row_of(titles: &Titles, address: &Address<'_>) -> Result<TitleRow, Cause>
    ensures { result ≡ rule.row_of titles.now.rows (address_of address.now) }
{
    match address.global_title() {
        Ok(title) => titles.translate(title.key, title.digits().as_slice()),
        Err(cause) => Err(cause),
    }
}

/// A message that a row leads goes on to this point.
fn lead_on<W: Ways>(
    point: PointCode,
    message: &Message<'_>,
    row: &TitleRow,
    label: Label,
    own: &Own<'_, W>,
    field: &mut Field,
) -> Relayed
    ensures exact { relayed_of result field.new ≡ rule.lead_on (own_value W.leads own.now) label (sccp_of message.now)
        point (rule.translated row.now (sccp_parts (sccp_of message.now)).called) }
    ensures label { IfOnward result (λ count. 4 ≤ count) }
    ensures fits { IfOnward result (λ count. count ≤ Limits.SIF_OCTETS) }
{
    let came = message.parts();
    let changed = match changed_title(row, &came.called) {
        Ok(changed) => changed,
        Err(cause) => return Relayed::Refused(cause),
    };
    let parts = Parts {
        called: led(row, &came.called, &changed),
        calling: from_point(label.opc, &came.calling),
        data: came.data,
    };
    match write_lowered(point, own.point, label, message, &parts, field) {
        Some(count) => Relayed::Onward(count),
        None => Relayed::Refused(Cause::TooLong),
    }
}

/// The calling address, as a further point must see it: if it is routed by subsystem number and names no point, it gets
/// that of the sender (Q.714 §2.7).
fn from_point<'a>(sender: PointCode, address: &Address<'a>) -> Address<'a>
    ensures { address_of result ≡ rule.from_point sender (address_of address.now) }
{
    let point = match address.point {
        None if address.routing == Routing::Ssn => Some(sender),
        point => point,
    };
    Address { point, ..*address }
}
