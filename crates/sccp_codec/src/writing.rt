//! Unitdata written after a routing label.

ghost use Rattle.std.specs.Prelude.{◌≡◌, ◌+◌, ◌<◌, ◌≤◌, ◌^◌, ◌++◌, ◌↔◌, length, take, drop, IsOk, IsSome, IfSome, IfOk, IfErr, OnOk, OnErr, Ok};
ghost use Rattle.sccp_codec.specs.Messages.{address_octets, point_octets, ssn_octets, indicator_octet, bit, IsAddressValue, spelled, counted, counted_parts, pointed, IsWritable, IsPartsValue, HasOctets, read_unitdata};
ghost use Rattle.sccp_codec.specs.Layout.{LaysOut};
ghost use Rattle.sccp_codec.specs.Values.{address_of, parts_value, udt_of, udts_of};

use crate::address::{Address, Routing};
use crate::layout::{
    FIRST_POINTER, LABEL_OCTETS, NATIONAL_BIT, PARTS_AT, POINT_BIT, ROUTING_BIT, SSN_BIT, UDT, UDTS,
};
use crate::unitdata::{Parts, Udt, Udts};
use signalling_types::{Cause, Limits, PointCode};

/// A signalling information field, to be written.
pub type Field = [u8; Limits::SIF_OCTETS];

impl Udt<'_> {
    /// Writes a signalling information field, the label and the message after it, at the front of the buffer, and
    /// returns how many octets it has. The parts are in the order called, calling, data, without gaps; spare bits are
    /// 0. The buffer after the field may hold anything afterwards (Q.713 §4.10).
    ///
    /// Refused TooLong exactly when a pointer or the length of a part is over 255, or the field over 272 octets; then
    /// the buffer is unchanged.
    pub fn write(&self, label: [u8; LABEL_OCTETS], field: &mut Field) -> Result<usize, Cause>
        ensures fits { IsOk result ↔ IsWritable (parts_value self.now.parts) }
        ensures cause { IfErr result (λ cause. cause ≡ Cause.TooLong) }
        ensures unchanged { OnErr result (field.new ≡ field.old) }
        ensures count { IfOk result (λ count. count ≡ 4 + length (spelled (udt_of self.now))) }
        ensures text { IfOk result (λ count. take count field.new ≡ label ++ spelled (udt_of self.now)) }
        ensures back { IfOk result (λ count.
            read_unitdata (drop 4 (take count field.new)) ≡ Ok (udt_of self.now)) }
    {
        write_message([UDT, self.class_octet], &self.parts, label, field)
    }
}

impl Udts<'_> {
    /// Writes a signalling information field, the label and the message after it, at the front of the buffer, and
    /// returns how many octets it has. The parts are in the order called, calling, data, without gaps; spare bits are
    /// 0. The buffer after the field may hold anything afterwards (Q.713 §4.11).
    ///
    /// Refused TooLong exactly when a pointer or the length of a part is over 255, or the field over 272 octets; then
    /// the buffer is unchanged.
    pub fn write(&self, label: [u8; LABEL_OCTETS], field: &mut Field) -> Result<usize, Cause>
        ensures fits { IsOk result ↔ IsWritable (parts_value self.now.parts) }
        ensures cause { IfErr result (λ cause. cause ≡ Cause.TooLong) }
        ensures unchanged { OnErr result (field.new ≡ field.old) }
        ensures count { IfOk result (λ count. count ≡ 4 + length (spelled (udts_of self.now))) }
        ensures text { IfOk result (λ count. take count field.new ≡ label ++ spelled (udts_of self.now)) }
        ensures back { IfOk result (λ count.
            read_unitdata (drop 4 (take count field.new)) ≡ Ok (udts_of self.now)) }
    {
        write_message([UDTS, self.return_cause], &self.parts, label, field)
    }
}

/// Writes the label and a message of this type, with this octet after it and these parts.
fn write_message(
    start: [u8; 2],
    parts: &Parts<'_>,
    label: [u8; LABEL_OCTETS],
    field: &mut Field,
) -> Result<usize, Cause>
    ensures fits { IsOk result ↔ IsWritable (parts_value parts.now) }
    ensures cause { IfErr result (λ cause. cause ≡ Cause.TooLong) }
    ensures unchanged { OnErr result (field.new ≡ field.old) }
    ensures count { IfOk result (λ count. count ≡ 4 + length (start ++ pointed (parts_value parts.now))) }
    ensures text { IfOk result (λ count.
        take count field.new ≡ label ++ (start ++ pointed (parts_value parts.now))) }
    ensures label { length label ≡ 4 }
    ensures value { OnOk result (IsPartsValue (parts_value parts.now)) }
{
    let Some(layout) = Layout::of(parts, FIRST_POINTER) else {
        return Err(Cause::TooLong);
    };
    if LABEL_OCTETS + PARTS_AT + layout.parts_octets() > Limits::SIF_OCTETS {
        return Err(Cause::TooLong);
    }
    let at = write_at(field, 0, &label);
    let at = write_at(field, at, &start);
    Ok(write_pointed(parts, &layout, at, field))
}

/// The lengths of the parts, and the pointers after the first: an octet each.
#[derive(Clone, Copy)]
pub(crate) struct Layout {
    pub(crate) called: u8,
    pub(crate) calling: u8,
    pub(crate) carried: u8,
    pub(crate) calling_pointer: u8,
    pub(crate) data_pointer: u8,
}

impl Layout {
    /// How such parts are laid out after pointers of which the first is this. None if a length or a pointer is over
    /// 255.
    pub(crate) fn of(parts: &Parts<'_>, first: u8) -> Option<Layout>
        ensures fits { IsSome result ↔ HasOctets first (parts_value parts.now) }
        ensures value { IfSome result (LaysOut first (parts_value parts.now)) }
    {
        let called = octets_of_address(&parts.called)?;
        let calling = octets_of_address(&parts.calling)?;
        let calling_pointer = first.checked_add(called)?;
        Some(Layout {
            called,
            calling,
            carried: one_octet(parts.data.len())?,
            calling_pointer,
            data_pointer: calling_pointer.checked_add(calling)?,
        })
    }

    /// Octets of the parts, each after its length.
    pub(crate) fn parts_octets(&self) -> usize
        ensures { result ≡ 3 + self.now.called + self.now.calling + self.now.carried }
    {
        3 + usize::from(self.called) + usize::from(self.calling) + usize::from(self.carried)
    }
}

/// The number as an octet, if it is one.
fn one_octet(number: usize) -> Option<u8>
    ensures fits { IsSome result ↔ (number < 2 ^ 8) }
    ensures value { IfSome result (λ octet. octet ≡ number) }
{
    if number < 1 << 8 {
        Some(number as u8)
    } else {
        None
    }
}

/// The octets of an address, if one octet can say them.
fn octets_of_address(address: &Address<'_>) -> Option<u8>
    ensures fits { IsSome result ↔ (length (address_octets 0 (address_of address.now)) < 2 ^ 8) }
    ensures value { IfSome result (λ octets. octets ≡ length (address_octets 0 (address_of address.now))) }
{
    let point = if address.point.is_some() { 2 } else { 0 };
    let ssn = if address.ssn.is_some() { 1 } else { 0 };
    one_octet(1 + point + ssn + address.title.len())
}

/// Writes the pointers and the parts at an offset, and returns the offset after them.
fn write_pointed(parts: &Parts<'_>, layout: &Layout, at: usize, field: &mut Field) -> usize
    requires lengths { LaysOut 3 (parts_value parts.now) layout.now }
    requires room { at + length (pointed (parts_value parts.now)) ≤ Limits.SIF_OCTETS }
    ensures count { result ≡ at + length (pointed (parts_value parts.now)) }
    ensures text { take result field.new ≡ take at field.old ++ pointed (parts_value parts.now) }
    ensures value { IsPartsValue (parts_value parts.now) }
{
    let pointers = [FIRST_POINTER, layout.calling_pointer, layout.data_pointer];
    let at = write_at(field, at, &pointers);
    write_parts(parts, layout, at, field)
}

/// Writes the parts at an offset, each after its length, and returns the offset after them.
pub(crate) fn write_parts(parts: &Parts<'_>, layout: &Layout, at: usize, field: &mut Field) -> usize
    requires called { layout.now.called ≡ length (address_octets 0 (parts_value parts.now).called) }
    requires calling { layout.now.calling ≡ length (address_octets 0 (parts_value parts.now).calling) }
    requires carried { layout.now.carried ≡ length (parts_value parts.now).data }
    requires room { at + length (counted_parts (parts_value parts.now)) ≤ Limits.SIF_OCTETS }
    ensures count { result ≡ at + length (counted_parts (parts_value parts.now)) }
    ensures text { take result field.new ≡ take at field.old ++ counted_parts (parts_value parts.now) }
    ensures value { IsPartsValue (parts_value parts.now) }
{
    let at = write_address(field, at, layout.called, &parts.called);
    let at = write_address(field, at, layout.calling, &parts.calling);
    let at = write_at(field, at, &[layout.carried]);
    write_at(field, at, parts.data)
}

/// Writes an address after its length at an offset, and returns the offset after it.
fn write_address(field: &mut Field, at: usize, octets: u8, address: &Address<'_>) -> usize
    requires length { octets ≡ length (address_octets 0 (address_of address.now)) }
    requires room { at + 1 + octets ≤ Limits.SIF_OCTETS }
    ensures count { result ≡ at + 1 + octets }
    ensures text { take result field.new ≡ take at field.old ++ counted (address_octets 0 (address_of address.now)) }
    ensures value { IsAddressValue (address_of address.now) }
{
    let at = write_at(field, at, &[octets, indicator_octet(address)]);
    let at = write_point(field, at, address.point);
    let at = write_ssn(field, at, address.ssn);
    write_at(field, at, address.title)
}

/// Writes a point code, if there is one, low octet first.
fn write_point(field: &mut Field, at: usize, point: Option<PointCode>) -> usize
    requires { at + length (point_octets 0 point) ≤ Limits.SIF_OCTETS }
    ensures count { result ≡ at + length (point_octets 0 point) }
    ensures text { take result field.new ≡ take at field.old ++ point_octets 0 point }
    ensures fits { IfSome point (λ code. code < 2 ^ 14) }
{
    match point {
        Some(point) => write_at(field, at, &point.code().to_le_bytes()),
        None => at,
    }
}

/// Writes a subsystem number, if there is one.
fn write_ssn(field: &mut Field, at: usize, ssn: Option<u8>) -> usize
    requires { at + length (ssn_octets ssn) ≤ Limits.SIF_OCTETS }
    ensures count { result ≡ at + length (ssn_octets ssn) }
    ensures text { take result field.new ≡ take at field.old ++ ssn_octets ssn }
    ensures fits { IfSome ssn (λ number. number < 2 ^ 8) }
{
    match ssn {
        Some(ssn) => write_at(field, at, &[ssn]),
        None => at,
    }
}

fn indicator_octet(address: &Address<'_>) -> u8
    ensures octet { result ≡ indicator_octet (address_of address.now) }
    ensures fits { address.now.title_indicator < 2 ^ 4 }
{
    bit(address.point.is_some(), POINT_BIT)
        + bit(address.ssn.is_some(), SSN_BIT)
        + (address.title_indicator.number() << 2)
        + bit(address.routing == Routing::Ssn, ROUTING_BIT)
        + bit(address.national, NATIONAL_BIT)
}

/// An octet with this bit, if it is set, and no other.
fn bit(set: bool, number: u32) -> u8
    requires { number < 8 }
    ensures { result ≡ bit set number }
{
    if set { 1 << number } else { 0 }
}

/// Writes the octets at an offset, and returns the offset after them.
pub(crate) fn write_at(field: &mut Field, at: usize, octets: &[u8]) -> usize
    requires { at + length octets.now ≤ Limits.SIF_OCTETS }
    ensures count { result ≡ at + length octets.now }
    ensures text { take result field.new ≡ take at field.old ++ octets.now }
{
    let end = at + octets.len();
    field[at..end].copy_from_slice(octets);
    end
}
