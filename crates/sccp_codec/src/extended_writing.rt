//! Extended unitdata written after a routing label.

ghost use Rattle.std.specs.Prelude.{◌≡◌, ◌+◌, ◌<◌, ◌≤◌, ◌^◌, ◌++◌, ◌↔◌, [], ◌∷◌, length, take, drop, IsOk, IsSome, IfSome, IfOk, IfErr, OnOk, OnErr, Ok, true};
ghost use Rattle.std.specs.List.{list_all};
ghost use Rattle.sccp_codec.specs.Extended.{ExtendedValue, IsExtendedWritable, IsExtendedValue, extended_octets, read_extended, optional_pointer, optional_octets, is_parameter, type_of, after_type};
ghost use Rattle.sccp_codec.specs.ExtendedValues.{extended_of, parameters_of};

use crate::extended::{ExtendedKind, ExtendedUnitdata};
use crate::layout::{EXTENDED_PARTS_AT, FIRST_EXTENDED_POINTER, LABEL_OCTETS, XUDT, XUDTS};
use crate::optional::{END, OptionalPart};
use crate::writing::{Field, Layout, write_at, write_parts};
use signalling_types::{Cause, Limits};

impl ExtendedUnitdata<'_> {
    /// Writes a signalling information field, the label and the message after it, at the front of
    /// the buffer, and answers how many octets it has. The parts come in the order called, calling,
    /// data, optional part, without gaps; the optional parameters are those that were read, octet by
    /// octet; spare bits are 0. If there are no optional parameters, there is no optional part. The
    /// buffer after the field may hold anything afterwards (Q.713 §4.18, §4.19).
    ///
    /// Refused TooLong exactly if a pointer or the length of a part is over 255, or the field over 272
    /// octets; then the buffer is unchanged.
    pub fn write(&self, label: [u8; LABEL_OCTETS], field: &mut Field) -> Result<usize, Cause>
        ensures fits { IsOk result ↔ IsExtendedWritable (extended_of self.now) }
        ensures cause { IfErr result (λ cause. cause ≡ Cause.TooLong) }
        ensures unchanged { OnErr result (field.new ≡ field.old) }
        ensures count { IfOk result (λ count. count ≡ 4 + length (extended_octets (extended_of self.now))) }
        ensures text { IfOk result (λ count. take count field.new ≡ label ++ extended_octets (extended_of self.now)) }
        ensures back { IfOk result (λ count.
            read_extended (drop 4 (take count field.new)) ≡ Ok (extended_of self.now)) }
    {
        write_extended(self, label, field)
    }
}

/// Writes the label and the message.
fn write_extended(
    message: &ExtendedUnitdata<'_>,
    label: [u8; LABEL_OCTETS],
    field: &mut Field,
) -> Result<usize, Cause>
    ensures fits { IsOk result ↔ IsExtendedWritable (extended_of message.now) }
    ensures cause { IfErr result (λ cause. cause ≡ Cause.TooLong) }
    ensures unchanged { OnErr result (field.new ≡ field.old) }
    ensures count { IfOk result (λ count. count ≡ 4 + length (extended_octets (extended_of message.now))) }
    ensures text { IfOk result (λ count. take count field.new ≡ label ++ extended_octets (extended_of message.now)) }
    ensures label { length label ≡ 4 }
    ensures value { OnOk result (IsExtendedValue (extended_of message.now)) }
{
    let Some(layout) = Layout::of(&message.parts, FIRST_EXTENDED_POINTER) else {
        return Err(Cause::TooLong);
    };
    let Some(pointer) = optional_pointer(&layout, &message.optional) else {
        return Err(Cause::TooLong);
    };
    let octets = EXTENDED_PARTS_AT + layout.parts_octets() + message.optional.octets_with_end();
    if LABEL_OCTETS + octets > Limits::SIF_OCTETS {
        return Err(Cause::TooLong);
    }
    let at = write_at(field, 0, &label);
    let at = write_at(field, at, &start_of(message));
    let pointers = [
        FIRST_EXTENDED_POINTER,
        layout.calling_pointer,
        layout.data_pointer,
        pointer,
    ];
    let at = write_at(field, at, &pointers);
    let at = write_parts(&message.parts, &layout, at, field);
    Ok(write_optional(&message.optional, at, field))
}

/// The pointer to the optional part after parts that are so laid out. None if it is over 255.
fn optional_pointer(layout: &Layout, optional: &OptionalPart<'_>) -> Option<u8>
    ensures fits { IsSome result
        ↔ (optional_pointer (parameters_of optional.now) (layout.now.data_pointer + layout.now.carried) < 2 ^ 8) }
    ensures value { IfSome result (λ pointer. pointer
        ≡ optional_pointer (parameters_of optional.now) (layout.now.data_pointer + layout.now.carried)) }
{
    if optional.is_empty() {
        Some(0)
    } else {
        layout.data_pointer.checked_add(layout.carried)
    }
}

/// The octets before the pointers.
fn start_of(message: &ExtendedUnitdata<'_>) -> [u8; 3]
    ensures { result ≡ type_of (extended_of message.now).kind
        ∷ after_type (extended_of message.now).kind ∷ (extended_of message.now).hop_counter ∷ [] }
{
    match message.kind {
        ExtendedKind::Xudt(class_octet) => [XUDT, class_octet, message.hop_counter],
        ExtendedKind::Xudts(return_cause) => [XUDTS, return_cause, message.hop_counter],
    }
}

/// Writes the optional part, if there is one, at an offset, and returns the offset after it.
fn write_optional(optional: &OptionalPart<'_>, at: usize, field: &mut Field) -> usize
    requires { at + length (optional_octets (parameters_of optional.now)) ≤ Limits.SIF_OCTETS }
    ensures count { result ≡ at + length (optional_octets (parameters_of optional.now)) }
    ensures text { take result field.new ≡ take at field.old ++ optional_octets (parameters_of optional.now) }
    ensures legal { list_all is_parameter (parameters_of optional.now) ≡ true }
{
    let octets = optional.octets();
    if optional.is_empty() {
        return at;
    }
    let at = write_at(field, at, octets);
    write_at(field, at, &[END])
}
