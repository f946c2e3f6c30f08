//! Extended unitdata read from its octets.

ghost use Rattle.std.specs.Prelude.{◌≡◌, ◌≤◌, length, IfOk, IfErr, IsOkAnd, Some};
ghost use Rattle.sccp_codec.specs.Extended.{ExtendedValue, IsExtended, read_extended, extended_fault};
ghost use Rattle.sccp_codec.specs.ExtendedValues.{extended_of};
ghost use Rattle.sccp_codec.specs.Values.{Gives};

use crate::extended::{ExtendedKind, ExtendedUnitdata};
use crate::fault::SccpFault;
use crate::layout::{EXTENDED_PARTS_AT, EXTENDED_POINTERS_AT, OPTIONAL_POINTER, XUDT, XUDTS};
use crate::optional::OptionalPart;
use crate::reading::read_parts;

impl<'a> ExtendedUnitdata<'a> {
    /// The message that the octets after a routing label are, or their first fault. Its titles, its
    /// data and its optional parameters are slices of the octets. It takes a step for each optional
    /// parameter.
    ///
    /// In this order: Short if there is no octet; Kind if the first isn't that of an XUDT or an XUDTS;
    /// Short under seven octets; Pointer for the called address, the calling address and the data in
    /// turn, if its pointer names no length octet after the pointers, or a part that isn't there
    /// whole; Short for each address in turn that has fewer octets than it announces; Pointer if the
    /// pointer to the optional part isn't 0 and this doesn't end, or has a parameter that isn't there
    /// whole, or segmentation or importance of another length than theirs. Parts may lie apart and
    /// over one another, and octets that no part covers are ignored (Q.713 §1.5, §4.18, §4.19).
    pub fn read(octets: &'a [u8]) -> Result<ExtendedUnitdata<'a>, SccpFault>
        // What reading gives.
        ensures exact { Gives extended_of result (read_extended octets.now) }
        // What is read, the octets say.
        ensures value { IfOk result (λ message. IsExtended octets.now (extended_of message)) }
        // What the octets say is read.
        ensures only { (v : ExtendedValue) → IsExtended octets.now v
            → IsOkAnd result (λ message. extended_of message ≡ v) }
        // An error is the first fault.
        ensures fault { IfErr result (λ fault. extended_fault octets.now ≡ Some fault) }
    {
        read_extended(octets)
    }
}

/// The message, or the first fault.
fn read_extended(octets: &[u8]) -> Result<ExtendedUnitdata<'_>, SccpFault>
    ensures { Gives extended_of result (read_extended octets.now) }
{
    let [kind, ..] = *octets else {
        return Err(SccpFault::Short);
    };
    if kind != XUDT && kind != XUDTS {
        return Err(SccpFault::Kind);
    }
    if octets.len() < EXTENDED_PARTS_AT {
        return Err(SccpFault::Short);
    }
    let parts = match read_parts(octets, EXTENDED_POINTERS_AT, EXTENDED_PARTS_AT) {
        Ok(parts) => parts,
        Err(fault) => return Err(fault),
    };
    let Some(optional) = OptionalPart::named(octets, OPTIONAL_POINTER) else {
        return Err(SccpFault::Pointer);
    };
    let kind = if kind == XUDT {
        ExtendedKind::Xudt(octets[1])
    } else {
        ExtendedKind::Xudts(octets[1])
    };
    Ok(ExtendedUnitdata {
        kind,
        hop_counter: octets[2],
        parts,
        optional,
    })
}
