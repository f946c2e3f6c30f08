//! Unitdata read from its octets.

ghost use Rattle.std.specs.Prelude.{◌≡◌, ◌+◌, ◌≤◌, ◌<◌, length, IfOk, IfErr, IsOkAnd, Some};
ghost use Rattle.sccp_codec.specs.Messages.{UnitdataValue, IsUnitdata, read_unitdata, fault_of, parts_in, parts_fault, part_at, pointer_fault, unless};
ghost use Rattle.sccp_codec.specs.Values.{unitdata_of, parts_value, Gives};

use crate::address::Address;
use crate::fault::SccpFault;
use crate::layout::{PARTS_AT, POINTERS_AT, UDT, UDTS};
use crate::unitdata::{Parts, Udt, Udts, Unitdata};

impl<'a> Unitdata<'a> {
    /// The message that the octets after a routing label are, or their first fault. Its titles and its data are slices
    /// of the octets. It takes a fixed number of steps.
    ///
    /// Faults in this order: Short if there is no octet; Kind if the first isn't that of a UDT or a UDTS; Short under
    /// five octets; Pointer for each pointer in turn that names no length octet after the pointers, or a part that
    /// isn't whole; Short for each address in turn that has fewer octets than it announces. Parts may lie apart or
    /// overlap, and octets that no part covers are ignored (Q.713 §1.5).
    pub fn read(octets: &'a [u8]) -> Result<Unitdata<'a>, SccpFault>
        // What reading gives.
        ensures exact { Gives unitdata_of result (read_unitdata octets.now) }
        // What is read, the octets say.
        ensures value { IfOk result (λ message. IsUnitdata octets.now (unitdata_of message)) }
        // What the octets say is read.
        ensures only { (v : UnitdataValue) → IsUnitdata octets.now v
            → IsOkAnd result (λ message. unitdata_of message ≡ v) }
        // An error is the first fault.
        ensures fault { IfErr result (λ fault. fault_of octets.now ≡ Some fault) }
    {
        read(octets)
    }
}

/// The message, or the first fault.
fn read(octets: &[u8]) -> Result<Unitdata<'_>, SccpFault>
    ensures { Gives unitdata_of result (read_unitdata octets.now) }
{
    let [kind, ..] = *octets else {
        return Err(SccpFault::Short);
    };
    if kind != UDT && kind != UDTS {
        return Err(SccpFault::Kind);
    }
    if octets.len() < PARTS_AT {
        return Err(SccpFault::Short);
    }
    let parts = match read_parts(octets, POINTERS_AT, PARTS_AT) {
        Ok(parts) => parts,
        Err(fault) => return Err(fault),
    };
    if kind == UDT {
        Ok(Unitdata::Udt(Udt {
            class_octet: octets[1],
            parts,
        }))
    } else {
        Ok(Unitdata::Udts(Udts {
            return_cause: octets[1],
            parts,
        }))
    }
}

/// The addresses and the data, or the first fault of a pointer, then of an address. Their pointers
/// are from the first of these places on, the parts from the second on.
pub(crate) fn read_parts(
    octets: &[u8],
    pointers: usize,
    start: usize,
) -> Result<Parts<'_>, SccpFault>
    requires { pointers + 3 ≤ length octets.now }
    ensures { Gives parts_value result (unless (parts_fault pointers start octets.now) (parts_in pointers octets.now)) }
{
    let called = part(octets, pointers, start)?;
    let calling = part(octets, pointers + 1, start)?;
    let data = part(octets, pointers + 2, start)?;
    match (Address::read(called), Address::read(calling)) {
        (Ok(called), Ok(calling)) => Ok(Parts {
            called,
            calling,
            data,
        }),
        (Err(fault), _) | (_, Err(fault)) => Err(fault),
    }
}

/// The part that the pointer at this octet names: its value is the distance to the part's length, and the part follows
/// that (Q.713 §2.3).
fn part(octets: &[u8], pointer: usize, start: usize) -> Result<&[u8], SccpFault>
    requires { pointer < length octets.now }
    ensures { Gives (λ part. part.now) result
        (unless (pointer_fault start octets.now pointer) (part_at octets.now pointer)) }
{
    let length_at = pointer + usize::from(octets[pointer]);
    if length_at < start || octets.len() <= length_at {
        return Err(SccpFault::Pointer);
    }
    let start = length_at + 1;
    let end = start + usize::from(octets[length_at]);
    if octets.len() < end {
        return Err(SccpFault::Pointer);
    }
    Ok(&octets[start..end])
}
