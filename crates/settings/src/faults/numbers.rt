//! The checks of single values.

ghost use Rattle.std.specs.Prelude.{◌≡◌, ◌≤◌, ◌∷◌, [], IfOk};
ghost use Rattle.settings.specs.Checks.{first_of, behind, fault_unless, range_fault, optional_fault, far_point_fault};
ghost use Rattle.settings.specs.Checks.{numbers_fault, count_fault};
ghost use Rattle.settings.specs.AllFaults.{own_point};

use crate::numbers::{count, distinct_numbers, ensure, number, optional_number};
use crate::{DraftFault, FaultKind, Key};
use std::alloc::{AllocError, Global};

/// The largest point code.
const LAST_POINT: u16 = 16_383;

/// What other points must differ from if the node's own point is malformed: no point has this number.
const NO_POINT: u16 = 16_384;

/// The first of two faults.
pub(crate) fn first(fault: Option<DraftFault>, other: Option<DraftFault>) -> Option<DraftFault>
    ensures { result ≡ first_of (fault ∷ other ∷ []) }
{
    match fault {
        Some(_) => fault,
        None => other,
    }
}

/// A fault, unless there is another one that it may follow from.
pub(crate) fn behind(other: Option<DraftFault>, fault: Option<DraftFault>) -> Option<DraftFault>
    ensures { result ≡ behind other fault }
{
    match other {
        Some(_) => None,
        None => fault,
    }
}

/// A fault of this kind at this key, unless the test holds.
pub(crate) fn ensure_check(well: bool, kind: FaultKind, key: Key) -> Option<DraftFault>
    ensures { result ≡ fault_unless well kind key }
{
    ensure(well, kind, key).err()
}

/// The fault of a number that must be one from `low` to `high`.
pub(crate) fn range_check(value: i64, low: u16, high: u16, key: Key) -> Option<DraftFault>
    ensures { result ≡ range_fault low high key value }
{
    number(value, low, high, key).err()
}

/// The same of a number that may be left out.
pub(crate) fn optional_check(
    value: Option<i64>,
    low: u16,
    high: u16,
    key: Key,
) -> Option<DraftFault>
    ensures { result ≡ optional_fault low high key value }
{
    optional_number(value, low, high, key).err()
}

/// The point that others must differ from.
pub(crate) fn own_point(own: i64) -> u16
    ensures { result ≡ own_point own }
{
    match u16::try_from(own) {
        Ok(own) if own <= LAST_POINT => own,
        _ => NO_POINT,
    }
}

/// The fault of a point that must differ from the node's own.
pub(crate) fn far_point_check(value: i64, own: u16, key: Key) -> Option<DraftFault>
    ensures { result ≡ far_point_fault own key value }
{
    match u16::try_from(value) {
        Ok(point) if point <= LAST_POINT && point != own => None,
        _ => Some(DraftFault::At(FaultKind::Range, key)),
    }
}

/// The fault of a list of distinct numbers from `low` to `high`.
pub(crate) fn distinct_check(
    alloc: Global,
    values: &[i64],
    low: u8,
    high: u8,
    key: Key,
) -> Result<Option<DraftFault>, AllocError>
    ensures { IfOk result (λ fault. fault ≡ numbers_fault low high key values.now) }
{
    match distinct_numbers(alloc, values, low, high, key) {
        Ok(_) => Ok(None),
        Err(DraftFault::NoMemory) => Err(AllocError),
        Err(fault) => Ok(Some(fault)),
    }
}

/// The fault of an array by its length: at most `limit` entries, and at least one.
pub(crate) fn count_check(len: usize, limit: usize, key: Key) -> Option<DraftFault>
    ensures value { result ≡ count_fault limit key len }
{
    count(len, limit, key).err()
}
