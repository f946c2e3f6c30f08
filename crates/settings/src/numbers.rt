//! Numbers of settings.

ghost use Rattle.std.specs.Prelude.{◌≡◌, ◌≤◌, ◌<◌, ◌^◌, nat_eq, ◌⊎◌, None, Some, map, IfOk, IfSome, OnOk, IfErr};
ghost use Rattle.std.specs.Option.{option_map};
ghost use Rattle.std.specs.List.{list_all};
ghost use Rattle.settings.specs.Checks.{range_fault, optional_fault, natural, fault_unless, has_repeat, far_point_fault};
ghost use Rattle.settings.specs.Checks.{is_within, numbers_fault, count_fault};

use crate::{DraftFault, FaultKind, Key};
use signalling_types::PointCode;
use std::alloc::Global;

/// The largest point code.
const LAST_POINT: u16 = 16_383;

/// A fault of this kind at this key, unless the test holds.
pub(crate) fn ensure(well: bool, kind: FaultKind, key: Key) -> Result<(), DraftFault>
    ensures well { OnOk result (fault_unless well kind key ≡ None) }
    ensures fault { IfErr result (λ fault. fault_unless well kind key ≡ Some fault) }
{
    if well {
        Ok(())
    } else {
        Err(DraftFault::At(kind, key))
    }
}

/// The number, if it is one from `low` to `high`.
pub(crate) fn number(value: i64, low: u16, high: u16, key: Key) -> Result<u16, DraftFault>
    ensures value { IfOk result (λ n. n ≡ natural value) }
    ensures above { IfOk result (λ n. low ≤ n) }
    ensures below { IfOk result (λ n. n ≤ high) }
    ensures well { OnOk result (range_fault low high key value ≡ None) }
    ensures fault { IfErr result (λ fault. range_fault low high key value ≡ Some fault) }
{
    match u16::try_from(value) {
        Ok(number) if low <= number && number <= high => Ok(number),
        _ => Err(DraftFault::At(FaultKind::Range, key)),
    }
}

/// The number, if it wasn't left out and is one from `low` to `high`.
pub(crate) fn optional_number(
    value: Option<i64>,
    low: u16,
    high: u16,
    key: Key,
) -> Result<Option<u16>, DraftFault>
    ensures value { IfOk result (λ n. n ≡ option_map natural value) }
    ensures below { IfOk result (λ n. IfSome n (λ n. n ≤ high)) }
    ensures well { OnOk result (optional_fault low high key value ≡ None) }
    ensures fault { IfErr result (λ fault. optional_fault low high key value ≡ Some fault) }
{
    match value {
        Some(value) => Ok(Some(number(value, low, high, key)?)),
        None => Ok(None),
    }
}

/// The point of this number.
pub(crate) fn point(value: i64, key: Key) -> Result<PointCode, DraftFault>
    ensures value { IfOk result (λ point. point ≡ natural value) }
    ensures fits { IfOk result (λ point. point < 2 ^ 14) }
    ensures well { OnOk result (range_fault 0 16383 key value ≡ None) }
    ensures fault { IfErr result (λ fault. range_fault 0 16383 key value ≡ Some fault) }
{
    let number = number(value, 0, LAST_POINT, key)?;
    PointCode::new(number).ok_or(DraftFault::At(FaultKind::Range, key))
}

/// The point of this number, if it wasn't left out.
pub(crate) fn optional_point(value: Option<i64>, key: Key) -> Result<Option<PointCode>, DraftFault>
    ensures value { IfOk result (λ point. point ≡ option_map natural value) }
    ensures well { OnOk result (optional_fault 0 16383 key value ≡ None) }
    ensures fault { IfErr result (λ fault. optional_fault 0 16383 key value ≡ Some fault) }
{
    match value {
        Some(value) => Ok(Some(point(value, key)?)),
        None => Ok(None),
    }
}

/// The point of this number, if it isn't the node's own.
pub(crate) fn far_point(value: i64, own: PointCode, key: Key) -> Result<PointCode, DraftFault>
    ensures value { IfOk result (λ point. point ≡ natural value) }
    ensures well { OnOk result (far_point_fault own key value ≡ None) }
    ensures fault { IfErr result (λ fault. far_point_fault own key value ≡ Some fault) }
{
    let point = point(value, key)?;
    if point.code() == own.code() {
        return Err(DraftFault::At(FaultKind::Range, key));
    }
    Ok(point)
}

/// Whether some number occurs twice.
#[tactic(auto, using(std::proofs::lemmas::Grind::common_steps))]
fn has_repeat(numbers: &[u8]) -> bool
    ensures { result ≡ has_repeat nat_eq numbers.now }
{
    for i in 0..numbers.len() {
        if numbers[i + 1..].contains(&numbers[i]) {
            return true;
        }
    }
    false
}

/// The number, if it is one from `low` to `high`.
fn octet(value: &i64, low: u8, high: u8, key: Key) -> Result<u8, DraftFault>
    ensures value { IfOk result (λ n. n ≡ natural value.now) }
    ensures well { OnOk result (range_fault low high key value.now ≡ None) }
    ensures fault { IfErr result (λ fault. range_fault low high key value.now ≡ Some fault) }
{
    let number = number(*value, low as u16, high as u16, key)?;
    Ok(number as u8)
}

/// The numbers, each from `low` to `high`.
fn all_within(
    alloc: Global,
    values: &[i64],
    low: u8,
    high: u8,
    key: Key,
) -> Result<Vec<u8>, DraftFault>
    ensures value { IfOk result (λ numbers. numbers.items ≡ map natural values.now) }
    ensures well { OnOk result
        (fault_unless (list_all (is_within low high) values.now) FaultKind.Range key ≡ None) }
    ensures fault { IfErr result (λ fault.
        (fault ≡ DraftFault.NoMemory)
        ⊎ (fault_unless (list_all (is_within low high) values.now) FaultKind.Range key ≡ Some fault)) }
{
    let mut numbers = Vec::with_capacity(alloc, values.len())?;
    for i in 0..values.len() {
        let number = octet(&values[i], low, high, key)?;
        numbers.push_reserved(number);
    }
    Ok(numbers)
}

/// The numbers, distinct, each from `low` to `high`.
#[tactic(auto, unfolding(crate::specs::Checks::numbers_fault))]
pub(crate) fn distinct_numbers(
    alloc: Global,
    values: &[i64],
    low: u8,
    high: u8,
    key: Key,
) -> Result<Vec<u8>, DraftFault>
    ensures value { IfOk result (λ numbers. numbers.items ≡ map natural values.now) }
    ensures well { OnOk result (numbers_fault low high key values.now ≡ None) }
    ensures fault { IfErr result (λ fault.
        (fault ≡ DraftFault.NoMemory) ⊎ (numbers_fault low high key values.now ≡ Some fault)) }
{
    let numbers = all_within(alloc, values, low, high, key)?;
    ensure(!has_repeat(&numbers), FaultKind::Duplicate, key)?;
    Ok(numbers)
}

/// An array by its length: at most `limit` entries, and at least one.
pub(crate) fn count(len: usize, limit: usize, key: Key) -> Result<(), DraftFault>
    ensures well { OnOk result (count_fault limit key len ≡ None) }
    ensures fault { IfErr result (λ fault. count_fault limit key len ≡ Some fault) }
{
    ensure(len <= limit, FaultKind::TooMany, key)?;
    ensure(0 < len, FaultKind::Range, key)
}
