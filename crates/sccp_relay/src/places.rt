//! Where rows are in their order.

ghost use Rattle.std.specs.Prelude.{◌≡◌, ◌≤◌, ◌<◌, ◌^◌, [], length, true, false, Contains, IfOk, IfErr, OnErr};
ghost use Rattle.std.specs.List.{list_any, IsDistinct};
ghost use Rattle.std.specs.List.Sorted.{IsPartitionPoint};
ghost use Rattle.sccp_relay.specs.Rows.{IsOrdered, place_of, row_place, has_row, place_order, is_before, key_of, is_same_place, table_of};
ghost use Rattle.sccp_relay.specs.Places.{StandsAt, FitsAt};
ghost use Rattle.sccp_relay.specs.Translation.{has_key};

use sccp_codec::TitleKey;
use settings::TitleRow;
use signalling_types::Cause;
use std::cmp::Ordering;

pub(crate) fn key_of(row: &TitleRow) -> TitleKey
    ensures key { result ≡ key_of row.now }
    ensures translation { row.now.translation < 2 ^ 8 }
    ensures plan { row.now.plan < 2 ^ 4 }
    ensures nature { row.now.nature < 2 ^ 7 }
{
    TitleKey {
        translation: row.translation(),
        plan: row.plan(),
        nature: row.nature(),
    }
}

/// How a row compares with the place of this key and these digits.
fn order(row: &TitleRow, key: TitleKey, digits: &[u8]) -> Ordering
    ensures { result ≡ place_order (row_place row.now) (place_of key digits.now) }
{
    row.translation()
        .cmp(&key.translation)
        .then_with(|| row.plan().cmp(&key.plan))
        .then_with(|| row.nature().cmp(&key.nature))
        .then_with(|| row.digits().cmp(digits))
}

/// How many rows come before the place of this key and these digits, by binary search.
fn count_before(rows: &[TitleRow], key: TitleKey, digits: &[u8]) -> usize
    requires { IsOrdered rows.now }
    ensures bound { result ≤ length rows.now }
    ensures split { IsPartitionPoint
        (λ row. is_before (place_of key digits.now) row ≡ true)
        (λ row. is_before (place_of key digits.now) row ≡ false) rows.now result }
{
    rows.partition_point(|row| order(row, key, digits).is_lt())
}

/// The number of the row of this key and these digits, or that of the place where it would be, as an error.
pub(crate) fn place(rows: &[TitleRow], key: TitleKey, digits: &[u8]) -> Result<usize, usize>
    requires { IsOrdered rows.now }
    ensures found { IfOk result (StandsAt rows.now (place_of key digits.now)) }
    ensures free { IfErr result (FitsAt rows.now (place_of key digits.now)) }
{
    let at = count_before(rows, key, digits);
    if at == rows.len() {
        return Err(at);
    }
    if order(&rows[at], key, digits).is_eq() {
        Ok(at)
    } else {
        Err(at)
    }
}

/// The row of this key and exactly these digits, by binary search. Refused NoDigits if there is none.
pub(crate) fn row_at(rows: &[TitleRow], key: TitleKey, digits: &[u8]) -> Result<TitleRow, Cause>
    requires { IsOrdered rows.now }
    ensures among { IfOk result (Contains rows.now) }
    ensures place { IfOk result (λ row. row_place row ≡ place_of key digits.now) }
    ensures free { OnErr result (has_row rows.now (place_of key digits.now) ≡ false) }
{
    match place(rows, key, digits) {
        Ok(at) => Ok(rows[at]),
        Err(_) => Err(Cause::NoDigits),
    }
}

fn is_of_key(row: &TitleRow, key: TitleKey) -> bool
    ensures { result ≡ has_key key row.now }
{
    row.translation() == key.translation && row.plan() == key.plan && row.nature() == key.nature
}

/// Whether there is a row of this key: the first that doesn't come before it, by binary search.
pub(crate) fn has_key(rows: &[TitleRow], key: TitleKey) -> bool
    requires { IsOrdered rows.now }
    ensures { result ≡ list_any (has_key key) rows.now }
{
    let at = count_before(rows, key, &[]);
    at < rows.len() && is_of_key(&rows[at], key)
}

/// Puts rows into their order.
pub(crate) fn sort(rows: &mut Vec<TitleRow>)
    requires { IsDistinct is_same_place rows.old.items }
    ensures table { rows.new.items ≡ table_of rows.old.items }
    ensures count { length rows.new.items ≡ length rows.old.items }
{
    rows.sort_unstable_by(|row, other| order(row, key_of(other), other.digits()));
}
