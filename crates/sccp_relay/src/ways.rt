//! How a row is found by its digits, and where it leads, as one number.

ghost use Rattle.std.specs.Prelude.{◌≡◌, ◌%◌, ◌^◌, ◌<◌, All, IfSome, IfOk, OnOk, OnErr, None, if◌then◌else◌, is_some};
ghost use Rattle.sccp_relay.specs.Digits.{with_value};
ghost use Rattle.sccp_relay.specs.Nodes.{stored};
ghost use Rattle.settings.specs.TitleRanges.{HasTitleRanges, HasChangeRanges};
ghost use Rattle.sccp_relay.specs.Ways.{IsRow, IsRoute, IsSsn, key_digits, way_of, is_plain, lead_of, route_number, ssn_number, route_of, row_led, leads_of};

use crate::changing::is_unchanged;
use crate::places::key_of;
use crate::{Trie, TrieFault};
use arrayvec::ArrayVec;
use sccp_codec::TitleKey;
use settings::{TitleRoute, TitleRow};
use signalling_types::{Limits, PointCode, Ssn};
use std::alloc::{AllocError, Global};

/// How many digits of its key a way begins with.
const KEY_DIGITS: usize = 5;

/// The most digits of a way.
const WAY_DIGITS: usize = KEY_DIGITS + Limits::TITLE_DIGITS;

/// How many points there are: a point has 14 bits (Q.704 §2.2.3).
const POINTS: u32 = 1 << 14;

/// How many subsystem numbers there are, 0 included.
const SUBSYSTEMS: u32 = 256;

/// What is added to where a row leads, if it has a backup or changes titles.
pub(crate) const MORE: u32 = 2 * SUBSYSTEMS * POINTS;

/// The digits of a key: two of the translation type, the plan, two of the nature.
pub(crate) fn key_digits(key: TitleKey) -> [u8; KEY_DIGITS]
    ensures { result ≡ key_digits key }
{
    [
        key.translation / 16,
        key.translation % 16,
        key.plan,
        key.nature / 16,
        key.nature % 16,
    ]
}

/// The way to a row: the digits of its key, and its own.
pub(crate) fn way_of(row: &TitleRow) -> ArrayVec<u8, WAY_DIGITS>
    ensures way { result.items ≡ way_of row.now }
    ensures digits { All (λ digit. digit < 16) result.items }
    ensures ranges { HasTitleRanges row.now.plan row.now.nature row.now.digits }
{
    let mut way = ArrayVec::new();
    way.try_extend_from_slice(&key_digits(key_of(row))).unwrap();
    way.try_extend_from_slice(row.digits()).unwrap();
    way
}

/// Where a row leads, as one number, and whether it is plain.
pub(crate) fn lead_of(row: &TitleRow) -> u32
    ensures lead { result ≡ lead_of row.now }
    ensures point { row.now.point < 2 ^ 14 }
    ensures route { IsRoute row.now.route }
    ensures backup { IfSome row.now.backup (λ point. point < 2 ^ 14) }
    ensures change { HasChangeRanges row.now.change }
{
    let more = if is_plain(row) { 0 } else { MORE };
    more + (route_number(row.route()) * POINTS + u32::from(row.point().code()))
}

/// Whether a row has no backup, and changes no titles.
fn is_plain(row: &TitleRow) -> bool
    ensures value { result ≡ is_plain row.now }
    ensures backup { IfSome row.now.backup (λ point. point < 2 ^ 14) }
    ensures change { HasChangeRanges row.now.change }
{
    let is_unchanged = is_unchanged(row.change());
    !has_backup(row) && is_unchanged
}

/// Whether a row has a backup.
fn has_backup(row: &TitleRow) -> bool
    ensures value { result ≡ is_some row.now.backup }
    ensures backup { IfSome row.now.backup (λ point. point < 2 ^ 14) }
{
    match row.backup() {
        Some(point) => {
            let _point = point.code();
            true
        }
        None => false,
    }
}

/// How a row is routed, as a number.
fn route_number(route: TitleRoute) -> u32
    ensures number { result ≡ route_number route }
    ensures fits { result < 2 ^ 9 }
    ensures route { IsRoute route }
{
    match route {
        TitleRoute::Title(ssn) => ssn_number(ssn),
        TitleRoute::Ssn(ssn) => SUBSYSTEMS + u32::from(ssn.number()),
    }
}

/// The number of a subsystem, or 0 if there is none.
fn ssn_number(ssn: Option<Ssn>) -> u32
    ensures number { result ≡ ssn_number ssn }
    ensures fits { result < 2 ^ 8 }
    ensures ssn { IfSome ssn IsSsn }
{
    match ssn {
        Some(ssn) => u32::from(ssn.number()),
        None => 0,
    }
}

/// How a row with such a number is routed.
fn route_of(number: u32) -> TitleRoute
    ensures { result ≡ route_of number }
{
    match Ssn::new((number % SUBSYSTEMS) as u8) {
        None => TitleRoute::Title(None),
        Some(ssn) if number < SUBSYSTEMS => TitleRoute::Title(Some(ssn)),
        Some(ssn) => TitleRoute::Ssn(ssn),
    }
}

/// The point of such a number.
fn point_of(lead: u32) -> PointCode
    ensures { result ≡ lead % 2 ^ 14 }
{
    PointCode::new((lead % POINTS) as u16).unwrap()
}

/// The plain row of this key and these digits that leads there.
pub(crate) fn row_led(key: TitleKey, digits: &[u8], lead: u32) -> TitleRow
    requires { HasTitleRanges key.plan key.nature digits.now }
    ensures { result ≡ row_led key digits.now lead }
{
    TitleRow::new(
        key.translation,
        key.plan,
        key.nature,
        digits,
        point_of(lead),
        route_of(lead / POINTS),
    )
    .unwrap()
}

/// Makes a trie lead to a row. Refused Present if it leads to one of this way; otherwise NoMemory if there is no room
/// for its way. A refusal leaves it as it was.
pub(crate) fn enter(trie: &mut Trie, row: &TitleRow) -> Result<(), TrieFault>
    ensures entered { OnOk result (stored trie.new ≡ with_value (stored trie.old) (way_of row.now) (lead_of row.now)) }
    ensures free { OnOk result (stored trie.old (way_of row.now) ≡ None) }
    ensures unchanged { OnErr result (trie.new ≡ trie.old) }
    ensures row { IsRow row.now }
{
    trie.insert(way_of(row).as_slice(), lead_of(row))
}

/// Makes a trie that leads to a row of this way lead to this one in its place. Nothing changes if it leads to none.
pub(crate) fn replace(trie: &mut Trie, row: &TitleRow)
    ensures replaced { stored trie.new ≡ (if is_some (stored trie.old (way_of row.now))
        then with_value (stored trie.old) (way_of row.now) (lead_of row.now) else stored trie.old) }
    ensures row { IsRow row.now }
{
    let _ = trie.replace(way_of(row).as_slice(), lead_of(row));
}

/// A trie that leads to each of these rows, no two with the same way.
pub(crate) fn trie_of(alloc: Global, rows: &[TitleRow]) -> Result<Trie, AllocError>
    ensures leads { IfOk result (λ trie. stored trie ≡ leads_of rows.now) }
    ensures rows { OnOk result (All IsRow rows.now) }
{
    let mut trie = Trie::new(alloc);
    for row in rows {
        if enter(&mut trie, row).is_err() {
            return Err(AllocError);
        }
    }
    Ok(trie)
}
