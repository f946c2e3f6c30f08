//! A table of translation rows.

ghost use Rattle.std.specs.Prelude.{◌≡◌, ◌≤◌, ◌↔◌, [], length, slice_get, IsTrue, Some, None, Err, IsOk, IfOk, IfErr, OnOk, OnErr, IsOkUnless, if◌then◌else◌};
ghost use Rattle.std.specs.List.{IsDistinct, insert, list_any};
ghost use Rattle.std.specs.Result.{is_ok};
ghost use Rattle.sccp_relay.specs.Digits.{with_value};
ghost use Rattle.sccp_relay.specs.Nodes.{stored};
ghost use Rattle.sccp_relay.specs.Rows.{IsOrdered, place_of, row_place, has_row, with_row, without_row, add_refusal, set_refusal, is_same_place, table_of};
ghost use Rattle.sccp_relay.specs.Statuses.{is_for, leads_to};
ghost use Rattle.sccp_relay.specs.Translation.{translation, IsTranslation};
ghost use Rattle.sccp_relay.specs.Ways.{IsRow, way_of, lead_of};

use crate::Trie;
use crate::places::{has_key, key_of, place, row_at, sort};
use crate::subsystem::Subsystem;
use crate::ways::{MORE, enter, key_digits, replace, row_led, trie_of, way_of};
use sccp_codec::TitleKey;
use settings::{TitleRoute, TitleRow};
use signalling_types::{Cause, Limits};
use std::alloc::{AllocError, Global};
use std::marker::Model;

/// A table of at most 65,535 translation rows. No two have one key and the same digits.
///
/// The rows are in their order, and a trie leads to each of them by the digits of its key and its own.
#[derive(Drop)]
pub struct Translations {
    rows: Vec<TitleRow>,
    trie: Trie,
}

impl Model for Translations {
    ghost use Rattle.std.specs.Prelude.{List};
    ghost use Rattle.settings.specs.Configuration.{TitleEntry};

    ghost Value = { List TitleEntry };

    ghost view = { λ t. t.rows.items };

    ghost use Rattle.sccp_relay.specs.Table.{IsTable};

    ghost invariant = { IsTable };
}

impl Translations {
    /// A table without rows. It allocates from this allocator as rows are added.
    pub fn new(alloc: Global) -> Translations
        ensures { result ≡ [] }
    {
        Translations {
            rows: Vec::new(alloc),
            trie: Trie::new(alloc),
        }
    }

    /// A table of these rows, no two of one key and the same digits, sorted once. It allocates from this allocator, now
    /// and as rows are added.
    pub fn of_rows(alloc: Global, rows: &[TitleRow]) -> Result<Translations, AllocError>
        requires fits { length rows.now ≤ Limits.TITLES }
        requires differ { IsDistinct is_same_place rows.now }
        ensures { IfOk result (λ table. table ≡ table_of rows.now) }
    {
        let mut rows = Vec::from_slice(alloc, rows)?;
        sort(&mut rows);
        let trie = trie_of(alloc, &rows)?;
        Ok(Translations { rows, trie })
    }

    /// A copy, which allocates from this allocator, now and as rows are added to it.
    pub fn copy(&self, alloc: Global) -> Result<Translations, AllocError>
        ensures { IfOk result (λ table. table ≡ self.now) }
    {
        let rows = Vec::from_slice(alloc, &self.rows)?;
        let trie = trie_of(alloc, &rows)?;
        Ok(Translations { rows, trie })
    }

    /// How many rows there are.
    pub fn len(&self) -> usize
        ensures count { result ≡ length self.now }
        ensures fits { length self.now ≤ Limits.TITLES }
    {
        self.rows.len()
    }

    /// Whether there are none.
    pub fn is_empty(&self) -> bool
        ensures { IsTrue result ↔ (self.now ≡ []) }
    {
        self.rows.is_empty()
    }

    /// Adds a row at its place: by translation type, plan, nature, then digit by digit, a prefix before what it begins.
    /// It finds the place by binary search, and moves the rows after it.
    ///
    /// Refused DuplicateRow if there is a row of its key and digits; otherwise TableFull if there are 65,535 rows;
    /// otherwise NoMemory if an allocation is refused. A refusal leaves the table as it was.
    pub fn add(&mut self, row: TitleRow) -> Result<(), Cause>
        ensures added { OnOk result (self.new ≡ with_row row self.old) }
        ensures unchanged { OnErr result (self.new ≡ self.old) }
        ensures refused { (cause : Cause) → add_refusal self.old row ≡ Some cause → result ≡ Err cause }
        ensures memory { add_refusal self.old row ≡ None → IsOkUnless result Cause.NoMemory }
    {
        let Err(place) = place(&self.rows, key_of(&row), row.digits()) else {
            return Err(Cause::DuplicateRow);
        };
        if self.rows.len() >= Limits::TITLES {
            return Err(Cause::TableFull);
        }
        match put(&mut self.rows, &mut self.trie, place, row) {
            Ok(()) => Ok(()),
            Err(_) => Err(Cause::NoMemory),
        }
    }

    /// Puts a row in the place of the one of its key and digits, or adds it if there is none, as `add` does. It finds the
    /// place by binary search. A row that is replaced needs no memory, and moves no other.
    ///
    /// Refused as `add` refuses, but never if there is a row of its key and digits. A refusal leaves the table as it
    /// was.
    pub fn set(&mut self, row: TitleRow) -> Result<(), Cause>
        ensures set { OnOk result (self.new ≡ with_row row self.old) }
        ensures unchanged { OnErr result (self.new ≡ self.old) }
        ensures replaced { IsTrue (has_row self.old (row_place row)) → IsOk result }
        ensures refused { (cause : Cause) → set_refusal self.old row ≡ Some cause → result ≡ Err cause }
        ensures memory { set_refusal self.old row ≡ None → IsOkUnless result Cause.NoMemory }
    {
        let Ok(place) = place(&self.rows, key_of(&row), row.digits()) else {
            return self.add(row);
        };
        replace(&mut self.trie, &row);
        self.rows[place] = row;
        Ok(())
    }

    /// Removes the row of this key and exactly these digits. It finds it by binary search, and moves the rows after it.
    ///
    /// Refused NoSuchName if there is none; then the table stays as it was.
    pub fn remove(&mut self, key: TitleKey, digits: &[u8]) -> Result<(), Cause>
        ensures found { IsOk result ↔ IsTrue (has_row self.old (place_of key digits.now)) }
        ensures removed { OnOk result (self.new ≡ without_row (place_of key digits.now) self.old) }
        ensures refused { IfErr result (λ cause. cause ≡ Cause.NoSuchName) }
        ensures unchanged { OnErr result (self.new ≡ self.old) }
    {
        let Ok(place) = place(&self.rows, key, digits) else {
            return Err(Cause::NoSuchName);
        };
        let row = self.rows.remove(place);
        let _ = self.trie.remove(way_of(&row).as_slice());
        Ok(())
    }

    /// The row of this number, from 0, in the order of the rows. None past the last.
    pub fn row(&self, index: usize) -> Option<TitleRow>
        ensures row { result ≡ slice_get self.now index }
        ensures order { IsOrdered self.now }
    {
        self.rows.get(index).copied()
    }

    /// The row that translates an address of this key and these digits: of the rows of the key whose digits begin
    /// these, the one with the most. It takes a step for each digit, however many rows there are, and a binary search
    /// among the rows more if that row has a backup or changes titles. If none begins them, it looks for a row of the
    /// key by binary search.
    ///
    /// Refused NoNature if there is no row of the key; otherwise NoDigits if none of these begins the digits (Q.714
    /// §2.8).
    pub fn translate(&self, key: TitleKey, digits: &[u8]) -> Result<TitleRow, Cause>
        // What the rows say.
        ensures exact { result ≡ translation self.now key digits.now }
        // The row is the longest that leads the digits.
        ensures longest { IfOk result (IsTranslation self.now key digits.now) }
    {
        match self.trie.longest_behind(&key_digits(key), digits) {
            Some((count, lead)) if lead < MORE => Ok(row_led(key, &digits[..count], lead)),
            Some((count, _)) => row_at(&self.rows, key, &digits[..count]),
            None if has_key(&self.rows, key) => Err(Cause::NoDigits),
            None => Err(Cause::NoNature),
        }
    }

    /// Whether a row leads to a subsystem, by a walk over all rows.
    pub(crate) fn lead_to(&self, subsystem: &Subsystem) -> bool
        ensures { result ≡ list_any (leads_to subsystem.now) self.now }
    {
        self.rows.iter().any(|row| leads_to(row, subsystem))
    }
}

/// Whether a row leads to a subsystem, at its point or at its backup.
fn leads_to(row: &TitleRow, subsystem: &Subsystem) -> bool
    ensures { result ≡ leads_to subsystem.now row.now }
{
    is_for(row.route(), subsystem.ssn)
        && (row.point() == subsystem.point || row.backup() == Some(subsystem.point))
}

/// Whether a row is routed by this subsystem number.
fn is_for(route: TitleRoute, ssn: u8) -> bool
    ensures { result ≡ is_for route ssn }
{
    match route {
        TitleRoute::Title(_) => false,
        TitleRoute::Ssn(number) => number.number() == ssn,
    }
}

/// Puts a row at its place among the others, and makes the trie lead to it. Room is made for both first, so an error
/// leaves both as they were.
fn put(
    rows: &mut Vec<TitleRow>,
    trie: &mut Trie,
    place: usize,
    row: TitleRow,
) -> Result<(), AllocError>
    requires { place ≤ length rows.old.items }
    ensures rows { rows.new.items ≡ (if is_ok result then insert rows.old.items place row else rows.old.items) }
    ensures trie { stored trie.new ≡ (if is_ok result then with_value (stored trie.old) (way_of row) (lead_of row)
        else stored trie.old) }
    ensures free { OnOk result (stored trie.old (way_of row) ≡ None) }
    ensures row { OnOk result (IsRow row) }
{
    rows.try_reserve(1)?;
    if enter(trie, &row).is_err() {
        return Err(AllocError);
    }
    rows.insert(place, row).unwrap();
    Ok(())
}
