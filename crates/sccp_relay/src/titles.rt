//! Translation rows, and what is known of the subsystems that they lead to.

ghost use Rattle.std.specs.Prelude.{◌≡◌, ◌≤◌, length, slice_get, Some, None, Err, IfOk, IfErr, OnOk, OnErr, IsOk, IsOkUnless, IsTrue, ◌↔◌};
ghost use Rattle.std.specs.List.{IsDistinct};
ghost use Rattle.sccp_relay.specs.Rows.{IsOrdered, place_of, row_place, has_row, with_row, without_row, add_refusal, set_refusal, is_same_place};
ghost use Rattle.sccp_relay.specs.Statuses as rule;
ghost use Rattle.sccp_relay.specs.SubsystemTests.{due_tests, ticked};
ghost use Rattle.sccp_relay.specs.Translation.{translation};
ghost use Rattle.sccp_relay.specs.Values.{own_value};

use crate::Translations;
use crate::own::{Own, Ways};
use crate::prohibited::Prohibited;
use crate::subsystem::{PROHIBITED_SUBSYSTEMS, ProhibitedSubsystem, Subsystem, SubsystemNews};
use arrayvec::ArrayVec;
use sccp_codec::TitleKey;
use settings::TitleRow;
use signalling_types::{Cause, Limits};
use std::alloc::{AllocError, Global};
use std::marker::Model;

/// A table of translation rows, and which of the subsystems that they lead to are prohibited, at most 256 (Q.714
/// §5.3.2).
#[derive(Drop)]
pub struct Titles {
    translations: Translations,
    prohibited: Prohibited,
}

impl Model for Titles {
    ghost use Rattle.sccp_relay.specs.Statuses.{TitlesValue};

    ghost Value = { TitlesValue };

    ghost view = { λ t. record { rows = t.translations; prohibited = t.prohibited } };
}

impl Titles {
    /// A table of these rows, no two of one key and the same digits. All subsystems are allowed. It allocates from this
    /// allocator, now and as rows are added.
    pub fn of_rows(alloc: Global, rows: &[TitleRow]) -> Result<Titles, AllocError>
        requires fits { length rows.now ≤ Limits.TITLES }
        requires differ { IsDistinct is_same_place rows.now }
        ensures { IfOk result (λ titles. titles ≡ rule.first_titles rows.now) }
    {
        Ok(Titles {
            translations: Translations::of_rows(alloc, rows)?,
            prohibited: Prohibited::none(alloc)?,
        })
    }

    /// A copy, which allocates from this allocator, now and as rows are added to it.
    pub fn copy(&self, alloc: Global) -> Result<Titles, AllocError>
        ensures { IfOk result (λ titles. titles ≡ self.now) }
    {
        Ok(Titles {
            translations: self.translations.copy(alloc)?,
            prohibited: self.prohibited.copy(alloc)?,
        })
    }

    /// How many rows there are.
    pub fn len(&self) -> usize
        ensures count { result ≡ length self.now.rows }
        ensures fits { length self.now.rows ≤ Limits.TITLES }
    {
        self.translations.len()
    }

    /// The row of this number, from 0, in the order of the rows. None past the last.
    pub fn row(&self, index: usize) -> Option<TitleRow>
        ensures row { result ≡ slice_get self.now.rows index }
        ensures order { IsOrdered self.now.rows }
    {
        self.translations.row(index)
    }

    /// Adds a row at its place, as `Translations::add` does. A refusal leaves all as it was.
    pub fn add(&mut self, row: TitleRow) -> Result<(), Cause>
        ensures added { OnOk result (self.new ≡ record self.old { rows = with_row row self.old.rows }) }
        ensures unchanged { OnErr result (self.new ≡ self.old) }
        ensures refused { (cause : Cause) → add_refusal self.old.rows row ≡ Some cause → result ≡ Err cause }
        ensures memory { add_refusal self.old.rows row ≡ None → IsOkUnless result Cause.NoMemory }
    {
        self.translations.add(row)
    }

    /// Puts a row in the place of the one of its key and digits, or adds it, as `Translations::set` does. A refusal
    /// leaves all as it was.
    pub fn set(&mut self, row: TitleRow) -> Result<(), Cause>
        ensures set { OnOk result (self.new ≡ record self.old { rows = with_row row self.old.rows }) }
        ensures unchanged { OnErr result (self.new ≡ self.old) }
        ensures replaced { IsTrue (has_row self.old.rows (row_place row)) → IsOk result }
        ensures refused { (cause : Cause) → set_refusal self.old.rows row ≡ Some cause → result ≡ Err cause }
        ensures memory { set_refusal self.old.rows row ≡ None → IsOkUnless result Cause.NoMemory }
    {
        self.translations.set(row)
    }

    /// Removes the row of this key and exactly these digits, as `Translations::remove` does. A refusal leaves all as it
    /// was.
    pub fn remove(&mut self, key: TitleKey, digits: &[u8]) -> Result<(), Cause>
        ensures found { IsOk result ↔ IsTrue (has_row self.old.rows (place_of key digits.now)) }
        ensures removed { OnOk result
            (self.new ≡ record self.old { rows = without_row (place_of key digits.now) self.old.rows }) }
        ensures refused { IfErr result (λ cause. cause ≡ Cause.NoSuchName) }
        ensures unchanged { OnErr result (self.new ≡ self.old) }
    {
        self.translations.remove(key, digits)
    }

    /// The row that translates an address of this key and these digits, as `Translations::translate` gives it.
    pub fn translate(&self, key: TitleKey, digits: &[u8]) -> Result<TitleRow, Cause>
        ensures { result ≡ translation self.now.rows key digits.now }
    {
        self.translations.translate(key, digits)
    }

    /// Whether a subsystem is prohibited, by a walk over those that are.
    pub fn is_prohibited(&self, subsystem: &Subsystem) -> bool
        ensures { result ≡ rule.is_prohibited self.now.prohibited subsystem.now }
    {
        self.prohibited.has(subsystem)
    }

    /// The prohibited subsystem of this number, from 0, in the order in which they were heard of. None past the last.
    pub fn prohibited(&self, index: usize) -> Option<ProhibitedSubsystem>
        ensures { result ≡ slice_get self.now.prohibited index }
    {
        self.prohibited.get(index)
    }

    /// How many subsystems are prohibited.
    pub fn prohibited_len(&self) -> usize
        ensures { result ≡ length self.now.prohibited }
    {
        self.prohibited.len()
    }

    /// The subsystems of which a test is due, in the order in which they were heard of. It looks at each that is
    /// prohibited.
    pub fn due_tests(&self) -> ArrayVec<Subsystem, PROHIBITED_SUBSYSTEMS>
        ensures { result.items ≡ due_tests self.now }
    {
        self.prohibited.due()
    }

    /// A tick passes: each prohibited subsystem has one tick less until its next test, `sst` ticks after the last one.
    /// Those whose point isn't reached are allowed again, and, as a test of them comes due, those to which no row
    /// leads. It looks at each of them, and at all rows for those, and allocates nothing (Q.714 §5.2.2, §5.2.3,
    /// §5.3.4).
    pub fn tick<W: Ways>(&mut self, sst: u16, own: &Own<'_, W>)
        ensures { self.new ≡ ticked (own_value W.leads own.now) sst self.old }
    {
        self.prohibited.count(sst);
        self.prohibited.keep(own, &self.translations);
    }

    /// Hears what an SSP or an SSA says of a subsystem. It has an effect only if the point of the subsystem says it;
    /// then an SSA ends that the subsystem is prohibited, and after an SSP it is, if a row leads to it, and is tested
    /// after `sst` ticks. Beyond 256 nothing more is. It walks over all rows at most, and allocates nothing (Q.714
    /// §5.3.2, §5.3.3).
    pub fn hear(&mut self, sst: u16, news: &SubsystemNews)
        ensures { self.new ≡ rule.heard sst news.now self.old }
    {
        if news.sender != news.subsystem.point {
            return;
        }
        if news.is_prohibited {
            self.prohibit(sst, &news.subsystem);
        } else {
            self.prohibited.remove(&news.subsystem);
        }
    }

    /// One more subsystem is prohibited, if a row leads to it and there is room.
    fn prohibit(&mut self, sst: u16, subsystem: &Subsystem)
        ensures { self.new ≡ rule.prohibit sst subsystem.now self.old }
    {
        if self.prohibited.has(subsystem) || self.prohibited.is_full() {
            return;
        }
        if self.translations.lead_to(subsystem) {
            self.prohibited.add(ProhibitedSubsystem {
                subsystem: *subsystem,
                ticks: sst,
            });
        }
    }
}
