//! The faults of translation rows.

ghost use Rattle.std.specs.Prelude.{◌≡◌, ◌≤◌, ◌∷◌, ◌++◌, [], not, length, string_bytes, IfOk, OnOk};
ghost use Rattle.std.specs.List.{list_any};
ghost use Rattle.settings.specs.Checks.{entries_checks, digits_fault, added_fault, route_fault, ssn_fault};
ghost use Rattle.settings.specs.TitleFaults.{is_same_title, title_numbers_fault, title_numbers_checks, title_change_checks};
ghost use Rattle.settings.specs.AllFaults.{title_digits_check, title_target_checks, title_checks, titles_checks};
ghost use Rattle.settings.specs.SeenTitles.{AreOf};
ghost use Rattle.settings.specs.Told.{tell_all};

use crate::digits::{added_digits, digits};
use crate::faults::numbers::{behind, ensure_check, first, optional_check, range_check};
use crate::faults::told::tell;
use crate::titles::{TitleKey, is_by_title, title_key, title_numbers};
use crate::{ChangeDraft, DraftFault, FaultKind, Key, TitleDraft};
use indexmap::IndexSet;
use signalling_types::Limits;
use std::alloc::{AllocError, Global};

/// Whether a row has the key and the digits of one of those before it, which were seen. It is seen from now on.
fn see(
    seen: &mut IndexSet<TitleKey>,
    earlier: &[TitleDraft],
    title: &TitleDraft,
) -> Result<bool, AllocError>
    requires { AreOf seen.old.keys earlier.now }
    ensures value { IfOk result (λ is_repeat. length (string_bytes title.now.digits) ≤ Limits.TITLE_DIGITS
        → is_repeat ≡ list_any (is_same_title title.now) earlier.now) }
    ensures seen { OnOk result (AreOf seen.new.keys (earlier.now ++ title.now ∷ [])) }
{
    if title.digits.len() > Limits::TITLE_DIGITS {
        return Ok(false);
    }
    let is_new = seen.insert(title_key(title))?;
    Ok(!is_new)
}

/// The form of the digits of a translation row.
fn form_check(text: &str, key: Key) -> Option<DraftFault>
    ensures { result ≡ digits_fault key text.now }
{
    digits(text, key).err()
}

/// The translation type, the numbering plan and the nature of address of a row at this index.
fn numbers_check(title: &TitleDraft, place: usize) -> Option<DraftFault>
    ensures { result ≡ title_numbers_fault place title.now }
{
    title_numbers(title, place).err()
}

/// The digits of a translation row, after the rows before it, which were seen.
fn digits_check(
    seen: &mut IndexSet<TitleKey>,
    earlier: &[TitleDraft],
    title: &TitleDraft,
) -> Result<Option<DraftFault>, AllocError>
    requires { AreOf seen.old.keys earlier.now }
    ensures value { IfOk result (λ check. check ≡ title_digits_check earlier.now title.now) }
    ensures seen { OnOk result (AreOf seen.new.keys (earlier.now ++ title.now ∷ [])) }
{
    let key = Key::TitleDigits(earlier.len());
    let is_repeat = see(seen, earlier, title)?;
    let repeat = ensure_check(!is_repeat, FaultKind::Duplicate, key);
    Ok(first(
        form_check(title.digits.as_str(), key),
        behind(numbers_check(title, earlier.len()), repeat),
    ))
}

/// Tells the faults of the translation type, the numbering plan and the nature of address of a row at this index.
fn tell_numbers(
    told: &mut Vec<DraftFault>,
    place: usize,
    title: &TitleDraft,
) -> Result<(), AllocError>
    ensures { OnOk result (told.new.items ≡ tell_all told.old.items (title_numbers_checks place title.now)) }
{
    tell(
        told,
        range_check(title.translation, 0, 255, Key::TitleTranslation(place)),
    )?;
    tell(told, range_check(title.plan, 0, 15, Key::TitlePlan(place)))?;
    tell(
        told,
        range_check(title.nature, 0, 127, Key::TitleNature(place)),
    )?;
    Ok(())
}

/// The route of a row.
fn route_check(route: &str, key: Key) -> Option<DraftFault>
    ensures { result ≡ route_fault key route.now }
{
    is_by_title(route, key).err()
}

/// The subsystem number of a row, which may be left out unless the route is by it.
fn ssn_check(by_number: bool, ssn: Option<i64>, key: Key) -> Option<DraftFault>
    ensures { result ≡ ssn_fault (not by_number) key ssn }
{
    first(
        optional_check(ssn, 1, 255, key),
        ensure_check(!by_number || ssn.is_some(), FaultKind::Range, key),
    )
}

/// Tells the faults of where a row at this index leads to.
fn tell_target(
    told: &mut Vec<DraftFault>,
    place: usize,
    title: &TitleDraft,
) -> Result<(), AllocError>
    ensures { OnOk result (told.new.items ≡ tell_all told.old.items (title_target_checks place title.now)) }
{
    let by_number = title.route.as_str() == "ssn";
    tell(
        told,
        range_check(title.point, 0, 16_383, Key::TitlePoint(place)),
    )?;
    tell(
        told,
        optional_check(title.backup, 0, 16_383, Key::TitleBackup(place)),
    )?;
    tell(
        told,
        route_check(title.route.as_str(), Key::TitleRoute(place)),
    )?;
    tell(told, ssn_check(by_number, title.ssn, Key::TitleSsn(place)))?;
    Ok(())
}

/// The digits that a row puts on in front of a title.
fn added_check(text: &str, key: Key) -> Option<DraftFault>
    ensures { result ≡ added_fault key text.now }
{
    added_digits(text, key).err()
}

/// Tells the faults of how a row at this index changes titles.
fn tell_change(
    told: &mut Vec<DraftFault>,
    place: usize,
    change: &ChangeDraft,
) -> Result<(), AllocError>
    ensures { OnOk result (told.new.items ≡ tell_all told.old.items (title_change_checks place change.now)) }
{
    let most = Limits::TITLE_DIGITS as u16;
    tell(
        told,
        optional_check(change.plan, 0, 15, Key::TitleNewPlan(place)),
    )?;
    tell(
        told,
        optional_check(change.nature, 0, 127, Key::TitleNewNature(place)),
    )?;
    tell(
        told,
        range_check(change.removed, 0, most, Key::TitleRemove(place)),
    )?;
    tell(
        told,
        added_check(change.added.as_str(), Key::TitleAdd(place)),
    )?;
    Ok(())
}

/// Tells the faults of a translation row, after the rows before it, which were seen.
#[tactic(auto, unfolding(crate::specs::AllFaults::title_checks))]
fn tell_title(
    told: &mut Vec<DraftFault>,
    seen: &mut IndexSet<TitleKey>,
    earlier: &[TitleDraft],
    title: &TitleDraft,
) -> Result<(), AllocError>
    requires { AreOf seen.old.keys earlier.now }
    ensures told { OnOk result (told.new.items ≡ tell_all told.old.items (title_checks earlier.now title.now)) }
    ensures seen { OnOk result (AreOf seen.new.keys (earlier.now ++ title.now ∷ [])) }
{
    let place = earlier.len();
    let digits = digits_check(seen, earlier, title)?;
    tell_numbers(told, place, title)?;
    tell(told, digits)?;
    tell_target(told, place, title)?;
    tell_change(told, place, &title.change)?;
    Ok(())
}

/// Tells the faults of each translation row.
fn tell_each(
    alloc: Global,
    told: &mut Vec<DraftFault>,
    titles: &[TitleDraft],
) -> Result<(), AllocError>
    ensures { OnOk result (told.new.items ≡ tell_all told.old.items (entries_checks title_checks [] titles.now)) }
{
    let mut seen = IndexSet::with_capacity(alloc, titles.len())?;
    for i in 0..titles.len() {
        tell_title(told, &mut seen, &titles[..i], &titles[i])?;
    }
    Ok(())
}

/// Tells the faults of the translation rows.
#[tactic(auto, unfolding(crate::specs::AllFaults::titles_checks))]
pub(crate) fn tell_titles(
    alloc: Global,
    told: &mut Vec<DraftFault>,
    titles: &[TitleDraft],
) -> Result<(), AllocError>
    ensures { OnOk result (told.new.items ≡ tell_all told.old.items (titles_checks titles.now)) }
{
    let count = ensure_check(
        titles.len() <= Limits::TITLES,
        FaultKind::TooMany,
        Key::Title,
    );
    tell(told, count)?;
    if count.is_some() {
        return Ok(());
    }
    tell_each(alloc, told, titles)
}
