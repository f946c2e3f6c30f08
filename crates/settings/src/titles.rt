//! Translation rows of settings.

ghost use Rattle.std.specs.Option.{option_map};
ghost use Rattle.std.specs.Prelude.{if◌then◌else◌, ◌≡◌, ◌<◌, ◌≤◌, ◌^◌, ◌∷◌, ◌++◌, ◌⊎◌, [], ◌||◌, None, Some, is_some};
ghost use Rattle.std.specs.Prelude.{All, codes, length, map, IfOk, OnOk, IfErr, string_bytes};
ghost use Rattle.std.specs.List.{list_all};
ghost use Rattle.std.specs.Str.{bytes_eq};
ghost use Rattle.settings.specs.Checks.{natural, fault_unless, optional_fault, entries_fault, route_fault};
ghost use Rattle.settings.specs.Meaning.{title_of, digit_of, route_of};
ghost use Rattle.settings.specs.Configuration.{unchanged};
ghost use Rattle.settings.specs.Titles.{title_key};
ghost use Rattle.settings.specs.TitleFaults.{title_numbers_fault, title_digits_fault, title_target_fault};
ghost use Rattle.settings.specs.TitleFaults.{title_fault, titles_fault};

use crate::changes::title_change;
use crate::digits::{Digits, digits};
use crate::numbers::{ensure, number, optional_point, point};
use crate::{DraftFault, FaultKind, Key, TitleDraft, TitleRoute, TitleRow};
use arrayvec::ArrayVec;
use indexmap::IndexSet;
use signalling_types::{Limits, PointCode, Ssn};
use std::alloc::Global;

/// The largest subsystem number.
const LAST_SUBSYSTEM: u16 = 255;

/// The largest translation type.
const LAST_TRANSLATION: u16 = 255;

/// The largest numbering plan.
pub(crate) const LAST_PLAN: u16 = 15;

/// The largest nature of address.
pub(crate) const LAST_NATURE: u16 = 127;

/// What may be in one translation row alone: its key and its digits, as they were written.
#[derive(PartialEq, Eq, Hash, Drop)]
pub(crate) struct TitleKey {
    translation: i64,
    plan: i64,
    nature: i64,
    digits: Digits,
}

/// The key and the digits of a translation row, as they were written.
pub(crate) fn title_key(title: &TitleDraft) -> TitleKey
    requires { length (string_bytes title.now.digits) ≤ Limits.TITLE_DIGITS }
    ensures { result ≡ title_key title.now }
{
    let mut digits = ArrayVec::new();
    for octet in title.digits.as_bytes() {
        digits.push(*octet);
    }
    TitleKey {
        translation: title.translation,
        plan: title.plan,
        nature: title.nature,
        digits,
    }
}

/// The digits of a translation row, after the rows before it, whose keys are `seen`.
fn title_digits(
    seen: &mut IndexSet<TitleKey>,
    earlier: &[TitleDraft],
    title: &TitleDraft,
) -> Result<Digits, DraftFault>
    requires { seen.old.keys ≡ map title_key earlier.now }
    ensures value { IfOk result (λ digits.
        digits.items ≡ map digit_of (string_bytes title.now.digits)) }
    ensures some { IfOk result (λ digits. 1 ≤ length digits.items) }
    ensures fits { IfOk result (λ digits. length digits.items ≤ Limits.TITLE_DIGITS) }
    ensures range { IfOk result (λ digits. All (λ digit. digit < 2 ^ 4) digits.items) }
    ensures seen { OnOk result (seen.new.keys ≡ seen.old.keys ++ title_key title.now ∷ []) }
    ensures well { OnOk result (title_digits_fault earlier.now title.now ≡ None) }
    ensures fault { IfErr result (λ fault.
        (fault ≡ DraftFault.NoMemory) ⊎ (title_digits_fault earlier.now title.now ≡ Some fault)) }
{
    let key = Key::TitleDigits(earlier.len());
    let digits = digits(title.digits.as_str(), key)?;
    let is_new = seen.insert(title_key(title))?;
    ensure(is_new, FaultKind::Duplicate, key)?;
    Ok(digits)
}

/// Whether a route is by title; otherwise it is by subsystem number.
pub(crate) fn is_by_title(route: &str, key: Key) -> Result<bool, DraftFault>
    ensures value { IfOk result (λ by_title. by_title ≡ bytes_eq route.now (codes "title")) }
    ensures well { OnOk result (route_fault key route.now ≡ None) }
    ensures fault { IfErr result (λ fault. route_fault key route.now ≡ Some fault) }
{
    let by_title = route == "title";
    let by_number = route == "ssn";
    ensure(by_title || by_number, FaultKind::Range, key)?;
    Ok(by_title)
}

/// The subsystem number that was written, if any.
fn subsystem(ssn: Option<i64>, key: Key) -> Result<Option<Ssn>, DraftFault>
    ensures value { IfOk result (λ n. n ≡ option_map natural ssn) }
    ensures well { OnOk result (optional_fault 1 255 key ssn ≡ None) }
    ensures fault { IfErr result (λ fault. optional_fault 1 255 key ssn ≡ Some fault) }
{
    let Some(ssn) = ssn else {
        return Ok(None);
    };
    let number = number(ssn, 1, LAST_SUBSYSTEM, key)?;
    Ok(Ssn::new(number as u8))
}

/// How a translation row is routed: by title or not, with this subsystem number, if any.
fn route(by_title: bool, ssn: Option<Ssn>, key: Key) -> Result<TitleRoute, DraftFault>
    ensures value { IfOk result (λ route. route ≡ route_of by_title ssn) }
    ensures well { OnOk result (fault_unless (by_title || is_some ssn) FaultKind.Range key ≡ None) }
    ensures fault { IfErr result (λ fault.
        fault_unless (by_title || is_some ssn) FaultKind.Range key ≡ Some fault) }
{
    match ssn {
        _ if by_title => Ok(TitleRoute::Title(ssn)),
        Some(ssn) => Ok(TitleRoute::Ssn(ssn)),
        None => Err(DraftFault::At(FaultKind::Range, key)),
    }
}

/// The translation type, the numbering plan and the nature of address of a translation row.
pub(crate) fn title_numbers(title: &TitleDraft, place: usize) -> Result<(u8, u8, u8), DraftFault>
    ensures value { IfOk result (λ n.
        n ≡ (natural title.now.translation, natural title.now.plan, natural title.now.nature)) }
    ensures plan { IfOk result (λ n. n.1 < 2 ^ 4) }
    ensures nature { IfOk result (λ n. n.2 < 2 ^ 7) }
    ensures well { OnOk result (title_numbers_fault place title.now ≡ None) }
    ensures fault { IfErr result (λ fault. title_numbers_fault place title.now ≡ Some fault) }
{
    let translation = number(
        title.translation,
        0,
        LAST_TRANSLATION,
        Key::TitleTranslation(place),
    )?;
    let plan = number(title.plan, 0, LAST_PLAN, Key::TitlePlan(place))?;
    let nature = number(title.nature, 0, LAST_NATURE, Key::TitleNature(place))?;
    Ok((translation as u8, plan as u8, nature as u8))
}

/// The same row, with this point as its backup, if any.
fn backed_up(row: TitleRow, backup: Option<PointCode>) -> TitleRow
    requires { row.backup ≡ None }
    ensures { result ≡ record row { backup = backup } }
{
    match backup {
        Some(point) => row.with_backup(point),
        None => row,
    }
}

/// The translation row of these numbers and digits, which are in the row that was written. It changes no titles yet.
fn routed_row(
    title: &TitleDraft,
    place: usize,
    numbers: (u8, u8, u8),
    digits: &[u8],
) -> Result<TitleRow, DraftFault>
    requires numbers { numbers
        ≡ (natural title.now.translation, natural title.now.plan, natural title.now.nature) }
    requires digits { digits.now ≡ map digit_of (string_bytes title.now.digits) }
    requires plan { numbers.1 < 2 ^ 4 }
    requires nature { numbers.2 < 2 ^ 7 }
    requires some { 1 ≤ length digits.now }
    requires fits { length digits.now ≤ Limits.TITLE_DIGITS }
    requires range { All (λ digit. digit < 2 ^ 4) digits.now }
    ensures value { IfOk result (λ row. row ≡ record (title_of title.now) { change = unchanged }) }
    ensures well { OnOk result (title_target_fault place title.now ≡ None) }
    ensures fault { IfErr result (λ fault. title_target_fault place title.now ≡ Some fault) }
{
    let (translation, plan, nature) = numbers;
    let point = point(title.point, Key::TitlePoint(place))?;
    let backup = optional_point(title.backup, Key::TitleBackup(place))?;
    let by_title = is_by_title(title.route.as_str(), Key::TitleRoute(place))?;
    let ssn = subsystem(title.ssn, Key::TitleSsn(place))?;
    let route = route(by_title, ssn, Key::TitleSsn(place))?;
    let row = TitleRow::new(translation, plan, nature, digits, point, route).ok_or(DraftFault::At(
        FaultKind::Range,
        Key::TitleDigits(place),
    ))?;
    Ok(backed_up(row, backup))
}

/// A translation row, after those before it, whose keys are `seen`.
fn title_row(
    seen: &mut IndexSet<TitleKey>,
    earlier: &[TitleDraft],
    title: &TitleDraft,
) -> Result<TitleRow, DraftFault>
    requires { seen.old.keys ≡ map title_key earlier.now }
    ensures value { IfOk result (λ row. row ≡ title_of title.now) }
    ensures seen { OnOk result (seen.new.keys ≡ seen.old.keys ++ title_key title.now ∷ []) }
    ensures well { OnOk result (title_fault earlier.now title.now ≡ None) }
    ensures fault { IfErr result (λ fault.
        (fault ≡ DraftFault.NoMemory) ⊎ (title_fault earlier.now title.now ≡ Some fault)) }
{
    let place = earlier.len();
    let numbers = title_numbers(title, place)?;
    let digits = title_digits(seen, earlier, title)?;
    let row = routed_row(title, place, numbers, digits.as_slice())?;
    let change = title_change(&title.change, place)?;
    Ok(row.with_change(change))
}

/// The rows of the translations.
fn title_rows(alloc: Global, titles: &[TitleDraft]) -> Result<Vec<TitleRow>, DraftFault>
    ensures value { IfOk result (λ rows. rows.items ≡ map title_of titles.now) }
    ensures well { OnOk result (entries_fault title_fault [] titles.now ≡ None) }
    ensures fault { IfErr result (λ fault.
        (fault ≡ DraftFault.NoMemory) ⊎ (entries_fault title_fault [] titles.now ≡ Some fault)) }
{
    let mut rows = Vec::with_capacity(alloc, titles.len())?;
    let mut seen = IndexSet::with_capacity(alloc, titles.len())?;
    for i in 0..titles.len() {
        let row = title_row(&mut seen, &titles[..i], &titles[i])?;
        rows.push_reserved(row);
    }
    Ok(rows)
}

/// The translation rows, as many as there may be.
#[tactic(auto, unfolding(crate::specs::TitleFaults::titles_fault))]
pub(crate) fn checked_titles(
    alloc: Global,
    titles: &[TitleDraft],
) -> Result<Vec<TitleRow>, DraftFault>
    ensures value { IfOk result (λ rows. rows.items ≡ map title_of titles.now) }
    ensures well { OnOk result (titles_fault titles.now ≡ None) }
    ensures fault { IfErr result (λ fault.
        (fault ≡ DraftFault.NoMemory) ⊎ (titles_fault titles.now ≡ Some fault)) }
{
    let fits = titles.len() <= Limits::TITLES;
    ensure(fits, FaultKind::TooMany, Key::Title)?;
    title_rows(alloc, titles)
}
