//! Translation rows as an operator writes them.

ghost use Rattle.std.specs.Prelude.{◌≡◌, ◌≤◌, ◌<◌, ◌^◌, if◌then◌else◌, [], ◌∷◌, Some, None, Ok, All, IfOk, IfSome, length, map};
ghost use Rattle.std.specs.Option.{option_map};
ghost use Rattle.std.specs.List.{list_all};
ghost use Rattle.settings.specs.TitleRanges.{HasTitleRanges};
ghost use Rattle.settings.specs.Checks.{is_digit};
ghost use Rattle.settings.specs.Meaning.{digit_of};
ghost use Rattle.console.specs.Words.{words_left};
ghost use Rattle.console.specs.Numbers.{number_within};
ghost use Rattle.console.specs.TitleWords.{key_written, digits_written, name_written, ssn_written};
ghost use Rattle.console.specs.TitleWords.{row_leading, row_of, row_written, completed_by};

use crate::change_words::changed_by;
use crate::numbers::read_number;
use crate::title_mistakes::TitleMistake;
use crate::words::next_word;
use arrayvec::ArrayVec;
use exchange::{TitleDigits, TitleKey};
use settings::{Limits, PointCode, PointFormat, Ssn, TitleRoute, TitleRow, parse_point};

/// The largest translation type.
const LAST_TRANSLATION: u16 = 255;

/// The largest numbering plan.
pub(crate) const LAST_PLAN: u16 = 15;

/// The largest nature of address.
pub(crate) const LAST_NATURE: u16 = 127;

/// The largest subsystem number.
const LAST_SUBSYSTEM: u16 = 255;

/// What names a translation row: no two of a node have the same.
#[derive(Drop)]
pub struct RowName {
    /// The translation type, the numbering plan and the nature of address.
    pub key: TitleKey,
    /// The digits that its addresses begin with.
    pub digits: TitleDigits,
}

/// What names a row, as its words write it. The error is the first mistake in them.
pub(crate) fn read_name(
    translation: &[u8],
    plan: &[u8],
    nature: &[u8],
    digits: &[u8],
) -> Result<RowName, TitleMistake>
    ensures value { result ≡ name_written translation.now plan.now nature.now digits.now }
    ensures ranges { IfOk result (λ name. HasTitleRanges name.key.plan name.key.nature name.digits.items) }
{
    let key = read_key(translation, plan, nature)?;
    let digits = read_digits(digits).ok_or(TitleMistake::Digits)?;
    Ok(RowName { key, digits })
}

/// A row of this name, which these words complete: `POINT ROUTE SSN`, the point in this format, and the words of a
/// backup and of a change of titles, if any. The error is the first mistake in them.
pub(crate) fn read_row(
    name: &RowName,
    text: Option<&[u8]>,
    points: PointFormat,
) -> Result<TitleRow, TitleMistake>
    requires { HasTitleRanges name.now.key.plan name.now.key.nature name.now.digits.items }
    ensures { result ≡ row_written points name.now (words_left text.entry) }
{
    let (point, rest) = next_word(text);
    let (route, rest) = next_word(rest);
    let (ssn, rest) = next_word(rest);
    let row = row_of(name, point, route, ssn, points)?;
    completed_by(row, rest, points)
}

/// The row with the backup that these words write, `backup POINT`, the point in this format, and with the change of
/// titles. One of the two may be missing. The error is the first mistake in them.
fn completed_by(
    row: TitleRow,
    text: Option<&[u8]>,
    points: PointFormat,
) -> Result<TitleRow, TitleMistake>
    ensures { result ≡ completed_by points row (words_left text.entry) }
{
    let (word, rest) = next_word(text);
    if word != b"backup".as_slice() {
        return changed_by(row, text);
    }
    let (backup, rest) = next_word(rest);
    let backup = parse_point(backup, points).ok_or(TitleMistake::Backup)?;
    changed_by(row.with_backup(backup), rest)
}

/// A row of this name, with the words of its other values. It has no backup, and changes no titles. The error is the
/// first mistake in them.
fn row_of(
    name: &RowName,
    point: &[u8],
    route: &[u8],
    ssn: &[u8],
    points: PointFormat,
) -> Result<TitleRow, TitleMistake>
    requires { HasTitleRanges name.now.key.plan name.now.key.nature name.now.digits.items }
    ensures { result ≡ row_of points name.now point.now route.now ssn.now }
{
    let point = parse_point(point, points).ok_or(TitleMistake::Point)?;
    if route == b"title".as_slice() {
        let ssn = read_ssn_or_none(ssn).ok_or(TitleMistake::Ssn)?;
        row_leading(name, point, TitleRoute::Title(ssn))
    } else if route == b"ssn".as_slice() {
        let ssn = read_ssn(ssn).ok_or(TitleMistake::Ssn)?;
        row_leading(name, point, TitleRoute::Ssn(ssn))
    } else {
        Err(TitleMistake::Route)
    }
}

/// The row of this name that leads to a point, and is routed there in a way.
fn row_leading(
    name: &RowName,
    point: PointCode,
    route: TitleRoute,
) -> Result<TitleRow, TitleMistake>
    requires { HasTitleRanges name.now.key.plan name.now.key.nature name.now.digits.items }
    ensures { result ≡ Ok (row_leading name.now point route) }
{
    let row = TitleRow::new(
        name.key.translation,
        name.key.plan,
        name.key.nature,
        name.digits.as_slice(),
        point,
        route,
    );
    match row {
        Some(row) => Ok(row),
        None => Err(TitleMistake::Digits),
    }
}

/// A translation type, a numbering plan and a nature of address. The error is the first mistake in them.
fn read_key(translation: &[u8], plan: &[u8], nature: &[u8]) -> Result<TitleKey, TitleMistake>
    ensures value { result ≡ key_written translation.now plan.now nature.now }
    ensures plan { IfOk result (λ key. key.plan < 2 ^ 4) }
    ensures nature { IfOk result (λ key. key.nature < 2 ^ 7) }
{
    let translation = read_number(translation, 0, LAST_TRANSLATION).ok_or(
        TitleMistake::Translation,
    )?;
    let plan = read_number(plan, 0, LAST_PLAN).ok_or(TitleMistake::Plan)?;
    let nature = read_number(nature, 0, LAST_NATURE).ok_or(TitleMistake::Nature)?;
    Ok(TitleKey {
        translation: translation as u8,
        plan: plan as u8,
        nature: nature as u8,
    })
}

/// The 1 to 32 digits of a row.
pub(crate) fn read_digits(text: &[u8]) -> Option<TitleDigits>
    ensures value { option_map (λ digits. digits.items) result ≡ digits_written text.now }
    ensures some { IfSome result (λ digits. 1 ≤ length digits.items) }
    ensures fits { IfSome result (λ digits. length digits.items ≤ Limits.TITLE_DIGITS) }
    ensures range { IfSome result (λ digits. All (λ digit. digit < 2 ^ 4) digits.items) }
{
    if text.is_empty() || text.len() > Limits::TITLE_DIGITS {
        return None;
    }
    digit_values(text)
}

fn digit_values(text: &[u8]) -> Option<TitleDigits>
    requires { length text.now ≤ Limits.TITLE_DIGITS }
    ensures value { option_map (λ digits. digits.items) result
        ≡ (if list_all is_digit text.now then Some (map digit_of text.now) else None) }
    ensures long { IfSome result (λ digits. length digits.items ≡ length text.now) }
    ensures range { IfSome result (λ digits. All (λ digit. digit < 2 ^ 4) digits.items) }
{
    let mut digits = ArrayVec::new();
    for octet in text {
        digits.push(digit_value(*octet)?);
    }
    Some(digits)
}

/// The value of a digit that is written 0 to 9 or a to f.
fn digit_value(octet: u8) -> Option<u8>
    ensures value { result ≡ (if is_digit octet then Some (digit_of octet) else None) }
    ensures range { IfSome result (λ digit. digit < 2 ^ 4) }
{
    match octet {
        b'0'..=b'9' => Some(octet - b'0'),
        b'a'..=b'f' => Some(octet - b'a' + 10),
        _ => None,
    }
}

/// A subsystem number, or none if it is written `-`.
fn read_ssn_or_none(text: &[u8]) -> Option<Option<Ssn>>
    ensures { result ≡ ssn_written text.now }
{
    if text == b"-".as_slice() {
        return Some(None);
    }
    let ssn = read_ssn(text)?;
    Some(Some(ssn))
}

fn read_ssn(text: &[u8]) -> Option<Ssn>
    ensures { result ≡ number_within 1 255 text.now }
{
    let number = read_number(text, 1, LAST_SUBSYSTEM)?;
    Ssn::new(number as u8)
}
