//! Changes of titles as an operator writes them.

ghost use Rattle.std.specs.Prelude.{◌≡◌, ◌≤◌, ◌<◌, ◌^◌, All, IfSome, length};
ghost use Rattle.std.specs.Option.{option_map};
ghost use Rattle.console.specs.Words.{words_left};
ghost use Rattle.console.specs.TitleWords.{given_written, added_written, change_written, changed_by, if_last, with_change};
ghost use Rattle.console.specs.declared.title_mistakes.TitleMistake.TheVariants.{Behind};

use crate::numbers::read_number;
use crate::title_mistakes::TitleMistake;
use crate::title_words::{LAST_NATURE, LAST_PLAN, read_digits};
use crate::words::{cut, next_word};
use arrayvec::ArrayVec;
use exchange::TitleDigits;
use settings::{Limits, TitleChange, TitleRow};

/// The row with the change of titles that these words write, `changed PLAN NATURE REMOVE ADD`; without words, as it is.
/// The error is the first mistake in them.
pub(crate) fn changed_by(row: TitleRow, text: Option<&[u8]>) -> Result<TitleRow, TitleMistake>
    ensures { result ≡ changed_by row (words_left text.entry) }
{
    let Some(text) = text else {
        return Ok(row);
    };
    let (word, rest) = cut(text);
    if word != b"changed".as_slice() {
        return Err(TitleMistake::Behind);
    }
    with_change(row, rest)
}

/// The row with the change of titles that these words write, and no others behind them. The error is the first mistake
/// in them.
fn with_change(row: TitleRow, text: Option<&[u8]>) -> Result<TitleRow, TitleMistake>
    ensures { result ≡ with_change row (words_left text.entry) }
{
    let (plan, rest) = next_word(text);
    let (nature, rest) = next_word(rest);
    let (removed, rest) = next_word(rest);
    let (added, rest) = next_word(rest);
    let change = read_change(plan, nature, removed, added)?;
    completed(row.with_change(change), rest)
}

/// A row that no words are behind.
#[tactic(auto, using(crate::proofs::LastWords::last_steps))]
fn completed(row: TitleRow, text: Option<&[u8]>) -> Result<TitleRow, TitleMistake>
    ensures { result ≡ if_last (words_left text.entry) Behind row }
{
    match text {
        None => Ok(row),
        Some(_) => Err(TitleMistake::Behind),
    }
}

/// The change of titles that these words write. The error is the first mistake in them.
fn read_change(
    plan: &[u8],
    nature: &[u8],
    removed: &[u8],
    added: &[u8],
) -> Result<TitleChange, TitleMistake>
    ensures { result ≡ change_written plan.now nature.now removed.now added.now }
{
    let plan = read_given(plan, LAST_PLAN).ok_or(TitleMistake::NewPlan)?;
    let nature = read_given(nature, LAST_NATURE).ok_or(TitleMistake::NewNature)?;
    let removed = read_number(removed, 0, Limits::TITLE_DIGITS as u16).ok_or(TitleMistake::Remove)?;
    let added = read_added(added).ok_or(TitleMistake::Add)?;
    TitleChange::new(plan, nature, removed as u8, added.as_slice()).ok_or(TitleMistake::Behind)
}

/// A number up to the most, or none if it is written `-`.
fn read_given(text: &[u8], most: u16) -> Option<Option<u8>>
    requires { most < 2 ^ 8 }
    ensures value { result ≡ given_written most text.now }
    ensures below { IfSome result (λ given. IfSome given (λ n. n ≤ most)) }
{
    if text == b"-".as_slice() {
        return Some(None);
    }
    let number = read_number(text, 0, most)?;
    Some(Some(number as u8))
}

/// The digits that are put on, or none if they are written `-`.
fn read_added(text: &[u8]) -> Option<TitleDigits>
    ensures value { option_map (λ digits. digits.items) result ≡ added_written text.now }
    ensures fits { IfSome result (λ digits. length digits.items ≤ Limits.TITLE_DIGITS) }
    ensures range { IfSome result (λ digits. All (λ digit. digit < 2 ^ 4) digits.items) }
{
    if text == b"-".as_slice() {
        return Some(ArrayVec::new());
    }
    read_digits(text)
}
