//! Titles that are tested, as an operator writes them.

ghost use Rattle.std.specs.Prelude.{◌≡◌, IfOk};
ghost use Rattle.settings.specs.TitleRanges.{HasTitleRanges};
ghost use Rattle.console.specs.Words.{words_left};
ghost use Rattle.console.specs.TitleTests.{title_tested, title_written};

use crate::title_mistakes::TitleMistake;
use crate::title_words::{RowName, read_name};
use crate::words::next_word;

/// The title that the words behind `test` write: `title T P N DIGITS`. The error is the first mistake in them.
pub fn title_tested(text: Option<&[u8]>) -> Result<RowName, TitleMistake>
    ensures value { result ≡ title_tested (words_left text.entry) }
    ensures ranges { IfOk result (λ name. HasTitleRanges name.key.plan name.key.nature name.digits.items) }
{
    let (word, rest) = next_word(text);
    if word != b"title".as_slice() {
        return Err(TitleMistake::Tested);
    }
    title_written(rest)
}

/// The title of these words, with no others behind them.
#[tactic(auto, using(crate::proofs::LastWords::last_steps))]
fn title_written(text: Option<&[u8]>) -> Result<RowName, TitleMistake>
    ensures value { result ≡ title_written (words_left text.entry) }
    ensures ranges { IfOk result (λ name. HasTitleRanges name.key.plan name.key.nature name.digits.items) }
{
    let (translation, rest) = next_word(text);
    let (plan, rest) = next_word(rest);
    let (nature, rest) = next_word(rest);
    let (digits, rest) = next_word(rest);
    let name = read_name(translation, plan, nature, digits)?;
    match rest {
        None => Ok(name),
        Some(_) => Err(TitleMistake::BehindTested),
    }
}
