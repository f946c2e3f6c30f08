//! Why a line is none that a client may write.

ghost use Rattle.std.specs.Prelude.{◌≡◌};
ghost use Rattle.std.specs.List.{list_all};
ghost use Rattle.std.specs.Char.{is_ascii_hexdigit};
ghost use Rattle.console.specs.Words.{first_word, words_left};
ghost use Rattle.console.specs.Orders.{title_order};
ghost use Rattle.console.specs.Mistakes.{mistake_behind, mistake_of, octets_mistake, show_mistake, submit_mistake};
ghost use Rattle.console.specs.Mistakes.{row_mistake, test_mistake, title_mistake};
ghost use Rattle.console.specs.TitleTests.{title_tested};

use crate::client_words::{COMMANDS, ClientWord, TEXTS, first_client_word};
use crate::commands::Command;
use crate::order::title_order;
use crate::title_mistakes::TitleMistake;
use crate::title_tests::title_tested;
use crate::words::{cut, next_word};
use settings::{Limits, PointFormat};

/// Why a line is none that a client may write.
#[derive(Clone, Copy)]
pub enum Mistake {
    /// Its first word is no command.
    NoCommand,
    /// Its command is one of scripts alone: `up`, `down`, `frame`, `tick`, `take` or `wants`.
    OfScripts,
    /// Nothing has the name behind `show`.
    NoText,
    /// Behind `submit` a character is no hexadecimal digit.
    NoHexDigit,
    /// The octets behind `submit` have an odd number of digits.
    OddDigits,
    /// They are more than a message has.
    TooManyOctets,
    /// A word of a translation row, or of a title that is tested, is wrong or missing.
    Title(TitleMistake),
    /// A word behind `title set` is wrong or missing.
    SetTitle(TitleMistake),
    /// The words behind this command aren't of its form.
    Form(ClientWord),
}

/// Why a line is none that a client may write, if it is none. Points are read in this format.
pub(crate) fn find_mistake(line: &[u8], points: PointFormat) -> Mistake
    ensures { result ≡ mistake_of points line.now }
{
    let (word, behind) = next_word(Some(line));
    match first_client_word(word, COMMANDS) {
        Some(command) => mistake_behind(command, behind, points),
        None if Command::named(word).is_some() => Mistake::OfScripts,
        None => Mistake::NoCommand,
    }
}

/// What is wrong behind a command.
fn mistake_behind(command: ClientWord, behind: Option<&[u8]>, points: PointFormat) -> Mistake
    ensures { result ≡ mistake_behind points command (words_left behind.entry) }
{
    match command {
        ClientWord::Submit => submit_mistake(behind),
        ClientWord::Show => show_mistake(behind),
        ClientWord::Title => title_mistake(behind, points),
        ClientWord::Test => test_mistake(behind),
        _ => Mistake::Form(command),
    }
}

/// What is wrong behind `title`.
fn title_mistake(behind: Option<&[u8]>, points: PointFormat) -> Mistake
    ensures { result ≡ title_mistake (first_word (words_left behind.entry))
        (title_order points (words_left behind.entry)) }
{
    let (verb, _) = next_word(behind);
    match title_order(behind, points) {
        Ok(_) => Mistake::Form(ClientWord::Title),
        Err(mistake) => row_mistake(verb, mistake),
    }
}

fn row_mistake(verb: &[u8], mistake: TitleMistake) -> Mistake
    ensures { result ≡ row_mistake verb.now mistake }
{
    if verb == b"set".as_slice() {
        Mistake::SetTitle(mistake)
    } else {
        Mistake::Title(mistake)
    }
}

/// What is wrong behind `test`.
fn test_mistake(behind: Option<&[u8]>) -> Mistake
    ensures { result ≡ test_mistake (title_tested (words_left behind.entry)) }
{
    match title_tested(behind) {
        Ok(_) => Mistake::Form(ClientWord::Test),
        Err(mistake) => Mistake::Title(mistake),
    }
}

/// What is wrong behind `show`.
fn show_mistake(behind: Option<&[u8]>) -> Mistake
    ensures { result ≡ show_mistake (words_left behind.entry) }
{
    let Some(behind) = behind else {
        return Mistake::Form(ClientWord::Show);
    };
    let (name, _) = cut(behind);
    match first_client_word(name, TEXTS) {
        Some(ClientWord::Link) => Mistake::Form(ClientWord::Link),
        Some(_) => Mistake::Form(ClientWord::Show),
        None => Mistake::NoText,
    }
}

/// What is wrong behind `submit`.
#[tactic(auto, using(crate::proofs::LastWords::last_steps))]
fn submit_mistake(behind: Option<&[u8]>) -> Mistake
    ensures { result ≡ submit_mistake (words_left behind.entry) }
{
    let Some(behind) = behind else {
        return Mistake::Form(ClientWord::Submit);
    };
    match cut(behind) {
        (digits, None) => octets_mistake(digits),
        (_, Some(_)) => Mistake::Form(ClientWord::Submit),
    }
}

/// What is wrong with the octets of a message.
fn octets_mistake(digits: &[u8]) -> Mistake
    ensures { result ≡ octets_mistake digits.now }
{
    if !are_hex_digits(digits) {
        return Mistake::NoHexDigit;
    }
    if digits.len() % 2 != 0 {
        return Mistake::OddDigits;
    }
    if digits.len() > 2 * Limits::FRAME_OCTETS {
        return Mistake::TooManyOctets;
    }
    Mistake::Form(ClientWord::Submit)
}

/// Whether all octets of a text are hexadecimal digits.
fn are_hex_digits(text: &[u8]) -> bool
    ensures { result ≡ list_all is_ascii_hexdigit text.now }
{
    for octet in text {
        if !octet.is_ascii_hexdigit() {
            return false;
        }
    }
    true
}
