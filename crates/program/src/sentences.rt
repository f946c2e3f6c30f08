//! The sentence that says what is wrong with a line of a script.

ghost use Rattle.std.specs.Prelude.{IfOk, string_bytes};
ghost use Rattle.program.specs.Sentences.{IsAboutLine};

use console::Command;
use console::words::cut;
use script::LineFault;
use std::alloc::{AllocError, Global};
use strsim::osa_distance;

/// Octets of a line that a sentence shows, at most.
const SHOWN_OCTETS: usize = 60;

/// A command is near a word if it takes at most one edit for every this many octets of the word; one edit is always
/// near.
const OCTETS_PER_EDIT: usize = 3;

/// What parts the words of a line.
const SPACE: u8 = b' ';

/// The sentence that says what is wrong with the line of this number, which was read as this, with a line feed: `line 3
/// "tik 3": no command is named tik; the nearest is tick`.
///
/// `AllocError` if memory ran out.
pub(crate) fn sentence(
    alloc: Global,
    number: u64,
    line: &[u8],
    fault: LineFault,
) -> Result<String, AllocError>
    ensures { IfOk result (λ sentence. IsAboutLine number line.now (string_bytes sentence)) }
{
    let wrong = wrong(alloc, line, fault)?;
    match str::from_utf8(line) {
        Ok(text) if is_shown(text) => { format!(in alloc; "line {number} \"{text}\": {wrong}\n") }
        _ => format!(in alloc; "line {number}: {wrong}\n"),
    }
}

/// Whether a sentence shows this text: it isn't empty, it is short, and a terminal prints it.
fn is_shown(text: &str) -> bool {
    !text.is_empty()
        && text.len() <= SHOWN_OCTETS
        && text
            .bytes()
            .all(|octet| octet == SPACE || octet.is_ascii_graphic())
}

fn wrong(alloc: Global, line: &[u8], fault: LineFault) -> Result<String, AllocError> {
    match fault {
        LineFault::Malformed => malformed(alloc, line),
        LineFault::TooLong(most) => format!(in alloc; "has more than {most} octets"),
        LineFault::Unended => {
            String::from_str(alloc, "the script ends before this line's line feed")
        }
    }
}

/// What is wrong with a malformed line.
fn malformed(alloc: Global, line: &[u8]) -> Result<String, AllocError> {
    if line.last() == Some(&b'\r') {
        return String::from_str(
            alloc,
            "ends with a carriage return, must end with a line feed alone",
        );
    }
    if has_empty_word(line) {
        return String::from_str(
            alloc,
            "has an empty word: words are separated by one space, with none before or after them",
        );
    }
    let (word, _) = cut(line);
    match Command::named(word) {
        Some(command) => {
            let form = form(command);
            format!(in alloc; "must be {form}")
        }
        None => unknown(alloc, word),
    }
}

/// Whether a space is at an end of a line, or after another.
fn has_empty_word(line: &[u8]) -> bool {
    line.split(|octet| *octet == SPACE)
        .any(|word| word.is_empty())
}

/// What is wrong with a line that begins with this word, which names no command.
fn unknown(alloc: Global, word: &[u8]) -> Result<String, AllocError> {
    match str::from_utf8(word) {
        Ok(word) if is_shown(word) => no_command(alloc, word),
        _ => String::from_str(alloc, "no command is named so"),
    }
}

/// That no command has this name, and which one is near, if one is.
fn no_command(alloc: Global, word: &str) -> Result<String, AllocError> {
    match nearest(alloc, word)? {
        Some(nearest) => {
            format!(in alloc; "no command is named {word}; the nearest is {nearest}")
        }
        None => format!(in alloc; "no command is named {word}; docs/MANUAL.md lists them"),
    }
}

/// The word of the near command that takes the fewest edits.
fn nearest(alloc: Global, word: &str) -> Result<Option<&'static str>, AllocError> {
    let mut nearest = None;
    let mut too_many = 1 + (word.len() / OCTETS_PER_EDIT).max(1);
    for command in Command::ALL {
        let edits = osa_distance(alloc, word, command.word())?;
        if edits < too_many {
            too_many = edits;
            nearest = Some(command.word());
        }
    }
    Ok(nearest)
}

/// What a line of this command must be.
fn form(command: Command) -> &'static str {
    match command {
        Command::Up => "up LINK",
        Command::Down => "down LINK",
        Command::Frame =>
            "frame LINK HEX, where HEX is 1 to 4096 octets of two hex digits each, without spaces",
        Command::Tick => "tick N, where N is 1 to 65535",
        Command::Submit =>
            "submit HEX, where HEX is 1 to 4096 octets of two hex digits each, without spaces",
        Command::Take => "take LINK",
        Command::Wants => "wants LINK",
        Command::Activate => "activate LINK, then perhaps emergency",
        Command::Deactivate => "deactivate LINK",
        Command::Release => "release LINK",
        Command::Title => {
            "title add T P N DIGITS POINT ROUTE SSN, then perhaps backup POINT, then perhaps changed PLAN NATURE \
             REMOVE ADD, title set with the same words, or title remove T P N DIGITS, where T is 0 to 255, P and PLAN \
             0 to 15, N and NATURE 0 to 127, DIGITS and ADD 1 to 32 of 0 to 9 and a to f, POINT 0 to 16383, ROUTE \
             title or ssn, SSN 1 to 255, or - if ROUTE is title, REMOVE 0 to 32; PLAN, NATURE and ADD may be -"
        }
        Command::Show => {
            "show links, show routes, show titles, show subsystems, show notices, show flags, show losses or show \
             reroutings"
        }
    }
}
