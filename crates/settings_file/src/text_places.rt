//! Where a key stands in the text of a settings file.

mod scanning;
mod seeking;
mod words;

ghost use Rattle.std.specs.Prelude.{◌≡◌, ◌≤◌, ◌^◌, IfSome};
ghost use Rattle.settings_file.specs.TextPlaces.{are_before_name, are_behind_name, IsPlaceOf, IsPlaceOfPart, IsPlaceAround, StandsAt, first_place, place_after, place_behind};

use crate::key_rows::KeyRow;
use crate::text_places::scanning::Scanner;
use crate::text_places::seeking::{Around, Part, Seeker};

/// A place in a text.
#[derive(Clone, Copy)]
pub struct TextPlace {
    /// The line, from 1.
    pub line: usize,
    /// The octet in its line, from 1.
    pub column: usize,
}

impl TextPlace {
    /// The place behind an octet at this one.
    fn after(self, octet: u8) -> TextPlace
        requires line { self.line ≤ 2 ^ 63 }
        requires column { self.column ≤ 2 ^ 63 }
        ensures { result ≡ place_after self octet }
    {
        if octet == b'\n' {
            TextPlace {
                line: self.line + 1,
                column: 1,
            }
        } else {
            TextPlace {
                line: self.line,
                column: self.column + 1,
            }
        }
    }
}

/// The place of a key of this row in the text of a settings file; or if the scan doesn't find it, that of the table or
/// the entry that it is in. There the last name of its path stands, or names of the path to it.
///
/// It follows headers of tables, dotted keys, and braces of tables and of entries; of an entry in braces the place is where
/// they open.
pub(crate) fn text_place(text: &[u8], row: &KeyRow) -> Option<TextPlace>
    ensures { IfSome result (IsPlaceOf text.now row.now) }
{
    let seeker = sought(text, row);
    match seeker.found() {
        Some(at) => place_of(text, at, row.written().as_bytes()),
        None => around_place(text, row.front.as_bytes(), seeker.around()?),
    }
}

/// What a search for the key of this row comes to.
fn sought<'a>(text: &[u8], row: &'a KeyRow) -> Seeker<'a> {
    let mut scanner = Scanner::new();
    let mut seeker = Seeker::new(row);
    for at in 0..text.len() {
        if let Some(word) = scanner.step(text[at], at) {
            seeker.look_at(text, word);
            if seeker.found().is_some() {
                break;
            }
        }
    }
    seeker
}

/// The place of what a key of this path is in, if it is there.
fn around_place(text: &[u8], path: &[u8], around: Around) -> Option<TextPlace>
    ensures { IfSome result (IsPlaceAround text.now path.now) }
{
    match around {
        Around::Named(part) => part_place(text, path, part),
        Around::Braces(at) => place_of(text, at, b"{"),
    }
}

/// The place of names of a path, if they stand there.
fn part_place(text: &[u8], path: &[u8], part: Part) -> Option<TextPlace>
    ensures { IfSome result (IsPlaceOfPart text.now path.now) }
{
    let (before, behind) = path.split_at_checked(part.from)?;
    let (word, rest) = behind.split_at_checked(part.len)?;
    if word.is_empty() {
        return None;
    }
    if !are_before_name(before) {
        return None;
    }
    if !are_behind_name(rest) {
        return None;
    }
    place_of(text, part.at, word)
}

/// Whether octets of a path end where a name begins.
fn are_before_name(octets: &[u8]) -> bool
    ensures { result ≡ are_before_name octets.now }
{
    let mut is = true;
    for octet in octets {
        is = *octet == b'.';
    }
    is
}

/// Whether octets of a path begin where a name ends.
fn are_behind_name(octets: &[u8]) -> bool
    ensures { result ≡ are_behind_name octets.now }
{
    match octets {
        [] => true,
        [octet, ..] => *octet == b'.',
    }
}

/// The place of the octet at this index, if this word stands there.
fn place_of(text: &[u8], at: usize, word: &[u8]) -> Option<TextPlace>
    ensures { IfSome result (λ place. StandsAt text.now place word.now) }
{
    let (before, rest) = text.split_at_checked(at)?;
    if !rest.starts_with(word) {
        return None;
    }
    Some(end_of(before))
}

/// The place behind a text.
fn end_of(text: &[u8]) -> TextPlace
    ensures { result ≡ place_behind first_place text.now }
{
    let mut place = TextPlace { line: 1, column: 1 };
    for octet in text {
        place = place.after(*octet);
    }
    place
}
