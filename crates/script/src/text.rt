//! What a script prints, line by line.

ghost use Rattle.std.specs.Prelude.{◌≡◌, ◌+◌, ◌*◌, ◌≤◌, ◌<◌, ◌^◌, ◌++◌, [], length, codes, decimal};
ghost use Rattle.hex.specs.Hex.{encode_lower};
ghost use Rattle.script.specs.Texts.{outcome_line, frame_line, none_line, wants_line, line_fault};

use arrayvec::ArrayVec;
use console::LINE_OCTETS;
use exchange::{BUFFER_OCTETS, Wants};
use itoa::Buffer;
use settings::{Limits, Outcome};
use std::marker::Model;

/// Octets of a printed line, at most: a frame in two digits an octet, the name of its link, and words.
const TEXT_OCTETS: usize = 656;

/// A printed line, in place.
#[derive(Drop)]
pub struct Text {
    octets: ArrayVec<u8, TEXT_OCTETS>,
}

impl Model for Text {
    ghost use Rattle.std.specs.Prelude.{List, ℕ};

    ghost Value = { List ℕ };

    ghost view = { λ t. t.octets.items };
}

impl Text {
    /// Nothing yet.
    fn new() -> Text
        ensures { result ≡ [] }
    {
        Text {
            octets: ArrayVec::new(),
        }
    }

    /// Appends octets.
    fn push(&mut self, octets: &[u8])
        requires { length self.old + length octets.now ≤ TEXT_OCTETS }
        ensures { self.new ≡ self.old ++ octets.now }
    {
        let _fits = self.octets.try_extend_from_slice(octets);
    }

    /// Appends a number, in decimal digits.
    fn push_number(&mut self, number: u64)
        requires { length self.old + 20 ≤ TEXT_OCTETS }
        ensures text { self.new ≡ self.old ++ decimal number }
        ensures short { length self.new ≤ length self.old + 20 }
    {
        let mut buffer = Buffer::new();
        self.push(buffer.format(number).as_bytes());
    }

    /// Appends octets, in two digits each.
    fn push_hex(&mut self, octets: &[u8])
        requires few { length octets.now ≤ BUFFER_OCTETS }
        requires room { length self.old + 2 * length octets.now ≤ TEXT_OCTETS }
        ensures text { self.new ≡ self.old ++ encode_lower octets.now }
        ensures long { length self.new ≡ length self.old + 2 * length octets.now }
    {
        let mut digits = [0; 2 * BUFFER_OCTETS];
        let digits = &mut digits[..2 * octets.len()];
        let _fits = hex::encode_to_slice(octets, digits);
        self.push(digits);
    }

    /// The line's octets.
    pub fn as_slice(&self) -> &[u8]
        ensures { result.now ≡ self.now }
    {
        self.octets.as_slice()
    }
}

/// The line of an outcome, with the name of the link that it names, if any.
pub fn outcome_line(outcome: Outcome, name: &[u8]) -> Text
    requires { length name.now ≤ Limits.NAME_OCTETS }
    ensures { result ≡ outcome_line name.now outcome }
{
    let mut text = Text::new();
    match outcome {
        Outcome::Queued(_) => {
            text.push(b"queued ");
            text.push(name);
        }
        Outcome::Held => text.push(b"held"),
        Outcome::Local => text.push(b"local"),
        Outcome::Handled => text.push(b"handled"),
        Outcome::Ignored => text.push(b"ignored"),
        Outcome::Refused(cause) => {
            text.push(b"refused ");
            text.push_number(u64::from(cause.number()));
            text.push(b" ");
            text.push(cause.name().as_bytes());
        }
    }
    text.push(b"\n");
    text
}

/// The line of a frame that goes out on the link of this name.
pub fn frame_line(name: &[u8], octets: &[u8]) -> Text
    requires name { length name.now ≤ Limits.NAME_OCTETS }
    requires octets { length octets.now ≤ BUFFER_OCTETS }
    ensures { result ≡ frame_line name.now octets.now }
{
    let mut text = Text::new();
    text.push(b"frame ");
    text.push(name);
    text.push(b" ");
    text.push_hex(octets);
    text.push(b"\n");
    text
}

/// A line of the console, with its line feed.
pub fn console_line(line: &str) -> Text
    requires { length line.now ≤ LINE_OCTETS }
    ensures { result ≡ line.now ++ codes "\n" }
{
    let mut text = Text::new();
    text.push(line.as_bytes());
    text.push(b"\n");
    text
}

/// The line of what a link asks of its caller.
pub fn wants_line(wants: Wants) -> Text
    ensures { result ≡ wants_line wants }
{
    let mut text = Text::new();
    text.push(match wants {
        Wants::Nothing => b"nothing\n",
        Wants::Open => b"open\n",
        Wants::Close => b"close\n",
    });
    text
}

/// The line that says that no frame goes out.
pub fn none_line() -> Text
    ensures { result ≡ none_line }
{
    let mut text = Text::new();
    text.push(b"none\n");
    text
}

/// The line that says which line of the script is malformed.
pub fn line_fault(number: u64) -> Text
    ensures { result ≡ line_fault number }
{
    let mut text = Text::new();
    text.push(b"fault ");
    text.push_number(number);
    text.push(b"\n");
    text
}
