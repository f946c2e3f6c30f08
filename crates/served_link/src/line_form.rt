//! How a line of the log is written.

ghost use Rattle.std.specs.Prelude.{◌≡◌, ◌<◌, ◌++◌, ◌∷◌, []};
ghost use Rattle.served_link.specs.LineForms.{after_octet, cut, escaped, escaped_octet, hex_digit, is_escaped, is_written};
ghost use Rattle.served_link.specs.LineForms.{json_line, line_at, line_in, millis_in, plain_line};

use crate::severity::Severity;
use crate::utc::utc_text;
use arrayvec::ArrayVec;

/// Octets of a line in any form, at most.
pub const FORMED_OCTETS: usize = 2_048;

/// A line with its line feed, in any form.
pub type FormedLine = ArrayVec<u8, FORMED_OCTETS>;

/// The first character that is printed.
const FIRST_PRINTED: u8 = b' ';

/// How the lines of the log are written.
#[derive(Clone, Copy)]
pub struct LineForm {
    /// Whether a line begins with its priority, as journald reads it: `<4>`.
    pub has_priority: bool,
    /// Whether a line is an object of JSON, with the members `time`, `severity` and `text`.
    pub is_json: bool,
    /// Lines that are less severe aren't written.
    pub least: Severity,
    /// When the node started, in milliseconds since the year 1970 began, if a line tells its time in UTC. Else it tells the
    /// seconds since the start.
    pub start_ms: Option<u64>,
}

impl LineForm {
    /// Whether a line of this text is written.
    pub fn writes(&self, text: &[u8]) -> bool
        ensures { result ≡ is_written self.now text.now }
    {
        Severity::of(text).number() <= self.least.number()
    }

    /// The line of this text that was told so many seconds after the start, which have three digits behind the point; cut
    /// to `FORMED_OCTETS`.
    pub fn line(&self, seconds: &[u8], text: &[u8]) -> FormedLine
        ensures { result.items ≡ cut (line_in self.now seconds.now text.now) }
    {
        match self.start_ms {
            None => self.line_at(seconds, text),
            Some(start_ms) => {
                let time = utc_text(start_ms.saturating_add(millis_in(seconds)));
                self.line_at(&time, text)
            }
        }
    }

    /// The line of this text with its time.
    fn line_at(&self, time: &[u8], text: &[u8]) -> FormedLine
        ensures { result.items ≡ cut (line_at self.now time.now text.now) }
    {
        let mut line = FormedLine::new();
        if self.has_priority {
            append(&mut line, &Severity::of(text).priority());
        }
        if self.is_json {
            append_json(&mut line, time, text);
        } else {
            append_plain(&mut line, time, text);
        }
        line
    }
}

/// The milliseconds of seconds with three digits behind the point.
fn millis_in(seconds: &[u8]) -> u64
    ensures { result ≡ millis_in seconds.now }
{
    let mut millis = 0;
    for octet in seconds {
        millis = after_octet(millis, *octet);
    }
    millis
}

/// A number with a digit behind it; the number, if the octet is none.
fn after_octet(before: u64, octet: u8) -> u64
    ensures { result ≡ after_octet before octet }
{
    if octet.is_ascii_digit() {
        before
            .saturating_mul(10)
            .saturating_add(u64::from(octet - b'0'))
    } else {
        before
    }
}

/// Appends a line as text.
fn append_plain(line: &mut FormedLine, time: &[u8], text: &[u8])
    ensures { line.new.items ≡ cut (line.old.items ++ plain_line time.now text.now) }
{
    append(line, time);
    append(line, b" ");
    append(line, text);
    append(line, b"\n");
}

/// Appends a line as an object of JSON.
fn append_json(line: &mut FormedLine, time: &[u8], text: &[u8])
    ensures { line.new.items ≡ cut (line.old.items ++ json_line time.now text.now) }
{
    append(line, b"{\"time\":\"");
    append(line, time);
    append(line, b"\",\"severity\":\"");
    append(line, Severity::of(text).name().as_bytes());
    append(line, b"\",\"text\":\"");
    append_escaped(line, text);
    append(line, b"\"}\n");
}

/// Appends a text as it stands within a string of JSON.
fn append_escaped(line: &mut FormedLine, text: &[u8])
    ensures { line.new.items ≡ cut (line.old.items ++ escaped text.now) }
{
    let before = line.len();
    prove!(before <= FORMED_OCTETS);
    for octet in text {
        append_octet(line, *octet);
    }
}

/// Appends an octet as it stands within a string of JSON.
fn append_octet(line: &mut FormedLine, octet: u8)
    ensures { line.new.items ≡ cut (line.old.items ++ escaped_octet octet) }
{
    if is_escaped(octet) {
        let (high, low) = (hex_digit(octet / 16), hex_digit(octet % 16));
        append(line, &[b'\\', b'u', b'0', b'0', high, low]);
    } else {
        append(line, &[octet]);
    }
}

/// Appends the first octets, as many as there is room for.
fn append(line: &mut FormedLine, octets: &[u8])
    ensures { line.new.items ≡ cut (line.old.items ++ octets.now) }
{
    let (fitting, _) = octets.split_at(line.remaining_capacity().min(octets.len()));
    let _appended = line.try_extend_from_slice(fitting);
}

/// Whether an octet can't stand within a string of JSON as it is.
fn is_escaped(octet: u8) -> bool
    ensures { result ≡ is_escaped octet }
{
    octet < FIRST_PRINTED || octet == b'"' || octet == b'\\'
}

/// The hexadecimal digit of a number.
fn hex_digit(number: u8) -> u8
    requires { number < 16 }
    ensures { result ≡ hex_digit number }
{
    if number < 10 {
        b'0' + number
    } else {
        b'a' + (number - 10)
    }
}
