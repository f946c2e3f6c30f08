//! The words of a line, one after another.

ghost use Rattle.std.specs.Prelude.{◌≡◌, ◌+◌, ◌≤◌, ◌++◌, length, decimal};
ghost use Rattle.console.specs.Texts.{cause_text, count_text};
ghost use Rattle.settings.specs.Points.{point_text};

use arrayvec::ArrayString;
use itoa::Buffer;
use settings::{Cause, POINT_OCTETS, PointCode, PointFormat, point_text};

/// Octets of a line, at most: a translation row with a backup and a change of titles has the longest one.
pub const LINE_OCTETS: usize = 152;

/// Writes a line of some words and a count.
pub(crate) fn write_count(words: &str, count: u64, line: &mut ArrayString<LINE_OCTETS>)
    requires { length words.now + 20 ≤ LINE_OCTETS }
    ensures { line.new.bytes ≡ count_text words.now count }
{
    line.clear();
    push_number(line, words, count);
}

/// Puts a word and a number in decimal digits at the end of the line.
pub fn push_number(line: &mut ArrayString<LINE_OCTETS>, word: &str, number: u64)
    requires { length line.old.bytes + length word.now + 20 ≤ LINE_OCTETS }
    ensures text { line.new.bytes ≡ line.old.bytes ++ word.now ++ decimal number }
    ensures short { length line.new.bytes ≤ length line.old.bytes + length word.now + 20 }
{
    let mut buffer = Buffer::new();
    line.push_str(word);
    line.push_str(buffer.format(number));
}

/// Appends a word and a number of at most three decimal digits.
pub(crate) fn push_octet(line: &mut ArrayString<LINE_OCTETS>, word: &str, number: u8)
    requires { length line.old.bytes + length word.now + 3 ≤ LINE_OCTETS }
    ensures text { line.new.bytes ≡ line.old.bytes ++ word.now ++ decimal number }
    ensures short { length line.new.bytes ≤ length line.old.bytes + length word.now + 3 }
{
    let mut buffer = Buffer::new();
    line.push_str(word);
    line.push_str(buffer.format(number));
}

/// Appends a word and a point in this format.
pub fn push_point(
    line: &mut ArrayString<LINE_OCTETS>,
    word: &str,
    point: PointCode,
    points: PointFormat,
)
    requires { length line.old.bytes + length word.now + POINT_OCTETS ≤ LINE_OCTETS }
    ensures text { line.new.bytes ≡ line.old.bytes ++ word.now ++ point_text points point }
    ensures short { length line.new.bytes ≤ length line.old.bytes + length word.now + POINT_OCTETS }
{
    line.push_str(word);
    line.push_str(point_text(point, points).as_str());
}

/// Appends a word and a cause, by number and by name.
pub(crate) fn push_cause(line: &mut ArrayString<LINE_OCTETS>, word: &str, cause: Cause)
    requires { length line.old.bytes + length word.now + 40 ≤ LINE_OCTETS }
    ensures text { line.new.bytes ≡ line.old.bytes ++ word.now ++ cause_text cause }
    ensures short { length line.new.bytes ≤ length line.old.bytes + length word.now + 40 }
{
    push_number(line, word, u64::from(cause.number()));
    line.push_str(" ");
    line.push_str(cause.name());
}
