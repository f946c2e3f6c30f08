//! Keys of a settings file with their values, a row each.

ghost use Rattle.std.specs.Prelude.{◌≡◌, ◌<◌, ◌≤◌, ◌^◌, ◌++◌, All, length, map};
ghost use Rattle.std.specs.Option.{option_map};
ghost use Rattle.console.specs.Texts.{digit_octet};
ghost use Rattle.console.specs.SettingsTexts as text;

use crate::line::LINE_OCTETS;
use crate::titles::push_digits;
use arrayvec::ArrayString;
use itoa::Buffer;
use settings::{Limits, PointCode, PointFormat, point_text};

/// Octets of a key, at most.
pub(crate) const KEY_OCTETS: usize = 24;

/// Octets of the row of a key, at most.
const KEY_ROW_OCTETS: usize = 64;

/// The row of a key, with its line feed; nothing if the key has no value.
pub(crate) type KeyRow = ArrayString<KEY_ROW_OCTETS>;

/// A key and a number.
pub(crate) fn number_row(key: &str, value: u64) -> KeyRow
    requires { length key.now ≤ KEY_OCTETS }
    ensures { result.bytes ≡ text.number_row key.now value }
{
    let mut row = KeyRow::new();
    let mut buffer = Buffer::new();
    row.push_str(key);
    row.push_str(" = ");
    row.push_str(buffer.format(value));
    row.push_str("\n");
    row
}

/// A key and a text without quotes in it.
pub(crate) fn text_row(key: &str, value: &str) -> KeyRow
    requires key { length key.now ≤ KEY_OCTETS }
    requires value { length value.now ≤ Limits.NAME_OCTETS }
    ensures { result.bytes ≡ text.text_row key.now value.now }
{
    let mut row = KeyRow::new();
    row.push_str(key);
    row.push_str(" = \"");
    row.push_str(value);
    row.push_str("\"\n");
    row
}

/// A key and a point.
pub(crate) fn point_row(key: &str, point: PointCode, points: PointFormat) -> KeyRow
    requires { length key.now ≤ KEY_OCTETS }
    ensures { result.bytes ≡ text.point_row points key.now point }
{
    text_row(key, point_text(point, points).as_str())
}

/// A key that says whether something is so.
pub(crate) fn flag_row(key: &str, value: bool) -> KeyRow
    requires { length key.now ≤ KEY_OCTETS }
    ensures { result.bytes ≡ text.flag_row key.now value }
{
    let mut row = KeyRow::new();
    row.push_str(key);
    row.push_str(if value { " = true\n" } else { " = false\n" });
    row
}

/// A key and a number, if there is one.
pub(crate) fn given_row(key: &str, value: Option<u16>) -> KeyRow
    requires { length key.now ≤ KEY_OCTETS }
    ensures { result.bytes ≡ text.given_row key.now value }
{
    match value {
        Some(value) => number_row(key, u64::from(value)),
        None => KeyRow::new(),
    }
}

/// A key and digits.
pub(crate) fn digits_row(key: &str, digits: &[u8]) -> KeyRow
    requires key { length key.now ≤ KEY_OCTETS }
    requires digits { All (λ digit. digit < 2 ^ 4) digits.now }
    requires few { length digits.now ≤ Limits.TITLE_DIGITS }
    ensures { result.bytes ≡ text.text_row key.now (map digit_octet digits.now) }
{
    let mut written = ArrayString::<LINE_OCTETS>::new();
    push_digits(&mut written, digits);
    text_row(key, written.as_str())
}

/// An element of a list of numbers.
pub(crate) fn number_element(value: u8) -> KeyRow
    ensures { result.bytes ≡ text.number_element value }
{
    let mut row = KeyRow::new();
    let mut buffer = Buffer::new();
    row.push_str("    ");
    row.push_str(buffer.format(value));
    row.push_str(",\n");
    row
}

/// An element of a list of names.
pub(crate) fn text_element(value: &str) -> KeyRow
    requires { length value.now ≤ Limits.NAME_OCTETS }
    ensures { result.bytes ≡ text.text_element value.now }
{
    let mut row = KeyRow::new();
    row.push_str("    \"");
    row.push_str(value);
    row.push_str("\",\n");
    row
}
