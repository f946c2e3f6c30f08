//! Point codes as an operator writes them.

ghost use Rattle.std.specs.Prelude.{◌≡◌, ℕ, ◌-◌, ◌<◌, ◌^◌, [], IfSome, Some, decimal};
ghost use Rattle.settings.specs.Points.{IsPointText, point_text, point_in, in_three_parts, digit};

use arrayvec::ArrayString;
use itoa::Buffer;
use signalling_types::PointCode;

/// Octets of a point's text, at most.
pub const POINT_OCTETS: usize = 7;

/// How point codes are written.
#[derive(Clone, Copy, Debug, PartialEq, Eq)]
pub enum PointFormat {
    /// As one number: `4237`.
    Plain,
    /// In three parts of 3, 8 and 3 bits, zone, area and point: `2-017-5` (Q.708).
    ThreeEightThree,
}

/// The text of a point in this format.
pub fn point_text(point: PointCode, format: PointFormat) -> ArrayString<POINT_OCTETS>
    ensures { result.bytes ≡ point_text format point }
{
    let mut text = ArrayString::new();
    match format {
        PointFormat::Plain => {
            let mut buffer = Buffer::new();
            text.push_str(buffer.format(point.code()));
        }
        PointFormat::ThreeEightThree => push_three_parts(&mut text, point),
    }
    text
}

/// Writes the three parts of a point into an empty text.
fn push_three_parts(text: &mut ArrayString<POINT_OCTETS>, point: PointCode)
    requires { text.old.bytes ≡ [] }
    ensures { text.new.bytes ≡ in_three_parts point }
{
    prove!(point.code() < 1 << 14);
    // Digits and hyphens are text.
    if let Ok(parts) = str::from_utf8(&in_three_parts(point)) {
        text.push_str(parts);
    }
}

/// The point of a text: its number in decimal digits without leading zeros; or, if the format is in three parts, those
/// too, the area in three digits. None for any other text.
pub fn parse_point(text: &[u8], format: PointFormat) -> Option<PointCode>
    ensures point { result ≡ point_in format text.now }
    ensures value { IfSome result (λ point. IsPointText format text.now point) }
    ensures found { (point : ℕ) → point < 2 ^ 14 → IsPointText format text.now point → result ≡ Some point }
    // What is shown is read back.
    ensures back { (point : ℕ) → point < 2 ^ 14 → text.now ≡ point_text format point → result ≡ Some point }
{
    let Ok(text) = str::from_utf8(text) else {
        return None;
    };
    parse_text(text, format)
}

/// The same, of octets that are text.
#[tactic(auto, using(crate::proofs::Short::short))]
fn parse_text(text: &str, format: PointFormat) -> Option<PointCode>
    ensures value { IfSome result (λ point. (point < 2 ^ 14) × IsPointText format text.now point) }
    ensures found { (point : ℕ) → point < 2 ^ 14 → IsPointText format text.now point → result ≡ Some point }
{
    match format {
        PointFormat::ThreeEightThree if text.len() == POINT_OCTETS => {
            parse_three_parts(text.as_bytes())
        }
        PointFormat::Plain | PointFormat::ThreeEightThree => parse_plain(text),
    }
}

/// The point of this number.
fn parse_plain(text: &str) -> Option<PointCode>
    ensures value { IfSome result (λ point. (point < 2 ^ 14) × (text.now ≡ decimal point)) }
    ensures found { (point : ℕ) → point < 2 ^ 14 → text.now ≡ decimal point → result ≡ Some point }
{
    let point = PointCode::new(number(text)?)?;
    // Signs and leading zeros are refused.
    let mut buffer = Buffer::new();
    if buffer.format(point.code()) == text {
        Some(point)
    } else {
        None
    }
}

/// The number of a text in decimal digits.
fn number(text: &str) -> Option<u16>
    ensures { (number : ℕ) → number < 2 ^ 16 → text.now ≡ decimal number → result ≡ Some number }
{
    text.parse::<u16>().ok()
}

fn parse_three_parts(text: &[u8]) -> Option<PointCode>
    ensures value { IfSome result (λ point. (point < 2 ^ 14) × (text.now ≡ in_three_parts point)) }
    ensures found { (point : ℕ) → point < 2 ^ 14 → text.now ≡ in_three_parts point → result ≡ Some point }
{
    let [zone, b'-', hundreds, tens, ones, b'-', point] = *text else {
        return None;
    };
    let area = 100 * value(hundreds) + 10 * value(tens) + value(ones);
    let point = PointCode::of_low_bits(2048 * value(zone) + 8 * area + value(point));
    prove!(point.code() < 1 << 14);
    // Parts out of their range, and octets that aren't digits, are refused.
    if in_three_parts(point).as_slice() == text {
        Some(point)
    } else {
        None
    }
}

/// The three parts of a point, as they are written.
fn in_three_parts(point: PointCode) -> [u8; POINT_OCTETS]
    ensures { result ≡ in_three_parts point }
{
    let code = point.code();
    let area = code / 8 % 256;
    [
        digit(code / 2048),
        b'-',
        digit(area / 100),
        digit(area / 10 % 10),
        digit(area % 10),
        b'-',
        digit(code % 8),
    ]
}

/// A digit as it is written.
fn digit(value: u16) -> u8
    requires { value < 10 }
    ensures { result ≡ digit value }
{
    b'0' + value as u8
}

/// The value of a digit; 0 of octets before the digits.
fn value(octet: u8) -> u32
    ensures { result ≡ octet - 48 }
{
    u32::from(octet.saturating_sub(b'0'))
}
