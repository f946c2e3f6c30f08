//! Durations as a text says them.

ghost use Rattle.std.specs.Prelude.{◌≡◌, ◌≤◌, ◌<◌, length, IfSome, position, not};
ghost use Rattle.settings_file.specs.Durations.{is_digit, digit_count, digits_of, unit_of, number_in, with_digits, with_digit};
ghost use Rattle.settings_file.specs.Durations.{unit_ms, whole_ms, decimal_ms, decimals_ms, seconds_ms, duration_in};

/// The largest number of a duration.
const MOST: u64 = 9_999_999;

/// Milliseconds of a second.
const SECOND: u64 = 1_000;

/// Milliseconds of a minute.
const MINUTE: u64 = 60 * SECOND;

/// How long a text says that something lasts, in milliseconds: `800ms`, `1.5s`, `2min`.
///
/// A number is below 10 million; a second may have one to three decimals. None for any other text.
#[tactic(auto, unfolding(crate::specs::Durations::duration_in))]
pub(crate) fn duration_in(text: &str) -> Option<u64>
    ensures value { result ≡ duration_in text.now }
    ensures below { IfSome result (λ ms. ms ≤ 599999940000) }
{
    match text.split_once('.') {
        Some((whole, decimals)) => seconds_ms(whole.as_bytes(), decimals.as_bytes()),
        None => whole_ms(text.as_bytes()),
    }
}

/// A whole number of a unit, in milliseconds.
fn whole_ms(text: &[u8]) -> Option<u64>
    ensures value { result ≡ whole_ms text.now }
    ensures below { IfSome result (λ ms. ms ≤ 599999940000) }
{
    let (digits, unit) = text.split_at(digit_count(text));
    let number = number_in(digits)?;
    let unit = unit_ms(unit)?;
    Some(number * unit)
}

/// Seconds and their decimals, in milliseconds.
fn seconds_ms(whole: &[u8], decimals: &[u8]) -> Option<u64>
    ensures value { result ≡ seconds_ms whole.now decimals.now }
    ensures below { IfSome result (λ ms. ms ≤ 599999940000) }
{
    let seconds = number_in(whole)?;
    let ms = decimals_ms(decimals)?;
    Some(SECOND * seconds + ms)
}

/// The decimals of a second, in milliseconds.
fn decimals_ms(text: &[u8]) -> Option<u64>
    ensures value { result ≡ decimals_ms text.now }
    ensures below { IfSome result (λ ms. ms ≤ 999999900) }
{
    let (digits, unit) = text.split_at(digit_count(text));
    if unit != b"s".as_slice() {
        return None;
    }
    let ms = decimal_ms(digits.len())?;
    let number = number_in(digits)?;
    Some(number * ms)
}

/// How many milliseconds a unit is.
fn unit_ms(unit: &[u8]) -> Option<u64>
    ensures value { result ≡ unit_ms unit.now }
    ensures below { IfSome result (λ ms. ms ≤ 60000) }
{
    if unit == b"ms".as_slice() {
        Some(1)
    } else if unit == b"s".as_slice() {
        Some(SECOND)
    } else if unit == b"min".as_slice() {
        Some(MINUTE)
    } else {
        None
    }
}

/// How many milliseconds the last of so many decimals of a second is.
fn decimal_ms(count: usize) -> Option<u64>
    ensures value { result ≡ decimal_ms count }
    ensures below { IfSome result (λ ms. ms ≤ 100) }
{
    match count {
        1 => Some(100),
        2 => Some(10),
        3 => Some(1),
        _ => None,
    }
}

/// How many digits a text begins with.
pub(crate) fn digit_count(text: &[u8]) -> usize
    ensures value { result ≡ digit_count text.now }
    ensures fits { result ≤ length text.now }
{
    match first_behind(text) {
        Some(place) => place,
        None => text.len(),
    }
}

/// The place of the first octet that is no digit.
fn first_behind(text: &[u8]) -> Option<usize>
    ensures place { result ≡ position (λ octet. not (is_digit octet)) text.now }
    ensures fits { IfSome result (λ place. place < length text.now) }
{
    text.iter().position(|octet| !octet.is_ascii_digit())
}

/// The number of these digits, one at least.
pub(crate) fn number_in(digits: &[u8]) -> Option<u64>
    ensures value { result ≡ number_in digits.now }
    ensures below { IfSome result (λ number. number ≤ 9999999) }
{
    if digits.is_empty() {
        return None;
    }
    number(digits)
}

/// The number of all these digits.
fn number(digits: &[u8]) -> Option<u64>
    ensures value { result ≡ with_digits 0 digits.now }
    ensures below { IfSome result (λ number. number ≤ 9999999) }
{
    let mut number = 0;
    for digit in digits {
        number = with_digit(number, *digit)?;
    }
    Some(number)
}

/// A number with one more digit after it.
fn with_digit(number: u64, digit: u8) -> Option<u64>
    requires { number ≤ 9999999 }
    ensures value { result ≡ with_digit number digit }
    ensures below { IfSome result (λ number. number ≤ 9999999) }
{
    if !digit.is_ascii_digit() {
        return None;
    }
    let number = 10 * number + u64::from(digit - b'0');
    if number > MOST {
        return None;
    }
    Some(number)
}
