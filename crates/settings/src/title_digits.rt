//! Digits of titles, as rows keep them.

ghost use Rattle.std.specs.Prelude.{◌≡◌, ◌-◌, ◌^◌, ◌<◌, ◌≤◌, ◌++◌, ◌↔◌, All, IsTrue, length, replicate};

use signalling_types::Limits;

/// The largest value of a digit: four bits.
const LAST_DIGIT: u8 = 15;

/// Whether each is the value of a digit, 0 to 15.
pub(crate) fn are_digits(digits: &[u8]) -> bool
    ensures { IsTrue result ↔ All (λ digit. digit < 2 ^ 4) digits.now }
{
    for digit in digits {
        if *digit > LAST_DIGIT {
            return false;
        }
    }
    true
}

/// The digits, and zeros after them.
pub(crate) fn padded(digits: &[u8]) -> [u8; Limits::TITLE_DIGITS]
    requires { length digits.now ≤ Limits.TITLE_DIGITS }
    ensures { result ≡ digits.now ++ replicate (Limits.TITLE_DIGITS - length digits.now) 0 }
{
    let mut row = [0; Limits::TITLE_DIGITS];
    row[..digits.len()].copy_from_slice(digits);
    row
}
