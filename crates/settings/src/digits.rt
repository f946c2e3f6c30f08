//! Digits of translation rows.

ghost use Rattle.std.specs.Prelude.{if◌then◌else◌, ◌≡◌, ◌<◌, ◌≤◌, ◌^◌, None, Some, All, length, map, IfOk, OnOk, IfErr};
ghost use Rattle.std.specs.List.{list_all};
ghost use Rattle.settings.specs.Checks.{fault_unless, is_digit, digits_fault, added_fault};
ghost use Rattle.settings.specs.Meaning.{digit_of};

use crate::numbers::ensure;
use crate::{DraftFault, FaultKind, Key};
use arrayvec::ArrayVec;
use signalling_types::Limits;

/// Digits of a translation row.
pub(crate) type Digits = ArrayVec<u8, { Limits::TITLE_DIGITS }>;

/// The value of a digit that is written 0 to 9 or a to f.
fn digit(octet: u8) -> Option<u8>
    ensures { result ≡ (if is_digit octet then Some (digit_of octet) else None) }
{
    match octet {
        b'0'..=b'9' => Some(octet - b'0'),
        b'a'..=b'f' => Some(octet - b'a' + 10),
        _ => None,
    }
}

/// The values of digits.
#[tactic(auto, using(std::proofs::lemmas::Grind::common_steps))]
fn digit_values(text: &[u8], key: Key) -> Result<Digits, DraftFault>
    requires { length text.now ≤ Limits.TITLE_DIGITS }
    ensures value { IfOk result (λ digits. digits.items ≡ map digit_of text.now) }
    ensures range { IfOk result (λ digits. All (λ digit. digit < 2 ^ 4) digits.items) }
    ensures well { OnOk result
        (fault_unless (list_all is_digit text.now) FaultKind.Range key ≡ None) }
    ensures fault { IfErr result (λ fault.
        fault_unless (list_all is_digit text.now) FaultKind.Range key ≡ Some fault) }
{
    let mut digits = ArrayVec::new();
    for octet in text {
        match digit(*octet) {
            Some(value) => digits.push(value),
            None => return Err(DraftFault::At(FaultKind::Range, key)),
        }
    }
    Ok(digits)
}

/// The digits of a translation row.
#[tactic(auto, using(std::proofs::lemmas::Grind::common_steps))]
pub(crate) fn digits(text: &str, key: Key) -> Result<Digits, DraftFault>
    ensures value { IfOk result (λ digits. digits.items ≡ map digit_of text.now) }
    ensures some { IfOk result (λ digits. 1 ≤ length digits.items) }
    ensures fits { IfOk result (λ digits. length digits.items ≤ Limits.TITLE_DIGITS) }
    ensures range { IfOk result (λ digits. All (λ digit. digit < 2 ^ 4) digits.items) }
    ensures well { OnOk result (digits_fault key text.now ≡ None) }
    ensures fault { IfErr result (λ fault. digits_fault key text.now ≡ Some fault) }
{
    let octets = text.as_bytes();
    let fits = 0 < octets.len() && octets.len() <= Limits::TITLE_DIGITS;
    ensure(fits, FaultKind::Range, key)?;
    digit_values(octets, key)
}

/// The digits that a translation row puts on in front of a title.
pub(crate) fn added_digits(text: &str, key: Key) -> Result<Digits, DraftFault>
    ensures value { IfOk result (λ digits. digits.items ≡ map digit_of text.now) }
    ensures fits { IfOk result (λ digits. length digits.items ≤ Limits.TITLE_DIGITS) }
    ensures range { IfOk result (λ digits. All (λ digit. digit < 2 ^ 4) digits.items) }
    ensures well { OnOk result (added_fault key text.now ≡ None) }
    ensures fault { IfErr result (λ fault. added_fault key text.now ≡ Some fault) }
{
    let octets = text.as_bytes();
    ensure(octets.len() <= Limits::TITLE_DIGITS, FaultKind::Range, key)?;
    digit_values(octets, key)
}
