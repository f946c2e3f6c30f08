//! The names of the files of a ring: that of the capture, a dot, and the number of the file in eight digits, so that
//! their order is that of their names.

ghost use Rattle.std.specs.Prelude.{◌≡◌, ◌<◌, ◌≤◌, ◌-◌, ◌++◌, ℕ, List, IfOk, IfSome, Some, string_bytes};
ghost use Rattle.std.specs.Option.{option_map};
ghost use Rattle.trace.specs.Names.{behind_name, digit, file_name, value_of_four};

use crate::ring::LAST_NUMBER;
use std::alloc::{AllocError, Global};

/// The first number that has more digits.
const TOO_MANY: u32 = LAST_NUMBER + 1;

/// The name of the file of this number. The error means that memory ran out.
pub fn file_name(alloc: Global, capture: &str, number: u32) -> Result<String, AllocError>
    requires { number ≤ LAST_NUMBER }
    ensures { IfOk result (λ name. string_bytes name ≡ file_name capture.now number) }
{
    let mut name = String::from_str(alloc, capture)?;
    let behind = behind_name(number);
    // A dot and digits are text.
    let Ok(behind) = str::from_utf8(&behind) else {
        return Ok(name);
    };
    name.push_str(behind)?;
    Ok(name)
}

/// The number of the file of this name, if it is one of the ring.
pub fn number_of(capture: &str, name: &str) -> Option<u32>
    ensures value { IfSome result (λ number. (number ≤ LAST_NUMBER) × (name.now ≡ file_name capture.now number)) }
    ensures found { (number : ℕ) → number ≤ LAST_NUMBER → name.now ≡ file_name capture.now number
        → result ≡ Some number }
{
    let behind = behind_front(capture.as_bytes(), name.as_bytes())?;
    number_behind(behind)
}

/// What is behind the front of a text, if it begins with that.
fn behind_front<'a>(front: &[u8], text: &'a [u8]) -> Option<&'a [u8]>
    ensures value { IfSome result (λ behind. text.now ≡ front.now ++ behind.now) }
    ensures found { (behind : List ℕ) → text.now ≡ front.now ++ behind
        → option_map (λ behind. behind.now) result ≡ Some behind }
{
    let (begins, behind) = text.split_at_checked(front.len())?;
    if begins == front { Some(behind) } else { None }
}

/// The number of the file whose name ends in this behind the capture's.
fn number_behind(behind: &[u8]) -> Option<u32>
    ensures value { IfSome result (λ number. (number ≤ LAST_NUMBER) × (behind.now ≡ behind_name number)) }
    ensures found { (number : ℕ) → number ≤ LAST_NUMBER → behind.now ≡ behind_name number
        → result ≡ Some number }
{
    let number = number_said(behind)?;
    // Octets that aren't digits are refused.
    if behind_name(number).as_slice() == behind {
        Some(number)
    } else {
        None
    }
}

/// The number that eight digits say behind a dot; any number of other octets.
fn number_said(behind: &[u8]) -> Option<u32>
    ensures most { IfSome result (λ number. number ≤ LAST_NUMBER) }
    ensures found { (number : ℕ) → number ≤ LAST_NUMBER → behind.now ≡ behind_name number
        → result ≡ Some number }
{
    let [_, a, b, c, d, e, f, g, h] = *behind else {
        return None;
    };
    let number = 10_000 * value_of_four(a, b, c, d) + value_of_four(e, f, g, h);
    Some(number % TOO_MANY)
}

/// What is behind the name of the capture in that of the file of this number.
fn behind_name(number: u32) -> [u8; 9]
    requires { number ≤ LAST_NUMBER }
    ensures { result ≡ behind_name number }
{
    let (front, back) = (number / 10_000, number % 10_000);
    [
        b'.',
        digit(front / 1000),
        digit(front / 100 % 10),
        digit(front / 10 % 10),
        digit(front % 10),
        digit(back / 1000),
        digit(back / 100 % 10),
        digit(back / 10 % 10),
        digit(back % 10),
    ]
}

/// A digit as it is written.
fn digit(value: u32) -> u8
    requires { value < 10 }
    ensures { result ≡ digit value }
{
    b'0' + value as u8
}

/// The value of four digits.
fn value_of_four(thousands: u8, hundreds: u8, tens: u8, ones: u8) -> u32
    ensures value { result ≡ value_of_four thousands hundreds tens ones }
    ensures most { result < 300_000 }
{
    1000 * value(thousands) + 100 * value(hundreds) + 10 * value(tens) + value(ones)
}

/// The value of a digit; 0 of octets before the digits.
fn value(octet: u8) -> u32
    ensures value { result ≡ octet - 48 }
    ensures most { result < 208 }
{
    u32::from(octet.saturating_sub(b'0'))
}
