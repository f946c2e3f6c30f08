//! Numbers as an operator writes them.

ghost use Rattle.std.specs.Prelude.{◌≡◌, ◌≤◌, IfSome};
ghost use Rattle.console.specs.Numbers.{number_within, number_up_to, with_digit, with_digits};

/// The number that a text gives in decimal digits, without leading zeros, within these bounds.
pub fn read_number(text: &[u8], least: u16, most: u16) -> Option<u16>
    ensures number { result ≡ number_within least most text.now }
    ensures above { IfSome result (λ number. least ≤ number) }
    ensures below { IfSome result (λ number. number ≤ most) }
{
    let number = number_up_to(text, most)?;
    if number < least {
        return None;
    }
    Some(number)
}

/// The number that a text writes, up to the most.
fn number_up_to(text: &[u8], most: u16) -> Option<u16>
    ensures number { result ≡ number_up_to most text.now }
    ensures below { IfSome result (λ number. number ≤ most) }
{
    if text.is_empty() || (text.len() > 1 && text[0] == b'0') {
        return None;
    }
    number(text, most)
}

/// The number of all these digits, up to the most.
fn number(digits: &[u8], most: u16) -> Option<u16>
    ensures number { result ≡ with_digits most 0 digits.now }
    ensures below { IfSome result (λ number. number ≤ most) }
{
    let mut number = 0;
    for digit in digits {
        number = with_digit(number, *digit, most)?;
    }
    Some(number)
}

/// A number with one more digit after it, up to the most.
fn with_digit(number: u16, digit: u8, most: u16) -> Option<u16>
    ensures number { result ≡ with_digit most number digit }
    ensures below { IfSome result (λ number. number ≤ most) }
{
    if !digit.is_ascii_digit() {
        return None;
    }
    let number = number
        .checked_mul(10)?
        .checked_add(u16::from(digit - b'0'))?;
    if number > most {
        return None;
    }
    Some(number)
}
