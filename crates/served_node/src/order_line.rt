//! The orders among the lines of clients, as the log tells of them.

use arrayvec::{ArrayString, ArrayVec};

/// Octets of an order that the log shows, at most.
const ORDER_OCTETS: usize = 160;

/// An order, as the log shows it.
pub(crate) type OrderLine = ArrayString<ORDER_OCTETS>;

/// The words with which a line begins that is an order. Messages aren't: there may be many.
const ORDERS: [&[u8]; 6] = [
    b"activate",
    b"deactivate",
    b"release",
    b"title",
    b"capture",
    b"stop",
];

/// The order in a line, of which some was read before and these octets come next; None if the line doesn't end in them,
/// or if it is no order.
pub(crate) fn order_in(begun: &[u8], octets: &[u8]) -> Option<OrderLine> {
    let mut line = ArrayVec::<u8, ORDER_OCTETS>::new();
    push_all(&mut line, begun);
    let end = octets.iter().position(|octet| *octet == b'\n')?;
    push_all(&mut line, octets.get(..end)?);
    if is_order(first_word(line.as_slice())) {
        Some(shown(line.as_slice()))
    } else {
        None
    }
}

/// Appends octets, but for blanks in front of all others, as far as there is room.
fn push_all(line: &mut ArrayVec<u8, ORDER_OCTETS>, octets: &[u8]) {
    for octet in octets {
        if line.is_empty() && *octet == b' ' {
            continue;
        }
        if line.try_push(*octet).is_err() {
            return;
        }
    }
}

/// Whether a line that begins with this word is an order.
fn is_order(word: &[u8]) -> bool {
    for order in ORDERS {
        if word == order {
            return true;
        }
    }
    false
}

/// A line up to its first blank, or the end.
fn first_word(line: &[u8]) -> &[u8] {
    for (k, octet) in line.iter().enumerate() {
        if *octet == b' ' || *octet == b'\r' {
            return line.get(..k).unwrap_or(line);
        }
    }
    line
}

/// A line as the log shows it: what isn't a printed character of ASCII is a question mark, and a carriage return at its
/// end isn't shown.
fn shown(line: &[u8]) -> OrderLine {
    let mut text = OrderLine::new();
    for octet in line.strip_suffix(b"\r").unwrap_or(line) {
        let shown = if octet.is_ascii_graphic() || *octet == b' ' {
            char::from(*octet)
        } else {
            '?'
        };
        if text.try_push(shown).is_err() {
            return text;
        }
    }
    text
}

/// The first line of a text behind so many octets, without its end.
pub(crate) fn first_line(text: &[u8], start: usize) -> &str {
    let rest = text.get(start..).unwrap_or(&[]);
    for (k, octet) in rest.iter().enumerate() {
        if *octet == b'\n' {
            return str::from_utf8(rest.get(..k).unwrap_or(rest)).unwrap_or("");
        }
    }
    str::from_utf8(rest).unwrap_or("")
}
