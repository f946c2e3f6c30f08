//! Values of a settings file, as a sentence shows them.

use std::alloc::{AllocError, Global};
use toml::Value;

/// Octets of a text that a sentence shows, at most.
const SHOWN_OCTETS: usize = 40;

/// Whether a sentence shows this text as it is: it is short, and a terminal prints it.
pub(crate) fn is_shown(text: &str) -> bool {
    text.len() <= SHOWN_OCTETS
        && text
            .bytes()
            .all(|octet| octet == b' ' || octet.is_ascii_graphic())
}

/// A value, as a sentence shows it: a number or a short text as it is, anything else by its type.
pub(crate) fn value_text(alloc: Global, value: &Value) -> Result<String, AllocError> {
    match value {
        Value::Integer(number) => format!(in alloc; "{number}"),
        Value::String(text) if is_shown(text.as_str()) => format!(in alloc; "\"{text}\""),
        Value::String(text) => {
            let count = text.len();
            format!(in alloc; "a text of {count} octets")
        }
        Value::Boolean(truth) => format!(in alloc; "{truth}"),
        Value::Float(_) => String::from_str(alloc, "a number with a fraction"),
        Value::Datetime(_) => String::from_str(alloc, "a date or a time"),
        Value::Array(entries) => {
            let count = entries.len();
            format!(in alloc; "a list of {count}")
        }
        Value::Table(_) => String::from_str(alloc, "a table"),
    }
}
