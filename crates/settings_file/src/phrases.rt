//! What is wrong with a value, in words that are after its key.

ghost use Rattle.std.specs.Prelude.{◌≡◌, ℕ, List, ◌++◌, IfOk, string_bytes, codes};

use crate::values::value_text;
use std::alloc::{AllocError, Global};
use toml::Value;

/// That a value is missing, and what it must be: `is missing, must be an integer`.
///
/// `AllocError` if memory ran out.
pub fn missing(alloc: Global, demand: &str) -> Result<String, AllocError>
    ensures { IfOk result (λ words. string_bytes words ≡ codes "is missing, must be " ++ demand.now) }
{
    format!(in alloc; "is missing, must be {demand}")
}

/// What a value is, and what it must be: `is 16, must be 0 to 15`. A number, a truth value and a short text are shown
/// as they are, anything else by its type.
///
/// `AllocError` if memory ran out.
pub fn must_be(alloc: Global, value: &Value, demand: &str) -> Result<String, AllocError>
    ensures { IfOk result (λ words. (shown : List ℕ)
        × (string_bytes words ≡ codes "is " ++ (shown ++ (codes ", must be " ++ demand.now)))) }
{
    let shown = value_text(alloc, value)?;
    format!(in alloc; "is {shown}, must be {demand}")
}

/// What a value is, and what is wrong with that: `is 0, which another entry has too`. The value is shown as `must_be`
/// shows it.
///
/// `AllocError` if memory ran out.
pub fn value_is(alloc: Global, value: &Value, wrong: &str) -> Result<String, AllocError>
    ensures { IfOk result (λ words. (shown : List ℕ)
        × (string_bytes words ≡ codes "is " ++ (shown ++ (codes ", " ++ wrong.now)))) }
{
    let shown = value_text(alloc, value)?;
    format!(in alloc; "is {shown}, {wrong}")
}
