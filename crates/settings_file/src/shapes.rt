//! The shapes of values in a settings file: integers, texts, truth values, tables and arrays.

ghost use Rattle.std.specs.Prelude.{◌≡◌, map};
ghost use Rattle.std.specs.Option.{option_map};
ghost use Rattle.toml.specs.Data.{get_member};
ghost use Rattle.toml.specs.View.{view, table_view};
ghost use Rattle.settings_file.specs.Faults.{Answers};
ghost use Rattle.settings_file.specs.Shapes.{value_at, integer_in, truth_in, text_in, table_in, array_in};

use toml::{Table, Value};

/// The value of a key, if it is there.
pub(crate) fn found<'a>(table: &'a Table, name: &str) -> Option<&'a Value>
    ensures { option_map (λ value. view value.now) result
        ≡ get_member name.now (table_view table.now) }
{
    table.get(name)
}

/// The value of a required key, or this fault.
#[tactic(auto, unfolding(crate::specs::Shapes::value_at))]
pub(crate) fn value<'a, F: Drop>(table: &'a Table, name: &str, missing: F) -> Result<&'a Value, F>
    ensures { Answers (λ value. view value.now)
        (value_at name.now missing (table_view table.now)) result }
{
    match found(table, name) {
        Some(value) => Ok(value),
        None => Err(missing),
    }
}

#[tactic(auto, unfolding(crate::specs::Shapes::integer_in))]
pub(crate) fn integer_in<F: Drop>(value: &Value, kind: F) -> Result<i64, F>
    ensures { result ≡ integer_in kind (view value.now) }
{
    value.as_integer().ok_or(kind)
}

#[tactic(auto, unfolding(crate::specs::Shapes::truth_in))]
pub(crate) fn truth_in<F: Drop>(value: &Value, kind: F) -> Result<bool, F>
    ensures { result ≡ truth_in kind (view value.now) }
{
    value.as_bool().ok_or(kind)
}

#[tactic(auto, unfolding(crate::specs::Shapes::text_in))]
pub(crate) fn text_in<F: Drop>(value: &Value, kind: F) -> Result<&str, F>
    ensures { Answers (λ text. text.now) (text_in kind (view value.now)) result }
{
    match value.as_str() {
        Some(text) => Ok(text),
        None => Err(kind),
    }
}

#[tactic(auto, unfolding(crate::specs::Shapes::table_in))]
pub(crate) fn table_in<F: Drop>(value: &Value, kind: F) -> Result<&Table, F>
    ensures { Answers (λ table. table_view table.now) (table_in kind (view value.now)) result }
{
    match value.as_table() {
        Some(table) => Ok(table),
        None => Err(kind),
    }
}

/// The entries of the array that a value is, or this fault.
#[tactic(auto, unfolding(crate::specs::Shapes::array_in))]
pub(crate) fn array_in<F: Drop>(value: &Value, kind: F) -> Result<&[Value], F>
    ensures { Answers (λ entries. map view entries.now) (array_in kind (view value.now)) result }
{
    match value.as_array() {
        Some(array) => Ok(array.as_slice()),
        None => Err(kind),
    }
}
