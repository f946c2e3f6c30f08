//! The values of the node's keys: integers, truth values, texts and lists.

ghost use Rattle.std.specs.Prelude.{◌≡◌, map, string_bytes};
ghost use Rattle.std.specs.Option.{option_map};
ghost use Rattle.toml.specs.View.{view, table_view};
ghost use Rattle.settings_file.specs.Faults.{Answers, AnswersOrNoMemory};
ghost use Rattle.settings_file.specs.Shapes.{integer_in, text_in, each};
ghost use Rattle.settings_file.specs.NodeKeys.{found_at, required_at, integer_at, truth_at, text_at};
ghost use Rattle.settings_file.specs.NodeKeys.{optional_integer_at, optional_text_at, integers_at, entries_at};
ghost use Rattle.settings_file.specs.NodeKeys.{name_in, name_at, names_at};
ghost use Rattle.settings_file.specs.NodeKeys.{point_in, point_at, optional_point_at, integers_if_any_at};

use crate::fault::SettingsFault;
use crate::key_rows::key_name;
use crate::names::name_said;
use crate::point_texts::point_said;
use crate::shapes::{array_in, found, integer_in, text_in, truth_in, value};
use settings::Key;
use std::alloc::Global;
use toml::{Table, Value};

/// The value of a key, if it is there.
pub(crate) fn found_at(table: &Table, key: Key) -> Option<&Value>
    ensures { option_map (λ value. view value.now) result ≡ found_at key (table_view table.now) }
{
    found(table, key_name(key))
}

/// The value of a required key.
pub(crate) fn required(table: &Table, key: Key) -> Result<&Value, SettingsFault>
    ensures { Answers (λ value. view value.now) (required_at key (table_view table.now)) result }
{
    value(table, key_name(key), SettingsFault::Missing(key))
}

/// The integer at a key.
#[tactic(auto, unfolding(crate::specs::NodeKeys::integer_at))]
pub(crate) fn integer(table: &Table, key: Key) -> Result<i64, SettingsFault>
    ensures { result ≡ integer_at key (table_view table.now) }
{
    let value = required(table, key)?;
    integer_in(value, SettingsFault::Kind(key))
}

/// The truth value at a key, which is `false` if it is left out. If the file's version doesn't have the key it is
/// ignored.
#[tactic(auto, unfolding(crate::specs::NodeKeys::truth_at))]
pub(crate) fn truth(has_key: bool, table: &Table, key: Key) -> Result<bool, SettingsFault>
    ensures { result ≡ truth_at has_key key (table_view table.now) }
{
    if !has_key {
        return Ok(false);
    }
    match found_at(table, key) {
        Some(value) => truth_in(value, SettingsFault::Kind(key)),
        None => Ok(false),
    }
}

/// The integer at a key, which may be left out. If the file's version doesn't have the key it is ignored.
#[tactic(auto, unfolding(crate::specs::NodeKeys::optional_integer_at))]
pub(crate) fn optional_integer(
    has_key: bool,
    table: &Table,
    key: Key,
) -> Result<Option<i64>, SettingsFault>
    ensures { result ≡ optional_integer_at has_key key (table_view table.now) }
{
    if !has_key {
        return Ok(None);
    }
    match found_at(table, key) {
        Some(value) => Ok(Some(integer_in(value, SettingsFault::Kind(key))?)),
        None => Ok(None),
    }
}

/// The point that a value says, in a file whose version has texts of points or doesn't have them.
#[tactic(auto, unfolding(crate::specs::NodeKeys::point_in))]
fn point_in(has_texts: bool, value: &Value, key: Key) -> Result<i64, SettingsFault>
    ensures { result ≡ point_in has_texts key (view value.now) }
{
    match value.as_str() {
        Some(text) if has_texts => Ok(point_said(text)),
        _ => integer_in(value, SettingsFault::Kind(key)),
    }
}

/// The point at a key.
#[tactic(auto, unfolding(crate::specs::NodeKeys::point_at))]
pub(crate) fn point(has_texts: bool, table: &Table, key: Key) -> Result<i64, SettingsFault>
    ensures { result ≡ point_at has_texts key (table_view table.now) }
{
    let value = required(table, key)?;
    point_in(has_texts, value, key)
}

/// The point at a key, which may be left out. If the file's version doesn't have the key it is ignored.
#[tactic(auto, unfolding(crate::specs::NodeKeys::optional_point_at))]
pub(crate) fn optional_point(
    has_key: bool,
    has_texts: bool,
    table: &Table,
    key: Key,
) -> Result<Option<i64>, SettingsFault>
    ensures { result ≡ optional_point_at has_key has_texts key (table_view table.now) }
{
    if !has_key {
        return Ok(None);
    }
    match found_at(table, key) {
        Some(value) => Ok(Some(point_in(has_texts, value, key)?)),
        None => Ok(None),
    }
}

/// The text that a value is, owned.
fn owned_text_in(alloc: Global, value: &Value, key: Key) -> Result<String, SettingsFault>
    ensures { AnswersOrNoMemory string_bytes (text_in (SettingsFault.Kind key) (view value.now)) result }
{
    let text = text_in(value, SettingsFault::Kind(key))?;
    Ok(String::from_str(alloc, text)?)
}

/// The text at a key, which is empty if it is left out. If the file's version doesn't have the key it is ignored.
#[tactic(auto, unfolding(crate::specs::NodeKeys::optional_text_at))]
pub(crate) fn optional_text(
    alloc: Global,
    has_key: bool,
    table: &Table,
    key: Key,
) -> Result<String, SettingsFault>
    ensures { AnswersOrNoMemory string_bytes (optional_text_at has_key key (table_view table.now)) result }
{
    if !has_key {
        return Ok(String::new(alloc));
    }
    match found_at(table, key) {
        Some(value) => owned_text_in(alloc, value, key),
        None => Ok(String::new(alloc)),
    }
}

/// The text at a key.
#[tactic(auto, unfolding(crate::specs::NodeKeys::text_at))]
pub(crate) fn text(alloc: Global, table: &Table, key: Key) -> Result<String, SettingsFault>
    ensures { AnswersOrNoMemory string_bytes (text_at key (table_view table.now)) result }
{
    let value = required(table, key)?;
    owned_text_in(alloc, value, key)
}

/// The name that a value says, owned, in a file whose version has longer names or doesn't have them.
#[tactic(auto, unfolding(crate::specs::NodeKeys::name_in))]
fn name_in(
    alloc: Global,
    has_longer: bool,
    value: &Value,
    key: Key,
) -> Result<String, SettingsFault>
    ensures { AnswersOrNoMemory string_bytes (name_in has_longer key (view value.now)) result }
{
    let text = text_in(value, SettingsFault::Kind(key))?;
    Ok(String::from_str(alloc, name_said(has_longer, text))?)
}

/// The name at a key, in a file whose version has longer names or doesn't have them.
#[tactic(auto, unfolding(crate::specs::NodeKeys::name_at))]
pub(crate) fn name_at(
    alloc: Global,
    has_longer: bool,
    table: &Table,
    key: Key,
) -> Result<String, SettingsFault>
    ensures { AnswersOrNoMemory string_bytes (name_at has_longer key (table_view table.now)) result }
{
    let value = required(table, key)?;
    name_in(alloc, has_longer, value, key)
}

fn each_integer(alloc: Global, values: &[Value], key: Key) -> Result<Vec<i64>, SettingsFault>
    ensures { AnswersOrNoMemory (λ integers. integers.items)
        (each (λ _. integer_in (SettingsFault.Kind key)) 0 (map view values.now)) result }
{
    let mut integers = Vec::with_capacity(alloc, values.len())?;
    for i in 0..values.len() {
        let integer = integer_in(&values[i], SettingsFault::Kind(key))?;
        integers.push(integer)?;
    }
    Ok(integers)
}

fn each_name(
    alloc: Global,
    has_longer: bool,
    values: &[Value],
    key: Key,
) -> Result<Vec<String>, SettingsFault>
    ensures { AnswersOrNoMemory (λ names. map (λ name. string_bytes name) names.items)
        (each (λ _. name_in has_longer key) 0 (map view values.now)) result }
{
    let mut names = Vec::with_capacity(alloc, values.len())?;
    for i in 0..values.len() {
        let name = name_in(alloc, has_longer, &values[i], key)?;
        names.push(name)?;
    }
    Ok(names)
}

/// The list of integers at a key.
#[tactic(auto, unfolding(crate::specs::NodeKeys::integers_at))]
fn integers(alloc: Global, table: &Table, key: Key) -> Result<Vec<i64>, SettingsFault>
    ensures { AnswersOrNoMemory (λ integers. integers.items)
        (integers_at key (table_view table.now)) result }
{
    let value = required(table, key)?;
    let values = array_in(value, SettingsFault::Kind(key))?;
    each_integer(alloc, values, key)
}

/// The list of integers at a key, which may be left out if the file's version says so, and is empty then.
#[tactic(auto, unfolding(crate::specs::NodeKeys::integers_if_any_at))]
pub(crate) fn integers_if_any(
    alloc: Global,
    may_miss: bool,
    table: &Table,
    key: Key,
) -> Result<Vec<i64>, SettingsFault>
    ensures { AnswersOrNoMemory (λ integers. integers.items)
        (integers_if_any_at may_miss key (table_view table.now)) result }
{
    if may_miss && found_at(table, key).is_none() {
        return Ok(Vec::new(alloc));
    }
    integers(alloc, table, key)
}

/// The list of names at a key, in a file whose version has longer names or doesn't have them.
#[tactic(auto, unfolding(crate::specs::NodeKeys::names_at))]
pub(crate) fn names(
    alloc: Global,
    has_longer: bool,
    table: &Table,
    key: Key,
) -> Result<Vec<String>, SettingsFault>
    ensures { AnswersOrNoMemory (λ names. map (λ name. string_bytes name) names.items)
        (names_at has_longer key (table_view table.now)) result }
{
    let value = required(table, key)?;
    let values = array_in(value, SettingsFault::Kind(key))?;
    each_name(alloc, has_longer, values, key)
}

/// The entries of the array at a key, at least one.
#[tactic(auto, unfolding(crate::specs::NodeKeys::entries_at))]
pub(crate) fn entries(table: &Table, key: Key) -> Result<&[Value], SettingsFault>
    ensures { Answers (λ entries. map view entries.now)
        (entries_at key (table_view table.now)) result }
{
    let value = required(table, key)?;
    let entries = array_in(value, SettingsFault::Kind(key))?;
    if entries.is_empty() {
        return Err(SettingsFault::Missing(key));
    }
    Ok(entries)
}
