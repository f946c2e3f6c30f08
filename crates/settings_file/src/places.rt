//! Where a key of a settings file is, as a person reads it.

ghost use Rattle.std.specs.Prelude.{◌≡◌, Some, IfOk, string_bytes};
ghost use Rattle.std.specs.Option.{option_copied, option_map};
ghost use Rattle.toml.specs.Data.{get_member};
ghost use Rattle.toml.specs.View.{view, table_view};
ghost use Rattle.settings_file.specs.Places.{row_place};
ghost use Rattle.settings_file.specs.Sentences.{place_of, behind_colon, IsAboutPlace};
ghost use Rattle.settings_file.specs.Values.{value_at, value_at_path, value_below, entry_at};

use crate::key_rows::KeyRow;
use crate::values::is_shown;
use std::alloc::{AllocError, Global};
use std::fmt;
use toml::{Table, Value};

/// The place of a key: `own`, `timers.l1`, `link[2]`, `link[2] "e2": slc`.
#[derive(Clone, Copy)]
struct Place<'a> {
    /// The key.
    row: KeyRow,
    /// The name that the entry of the key has in the file, if it has one.
    entry_name: Option<&'a str>,
}

impl fmt::Display for Place<'_> {
    ghost output = { λ place. Some (place_of place.row.front.now place.row.entry
        (option_copied place.entry_name) (behind_colon place.row.name.now)) };

    fn fmt<W: fmt::Write>(&self, f: &mut fmt::Formatter<W>) -> fmt::Result {
        let KeyRow {
            front,
            entry,
            name,
            ..
        } = self.row;
        match (entry, self.entry_name, name) {
            (None, _, _) => f.write_str(front),
            (Some(i), None, "") => write!(f, "{front}[{i}]"),
            (Some(i), None, name) => write!(f, "{front}[{i}]: {name}"),
            (Some(i), Some(entry_name), "") => write!(f, "{front}[{i}] \"{entry_name}\""),
            (Some(i), Some(entry_name), name) => write!(f, "{front}[{i}] \"{entry_name}\": {name}"),
        }
    }
}

/// The value that a document has at a key of this row, if it has one.
pub fn value_at<'a>(document: &'a Table, row: &KeyRow) -> Option<&'a Value>
    ensures { option_map (λ value. view value.now) result ≡ value_at row.now (table_view document.now) }
{
    match (row.entry, row.name) {
        (None, _) => value_at_path(document, row.front),
        (Some(i), "") => entry_at(document, row.front, i),
        (Some(i), name) => entry_at(document, row.front, i)?.get(name),
    }
}

/// The value of a key that is written alone, or after the names of its tables, each with a dot: two at most.
fn value_at_path<'a>(document: &'a Table, path: &str) -> Option<&'a Value>
    ensures { option_map (λ value. view value.now) result ≡ value_at_path path.now (table_view document.now) }
{
    match path.split_once('.') {
        Some((table, below)) => value_below(found(document, table)?, below),
        None => found(document, path),
    }
}

/// The value of a key in this table, or in a table of it that is named before a dot.
fn value_below<'a>(table: &'a Value, path: &str) -> Option<&'a Value>
    ensures { option_map (λ value. view value.now) result ≡ value_below path.now (view table.now) }
{
    match path.split_once('.') {
        Some((inner, key)) => table.get(inner)?.get(key),
        None => table.get(path),
    }
}

/// An entry of an array, from 0.
fn entry_at<'a>(document: &'a Table, array: &str, i: usize) -> Option<&'a Value>
    ensures { option_map (λ value. view value.now) result ≡ entry_at array.now i (table_view document.now) }
{
    found(document, array)?.get(i)
}

fn found<'a>(document: &'a Table, key: &str) -> Option<&'a Value>
    ensures { option_map (λ value. view value.now) result ≡ get_member key.now (table_view document.now) }
{
    document.get(key)
}

/// The name that the entry of a key of this row has in the document, if a sentence shows it.
fn entry_name<'a>(document: &'a Table, row: &KeyRow) -> Option<&'a str> {
    let name = entry_at(document, row.front, row.entry?)?
        .get("name")?
        .as_str()?;
    is_shown(name).then_some(name)
}

/// The sentence about a key of this row in a document, which a file of this name is, with a line feed. What is wrong is
/// after the key: `node.toml: link[2] "e2": slc is 16, must be 0 to 15`.
///
/// `AllocError` if memory ran out.
pub fn about(
    alloc: Global,
    file: &str,
    document: &Table,
    row: &KeyRow,
    wrong: &str,
) -> Result<String, AllocError>
    ensures { IfOk result (λ sentence. IsAboutPlace file.now (row_place row.now) (string_bytes sentence)) }
{
    let place = Place {
        row: *row,
        entry_name: entry_name(document, row),
    };
    format!(in alloc; "{file}: {place} {wrong}\n")
}
