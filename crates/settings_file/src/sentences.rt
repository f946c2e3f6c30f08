//! The sentence that says what is wrong with a settings file.

ghost use Rattle.std.specs.Prelude.{◌≡◌, Some, IfOk, string_bytes};
ghost use Rattle.settings.specs.declared.key.Key.{Key};
ghost use Rattle.settings_file.specs.Sentences.{IsAbout, Names, key_of};

use crate::key_rows::{
    FAR_POINT_ALONE, INTEGER, KeyRow, POINT_ALONE, SHORT_NAME, TICKS_ALONE, key_row,
};
use crate::known_keys::{has_since, version_of};
use crate::phrases::{missing, must_be, value_is};
use crate::places::{about, value_at};
use crate::versions::Since;
use crate::{SettingsFault, versions};
use settings::{DraftFault, FaultKind, Key};
use std::alloc::{AllocError, Global};
use toml::{Table, Value};

/// The sentence that says what this fault is, in the document of a settings file of this name, with a line feed:
/// `node.toml: link[2] "e2": slc is 16, must be 0 to 15`.
///
/// `AllocError` if memory ran out.
pub fn sentence(
    alloc: Global,
    file: &str,
    document: &Table,
    fault: SettingsFault,
) -> Result<String, AllocError>
    ensures names { IfOk result (λ sentence. Names file.now (string_bytes sentence)) }
    ensures key { IfOk result (λ sentence. (key : Key) → key_of fault ≡ Some key
        → IsAbout file.now key (string_bytes sentence)) }
{
    let Some(key) = key_of(fault) else {
        return format!(in alloc; "{file}: out of memory\n");
    };
    let row = KeyRow {
        kind: kind(document, key),
        demand: demand(document, key),
        ..key_row(key)
    };
    let wrong = wrong(alloc, &row, value_at(document, &row), fault)?;
    about(alloc, file, document, &row, wrong.as_str())
}

/// The key that a fault of a document is at.
pub(crate) fn key_of(fault: SettingsFault) -> Option<Key>
    ensures { result ≡ key_of fault }
{
    match fault {
        SettingsFault::Missing(key) | SettingsFault::Kind(key) => Some(key),
        SettingsFault::Draft(DraftFault::At(_, key)) => Some(key),
        SettingsFault::Version => Some(Key::Version),
        SettingsFault::Text | SettingsFault::Draft(DraftFault::NoMemory) => None,
    }
}

/// The type of the value of a key in this file, as its version says.
fn kind(document: &Table, key: Key) -> &'static str {
    match key {
        Key::Timer(_)
        | Key::Own
        | Key::SetAdjacent(_)
        | Key::DestinationPoint(_)
        | Key::TitlePoint(_)
        | Key::TitleBackup(_)
            if !has_additions(document) => { INTEGER }
        _ => key_row(key).kind,
    }
}

/// What the value of a key must be in this file, as its version says.
fn demand(document: &Table, key: Key) -> &'static str {
    match key {
        Key::Window if is_first_version(document) => "1 to 4096 in version 1",
        Key::Destination if is_first_version(document) => "1 to 1024 in version 1",
        Key::Timer(_) if !has_additions(document) => TICKS_ALONE,
        Key::Own | Key::TitlePoint(_) | Key::TitleBackup(_) if !has_additions(document) => {
            POINT_ALONE
        }
        Key::SetAdjacent(_) | Key::DestinationPoint(_) if !has_additions(document) => {
            FAR_POINT_ALONE
        }
        Key::SetName(_) | Key::LinkName(_) | Key::LinkSet(_) if !has_additions(document) => {
            SHORT_NAME
        }
        _ => key_row(key).demand,
    }
}

/// Whether a file has what version 4 brought.
fn has_additions(document: &Table) -> bool {
    has_since(version_of(document), Since::Fourth)
}

/// Whether a file is of the first version.
fn is_first_version(document: &Table) -> bool {
    match document.get("version") {
        Some(Value::Integer(version)) => versions::is_first_version(*version),
        _ => false,
    }
}

/// What is wrong at a key of this row, which has this value.
fn wrong(
    alloc: Global,
    row: &KeyRow,
    value: Option<&Value>,
    fault: SettingsFault,
) -> Result<String, AllocError> {
    let Some(value) = value else {
        return missing(alloc, row.kind);
    };
    match fault {
        SettingsFault::Missing(_) => String::from_str(
            alloc,
            "has no entry, must have one at least",
        ),
        SettingsFault::Kind(_) => must_be(alloc, value, row.kind),
        SettingsFault::Draft(DraftFault::At(kind, _)) => at_key(alloc, row, value, kind),
        _ => must_be(alloc, value, row.demand),
    }
}

/// What the check of settings finds wrong with the value of a key.
fn at_key(
    alloc: Global,
    row: &KeyRow,
    value: &Value,
    kind: FaultKind,
) -> Result<String, AllocError> {
    match kind {
        FaultKind::Range | FaultKind::TooMany => must_be(alloc, value, row.demand),
        FaultKind::Duplicate if value.is_array() => String::from_str(alloc, "has an entry twice"),
        FaultKind::Duplicate => value_is(alloc, value, "which another entry has too"),
        FaultKind::UnknownName if row.name == "adjacent" => value_is(
            alloc,
            value,
            "and no [[destination]] of this point names this set first",
        ),
        FaultKind::UnknownName => value_is(alloc, value, "and no [[set]] is named so"),
    }
}
