//! Keys of a settings file that no table knows.

ghost use Rattle.std.specs.Prelude.{◌≡◌, ◌<◌, IfOk, OnOk, string_bytes};
ghost use Rattle.settings_file.specs.Warnings.{Ignored, warning, AreWarnings, IsSoFar, GoesOn};

use crate::known_keys::{arrays, has_key, has_since, sctp, serve, timers, top, version_of};
use crate::values::is_shown;
use crate::versions::Since;
use std::alloc::{AllocError, Global};
use strsim::osa_distance;
use toml::{Table, Value};

/// Warnings of one file, at most.
const MOST_WARNINGS: usize = 20;

/// A known key is near if at most one edit leads to it, or one for every this many octets of the ignored key.
const OCTETS_PER_EDIT: usize = 3;

/// The warnings of a file, as they are written.
#[derive(Drop)]
struct WarningText<'a> {
    file: &'a str,
    version: Option<i64>,
    /// The latest version of which the file has a key, as far as that was told.
    told: u8,
    text: String,
    count: usize,
}

/// A warning for each of the first 20 keys that no table knows of the document that a settings file of
/// this name is. It names the nearest known key, if one is near: `node.toml: windw is ignored; the
/// nearest key is window`, `node.toml: colour is ignored: no such key`. Of the keys that came with a later version than
/// the document's, one tells it: `node.toml: out_of_service is ignored: it needs version = 3`. Each ends with a line
/// feed.
///
/// `AllocError` if memory ran out.
pub fn warnings(alloc: Global, file: &str, document: &Table) -> Result<String, AllocError>
    ensures { IfOk result (λ text. AreWarnings file.now (string_bytes text)) }
{
    let mut warnings = WarningText {
        file,
        version: version_of(document),
        told: Since::First.number(),
        text: String::new(alloc),
        count: 0,
    };
    warnings.add_document(alloc, document)?;
    Ok(warnings.text)
}

impl WarningText<'_> {
    /// Warns of the keys of a document.
    fn add_document(&mut self, alloc: Global, document: &Table) -> Result<(), AllocError>
        requires { IsSoFar self.old }
        ensures { OnOk result (GoesOn self.old self.new) }
    {
        self.add_table(alloc, "", document, top())?;
        self.add_inner_table(alloc, document, "timers", "timers.", timers())?;
        self.add_serve(alloc, document)?;
        self.add_arrays(alloc, document)
    }

    /// Warns of the keys of the table `serve` of a document, and of its table `sctp`.
    fn add_serve(&mut self, alloc: Global, document: &Table) -> Result<(), AllocError>
        requires { IsSoFar self.old }
        ensures { OnOk result (GoesOn self.old self.new) }
    {
        self.add_inner_table(alloc, document, "serve", "serve.", serve())?;
        match document.get("serve") {
            Some(Value::Table(serve)) => {
                self.add_inner_table(alloc, serve, "sctp", "serve.sctp.", sctp())
            }
            _ => Ok(()),
        }
    }

    /// Warns of the keys of a table in another.
    fn add_inner_table(
        &mut self,
        alloc: Global,
        outer: &Table,
        name: &str,
        front: &str,
        known: &[(&str, Since)],
    ) -> Result<(), AllocError>
        requires { IsSoFar self.old }
        ensures { OnOk result (GoesOn self.old self.new) }
    {
        match outer.get(name) {
            Some(Value::Table(table)) => self.add_table(alloc, front, table, known),
            _ => Ok(()),
        }
    }

    /// Warns of the keys of the arrays in a document.
    fn add_arrays(&mut self, alloc: Global, document: &Table) -> Result<(), AllocError>
        requires { IsSoFar self.old }
        ensures { OnOk result (GoesOn self.old self.new) }
    {
        for array in arrays() {
            if let Some(Value::Array(entries)) = document.get(array.name) {
                self.add_entries(alloc, array.name, entries, array.keys)?;
            }
        }
        Ok(())
    }

    /// Warns of the keys of the entries of an array.
    fn add_entries(
        &mut self,
        alloc: Global,
        array: &str,
        entries: &[Value],
        known: &[(&str, Since)],
    ) -> Result<(), AllocError>
        requires { IsSoFar self.old }
        ensures { OnOk result (GoesOn self.old self.new) }
    {
        for (i, entry) in entries.iter().enumerate() {
            if let Value::Table(table) = entry {
                let front = format!(in alloc; "{array}[{i}].")?;
                self.add_table(alloc, front.as_str(), table, known)?;
            }
        }
        Ok(())
    }

    /// Warns of the keys of a table, whose path begins like this.
    fn add_table(
        &mut self,
        alloc: Global,
        front: &str,
        table: &Table,
        known: &[(&str, Since)],
    ) -> Result<(), AllocError>
        requires { IsSoFar self.old }
        ensures { OnOk result (GoesOn self.old self.new) }
    {
        for key in table.keys() {
            if !has_key(known, self.version, key.as_str()) {
                self.add(alloc, front, key.as_str(), known)?;
            }
        }
        Ok(())
    }

    /// Warns of a key, unless there are enough warnings. Of the keys that came with one version, or with those before it,
    /// only the first is told.
    fn add(
        &mut self,
        alloc: Global,
        front: &str,
        key: &str,
        known: &[(&str, Since)],
    ) -> Result<(), AllocError>
        requires { IsSoFar self.old }
        ensures { OnOk result (GoesOn self.old self.new) }
    {
        if self.count >= MOST_WARNINGS {
            return Ok(());
        }
        match since_of(known, key) {
            Some(since) => self.add_later(alloc, front, key, since.number()),
            None => self.add_unknown(alloc, front, key, known),
        }
    }

    /// Warns of a key that came with a later version than the file has, unless that version, or one behind it, was told.
    fn add_later(
        &mut self,
        alloc: Global,
        front: &str,
        key: &str,
        version: u8,
    ) -> Result<(), AllocError>
        requires so_far { IsSoFar self.old }
        requires room { self.old.count < 20 }
        ensures { OnOk result (GoesOn self.old self.new) }
    {
        if version <= self.told {
            return Ok(());
        }
        let warning = later_warning(alloc, self.file, front, key, version)?;
        self.told = version;
        self.push(warning.as_str())
    }

    /// Warns of a key that no version knows.
    fn add_unknown(
        &mut self,
        alloc: Global,
        front: &str,
        key: &str,
        known: &[(&str, Since)],
    ) -> Result<(), AllocError>
        requires so_far { IsSoFar self.old }
        requires room { self.old.count < 20 }
        ensures { OnOk result (GoesOn self.old self.new) }
    {
        let warning = warning(alloc, self.file, self.version, front, key, known)?;
        self.push(warning.as_str())
    }

    /// Puts a warning behind the others.
    fn push(&mut self, line: &str) -> Result<(), AllocError>
        requires so_far { IsSoFar self.old }
        requires room { self.old.count < 20 }
        requires line { (i : Ignored) × (line.now ≡ warning self.old.file.now i) }
        ensures { OnOk result (GoesOn self.old self.new) }
    {
        self.count += 1;
        self.text.push_str(line)
    }
}

/// The version that brought a key, if it is one of these.
fn since_of(known: &[(&str, Since)], key: &str) -> Option<Since> {
    for (name, since) in known {
        if *name == key {
            return Some(*since);
        }
    }
    None
}

/// The warning of a key that came with a version, whose path begins like this.
fn later_warning(
    alloc: Global,
    file: &str,
    front: &str,
    key: &str,
    version: u8,
) -> Result<String, AllocError>
    ensures { IfOk result (λ text. (i : Ignored) × (string_bytes text ≡ warning file.now i)) }
{
    format!(in alloc; "{file}: {front}{key} is ignored: it needs version = {version}\n")
}

/// The warning of a key, whose path begins like this.
fn warning(
    alloc: Global,
    file: &str,
    version: Option<i64>,
    front: &str,
    key: &str,
    known: &[(&str, Since)],
) -> Result<String, AllocError>
    ensures { IfOk result (λ text. (i : Ignored) × (string_bytes text ≡ warning file.now i)) }
{
    if !is_shown(key) {
        let octets = key.len();
        let key = format!(in alloc; "(a key of {octets} octets)")?;
        return format!(in alloc; "{file}: {front}{key} is ignored\n");
    }
    let Some(nearest) = nearest(alloc, version, key, known)? else {
        return format!(in alloc; "{file}: {front}{key} is ignored: no such key\n");
    };
    format!(in alloc; "{file}: {front}{key} is ignored; the nearest key is {front}{nearest}\n")
}

/// The near known key that takes the fewest edits, of those that a file of this version has.
fn nearest<'a>(
    alloc: Global,
    version: Option<i64>,
    key: &str,
    known: &[(&'a str, Since)],
) -> Result<Option<&'a str>, AllocError> {
    let mut nearest = None;
    let mut too_many = 1 + (key.len() / OCTETS_PER_EDIT).max(1);
    for (candidate, since) in known {
        if has_since(version, *since) {
            let edits = osa_distance(alloc, key, candidate)?;
            if edits < too_many {
                too_many = edits;
                nearest = Some(*candidate);
            }
        }
    }
    Ok(nearest)
}
