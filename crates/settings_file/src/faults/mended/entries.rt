//! The arrays of a document of which not all values can be read.

ghost use Rattle.std.specs.Prelude.{◌≡◌, None, true, IfOk, map};
ghost use Rattle.toml.specs.Data.{no_members};
ghost use Rattle.toml.specs.View.{view, table_view};
ghost use Rattle.settings_file.specs.Written.{set_written, link_written, destination_written, change_written};
ghost use Rattle.settings_file.specs.Written.{title_written};
ghost use Rattle.settings_file.specs.Mended.{or_else, members_in, entries_mended, each_mended};
ghost use Rattle.settings_file.specs.NodeKeys.{optional_integer_at, optional_point_at};
ghost use Rattle.settings_file.specs.Entries.{ssn_at};
ghost use Rattle.settings.specs.declared.key.Key.TheVariants as key;
ghost use Rattle.settings_file.specs.Mended.{set_mended, link_mended, destination_mended, change_mended, title_mended};

use crate::arrays::ssn;
use crate::fault::SettingsFault;
use crate::faults::mended::{is_true, or_unread};
use crate::faults::owned::{added_or_empty, name_or_empty, names_or_empty, text_or_empty};
use crate::node_keys::{found_at, integer, optional_integer, optional_point, point};
use crate::shapes::array_in;
use settings::{ChangeDraft, DestinationDraft, Key, LinkDraft, SetDraft, TitleDraft};
use std::alloc::{AllocError, Global};
use toml::{Table, Value};

/// The entries of an array, or none if there is no array.
fn entries(document: &Table, key: Key) -> &[Value]
    ensures { map view result.now ≡ entries_mended key (table_view document.now) }
{
    match found_at(document, key) {
        Some(value) => match array_in(value, SettingsFault::Kind(key)) {
            Ok(values) => values,
            Err(_) => &[],
        },
        None => &[],
    }
}

/// The table that an entry is, or else this empty one.
fn table_in<'a>(value: &'a Value, empty: &'a Table) -> &'a Table
    requires { table_view empty.now ≡ no_members }
    ensures { table_view result.now ≡ members_in (view value.now) }
{
    match value.as_table() {
        Some(table) => table,
        None => empty,
    }
}

/// A link set.
#[tactic(auto, unfolding(crate::specs::Mended::set_mended))]
fn set(alloc: Global, i: usize, table: &Table) -> Result<SetDraft, AllocError>
    ensures { IfOk result (λ set. set_written set ≡ set_mended i (table_view table.now)) }
{
    let name = name_or_empty(alloc, table, Key::SetName(i))?;
    Ok(SetDraft {
        name,
        adjacent: or_unread(point(true, table, Key::SetAdjacent(i))),
    })
}

/// A link.
#[tactic(auto, unfolding(crate::specs::Mended::link_mended))]
fn link(alloc: Global, i: usize, table: &Table) -> Result<LinkDraft, AllocError>
    ensures { IfOk result (λ link. link_written link ≡ link_mended i (table_view table.now)) }
{
    let name = name_or_empty(alloc, table, Key::LinkName(i))?;
    let set = name_or_empty(alloc, table, Key::LinkSet(i))?;
    Ok(LinkDraft {
        name,
        set,
        slc: or_unread(integer(table, Key::LinkSlc(i))),
        share: optional(table, Key::LinkShare(i)),
    })
}

/// The integer at a key that may be left out, if it can be read.
fn optional(table: &Table, key: Key) -> Option<i64>
    ensures { result ≡ or_else None (optional_integer_at true key (table_view table.now)) }
{
    match optional_integer(true, table, key) {
        Ok(number) => number,
        Err(_) => None,
    }
}

/// A destination.
#[tactic(auto, unfolding(crate::specs::Mended::destination_mended))]
fn destination(alloc: Global, i: usize, table: &Table) -> Result<DestinationDraft, AllocError>
    ensures { IfOk result (λ d. destination_written d ≡ destination_mended i (table_view table.now)) }
{
    let sets = names_or_empty(alloc, table, Key::DestinationSets(i))?;
    Ok(DestinationDraft {
        point: or_unread(point(true, table, Key::DestinationPoint(i))),
        sets,
        joined: is_true(table, Key::DestinationJoined(i)),
    })
}

/// The backup of a translation row, if it can be read.
fn backup(table: &Table, i: usize) -> Option<i64>
    ensures { result ≡ or_else None (optional_point_at true true (key.TitleBackup i) (table_view table.now)) }
{
    match optional_point(true, true, table, Key::TitleBackup(i)) {
        Ok(point) => point,
        Err(_) => None,
    }
}

/// The subsystem number of a translation row of this route, if it can be read.
fn subsystem(table: &Table, i: usize, route: &str) -> Option<i64>
    ensures { result ≡ or_else None (ssn_at i route.now (table_view table.now)) }
{
    match ssn(table, i, route) {
        Ok(ssn) => ssn,
        Err(_) => None,
    }
}

/// How a translation row changes titles.
#[tactic(auto, unfolding(crate::specs::Mended::change_mended))]
fn change(alloc: Global, i: usize, table: &Table) -> Result<ChangeDraft, AllocError>
    ensures { IfOk result (λ change. change_written change ≡ change_mended i (table_view table.now)) }
{
    let added = added_or_empty(alloc, table, Key::TitleAdd(i))?;
    Ok(ChangeDraft {
        plan: optional(table, Key::TitleNewPlan(i)),
        nature: optional(table, Key::TitleNewNature(i)),
        removed: optional(table, Key::TitleRemove(i)).unwrap_or(0),
        added,
    })
}

/// A translation row.
#[tactic(auto, unfolding(crate::specs::Mended::title_mended))]
fn title(alloc: Global, i: usize, table: &Table) -> Result<TitleDraft, AllocError>
    ensures { IfOk result (λ title. title_written title ≡ title_mended i (table_view table.now)) }
{
    let digits = text_or_empty(alloc, table, Key::TitleDigits(i))?;
    let route = text_or_empty(alloc, table, Key::TitleRoute(i))?;
    let change = change(alloc, i, table)?;
    let ssn = subsystem(table, i, route.as_str());
    Ok(TitleDraft {
        translation: or_unread(integer(table, Key::TitleTranslation(i))),
        plan: or_unread(integer(table, Key::TitlePlan(i))),
        nature: or_unread(integer(table, Key::TitleNature(i))),
        digits,
        point: or_unread(point(true, table, Key::TitlePoint(i))),
        backup: backup(table, i),
        route,
        ssn,
        change,
    })
}

/// The link sets that values are.
fn each_set(alloc: Global, values: &[Value]) -> Result<Vec<SetDraft>, AllocError>
    ensures { IfOk result (λ sets. map set_written sets.items
        ≡ each_mended set_mended 0 (map view values.now)) }
{
    let empty = Table::new(alloc);
    let mut sets = Vec::with_capacity(alloc, values.len())?;
    for i in 0..values.len() {
        let set = set(alloc, i, table_in(&values[i], &empty))?;
        sets.push(set)?;
    }
    Ok(sets)
}

/// The link sets of a document.
pub(crate) fn sets(alloc: Global, document: &Table) -> Result<Vec<SetDraft>, AllocError>
    ensures { IfOk result (λ sets. map set_written sets.items
        ≡ each_mended set_mended 0 (entries_mended key.Set (table_view document.now))) }
{
    each_set(alloc, entries(document, Key::Set))
}

/// The links that values are.
fn each_link(alloc: Global, values: &[Value]) -> Result<Vec<LinkDraft>, AllocError>
    ensures { IfOk result (λ links. map link_written links.items
        ≡ each_mended link_mended 0 (map view values.now)) }
{
    let empty = Table::new(alloc);
    let mut links = Vec::with_capacity(alloc, values.len())?;
    for i in 0..values.len() {
        let link = link(alloc, i, table_in(&values[i], &empty))?;
        links.push(link)?;
    }
    Ok(links)
}

/// The links of a document.
pub(crate) fn links(alloc: Global, document: &Table) -> Result<Vec<LinkDraft>, AllocError>
    ensures { IfOk result (λ links. map link_written links.items
        ≡ each_mended link_mended 0 (entries_mended key.Link (table_view document.now))) }
{
    each_link(alloc, entries(document, Key::Link))
}

/// The destinations that values are.
fn each_destination(alloc: Global, values: &[Value]) -> Result<Vec<DestinationDraft>, AllocError>
    ensures { IfOk result (λ destinations. map destination_written destinations.items
        ≡ each_mended destination_mended 0 (map view values.now)) }
{
    let empty = Table::new(alloc);
    let mut destinations = Vec::with_capacity(alloc, values.len())?;
    for i in 0..values.len() {
        let destination = destination(alloc, i, table_in(&values[i], &empty))?;
        destinations.push(destination)?;
    }
    Ok(destinations)
}

/// The destinations of a document.
pub(crate) fn destinations(
    alloc: Global,
    document: &Table,
) -> Result<Vec<DestinationDraft>, AllocError>
    ensures { IfOk result (λ destinations. map destination_written destinations.items
        ≡ each_mended destination_mended 0 (entries_mended key.Destination (table_view document.now))) }
{
    each_destination(alloc, entries(document, Key::Destination))
}

/// The translation rows that values are.
fn each_title(alloc: Global, values: &[Value]) -> Result<Vec<TitleDraft>, AllocError>
    ensures { IfOk result (λ titles. map title_written titles.items
        ≡ each_mended title_mended 0 (map view values.now)) }
{
    let empty = Table::new(alloc);
    let mut titles = Vec::with_capacity(alloc, values.len())?;
    for i in 0..values.len() {
        let title = title(alloc, i, table_in(&values[i], &empty))?;
        titles.push(title)?;
    }
    Ok(titles)
}

/// The translation rows of a document.
pub(crate) fn titles(alloc: Global, document: &Table) -> Result<Vec<TitleDraft>, AllocError>
    ensures { IfOk result (λ titles. map title_written titles.items
        ≡ each_mended title_mended 0 (entries_mended key.Title (table_view document.now))) }
{
    each_title(alloc, entries(document, Key::Title))
}
