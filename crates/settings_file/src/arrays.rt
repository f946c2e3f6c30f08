//! The arrays of a settings file: link sets, links, destinations and translation rows.

ghost use Rattle.std.specs.Prelude.{◌≡◌, map};
ghost use Rattle.toml.specs.View.{view, table_view};
ghost use Rattle.settings_file.specs.Faults.{AnswersOrNoMemory};
ghost use Rattle.settings_file.specs.Shapes.{each};
ghost use Rattle.settings_file.specs.Written.{set_written, link_written, destination_written, change_written};
ghost use Rattle.settings_file.specs.Written.{title_written};
ghost use Rattle.settings_file.specs.Entries.{set_in, link_entry_in, destination_in, ssn_at, change_at, title_in};
ghost use Rattle.settings_file.specs.Entries.{sets_at, links_at, destinations_at, titles_at};

use crate::fault::SettingsFault;
use crate::node_keys::{
    entries, found_at, integer, name_at, names, optional_integer, optional_point, optional_text,
    point, text, truth,
};
use crate::shapes::{array_in, integer_in, table_in};
use settings::{ChangeDraft, DestinationDraft, Key, LinkDraft, SetDraft, TitleDraft};
use std::alloc::Global;
use toml::{Table, Value};

/// A link set, in a file whose version has longer names and texts of points or doesn't have them.
#[tactic(auto, unfolding(crate::specs::Entries::set_in))]
fn set(
    alloc: Global,
    has_additions: bool,
    i: usize,
    value: &Value,
) -> Result<SetDraft, SettingsFault>
    ensures { AnswersOrNoMemory set_written (set_in has_additions i (view value.now)) result }
{
    let table = table_in(value, SettingsFault::Kind(Key::SetEntry(i)))?;
    let name = name_at(alloc, has_additions, table, Key::SetName(i))?;
    let adjacent = point(has_additions, table, Key::SetAdjacent(i))?;
    Ok(SetDraft { name, adjacent })
}

/// A link, in a file whose version has the key `share`, and longer names, or doesn't have them.
#[tactic(auto, unfolding(crate::specs::Entries::link_entry_in))]
fn link(
    alloc: Global,
    has_share: bool,
    has_longer: bool,
    i: usize,
    value: &Value,
) -> Result<LinkDraft, SettingsFault>
    ensures { AnswersOrNoMemory link_written (link_entry_in has_share has_longer i (view value.now)) result }
{
    let table = table_in(value, SettingsFault::Kind(Key::LinkEntry(i)))?;
    let name = name_at(alloc, has_longer, table, Key::LinkName(i))?;
    let set = name_at(alloc, has_longer, table, Key::LinkSet(i))?;
    let slc = integer(table, Key::LinkSlc(i))?;
    let share = optional_integer(has_share, table, Key::LinkShare(i))?;
    Ok(LinkDraft {
        name,
        set,
        slc,
        share,
    })
}

/// A destination, in a file whose version has the key `joined`, and longer names and texts of points, or doesn't have
/// them.
#[tactic(auto, unfolding(crate::specs::Entries::destination_in))]
fn destination(
    alloc: Global,
    has_joined: bool,
    has_additions: bool,
    i: usize,
    value: &Value,
) -> Result<DestinationDraft, SettingsFault>
    ensures { AnswersOrNoMemory destination_written
        (destination_in has_joined has_additions i (view value.now)) result }
{
    let table = table_in(value, SettingsFault::Kind(Key::DestinationEntry(i)))?;
    let point = point(has_additions, table, Key::DestinationPoint(i))?;
    let sets = names(alloc, has_additions, table, Key::DestinationSets(i))?;
    let joined = truth(has_joined, table, Key::DestinationJoined(i))?;
    Ok(DestinationDraft {
        point,
        sets,
        joined,
    })
}

/// The subsystem number of a translation row, which a route by subsystem number needs.
#[tactic(auto, unfolding(crate::specs::Entries::ssn_at))]
pub(crate) fn ssn(table: &Table, i: usize, route: &str) -> Result<Option<i64>, SettingsFault>
    ensures { result ≡ ssn_at i route.now (table_view table.now) }
{
    let key = Key::TitleSsn(i);
    match found_at(table, key) {
        Some(value) => Ok(Some(integer_in(value, SettingsFault::Kind(key))?)),
        None if route == "ssn" => Err(SettingsFault::Missing(key)),
        None => Ok(None),
    }
}

/// How a translation row changes titles. If the file's version doesn't have the keys they are ignored.
#[tactic(auto, unfolding(crate::specs::Entries::change_at))]
fn change(
    alloc: Global,
    has_keys: bool,
    i: usize,
    table: &Table,
) -> Result<ChangeDraft, SettingsFault>
    ensures { AnswersOrNoMemory change_written (change_at has_keys i (table_view table.now)) result }
{
    let plan = optional_integer(has_keys, table, Key::TitleNewPlan(i))?;
    let nature = optional_integer(has_keys, table, Key::TitleNewNature(i))?;
    let removed = optional_integer(has_keys, table, Key::TitleRemove(i))?;
    let added = optional_text(alloc, has_keys, table, Key::TitleAdd(i))?;
    Ok(ChangeDraft {
        plan,
        nature,
        removed: removed.unwrap_or(0),
        added,
    })
}

/// A translation row, in a file whose version has the keys of backups and changed titles, and texts of points, or
/// doesn't have them.
#[tactic(auto, unfolding(crate::specs::Entries::title_in))]
fn title(
    alloc: Global,
    has_extensions: bool,
    has_texts: bool,
    i: usize,
    value: &Value,
) -> Result<TitleDraft, SettingsFault>
    ensures { AnswersOrNoMemory title_written (title_in has_extensions has_texts i (view value.now)) result }
{
    let table = table_in(value, SettingsFault::Kind(Key::TitleEntry(i)))?;
    let translation = integer(table, Key::TitleTranslation(i))?;
    let plan = integer(table, Key::TitlePlan(i))?;
    let nature = integer(table, Key::TitleNature(i))?;
    let digits = text(alloc, table, Key::TitleDigits(i))?;
    let point = point(has_texts, table, Key::TitlePoint(i))?;
    let backup = optional_point(has_extensions, has_texts, table, Key::TitleBackup(i))?;
    let route = text(alloc, table, Key::TitleRoute(i))?;
    let ssn = ssn(table, i, route.as_str())?;
    let change = change(alloc, has_extensions, i, table)?;
    Ok(TitleDraft {
        translation,
        plan,
        nature,
        digits,
        point,
        backup,
        route,
        ssn,
        change,
    })
}

/// The link sets that values are.
fn each_set(
    alloc: Global,
    has_additions: bool,
    values: &[Value],
) -> Result<Vec<SetDraft>, SettingsFault>
    ensures { AnswersOrNoMemory (λ sets. map set_written sets.items)
        (each (set_in has_additions) 0 (map view values.now)) result }
{
    let mut sets = Vec::with_capacity(alloc, values.len())?;
    for i in 0..values.len() {
        let set = set(alloc, has_additions, i, &values[i])?;
        sets.push(set)?;
    }
    Ok(sets)
}

/// The links that values are.
fn each_link(
    alloc: Global,
    has_share: bool,
    has_longer: bool,
    values: &[Value],
) -> Result<Vec<LinkDraft>, SettingsFault>
    ensures { AnswersOrNoMemory (λ links. map link_written links.items)
        (each (link_entry_in has_share has_longer) 0 (map view values.now)) result }
{
    let mut links = Vec::with_capacity(alloc, values.len())?;
    for i in 0..values.len() {
        let link = link(alloc, has_share, has_longer, i, &values[i])?;
        links.push(link)?;
    }
    Ok(links)
}

/// The destinations that values are.
fn each_destination(
    alloc: Global,
    has_joined: bool,
    has_additions: bool,
    values: &[Value],
) -> Result<Vec<DestinationDraft>, SettingsFault>
    ensures { AnswersOrNoMemory (λ destinations. map destination_written destinations.items)
        (each (destination_in has_joined has_additions) 0 (map view values.now)) result }
{
    let mut destinations = Vec::with_capacity(alloc, values.len())?;
    for i in 0..values.len() {
        let destination = destination(alloc, has_joined, has_additions, i, &values[i])?;
        destinations.push(destination)?;
    }
    Ok(destinations)
}

/// The translation rows that values are.
fn each_title(
    alloc: Global,
    has_extensions: bool,
    has_texts: bool,
    values: &[Value],
) -> Result<Vec<TitleDraft>, SettingsFault>
    ensures { AnswersOrNoMemory (λ titles. map title_written titles.items)
        (each (title_in has_extensions has_texts) 0 (map view values.now)) result }
{
    let mut titles = Vec::with_capacity(alloc, values.len())?;
    for i in 0..values.len() {
        let title = title(alloc, has_extensions, has_texts, i, &values[i])?;
        titles.push(title)?;
    }
    Ok(titles)
}

/// The link sets of a file, whose version has longer names and texts of points or doesn't have them.
#[tactic(auto, unfolding(crate::specs::Entries::sets_at))]
pub(crate) fn sets(
    alloc: Global,
    has_additions: bool,
    table: &Table,
) -> Result<Vec<SetDraft>, SettingsFault>
    ensures { AnswersOrNoMemory (λ sets. map set_written sets.items)
        (sets_at has_additions (table_view table.now)) result }
{
    let values = entries(table, Key::Set)?;
    each_set(alloc, has_additions, values)
}

/// The links of a file, whose version has the key `share`, and longer names, or doesn't have them.
#[tactic(auto, unfolding(crate::specs::Entries::links_at))]
pub(crate) fn links(
    alloc: Global,
    has_share: bool,
    has_longer: bool,
    table: &Table,
) -> Result<Vec<LinkDraft>, SettingsFault>
    ensures { AnswersOrNoMemory (λ links. map link_written links.items)
        (links_at has_share has_longer (table_view table.now)) result }
{
    let values = entries(table, Key::Link)?;
    each_link(alloc, has_share, has_longer, values)
}

/// The destinations of a file, whose version has the key `joined`, and longer names and texts of points, or doesn't have
/// them.
#[tactic(auto, unfolding(crate::specs::Entries::destinations_at))]
pub(crate) fn destinations(
    alloc: Global,
    has_joined: bool,
    has_additions: bool,
    table: &Table,
) -> Result<Vec<DestinationDraft>, SettingsFault>
    ensures { AnswersOrNoMemory (λ destinations. map destination_written destinations.items)
        (destinations_at has_joined has_additions (table_view table.now)) result }
{
    let values = entries(table, Key::Destination)?;
    each_destination(alloc, has_joined, has_additions, values)
}

/// The translation rows of a file, which may have none, and whose version has the keys of changed titles, and texts of
/// points, or doesn't have them.
#[tactic(auto, unfolding(crate::specs::Entries::titles_at))]
pub(crate) fn titles(
    alloc: Global,
    has_extensions: bool,
    has_texts: bool,
    table: &Table,
) -> Result<Vec<TitleDraft>, SettingsFault>
    ensures { AnswersOrNoMemory (λ titles. map title_written titles.items)
        (titles_at has_extensions has_texts (table_view table.now)) result }
{
    match found_at(table, Key::Title) {
        Some(value) => {
            let values = array_in(value, SettingsFault::Kind(Key::Title))?;
            each_title(alloc, has_extensions, has_texts, values)
        }
        None => Ok(Vec::new(alloc)),
    }
}
