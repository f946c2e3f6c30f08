//! The keys of a settings file: where each is, and what its value must be.

ghost use Rattle.std.specs.Prelude.{◌≡◌, None, Some, []};
ghost use Rattle.settings.specs.Keys.{key_front, key_index};
ghost use Rattle.settings_file.specs.Places.{key_place, row_place, behind_table, name_at, key_name};

use settings::{Key, TimerKey};

/// A key of a settings file: where it is, and what its value must be, in words. `lone_key` and `entry_key` make one.
#[derive(Clone, Copy)]
pub struct KeyRow {
    /// The key as it is written; of an entry of an array and of a key in one, the name of the array.
    pub front: &'static str,
    /// The index of the entry in its array, from 0.
    pub entry: Option<usize>,
    /// The key in its entry; empty for the entry itself, and for a key that is in no array.
    pub name: &'static str,
    /// The type of the value; in a file of the last version, if versions differ.
    pub kind: &'static str,
    /// What a value of this type must be; in a file of the last version, if versions differ.
    pub demand: &'static str,
}

impl KeyRow {
    /// The key, as its table or its entry of an array has it.
    pub(crate) fn written(self) -> &'static str
        ensures { result.now ≡ name_at (row_place self) }
    {
        match self.entry {
            None => behind_table(behind_table(self.front)),
            Some(_) => self.name,
        }
    }
}

/// A path without the table that it begins with, if it begins with one.
fn behind_table(path: &str) -> &str
    ensures { result.now ≡ behind_table path.now }
{
    match path.split_once('.') {
        Some((_, below)) => below,
        None => path,
    }
}

pub(crate) const INTEGER: &str = "an integer";

pub(crate) const TEXT: &str = "a text";

pub(crate) const TRUTH: &str = "true or false";

const INTEGERS: &str = "a list of integers";

pub(crate) const TEXTS: &str = "a list of texts";

pub(crate) const TABLE: &str = "a table";

const TABLES: &str = "an array of tables";

const NAME: &str = "1 to 32 of a to z, A to Z, 0 to 9, -, _ and .";

/// What a name must be in versions before 4.
pub(crate) const SHORT_NAME: &str = "1 to 16 of a to z, 0 to 9 and -";

/// What the value of a point is where there are texts of points.
const POINT_KIND: &str = "a point, such as 4237 or \"2-17-5\"";

const POINT: &str = "a point from 0 to 16383, or from \"0-0-0\" to \"7-255-7\"";

const FAR_POINT: &str =
    "another point than the node, from 0 to 16383, or from \"0-0-0\" to \"7-255-7\"";

/// What a point must be in versions without texts of points.
pub(crate) const POINT_ALONE: &str = "0 to 16383";

/// The same of another point than the node.
pub(crate) const FAR_POINT_ALONE: &str = "0 to 16383, and not the node's own";

/// What the value of a timer is where there are durations.
const TICKS_OR_DURATION: &str = "an integer, or a duration such as \"1.5s\"";

/// What a timer must be where there are durations.
const TICKS: &str =
    "1 to 65535, or a duration of that many ticks such as \"800ms\", \"1.5s\" or \"2min\"";

/// What a timer must be in versions without durations.
pub(crate) const TICKS_ALONE: &str = "1 to 65535";

const BAR_TICKS: &str = "more than timers.t2, and at most 65535";

const SET_NAMES: &str = "1 to 8 names of sets";

const ALONE: &str = "false with one set";

const DIGITS: &str = "1 to 32 of 0 to 9 and a to f";

const ADDED_DIGITS: &str = "at most 32 of 0 to 9 and a to f";

const PLAN: &str = "0 to 15";

const NATURE: &str = "0 to 127";

/// How a key is written in its table, or in its entry of an array.
#[tactic(auto, unfolding(crate::specs::Places::key_name))]
pub(crate) fn key_name(key: Key) -> &'static str
    ensures { result.now ≡ key_name key }
{
    key_row(key).written()
}

/// How a key is written; of a key in an entry of an array, how the array is.
pub(crate) fn key_front(key: Key) -> &'static str
    ensures { result.now ≡ key_front key }
{
    key_row(key).front
}

pub(crate) fn key_row(key: Key) -> KeyRow
    ensures { row_place result ≡ key_place key }
{
    match key {
        Key::SetEntry(i) => entry_key("set", i, "", TABLE, ""),
        Key::SetName(i) => entry_key("set", i, "name", TEXT, NAME),
        Key::SetAdjacent(i) => entry_key("set", i, "adjacent", POINT_KIND, FAR_POINT),
        Key::LinkEntry(i) => entry_key("link", i, "", TABLE, ""),
        Key::LinkName(i) => entry_key("link", i, "name", TEXT, NAME),
        Key::LinkSet(i) => entry_key("link", i, "set", TEXT, NAME),
        Key::LinkSlc(i) => entry_key("link", i, "slc", INTEGER, "0 to 15"),
        Key::LinkShare(i) => entry_key("link", i, "share", INTEGER, "1 to 65535"),
        Key::DestinationEntry(i) => entry_key("destination", i, "", TABLE, ""),
        Key::DestinationPoint(i) => entry_key("destination", i, "point", POINT_KIND, FAR_POINT),
        Key::DestinationSets(i) => entry_key("destination", i, "sets", TEXTS, SET_NAMES),
        Key::DestinationJoined(i) => entry_key("destination", i, "joined", TRUTH, ALONE),
        Key::TitleEntry(i) => entry_key("title", i, "", TABLE, ""),
        Key::TitleTranslation(i) => entry_key("title", i, "translation", INTEGER, "0 to 255"),
        Key::TitlePlan(i) => entry_key("title", i, "plan", INTEGER, PLAN),
        Key::TitleNature(i) => entry_key("title", i, "nature", INTEGER, NATURE),
        Key::TitleDigits(i) => entry_key("title", i, "digits", TEXT, DIGITS),
        Key::TitlePoint(i) => entry_key("title", i, "point", POINT_KIND, POINT),
        Key::TitleBackup(i) => entry_key("title", i, "backup", POINT_KIND, POINT),
        Key::TitleRoute(i) => entry_key("title", i, "route", TEXT, "\"title\" or \"ssn\""),
        Key::TitleSsn(i) => entry_key("title", i, "ssn", INTEGER, "1 to 255"),
        Key::TitleNewPlan(i) => entry_key("title", i, "new_plan", INTEGER, PLAN),
        Key::TitleNewNature(i) => entry_key("title", i, "new_nature", INTEGER, NATURE),
        Key::TitleRemove(i) => entry_key("title", i, "remove", INTEGER, "0 to 32"),
        Key::TitleAdd(i) => entry_key("title", i, "add", TEXT, ADDED_DIGITS),
        _ => lone_row(key),
    }
}

/// The row of a key that is in no entry of an array.
fn lone_row(key: Key) -> KeyRow
    requires { key_index key ≡ None }
    ensures { row_place result ≡ key_place key }
{
    match key {
        Key::Version => lone_key("version", INTEGER, "1, 2, 3 or 4"),
        Key::Own => lone_key("own", POINT_KIND, POINT),
        Key::Network => lone_key("network", INTEGER, "0 to 3"),
        Key::Window => lone_key("window", INTEGER, "1 to 16384"),
        Key::Pool => lone_key("pool", INTEGER, "1 to 65535"),
        Key::Users => lone_key("users", INTEGERS, "numbers from 4 to 15"),
        Key::Subsystems => lone_key("subsystems", INTEGERS, "numbers from 1 to 255"),
        Key::ExtendedUnitdata => lone_key("extended_unitdata", TRUTH, ""),
        Key::SubsystemTests => lone_key("subsystem_tests", TRUTH, ""),
        Key::UserPartUnavailable => lone_key("user_part_unavailable", TRUTH, ""),
        Key::ProcessorOutage => lone_key("processor_outage", TRUTH, ""),
        Key::OutOfService => lone_key("out_of_service", TRUTH, ""),
        Key::ChangeoverByAnyRoute => lone_key("changeover_by_any_route", TRUTH, ""),
        Key::Timers => lone_key("timers", TABLE, ""),
        Key::Timer(TimerKey::T2Bar) => lone_key("timers.t2_bar", TICKS_OR_DURATION, BAR_TICKS),
        Key::Timer(timer) => lone_key(timer.path(), TICKS_OR_DURATION, TICKS),
        Key::Set => lone_key("set", TABLES, "1 to 32"),
        Key::Link => lone_key("link", TABLES, "1 to 64"),
        Key::Destination => lone_key("destination", TABLES, "1 to 4096"),
        // no other is left than `title`
        _ => lone_key("title", TABLES, "at most 65535"),
    }
}

/// The row of a key that is in no array, written like this: `own`, `timers.l1`.
pub fn lone_key(front: &'static str, kind: &'static str, demand: &'static str) -> KeyRow
    ensures front { result.front.now ≡ front.now }
    ensures entry { result.entry ≡ None }
    ensures name { result.name.now ≡ [] }
    ensures kind { result.kind.now ≡ kind.now }
    ensures demand { result.demand.now ≡ demand.now }
{
    KeyRow {
        front,
        entry: None,
        name: "",
        kind,
        demand,
    }
}

/// The row of the key of this name in an entry of an array; if the name is empty, that of the entry itself.
pub fn entry_key(
    array: &'static str,
    entry: usize,
    name: &'static str,
    kind: &'static str,
    demand: &'static str,
) -> KeyRow
    ensures front { result.front.now ≡ array.now }
    ensures entry { result.entry ≡ Some entry }
    ensures name { result.name.now ≡ name.now }
    ensures kind { result.kind.now ≡ kind.now }
    ensures demand { result.demand.now ≡ demand.now }
{
    KeyRow {
        front: array,
        entry: Some(entry),
        name,
        kind,
        demand,
    }
}
