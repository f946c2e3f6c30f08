//! The settings of a node as they are now, as a settings file.

ghost use Rattle.std.specs.Prelude.{◌≡◌, ◌+◌, ◌*◌, ◌≤◌, ◌++◌, codes, length, slice_get};
ghost use Rattle.std.specs.Option.{option_copied, option_map};
ghost use Rattle.console.specs.TimerKeys.{keyed_timers};
ghost use Rattle.console.specs.SettingsTexts as text;

use crate::names::set_name;
use crate::settings_part::{SettingsPart, USER_INDICATORS};
use crate::settings_values::{
    KEY_OCTETS, KeyRow, digits_row, flag_row, given_row, number_element, number_row, point_row,
    text_element, text_row,
};
use crate::timer_keys::{TIMERS, keyed_timer};
use arrayvec::ArrayString;
use exchange::Exchange;
use settings::{
    DestinationRow, LinkRow, PointCode, PointFormat, SetId, SetRow, Settings, Ssn, TimerTicks,
    TitleChange, TitleRoute, TitleRow,
};

/// Octets of the rows of an entry, at most.
pub const ROWS_OCTETS: usize = 1024;

/// Octets of the six rows of what a node does beside the rest, at most.
const SERVICES_OCTETS: usize = 384;

/// Octets of the two rows of a route, at most.
const ROUTE_OCTETS: usize = 128;

/// Octets of the four rows of a change of titles, at most.
const CHANGE_OCTETS: usize = 256;

/// The rows of an entry of a settings file, with the line feed of each.
pub type SettingsRows = ArrayString<ROWS_OCTETS>;

/// The rows of entry `k`, from 0, of a part of the settings as a file of version 4. Points are texts in this format.
/// Nothing past the last entry.
pub fn settings_rows(
    exchange: &Exchange,
    part: SettingsPart,
    k: usize,
    points: PointFormat,
) -> SettingsRows
    ensures { result.bytes ≡ text.rows_of points exchange.now part k }
{
    let settings = exchange.settings();
    match part {
        SettingsPart::Node => node_rows(settings, points),
        SettingsPart::Users => of_row(user_row(settings, USER_INDICATORS.get(k))),
        SettingsPart::UsersEnd => of_text("]\nsubsystems = [\n"),
        SettingsPart::Subsystems => of_row(subsystem_row(settings.subsystems().get(k))),
        SettingsPart::SubsystemsEnd => of_text("]\n\n[timers]\n"),
        SettingsPart::Timers => of_row(timer_row(settings.timers(), k)),
        SettingsPart::Sets => set_rows(settings.sets().get(k), points),
        SettingsPart::Links => link_rows(settings, settings.links().get(k)),
        SettingsPart::Destinations => {
            destination_rows(settings, settings.destinations().get(k), points)
        }
        SettingsPart::Titles => title_rows(exchange.title(k), points),
    }
}

/// How many entries a part of the settings has.
pub fn settings_entries(exchange: &Exchange, part: SettingsPart) -> usize
    ensures { result ≡ text.entries_of exchange.now part }
{
    let settings = exchange.settings();
    match part {
        SettingsPart::Node | SettingsPart::UsersEnd | SettingsPart::SubsystemsEnd => 1,
        SettingsPart::Users => USER_INDICATORS.len(),
        SettingsPart::Subsystems => settings.subsystems().len(),
        SettingsPart::Timers => TIMERS,
        SettingsPart::Sets => settings.sets().len(),
        SettingsPart::Links => settings.links().len(),
        SettingsPart::Destinations => settings.destinations().len(),
        SettingsPart::Titles => exchange.title_count(),
    }
}

/// A text that is always the same.
fn of_text(text: &str) -> SettingsRows
    requires { length text.now ≤ 64 }
    ensures { result.bytes ≡ text.now }
{
    let mut rows = SettingsRows::new();
    rows.push_str(text);
    rows
}

/// The row of one key.
fn of_row(row: KeyRow) -> SettingsRows
    ensures { result.bytes ≡ row.bytes }
{
    let mut rows = SettingsRows::new();
    rows.push_str(row.as_str());
    rows
}

/// What is outside of tables and lists, up to the list of user parts.
fn node_rows(settings: &Settings, points: PointFormat) -> SettingsRows
    ensures { result.bytes ≡ text.node_rows points settings.now }
{
    let mut rows = SettingsRows::new();
    rows.push_str("# This node's settings, without [serve] and the places of its links.\n");
    rows.push_str("version = 4\n");
    rows.push_str(point_row("own", settings.own(), points).as_str());
    rows.push_str(number_row("network", u64::from(settings.network())).as_str());
    rows.push_str(number_row("window", settings.window() as u64).as_str());
    rows.push_str(number_row("pool", settings.pool() as u64).as_str());
    rows.push_str(service_rows(settings).as_str());
    rows.push_str("users = [\n");
    rows
}

/// What the node does beside the rest.
fn service_rows(settings: &Settings) -> ArrayString<SERVICES_OCTETS>
    ensures { result.bytes ≡ text.service_rows settings.now }
{
    let mut rows = ArrayString::new();
    rows.push_str(flag_row("extended_unitdata", settings.extended_unitdata()).as_str());
    rows.push_str(flag_row("subsystem_tests", settings.subsystem_tests()).as_str());
    rows.push_str(flag_row("user_part_unavailable", settings.user_part_unavailable()).as_str());
    rows.push_str(flag_row("processor_outage", settings.processor_outage()).as_str());
    rows.push_str(flag_row("out_of_service", settings.out_of_service()).as_str());
    let by_any_route = settings.changeover_by_any_route();
    rows.push_str(flag_row("changeover_by_any_route", by_any_route).as_str());
    rows
}

/// A user part, if the node has one of this service indicator.
fn user_row(settings: &Settings, service_indicator: Option<&u8>) -> KeyRow
    ensures { result.bytes ≡ text.user_row settings.now (option_copied service_indicator.entry) }
{
    match service_indicator {
        Some(user) if settings.is_user(*user) => number_element(*user),
        _ => KeyRow::new(),
    }
}

/// A subsystem, if there is one.
fn subsystem_row(ssn: Option<&u8>) -> KeyRow
    ensures { result.bytes ≡ text.subsystem_row (option_copied ssn.entry) }
{
    match ssn {
        Some(ssn) => number_element(*ssn),
        None => KeyRow::new(),
    }
}

/// Timer `k`, if there is one, and if the settings have it.
fn timer_row(timers: TimerTicks, k: usize) -> KeyRow
    ensures { result.bytes ≡ text.timer_row (slice_get (keyed_timers timers) k) }
{
    match keyed_timer(timers, k) {
        Some(timer) => given_row(timer.key, timer.ticks),
        None => KeyRow::new(),
    }
}

/// A link set, if there is one.
fn set_rows(set: Option<&SetRow>, points: PointFormat) -> SettingsRows
    ensures { result.bytes ≡ text.set_rows points (option_copied set.entry) }
{
    let mut rows = SettingsRows::new();
    if let Some(set) = set {
        rows.push_str("\n[[set]]\n");
        rows.push_str(text_row("name", set.name()).as_str());
        rows.push_str(point_row("adjacent", set.adjacent(), points).as_str());
    }
    rows
}

/// A link, if there is one.
fn link_rows(settings: &Settings, link: Option<&LinkRow>) -> SettingsRows
    ensures { result.bytes ≡ text.link_rows settings.now (option_copied link.entry) }
{
    let mut rows = SettingsRows::new();
    if let Some(link) = link {
        rows.push_str("\n[[link]]\n");
        rows.push_str(text_row("name", link.name()).as_str());
        rows.push_str(text_row("set", set_name(settings, link.set())).as_str());
        rows.push_str(number_row("slc", u64::from(link.slc())).as_str());
        rows.push_str(given_row("share", link.share()).as_str());
    }
    rows
}

/// A destination, if there is one.
fn destination_rows(
    settings: &Settings,
    destination: Option<&DestinationRow>,
    points: PointFormat,
) -> SettingsRows
    ensures { result.bytes ≡ text.destination_rows points settings.now (option_copied destination.entry) }
{
    let mut rows = SettingsRows::new();
    if let Some(destination) = destination {
        rows.push_str("\n[[destination]]\n");
        rows.push_str(point_row("point", destination.point(), points).as_str());
        rows.push_str("sets = [\n");
        push_sets(&mut rows, settings, destination.sets());
        rows.push_str("]\n");
        rows.push_str(flag_row("joined", destination.joined()).as_str());
    }
    rows
}

/// Appends the names of these sets, each as an element of a list.
fn push_sets(rows: &mut SettingsRows, settings: &Settings, sets: &[SetId])
    requires room { length rows.old.bytes + 64 * length sets.now ≤ ROWS_OCTETS }
    ensures text { rows.new.bytes ≡ rows.old.bytes ++ text.set_elements settings.now sets.now }
    ensures short { length rows.new.bytes ≤ length rows.old.bytes + 64 * length sets.now }
{
    for set in sets {
        rows.push_str(text_element(set_name(settings, *set)).as_str());
    }
}

/// A translation row, if there is one.
fn title_rows(row: Option<TitleRow>, points: PointFormat) -> SettingsRows
    ensures { result.bytes ≡ text.title_rows points row }
{
    let mut rows = SettingsRows::new();
    if let Some(row) = row {
        rows.push_str("\n[[title]]\n");
        rows.push_str(number_row("translation", u64::from(row.translation())).as_str());
        rows.push_str(number_row("plan", u64::from(row.plan())).as_str());
        rows.push_str(number_row("nature", u64::from(row.nature())).as_str());
        rows.push_str(digits_row("digits", row.digits()).as_str());
        rows.push_str(point_row("point", row.point(), points).as_str());
        rows.push_str(backup_row(row.backup(), points).as_str());
        rows.push_str(route_rows(row.route()).as_str());
        rows.push_str(change_rows(row.change()).as_str());
    }
    rows
}

/// The backup of a translation row, if it has one.
fn backup_row(backup: Option<PointCode>, points: PointFormat) -> KeyRow
    ensures { result.bytes ≡ text.backup_row points backup }
{
    match backup {
        Some(backup) => point_row("backup", backup, points),
        None => KeyRow::new(),
    }
}

/// How addresses are routed, and the subsystem number.
fn route_rows(route: TitleRoute) -> ArrayString<ROUTE_OCTETS>
    ensures { result.bytes ≡ text.route_rows route }
{
    let mut rows = ArrayString::new();
    match route {
        TitleRoute::Title(ssn) => {
            rows.push_str(text_row("route", "title").as_str());
            rows.push_str(ssn_row(ssn).as_str());
        }
        TitleRoute::Ssn(ssn) => {
            rows.push_str(text_row("route", "ssn").as_str());
            rows.push_str(number_row("ssn", u64::from(ssn.number())).as_str());
        }
    }
    rows
}

/// A subsystem number, if there is one.
fn ssn_row(ssn: Option<Ssn>) -> KeyRow
    ensures { result.bytes ≡ text.given_row (codes "ssn") ssn }
{
    match ssn {
        Some(ssn) => number_row("ssn", u64::from(ssn.number())),
        None => KeyRow::new(),
    }
}

/// How titles change, as far as they do.
fn change_rows(change: &TitleChange) -> ArrayString<CHANGE_OCTETS>
    ensures { result.bytes ≡ text.change_rows change.now }
{
    let mut rows = ArrayString::new();
    rows.push_str(octet_row("new_plan", change.plan()).as_str());
    rows.push_str(octet_row("new_nature", change.nature()).as_str());
    if change.removed() != 0 {
        rows.push_str(number_row("remove", change.removed() as u64).as_str());
    }
    if !change.added().is_empty() {
        rows.push_str(digits_row("add", change.added()).as_str());
    }
    rows
}

/// A key and a number of one octet, if there is one.
fn octet_row(key: &str, value: Option<u8>) -> KeyRow
    requires { length key.now ≤ KEY_OCTETS }
    ensures { result.bytes ≡ text.given_row key.now value }
{
    match value {
        Some(value) => number_row(key, u64::from(value)),
        None => KeyRow::new(),
    }
}
