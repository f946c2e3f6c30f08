//! The keys that tables of a settings file may have, each with the version that brought it.

ghost use Rattle.std.specs.Prelude.{◌≡◌, map};
ghost use Rattle.std.specs.List.{list_any};
ghost use Rattle.toml.specs.View.{table_view};
ghost use Rattle.settings_file.specs.KnownKeys.{known_of, known_in, version_of, has_since, has_fourth, is_key, arrays};
ghost use Rattle.settings_file.specs.KnownKeys.{top_keys, timer_keys, serve_keys, sctp_keys};

use crate::versions::{Since, has_additions, has_extensions, has_joined};
use toml::Table;

/// The keys of a settings file that are in no array.
const TOP: &[(&str, Since)] = &[
    ("version", Since::First),
    ("own", Since::First),
    ("network", Since::First),
    ("window", Since::First),
    ("pool", Since::First),
    ("users", Since::First),
    ("subsystems", Since::First),
    ("extended_unitdata", Since::Third),
    ("subsystem_tests", Since::Third),
    ("user_part_unavailable", Since::Third),
    ("processor_outage", Since::Third),
    ("out_of_service", Since::Third),
    ("changeover_by_any_route", Since::Fourth),
    ("timers", Since::First),
    ("set", Since::First),
    ("link", Since::First),
    ("destination", Since::First),
    ("title", Since::First),
    ("serve", Since::First),
];

/// The keys of the table `timers`.
const TIMERS: &[(&str, Since)] = &[
    ("l1", Since::First),
    ("l2", Since::First),
    ("l3", Since::First),
    ("l4", Since::First),
    ("l6", Since::First),
    ("l7", Since::First),
    ("t1", Since::First),
    ("t2", Since::First),
    ("t3", Since::First),
    ("t4", Since::First),
    ("t6", Since::First),
    ("t8", Since::First),
    ("t10", Since::First),
    ("slt1", Since::Third),
    ("slt2", Since::Third),
    ("l4e", Since::Third),
    ("sst", Since::Third),
    ("t2_bar", Since::Fourth),
];

/// The keys of the table `serve`.
const SERVE: &[(&str, Since)] = &[
    ("tick_ms", Since::First),
    ("console", Since::First),
    ("capture", Since::First),
    ("console_open", Since::First),
    ("points", Since::First),
    ("udp", Since::First),
    ("sctp", Since::First),
    ("page_open", Since::First),
    ("page", Since::First),
    ("capture_size", Since::Fourth),
    ("capture_files", Since::Fourth),
    ("log_times", Since::Fourth),
    ("log_least", Since::Fourth),
    ("log_form", Since::Fourth),
];

/// The keys of the table `serve.sctp`.
const SCTP: &[(&str, Since)] = &[
    ("rto_initial_ms", Since::First),
    ("rto_min_ms", Since::First),
    ("rto_max_ms", Since::First),
    ("init_tries", Since::First),
    ("retransmissions", Since::First),
    ("heartbeat_ms", Since::First),
];

/// The keys of a link set.
const SET: &[(&str, Since)] = &[("name", Since::First), ("adjacent", Since::First)];

/// The keys of a link.
const LINK: &[(&str, Since)] = &[
    ("name", Since::First),
    ("set", Since::First),
    ("slc", Since::First),
    ("share", Since::Third),
    ("listen", Since::First),
    ("from", Since::Fourth),
    ("connect", Since::First),
    ("remote", Since::First),
    ("sctp_port", Since::First),
    ("remote_sctp_port", Since::First),
    ("tries", Since::First),
    ("remote_port_fixed", Since::Fourth),
    ("addresses", Since::Fourth),
];

/// The keys of a destination.
const DESTINATION: &[(&str, Since)] = &[
    ("point", Since::First),
    ("sets", Since::First),
    ("joined", Since::Second),
];

/// The keys of a translation row.
const TITLE: &[(&str, Since)] = &[
    ("translation", Since::First),
    ("plan", Since::First),
    ("nature", Since::First),
    ("digits", Since::First),
    ("point", Since::First),
    ("backup", Since::Third),
    ("route", Since::First),
    ("ssn", Since::First),
    ("new_plan", Since::Third),
    ("new_nature", Since::Third),
    ("remove", Since::Third),
    ("add", Since::Third),
];

/// An array of tables.
#[derive(Clone, Copy)]
pub(crate) struct TableArray {
    /// The key of the array.
    pub name: &'static str,
    /// The keys of its entries.
    pub keys: &'static [(&'static str, Since)],
}

/// The version of a document, if it says one.
pub(crate) fn version_of(document: &Table) -> Option<i64>
    ensures { result ≡ version_of (table_view document.now) }
{
    match document.get("version") {
        Some(version) => version.as_integer(),
        None => None,
    }
}

/// Whether a document is of a version that has the keys that version 4 brought.
pub(crate) fn has_fourth(document: &Table) -> bool
    ensures { result ≡ has_fourth (table_view document.now) }
{
    has_since(version_of(document), Since::Fourth)
}

/// Whether a file of this version, if it says one, has the keys that came with another.
pub(crate) fn has_since(version: Option<i64>, since: Since) -> bool
    ensures { result ≡ has_since version since }
{
    match (since, version) {
        (Since::First, _) => true,
        (_, None) => false,
        (Since::Second, Some(version)) => has_joined(version),
        (Since::Third, Some(version)) => has_extensions(version),
        (Since::Fourth, Some(version)) => has_additions(version),
    }
}

/// Whether this is a known key, in a file of this version.
fn is_key(known: (&str, Since), version: Option<i64>, key: &str) -> bool
    ensures { result ≡ is_key version key.now (known_of known.entry) }
{
    known.0 == key && has_since(version, known.1)
}

/// Whether one of these is a key, in a file of this version.
pub(crate) fn has_key(keys: &[(&str, Since)], version: Option<i64>, key: &str) -> bool
    ensures { result ≡ list_any (λ known. is_key version key.now (known_of known)) keys.now }
{
    keys.iter().any(|known| is_key(*known, version, key))
}

/// The keys of a document that are in no array.
pub(crate) fn top() -> &'static [(&'static str, Since)]
    ensures { map known_of result.now ≡ top_keys }
{
    TOP
}

/// The keys of the table `timers`.
pub(crate) fn timers() -> &'static [(&'static str, Since)]
    ensures { map known_of result.now ≡ timer_keys }
{
    TIMERS
}

/// The keys of the table `serve`.
pub(crate) fn serve() -> &'static [(&'static str, Since)]
    ensures { map known_of result.now ≡ serve_keys }
{
    SERVE
}

/// The keys of the table `serve.sctp`.
pub(crate) fn sctp() -> &'static [(&'static str, Since)]
    ensures { map known_of result.now ≡ sctp_keys }
{
    SCTP
}

/// The arrays of tables of a document.
pub(crate) fn arrays() -> [TableArray; 4]
    ensures { map known_in result ≡ arrays }
{
    [
        array("set", SET),
        array("link", LINK),
        array("destination", DESTINATION),
        array("title", TITLE),
    ]
}

/// An array of tables, whose entries have these keys.
fn array(name: &'static str, keys: &'static [(&'static str, Since)]) -> TableArray
    ensures name { result.name.now ≡ name.now }
    ensures keys { result.keys.now ≡ keys.now }
{
    TableArray { name, keys }
}
