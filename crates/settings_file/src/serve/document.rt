//! Reading the settings of a server.

ghost use Rattle.std.specs.Prelude.{◌≡◌, ◌⊎◌, ℕ, List, Some, Ok, IfOk, IfErr, true, string_bytes};
ghost use Rattle.std.specs.Option.{option_map};
ghost use Rattle.toml.specs.Parse.{parse_document};
ghost use Rattle.toml.specs.View.{table_view};
ghost use Rattle.settings_file.specs.Reading.{IsReadAs};
ghost use Rattle.settings_file.specs.Addresses.{Spelling};
ghost use Rattle.settings_file.specs.Faults.{Answers};
ghost use Rattle.settings_file.specs.ServeFaults.{AnswersOrNoMemory};
ghost use Rattle.settings_file.specs.ServeReading.{document, checked, console_told, reading, IsFirstFault};
ghost use Rattle.settings_file.specs.Consoles.{place_of};
ghost use Rattle.settings_file.specs.Keyed.{serve_at};

use crate::known_keys::has_fourth;
use crate::serve::capture::capture_limits;
use crate::serve::console_place::{ConsolePlace, address_of, kept};
use crate::serve::endpoints::endpoints;
use crate::serve::fault::ServeFault;
use crate::serve::key::ServeKey;
use crate::serve::key_rows::key_name;
use crate::serve::keys::{
    capture, console, console_open, found_at, page, page_open, points, tick_ms, udp,
};
use crate::serve::log_keys::log_settings;
use crate::serve::server::{OwnAddresses, ServeSettings};
use crate::serve::times::times;
use crate::shapes::{table_in, value};
use settings::Settings;
use std::alloc::{AllocError, Global};
use toml::Table;

/// The table `serve` of a file.
#[tactic(auto, unfolding(crate::specs::Keyed::serve_at))]
pub(crate) fn serve_in(table: &Table) -> Result<&Table, ServeFault>
    ensures { Answers (λ serve. table_view serve.now) (serve_at (table_view table.now)) result }
{
    let value = value(
        table,
        key_name(ServeKey::Serve),
        ServeFault::Missing(ServeKey::Serve),
    )?;
    table_in(value, ServeFault::Kind(ServeKey::Serve))
}

/// What a file says of its server.
#[tactic(auto, unfolding(crate::specs::ServeReading::document))]
fn contents(alloc: Global, table: &Table) -> Result<ServeSettings, ServeFault>
    ensures { (s : Spelling) → AnswersOrNoMemory (λ settings. settings)
        (document s (table_view table.now)) result }
{
    let serve = serve_in(table)?;
    let tick_ms = tick_ms(serve)?;
    let opened = console_open(serve);
    let console = console(serve, matches!(opened, Ok(true)))?;
    let file = capture(serve)?;
    let is_fourth = has_fourth(table);
    let capture_limits = capture_limits(serve, is_fourth, file)?;
    opened?;
    let points = points(serve)?;
    let udp = udp(serve)?;
    let sctp = times(serve, is_fourth)?;
    let is_page_open = page_open(serve)?;
    let address = address_of(console);
    let page = page(serve, is_page_open, address)?;
    let log = log_settings(serve, is_fourth)?;
    let own = OwnAddresses {
        console: address,
        page,
        udp,
    };
    let links = endpoints(alloc, own, is_fourth, table)?;
    let capture = owned(alloc, file)?;
    let console = kept(alloc, console)?;
    Ok(ServeSettings {
        tick_ms,
        console,
        capture,
        capture_limits,
        points,
        udp,
        sctp,
        is_page_open,
        page,
        log,
        links,
    })
}

/// The text, owned, if there is one. The error means that memory ran out.
fn owned(alloc: Global, text: Option<&str>) -> Result<Option<String>, AllocError>
    ensures { IfOk result (λ owned. option_map (λ own. string_bytes own) owned
        ≡ option_map (λ text. text.now) text.entry) }
{
    match text {
        Some(text) => Ok(Some(String::from_str(alloc, text)?)),
        None => Ok(None),
    }
}

/// Reads the settings of a server from the document that a settings file is.
///
/// Returns the settings, or the first fault, in this order: the keys `tick_ms`, `console`, `capture`, `capture_size`,
/// `capture_files`, `console_open`, `points` and `udp` of `[serve]`, those of `[serve.sctp]`, `page_open` and `page`,
/// `log_times`, `log_least` and `log_form`, then the keys of each link, from the first. If memory runs out, that may be returned instead. Keys of other names are
/// ignored.
pub fn read_server(alloc: Global, document: &Table) -> Result<ServeSettings, ServeFault>
    ensures { (s : Spelling) (text : List ℕ) → parse_document text ≡ Some (table_view document.now)
        → AnswersOrNoMemory (λ settings. settings) (reading s text) result }
{
    contents(alloc, document)
}

/// Checks the settings of a server in the document that a settings file is. A file without `serve` has
/// none, so it has no fault.
///
/// Returns the first fault, as `read_server` does. If memory runs out, that may be returned instead.
#[tactic(auto, unfolding(crate::specs::ServeReading::checked))]
pub fn check_server(alloc: Global, document: &Table) -> Result<(), ServeFault>
    ensures { (s : Spelling) → AnswersOrNoMemory (λ nothing. nothing)
        (checked s (table_view document.now)) result }
{
    match found_at(document, ServeKey::Serve) {
        Some(_) => {
            contents(alloc, document)?;
            Ok(())
        }
        None => Ok(()),
    }
}

/// Where the console of the server is, in the document that a settings file is. The other settings aren't looked at, so
/// a fault of theirs keeps nobody from the console of a node that is served.
///
/// Returns the first fault of the table `serve` and of its key `console`: Missing, with this key, if it isn't there.
#[tactic(auto, unfolding(crate::specs::ServeReading::console_told))]
pub fn read_console(document: &Table) -> Result<ConsolePlace<'_>, ServeFault>
    ensures { (s : Spelling) → Answers place_of (console_told s (table_view document.now)) result }
{
    let serve = serve_in(document)?;
    let opened = console_open(serve);
    match console(serve, matches!(opened, Ok(true)))? {
        Some(place) => Ok(place),
        None => Err(ServeFault::Missing(ServeKey::Console)),
    }
}

/// Reads the settings of a node and those of its server from the text of a settings file, and
/// checks both.
///
/// Returns both, or the first fault: what `settings_file::read` finds, then what `read_server` finds. If memory runs
/// out, that may be returned instead. Keys of other names are ignored.
pub fn read(alloc: Global, text: &str) -> Result<(Settings, ServeSettings), ServeFault>
    ensures settings { IfOk result (λ read. IsReadAs text.now read.0) }
    ensures server { (s : Spelling) → IfOk result (λ read. reading s text.now ≡ Ok read.1) }
    ensures fault { (s : Spelling) → IfErr result (λ fault.
        (fault ≡ ServeFault.NoMemory) ⊎ IsFirstFault s text.now fault) }
{
    let document = crate::parse(alloc, text)?;
    let settings = crate::read_document(alloc, &document)?;
    let server = read_server(alloc, &document)?;
    Ok((settings, server))
}
