//! The keys of the table `serve`.

ghost use Rattle.std.specs.Prelude.{◌≡◌, ◌≤◌, IfOk};
ghost use Rattle.std.specs.Option.{option_map};
ghost use Rattle.toml.specs.View.{view, table_view};
ghost use Rattle.settings_file.specs.Addresses.{Spelling};
ghost use Rattle.settings_file.specs.Faults.{Answers};
ghost use Rattle.settings_file.specs.ServeKeys.{found_at};
ghost use Rattle.settings_file.specs.Consoles.{place_of, console_at};
ghost use Rattle.settings_file.specs.Keyed.{truth_or, text_or, tick_ms_at, console_open_at, capture_at, points_at, udp_at, page_open_at, page_at};

use crate::serve::address::{address_in, guarded, is_address_of};
use crate::serve::console_place::{ConsolePlace, place_in};
use crate::serve::fault::ServeFault;
use crate::serve::key::ServeKey;
use crate::serve::key_rows::key_name;
use crate::shapes::{found, integer_in, text_in, truth_in, value};
use settings::PointFormat;
use std::net::SocketAddr;
use toml::{Table, Value};

/// The shortest tick, in milliseconds.
const SHORTEST_TICK: u16 = 10;

/// The longest tick, in milliseconds.
const LONGEST_TICK: u16 = 10_000;

/// The value of a key, if it is there.
pub(crate) fn found_at(table: &Table, key: ServeKey) -> Option<&Value>
    ensures { option_map (λ value. view value.now) result ≡ found_at key (table_view table.now) }
{
    found(table, key_name(key))
}

/// How long a tick is, in milliseconds.
#[tactic(auto, unfolding(crate::specs::Keyed::tick_ms_at))]
pub(crate) fn tick_ms(serve: &Table) -> Result<u16, ServeFault>
    ensures value { result ≡ tick_ms_at (table_view serve.now) }
    ensures above { IfOk result (λ ticks. 10 ≤ ticks) }
    ensures below { IfOk result (λ ticks. ticks ≤ 10000) }
{
    let value = value(
        serve,
        key_name(ServeKey::TickMs),
        ServeFault::Missing(ServeKey::TickMs),
    )?;
    let ticks = integer_in(value, ServeFault::Kind(ServeKey::TickMs))?;
    match u16::try_from(ticks) {
        Ok(ticks) if SHORTEST_TICK <= ticks && ticks <= LONGEST_TICK => Ok(ticks),
        _ => Err(ServeFault::Range(ServeKey::TickMs)),
    }
}

/// The truth value of a key, with this one if the key is left out.
pub(crate) fn truth_or(table: &Table, key: ServeKey, usual: bool) -> Result<bool, ServeFault>
    ensures { result ≡ truth_or key usual (found_at key (table_view table.now)) }
{
    match found_at(table, key) {
        Some(value) => truth_in(value, ServeFault::Kind(key)),
        None => Ok(usual),
    }
}

/// The text of a key, with this one if the key is left out.
pub(crate) fn text_or<'a>(
    table: &'a Table,
    key: ServeKey,
    usual: &'static str,
) -> Result<&'a str, ServeFault>
    ensures { Answers (λ text. text.now) (text_or key usual.now (found_at key (table_view table.now))) result }
{
    match found_at(table, key) {
        Some(value) => text_in(value, ServeFault::Kind(key)),
        None => Ok(usual),
    }
}

/// Whether the console may listen on an address that other machines reach.
#[tactic(auto, unfolding(crate::specs::Keyed::console_open_at))]
pub(crate) fn console_open(serve: &Table) -> Result<bool, ServeFault>
    ensures { result ≡ console_open_at (table_view serve.now) }
{
    truth_or(serve, ServeKey::ConsoleOpen, false)
}

/// Where the console is, if there is one. It asks for no password, so unless it is open no other machine may reach it.
#[tactic(auto, unfolding(crate::specs::Consoles::console_at))]
pub(crate) fn console(serve: &Table, opened: bool) -> Result<Option<ConsolePlace<'_>>, ServeFault>
    ensures { (s : Spelling) → Answers (λ console. option_map place_of console)
        (console_at s opened (table_view serve.now)) result }
{
    match found_at(serve, ServeKey::Console) {
        Some(value) => {
            let text = text_in(value, ServeFault::Kind(ServeKey::Console))?;
            Ok(Some(place_in(text, opened)?))
        }
        None => Ok(None),
    }
}

/// The file that frames are captured to, if there is one.
#[tactic(auto, unfolding(crate::specs::Keyed::capture_at))]
pub(crate) fn capture(serve: &Table) -> Result<Option<&str>, ServeFault>
    ensures { Answers (λ capture. option_map (λ file. file.now) capture)
        (capture_at (table_view serve.now)) result }
{
    match found_at(serve, ServeKey::Capture) {
        Some(value) => {
            let file = text_in(value, ServeFault::Kind(ServeKey::Capture))?;
            if file.is_empty() {
                return Err(ServeFault::Range(ServeKey::Capture));
            }
            Ok(Some(file))
        }
        None => Ok(None),
    }
}

/// How point codes are shown.
#[tactic(auto, unfolding(crate::specs::Keyed::points_at))]
pub(crate) fn points(serve: &Table) -> Result<PointFormat, ServeFault>
    ensures { result ≡ points_at (table_view serve.now) }
{
    match found_at(serve, ServeKey::Points) {
        Some(value) => match text_in(value, ServeFault::Kind(ServeKey::Points))? {
            "3-8-3" => Ok(PointFormat::ThreeEightThree),
            _ => Err(ServeFault::Range(ServeKey::Points)),
        },
        None => Ok(PointFormat::Plain),
    }
}

/// The address and the UDP port of the server, if it has one.
#[tactic(auto, unfolding(crate::specs::Keyed::udp_at))]
pub(crate) fn udp(serve: &Table) -> Result<Option<SocketAddr>, ServeFault>
    ensures { (s : Spelling) → result ≡ udp_at s (table_view serve.now) }
{
    match found_at(serve, ServeKey::Udp) {
        Some(value) => Ok(Some(address_in(value, ServeKey::Udp)?)),
        None => Ok(None),
    }
}

/// Whether the status page may be at an address that other machines reach.
#[tactic(auto, unfolding(crate::specs::Keyed::page_open_at))]
pub(crate) fn page_open(serve: &Table) -> Result<bool, ServeFault>
    ensures { result ≡ page_open_at (table_view serve.now) }
{
    truth_or(serve, ServeKey::PageOpen, false)
}

/// Where the status page is, if there is one: not where the console is. It asks for no password, so unless it is open
/// no other machine may reach the address.
#[tactic(auto, unfolding(crate::specs::Keyed::page_at))]
pub(crate) fn page(
    serve: &Table,
    opened: bool,
    console: Option<SocketAddr>,
) -> Result<Option<SocketAddr>, ServeFault>
    ensures { (s : Spelling) → result ≡ page_at s opened console (table_view serve.now) }
{
    match found_at(serve, ServeKey::Page) {
        Some(value) => {
            let address = address_in(value, ServeKey::Page)?;
            let own = guarded(address, opened, ServeKey::Page)?;
            if is_address_of(console, own) {
                return Err(ServeFault::Duplicate(ServeKey::Page));
            }
            Ok(Some(own))
        }
        None => Ok(None),
    }
}
