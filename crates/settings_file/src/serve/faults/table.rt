//! The faults of the keys of the table `serve`.

ghost use Rattle.std.specs.Prelude.{◌≡◌, OnOk};
ghost use Rattle.std.specs.Option.{option_map};
ghost use Rattle.std.specs.Result.{result_err};
ghost use Rattle.toml.specs.View.{view, table_view};
ghost use Rattle.settings_file.specs.Addresses.{Spelling};
ghost use Rattle.settings_file.specs.AllServeFaults.{open_or_unread, if_read, console_read, console_address, page_read, own_read};
ghost use Rattle.settings_file.specs.AllServeFaults.{size_check, files_check, ring_check, leading_checks, ring_checks, shown_checks, page_checks, log_checks, table_checks};
ghost use Rattle.settings_file.specs.Consoles.{place_of};
ghost use Rattle.settings_file.specs.Faults.{Answers};
ghost use Rattle.settings_file.specs.Keyed.{capture_at};
ghost use Rattle.settings_file.specs.Noted.{all_noted};

use crate::faults::noting::note;
use crate::serve::capture::{files_in, size_in};
use crate::serve::console_place::{ConsolePlace, address_of};
use crate::serve::fault::ServeFault;
use crate::serve::faults::times::note_sctp;
use crate::serve::key::ServeKey;
use crate::serve::keys::{
    capture, console, console_open, found_at, page, page_open, points, tick_ms, udp,
};
use crate::serve::log_keys::{log_form, log_least, log_times};
use crate::serve::server::OwnAddresses;
use std::alloc::AllocError;
use std::net::SocketAddr;
use toml::{Table, Value};

/// Whether an address is open. Where that can't be read, it counts as open.
fn open_or_unread(opened: Result<bool, ServeFault>) -> bool
    ensures { result ≡ open_or_unread opened }
{
    match opened {
        Ok(opened) => opened,
        Err(_) => true,
    }
}

/// Where the console is, if there is one and that can be read.
#[tactic(auto, unfolding(crate::specs::AllServeFaults::console_read))]
fn console_read(serve: &Table) -> Result<Option<ConsolePlace<'_>>, ServeFault>
    ensures { (s : Spelling) → Answers (λ console. option_map place_of console)
        (console_read s (table_view serve.now)) result }
{
    console(serve, open_or_unread(console_open(serve)))
}

/// The address of the console.
#[tactic(auto, unfolding(crate::specs::AllServeFaults::console_address))]
fn console_address(serve: &Table) -> Option<SocketAddr>
    ensures { (s : Spelling) → result ≡ console_address s (table_view serve.now) }
{
    match console_read(serve) {
        Ok(place) => address_of(place),
        Err(_) => None,
    }
}

/// Where the status page is.
#[tactic(auto, unfolding(crate::specs::AllServeFaults::page_read))]
fn page_read(serve: &Table) -> Result<Option<SocketAddr>, ServeFault>
    ensures { (s : Spelling) → result ≡ page_read s (table_view serve.now) }
{
    page(
        serve,
        open_or_unread(page_open(serve)),
        console_address(serve),
    )
}

/// What was read, if it was.
fn if_read(read: Result<Option<SocketAddr>, ServeFault>) -> Option<SocketAddr>
    ensures { result ≡ if_read read }
{
    match read {
        Ok(read) => read,
        Err(_) => None,
    }
}

/// The addresses of the server that can be read.
#[tactic(auto, unfolding(crate::specs::AllServeFaults::own_read))]
pub(crate) fn own_read(serve: &Table) -> OwnAddresses
    ensures { (s : Spelling) → result ≡ own_read s (table_view serve.now) }
{
    OwnAddresses {
        console: console_address(serve),
        page: if_read(page_read(serve)),
        udp: if_read(udp(serve)),
    }
}

/// The fault of where the console is.
fn console_check(serve: &Table) -> Option<ServeFault>
    ensures { (s : Spelling) → result ≡ result_err (console_read s (table_view serve.now)) }
{
    match console_read(serve) {
        Ok(_) => None,
        Err(fault) => Some(fault),
    }
}

fn capture_check(serve: &Table) -> Option<ServeFault>
    ensures { result ≡ result_err (capture_at (table_view serve.now)) }
{
    match capture(serve) {
        Ok(_) => None,
        Err(fault) => Some(fault),
    }
}

/// How many octets a file of a ring may have, beside how many files there may be.
fn size_check(size: Option<&Value>, files: Option<&Value>) -> Option<ServeFault>
    ensures { result ≡ size_check (option_map (λ value. view value.now) size.entry)
        (option_map (λ value. view value.now) files.entry) }
{
    match (size, files) {
        (None, None) => None,
        (None, Some(_)) => Some(ServeFault::Missing(ServeKey::CaptureSize)),
        (Some(size), _) => size_in(size).err(),
    }
}

/// How many files there may be, beside how many octets one may have.
fn files_check(files: Option<&Value>, size: Option<&Value>) -> Option<ServeFault>
    ensures { result ≡ files_check (option_map (λ value. view value.now) files.entry)
        (option_map (λ value. view value.now) size.entry) }
{
    match (files, size) {
        (None, None) => None,
        (None, Some(_)) => Some(ServeFault::Missing(ServeKey::CaptureFiles)),
        (Some(files), _) => files_in(files).err(),
    }
}

/// A ring is one of a capture.
fn ring_check(
    size: Option<&Value>,
    files: Option<&Value>,
    capture: Option<&Value>,
) -> Option<ServeFault>
    ensures { result ≡ ring_check (option_map (λ value. view value.now) size.entry)
        (option_map (λ value. view value.now) files.entry) (option_map (λ value. view value.now) capture.entry) }
{
    match (size, files, capture) {
        (Some(_), Some(_), None) => Some(ServeFault::Missing(ServeKey::Capture)),
        _ => None,
    }
}

/// Notes the faults of ticks, of the console and of the capture.
#[tactic(auto, unfolding(crate::specs::AllServeFaults::leading_checks))]
fn note_leading(faults: &mut Vec<ServeFault>, serve: &Table) -> Result<(), AllocError>
    ensures { (s : Spelling) → OnOk result
        (faults.new.items ≡ all_noted faults.old.items (leading_checks s (table_view serve.now))) }
{
    note(faults, tick_ms(serve).err())?;
    note(faults, console_check(serve))?;
    note(faults, capture_check(serve))?;
    Ok(())
}

/// Notes the faults of the limits of a ring.
fn note_ring(faults: &mut Vec<ServeFault>, serve: &Table) -> Result<(), AllocError>
    ensures { OnOk result
        (faults.new.items ≡ all_noted faults.old.items (ring_checks (table_view serve.now))) }
{
    let size = found_at(serve, ServeKey::CaptureSize);
    let files = found_at(serve, ServeKey::CaptureFiles);
    let ring = ring_check(size, files, found_at(serve, ServeKey::Capture));
    note(faults, size_check(size, files))?;
    note(faults, files_check(files, size))?;
    note(faults, ring)?;
    Ok(())
}

/// Notes the faults of what is shown, and of where datagrams go out.
#[tactic(auto, unfolding(crate::specs::AllServeFaults::shown_checks))]
fn note_shown(faults: &mut Vec<ServeFault>, serve: &Table) -> Result<(), AllocError>
    ensures { (s : Spelling) → OnOk result
        (faults.new.items ≡ all_noted faults.old.items (shown_checks s (table_view serve.now))) }
{
    note(faults, console_open(serve).err())?;
    note(faults, points(serve).err())?;
    note(faults, udp(serve).err())?;
    Ok(())
}

/// Notes the faults of where the page is.
#[tactic(auto, unfolding(crate::specs::AllServeFaults::page_checks))]
fn note_page(faults: &mut Vec<ServeFault>, serve: &Table) -> Result<(), AllocError>
    ensures { (s : Spelling) → OnOk result
        (faults.new.items ≡ all_noted faults.old.items (page_checks s (table_view serve.now))) }
{
    note(faults, page_open(serve).err())?;
    note(faults, page_read(serve).err())?;
    Ok(())
}

/// Notes the faults of how the log is written.
#[tactic(auto, unfolding(crate::specs::AllServeFaults::log_checks))]
fn note_log(faults: &mut Vec<ServeFault>, serve: &Table) -> Result<(), AllocError>
    ensures { OnOk result
        (faults.new.items ≡ all_noted faults.old.items (log_checks (table_view serve.now))) }
{
    note(faults, log_times(serve).err())?;
    note(faults, log_least(serve).err())?;
    note(faults, log_form(serve).err())?;
    Ok(())
}

/// Notes the faults of the keys of the table.
#[tactic(auto, unfolding(crate::specs::AllServeFaults::table_checks))]
pub(crate) fn note_table(faults: &mut Vec<ServeFault>, serve: &Table) -> Result<(), AllocError>
    ensures { (s : Spelling) → OnOk result
        (faults.new.items ≡ all_noted faults.old.items (table_checks s (table_view serve.now))) }
{
    note_leading(faults, serve)?;
    note_ring(faults, serve)?;
    note_shown(faults, serve)?;
    note_sctp(faults, serve)?;
    note_page(faults, serve)?;
    note_log(faults, serve)?;
    Ok(())
}
