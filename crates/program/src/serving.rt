//! Serving a node on the network, with the settings of a file.

ghost use Rattle.std.specs.Prelude.{ℕ, List, Ok};
ghost use Rattle.toml.specs.View.{table_view};
ghost use Rattle.settings_file.specs.Parsed.{AreDocument};
ghost use Rattle.program.specs.Folders.{FileRead};
ghost use Rattle.program.specs.Program.{ServesFile};

use crate::ending::{tell_no_memory, tell_server_fault};
use crate::explaining::{NO_POLL, tell_made};
use crate::folder::Folder;
use crate::program::Status;
use crate::settings_files::{ParsedFile, parsed_file, settings_in};
use script::Sink;
use served_node::OneLine;
use settings::Settings;
use settings_file::serve::{ConsolePlace, ServeSettings, read_server};
use std::alloc::{AllocError, Global};
use stp_server::{CaptureFault, LogFault, OpenFault, ServeFailure};

/// Why no log goes to a terminal that this program can't open by itself.
const SLOW_TERMINAL: &str =
    "standard output: this terminal can't be opened anew, so its user could hold the node up; \
    have the log go to a file, or through a pipe (stp serve FILE | cat)\n";

/// Serves a node with the settings of a file until it is stopped. Faults are found in this order: the file, the
/// settings of the node, those of the server, memory, and what it opens.
pub(crate) fn serve_file<F: Folder, W: Sink, E: Sink>(
    rt: &HostRuntime,
    folder: &F,
    file: &str,
    writer: &mut W,
    errors: &mut E,
) -> Status
    ensures { (read : FileRead) × F.reads folder.now file.now read × ServesFile file.now read
        (W.output writer.old) (W.output writer.new) (E.output errors.old) (E.output errors.new) result }
{
    let alloc = rt.alloc();
    let parsed = match parsed_file(alloc, folder, file, writer, errors) {
        Ok(parsed) => parsed,
        Err(status) => return status,
    };
    let status = serve_parsed(rt, file, &parsed, writer, errors);
    drop(parsed);
    status
}

/// Serves a node with the settings in a file, if they have no fault.
fn serve_parsed<W: Sink, E: Sink>(
    rt: &HostRuntime,
    file: &str,
    parsed: &ParsedFile,
    writer: &mut W,
    errors: &mut E,
) -> Status
    requires { AreDocument parsed.now.octets.items (table_view parsed.now.document) }
    ensures { ServesFile file.now (Ok parsed.now.octets.items)
        (W.output writer.old) (W.output writer.new) (E.output errors.old) (E.output errors.new) result }
{
    match settings_in(rt.alloc(), file, parsed, writer, errors) {
        Ok(settings) => serve_checked(rt, file, parsed, settings, writer, errors),
        Err(status) => status,
    }
}

/// Serves a node with these settings, if those of the server in the file have no fault.
fn serve_checked<W: Sink, E: Sink>(
    rt: &HostRuntime,
    file: &str,
    parsed: &ParsedFile,
    settings: Settings,
    writer: &mut W,
    errors: &mut E,
) -> Status {
    match read_server(rt.alloc(), &parsed.document) {
        Ok(serve) => serve_with(rt, settings, &serve, file, writer, errors),
        Err(fault) => {
            drop(settings);
            tell_server_fault(rt.alloc(), file, parsed, fault, writer, errors)
        }
    }
}

/// Serves a node with these settings of a file.
fn serve_with<W: Sink, E: Sink>(
    rt: &HostRuntime,
    settings: Settings,
    serve: &ServeSettings,
    file: &str,
    writer: &mut W,
    errors: &mut E,
) -> Status {
    match stp_server::serve(rt, settings, serve, file, writer) {
        Ok(()) => Status::Done,
        Err(failure) => tell_failure(rt.alloc(), failure, serve, writer, errors),
    }
}

/// Explains why nothing is served with these settings.
fn tell_failure<W: Sink, E: Sink>(
    alloc: Global,
    failure: ServeFailure,
    serve: &ServeSettings,
    writer: &mut W,
    errors: &mut E,
) -> Status {
    if let ServeFailure::Open(OpenFault::NoMemory)
    | ServeFailure::Log(LogFault::NoMemory)
    | ServeFailure::Capture(CaptureFault::NoMemory) = failure
    {
        return tell_no_memory(writer);
    }
    tell_made(failure_sentence(alloc, failure, serve), errors);
    Status::Stream
}

/// The sentence that says why nothing is served with these settings.
fn failure_sentence(
    alloc: Global,
    failure: ServeFailure,
    serve: &ServeSettings,
) -> Result<String, AllocError> {
    match failure {
        ServeFailure::Open(fault) => open_sentence(alloc, fault, serve),
        ServeFailure::System => String::from_str(alloc, NO_POLL),
        ServeFailure::Log(_) => String::from_str(alloc, SLOW_TERMINAL),
        ServeFailure::Capture(fault) => {
            let (file, why) = (
                OneLine(serve.capture().unwrap_or("")),
                capture_phrase(fault),
            );
            format!(in alloc; "{file}: {why}\n")
        }
    }
}

/// Why a capture can't go where it is to go.
fn capture_phrase(fault: CaptureFault) -> &'static str {
    match fault {
        CaptureFault::Link => "a symbolic link is there, and a capture follows none",
        CaptureFault::Pipe => "a pipe is there, and a capture needs a file",
        CaptureFault::Folder => "a folder is there, and a capture needs a file",
        CaptureFault::Other =>
            "a socket, a disk or a terminal is there, and a capture needs a file",
        CaptureFault::Settings => "the capture would overwrite the settings",
        CaptureFault::Unmade | CaptureFault::NoMemory => "the capture file can't be made",
    }
}

/// The sentence that says why a server with these settings can't be opened; for lack of memory there is none.
fn open_sentence(
    alloc: Global,
    fault: OpenFault,
    serve: &ServeSettings,
) -> Result<String, AllocError> {
    match fault {
        OpenFault::NoMemory => Err(AllocError),
        OpenFault::Poll => String::from_str(alloc, NO_POLL),
        OpenFault::Random => String::from_str(alloc, "the system gives no random octets\n"),
        OpenFault::Listen(address, kind) => {
            format!(in alloc; "{address}: listening there fails: {kind}\n")
        }
        OpenFault::Console(kind) => {
            let path = console_path(serve);
            format!(in alloc; "{path}: listening there fails: {kind}\n")
        }
        OpenFault::Occupied => {
            let path = console_path(serve);
            format!(in alloc; "{path}: a file that isn't a socket is there\n")
        }
    }
}

/// The path of the console; nothing if it has none.
fn console_path(serve: &ServeSettings) -> &str {
    match serve.console() {
        Some(ConsolePlace::Unix(path)) => path,
        Some(ConsolePlace::Tcp(_)) | None => "",
    }
}
