//! Telling something to the console of a node that is served.

ghost use Rattle.std.specs.Prelude.{ℕ, List};
ghost use Rattle.toml.specs.View.{table_view};
ghost use Rattle.settings_file.specs.Parsed.{AreDocument};
ghost use Rattle.program.specs.Folders.{FileRead};
ghost use Rattle.program.specs.Program.{streams};
ghost use Rattle.program.specs.Telling.{TellsFile, TellsDocument};

use crate::console_client::{CallFault, Verdict, call};
use crate::ending::{tell_console_fault, tell_no_memory};
use crate::explaining::explain_call;
use crate::folder::Folder;
use crate::program::Status;
use crate::settings_files::parsed_file;
use script::{Sink, Source};
use settings_file::serve::{ConsolePlace, read_console};
use toml::Table;

/// Tells these words to the console that the settings of a file name, or else what the reader gives, and prints the
/// answers. Of the settings only the console is looked at. Faults are found in this order: the file, its console, the
/// connection.
pub(crate) fn tell_file<F: Folder, R: Source, W: Sink, E: Sink>(
    rt: &HostRuntime,
    folder: &F,
    file: &str,
    words: &[String],
    reader: &mut R,
    writer: &mut W,
    errors: &mut E,
) -> Status
    ensures { (read : FileRead) × F.reads folder.now file.now read × TellsFile file.now read
        (streams (R.input reader.old) (W.output writer.old) (E.output errors.old))
        (streams (R.input reader.new) (W.output writer.new) (E.output errors.new)) result }
{
    let parsed = match parsed_file(rt.alloc(), folder, file, writer, errors) {
        Ok(parsed) => parsed,
        Err(status) => return status,
    };
    let status = tell_document(rt, file, &parsed.document, words, reader, writer, errors);
    drop(parsed);
    status
}

/// Tells something to the console in the document of a file, if that names one.
fn tell_document<R: Source, W: Sink, E: Sink>(
    rt: &HostRuntime,
    file: &str,
    document: &Table,
    words: &[String],
    reader: &mut R,
    writer: &mut W,
    errors: &mut E,
) -> Status
    ensures { (octets : List ℕ) → AreDocument octets (table_view document.now) → TellsDocument file.now octets
        (streams (R.input reader.old) (W.output writer.old) (E.output errors.old))
        (streams (R.input reader.new) (W.output writer.new) (E.output errors.new)) result }
{
    match read_console(document) {
        Ok(place) => tell_console(rt, place, words, reader, writer, errors),
        Err(fault) => tell_console_fault(rt.alloc(), file, document, fault, writer, errors),
    }
}

/// Tells something to the console at this place.
fn tell_console<R: Source, W: Sink, E: Sink>(
    rt: &HostRuntime,
    place: ConsolePlace<'_>,
    words: &[String],
    reader: &mut R,
    writer: &mut W,
    errors: &mut E,
) -> Status {
    match call(rt, place, words, reader, writer) {
        Ok(Verdict::Done) => Status::Done,
        Ok(Verdict::Refused) => Status::Refused,
        Err(CallFault::NoMemory) => tell_no_memory(writer),
        Err(fault) => {
            explain_call(rt.alloc(), place, fault, errors);
            Status::Stream
        }
    }
}
