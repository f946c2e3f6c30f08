//! Last lines of the program, and how it ends with them.

ghost use Rattle.std.specs.Prelude.{◌≡◌, ◌≢◌, ◌⊎◌, IfOk, string_bytes, codes};
ghost use Rattle.std.specs.IoError.{error_kind};
ghost use Rattle.toml.specs.View.{table_view};
ghost use Rattle.settings_file.specs.Faults.{no_memory};
ghost use Rattle.settings_file.specs.ServeSentences as server;
ghost use Rattle.settings_file.specs.declared.serve.fault.ServeFault.TheVariants as kind;
ghost use Rattle.program.specs.Explaining.{IsTold, IsToldOf, AreFaultsExplained, usage_text};
ghost use Rattle.program.specs.Program.{told, told_server, version_line, EndsWith};

use crate::explaining::{
    USAGE, explain_faults, explain_no_document, explain_server, explain_words,
};
use crate::program::Status;
use crate::settings_files::ParsedFile;
use script::Sink;
use settings_file::SettingsFault;
use settings_file::serve::ServeFault;
use std::alloc::{AllocError, Global};
use std::io::{Error, ErrorKind};
use toml::Table;

/// The program's name and version, as `stp --version` prints them.
const VERSION_LINE: &[u8] = b"stp 0.1.0\n";

/// Refuses arguments that couldn't be read: they aren't the program's, unless memory ran out.
pub fn refuse_words<W: Sink, E: Sink>(error: &Error, writer: &mut W, errors: &mut E) -> Status
    ensures memory { error_kind error.now ≡ ErrorKind.OutOfMemory
        → EndsWith Status.Start (told no_memory) (W.output writer.old) (W.output writer.new) result
        × (E.output errors.new ≡ E.output errors.old) }
    ensures usage { error_kind error.now ≢ ErrorKind.OutOfMemory
        → EndsWith Status.Refused (codes "usage\n") (W.output writer.old) (W.output writer.new) result
        × IsTold usage_text (E.output errors.old) (E.output errors.new) }
{
    if error.kind() == ErrorKind::OutOfMemory {
        return tell_no_memory(writer);
    }
    tell_usage(writer, errors)
}

/// Prints that the arguments aren't the program's, and explains what these are.
pub(crate) fn tell_usage<W: Sink, E: Sink>(writer: &mut W, errors: &mut E) -> Status
    ensures printed { EndsWith Status.Refused (codes "usage\n") (W.output writer.old) (W.output writer.new) result }
    ensures told { IsTold usage_text (E.output errors.old) (E.output errors.new) }
{
    explain_words(errors);
    end_with(Status::Refused, b"usage\n", writer)
}

/// Prints the program's commands, and what they mean.
pub(crate) fn tell_help<W: Sink>(writer: &mut W) -> Status
    ensures { EndsWith Status.Done usage_text (W.output writer.old) (W.output writer.new) result }
{
    end_with(Status::Done, USAGE, writer)
}

/// Prints the version of the program.
pub(crate) fn tell_version<W: Sink>(writer: &mut W) -> Status
    ensures { EndsWith Status.Done version_line (W.output writer.old) (W.output writer.new) result }
{
    end_with(Status::Done, VERSION_LINE, writer)
}

/// Prints these lines, and ends with this status; or with that of a failed write.
pub(crate) fn end_with<W: Sink>(status: Status, lines: &[u8], writer: &mut W) -> Status
    ensures { EndsWith status lines.now (W.output writer.old) (W.output writer.new) result }
{
    match writer.write(lines) {
        Ok(()) => status,
        Err(_) => Status::Stream,
    }
}

/// Prints that memory ran out.
pub(crate) fn tell_no_memory<W: Sink>(writer: &mut W) -> Status
    ensures { EndsWith Status.Start (told no_memory) (W.output writer.old) (W.output writer.new) result }
{
    end_with(Status::Start, b"fault NoMemory\n", writer)
}

/// Prints that a file isn't a document, and explains that with this sentence.
pub(crate) fn tell_no_document<W: Sink, E: Sink>(
    sentence: &str,
    writer: &mut W,
    errors: &mut E,
) -> Status
    ensures printed { EndsWith Status.Start (told SettingsFault.Text)
        (W.output writer.old) (W.output writer.new) result }
    ensures told { IsTold sentence.now (E.output errors.old) (E.output errors.new) }
{
    explain_no_document(sentence, errors);
    end_with(Status::Start, b"fault 1\n", writer)
}

/// Prints the first fault of the settings in a file, and explains all of them; or prints that memory ran out.
pub(crate) fn tell_file_fault<W: Sink, E: Sink>(
    alloc: Global,
    file: &str,
    parsed: &ParsedFile,
    fault: SettingsFault,
    writer: &mut W,
    errors: &mut E,
) -> Status
    ensures { (EndsWith Status.Start (told fault) (W.output writer.old) (W.output writer.new) result
        × IsToldOf (AreFaultsExplained file.now parsed.now.octets.items (table_view parsed.now.document)
        (kind.Settings fault)) (E.output errors.old) (E.output errors.new))
        ⊎ (EndsWith Status.Start (told no_memory) (W.output writer.old) (W.output writer.new) result
        × (E.output errors.new ≡ E.output errors.old)) }
{
    match told(alloc, fault) {
        Ok(line) => {
            explain_faults(alloc, file, parsed, ServeFault::Settings(fault), errors);
            end_with(Status::Start, line.as_bytes(), writer)
        }
        Err(_) => tell_no_memory(writer),
    }
}

/// The line of a fault of settings.
fn told(alloc: Global, fault: SettingsFault) -> Result<String, AllocError>
    ensures { IfOk result (λ line. string_bytes line ≡ told fault) }
{
    format!(in alloc; "{fault}\n")
}

/// Prints the first fault of the settings of a server in a file, and explains all of them; or prints that memory ran
/// out.
pub(crate) fn tell_server_fault<W: Sink, E: Sink>(
    alloc: Global,
    file: &str,
    parsed: &ParsedFile,
    fault: ServeFault,
    writer: &mut W,
    errors: &mut E,
) -> Status
    ensures { (EndsWith Status.Start (told_server fault) (W.output writer.old) (W.output writer.new) result
        × IsToldOf (AreFaultsExplained file.now parsed.now.octets.items (table_view parsed.now.document) fault)
        (E.output errors.old) (E.output errors.new))
        ⊎ (EndsWith Status.Start (told no_memory) (W.output writer.old) (W.output writer.new) result
        × (E.output errors.new ≡ E.output errors.old)) }
{
    match told_server(alloc, fault) {
        Ok(line) => {
            explain_faults(alloc, file, parsed, fault, errors);
            end_with(Status::Start, line.as_bytes(), writer)
        }
        Err(_) => tell_no_memory(writer),
    }
}

/// Prints why the document of a file names no console, and explains it; or prints that memory ran out.
pub(crate) fn tell_console_fault<W: Sink, E: Sink>(
    alloc: Global,
    file: &str,
    document: &Table,
    fault: ServeFault,
    writer: &mut W,
    errors: &mut E,
) -> Status
    ensures { (EndsWith Status.Start (told_server fault) (W.output writer.old) (W.output writer.new) result
        × IsToldOf (server.Explains file.now fault) (E.output errors.old) (E.output errors.new))
        ⊎ (EndsWith Status.Start (told no_memory) (W.output writer.old) (W.output writer.new) result
        × (E.output errors.new ≡ E.output errors.old)) }
{
    match told_server(alloc, fault) {
        Ok(line) => {
            explain_server(alloc, file, document, fault, errors);
            end_with(Status::Start, line.as_bytes(), writer)
        }
        Err(_) => tell_no_memory(writer),
    }
}

/// The line of a fault of a server's settings.
fn told_server(alloc: Global, fault: ServeFault) -> Result<String, AllocError>
    ensures { IfOk result (λ line. string_bytes line ≡ told_server fault) }
{
    format!(in alloc; "{fault}\n")
}
