//! Files of settings: each is read and parsed once, then its warnings are written, and its settings read and checked.

ghost use Rattle.std.specs.Prelude.{◌≡◌, ℕ, List, Ok, IfOk, IfErr};
ghost use Rattle.toml.specs.View.{table_view};
ghost use Rattle.settings_file.specs.Parsed.{AreDocument};
ghost use Rattle.program.specs.Folders.{FileRead};
ghost use Rattle.program.specs.Program.{HasSettings, EndsAtFile};

use crate::ending::{tell_file_fault, tell_no_document, tell_no_memory};
use crate::explaining::{explain_unread, warn, warn_of_values};
use crate::folder::{FileFault, Folder};
use crate::program::Status;
use script::Sink;
use settings::Settings;
use settings_file::{document_in, read_document};
use std::alloc::Global;
use toml::Table;

/// A settings file that was read and parsed.
#[derive(Drop)]
pub(crate) struct ParsedFile {
    /// What is in it.
    pub octets: Vec<u8>,
    /// The document that it is.
    pub document: Table,
}

/// The settings of a node in a file, after warnings of unknown keys; or how the program ends without them.
pub(crate) fn settings_of<F: Folder, W: Sink, E: Sink>(
    alloc: Global,
    folder: &F,
    file: &str,
    writer: &mut W,
    errors: &mut E,
) -> Result<Settings, Status>
    ensures settings { IfOk result (λ settings. (read : FileRead) × F.reads folder.now file.now read
        × HasSettings file.now read settings (E.output errors.old) (E.output errors.new)
        × (W.output writer.new ≡ W.output writer.old)) }
    ensures ended { IfErr result (λ ended. (read : FileRead) × F.reads folder.now file.now read
        × EndsAtFile file.now read (W.output writer.old) (W.output writer.new)
        (E.output errors.old) (E.output errors.new) ended) }
{
    let parsed = match parsed_file(alloc, folder, file, writer, errors) {
        Ok(parsed) => parsed,
        Err(status) => return Err(status),
    };
    let settings = settings_in(alloc, file, &parsed, writer, errors);
    drop(parsed);
    settings
}

/// A file, parsed to its document, or how the program ends without one.
pub(crate) fn parsed_file<F: Folder, W: Sink, E: Sink>(
    alloc: Global,
    folder: &F,
    file: &str,
    writer: &mut W,
    errors: &mut E,
) -> Result<ParsedFile, Status>
    ensures document { IfOk result (λ parsed. F.reads folder.now file.now (Ok parsed.octets.items)
        × AreDocument parsed.octets.items (table_view parsed.document)) }
    ensures unwritten { IfOk result (λ _. W.output writer.new ≡ W.output writer.old) }
    ensures untold { IfOk result (λ _. E.output errors.new ≡ E.output errors.old) }
    ensures ended { IfErr result (λ ended. (read : FileRead) × F.reads folder.now file.now read
        × EndsAtFile file.now read (W.output writer.old) (W.output writer.new)
        (E.output errors.old) (E.output errors.new) ended) }
{
    match folder.read(alloc, file) {
        Ok(octets) => with_document(alloc, file, octets, writer, errors),
        Err(FileFault::Unread(why)) => {
            explain_unread(alloc, file, why, errors);
            Err(Status::Stream)
        }
        Err(FileFault::NoMemory) => Err(tell_no_memory(writer)),
    }
}

/// A file of these octets with its document, or how the program ends without one.
fn with_document<W: Sink, E: Sink>(
    alloc: Global,
    file: &str,
    octets: Vec<u8>,
    writer: &mut W,
    errors: &mut E,
) -> Result<ParsedFile, Status>
    ensures octets { IfOk result (λ parsed. parsed.octets.items ≡ octets.items) }
    ensures document { IfOk result (λ parsed. AreDocument octets.items (table_view parsed.document)) }
    ensures unwritten { IfOk result (λ _. W.output writer.new ≡ W.output writer.old) }
    ensures untold { IfOk result (λ _. E.output errors.new ≡ E.output errors.old) }
    ensures ended { IfErr result (EndsAtFile file.now (Ok octets.items) (W.output writer.old) (W.output writer.new)
        (E.output errors.old) (E.output errors.new)) }
{
    let document = document_of(alloc, file, octets.as_slice(), writer, errors)?;
    Ok(ParsedFile { octets, document })
}

/// The document of the octets of a file, or how the program ends without one.
fn document_of<W: Sink, E: Sink>(
    alloc: Global,
    file: &str,
    octets: &[u8],
    writer: &mut W,
    errors: &mut E,
) -> Result<Table, Status>
    ensures document { IfOk result (λ document. AreDocument octets.now (table_view document)) }
    ensures unwritten { IfOk result (λ _. W.output writer.new ≡ W.output writer.old) }
    ensures untold { IfOk result (λ _. E.output errors.new ≡ E.output errors.old) }
    ensures ended { IfErr result (EndsAtFile file.now (Ok octets.now) (W.output writer.old) (W.output writer.new)
        (E.output errors.old) (E.output errors.new)) }
{
    let Ok(read) = document_in(alloc, file, octets) else {
        return Err(tell_no_memory(writer));
    };
    match read {
        Ok(document) => Ok(document),
        Err(why) => Err(tell_no_document(why.as_str(), writer, errors)),
    }
}

/// The settings of a node in the document of a file, after warnings of unknown keys; or how the program ends without
/// them.
pub(crate) fn settings_in<W: Sink, E: Sink>(
    alloc: Global,
    file: &str,
    parsed: &ParsedFile,
    writer: &mut W,
    errors: &mut E,
) -> Result<Settings, Status>
    requires { AreDocument parsed.now.octets.items (table_view parsed.now.document) }
    ensures settings { IfOk result (λ settings. HasSettings file.now (Ok parsed.now.octets.items) settings
        (E.output errors.old) (E.output errors.new) × (W.output writer.new ≡ W.output writer.old)) }
    ensures ended { IfErr result (EndsAtFile file.now (Ok parsed.now.octets.items)
        (W.output writer.old) (W.output writer.new) (E.output errors.old) (E.output errors.new)) }
{
    warn(alloc, file, &parsed.document, errors);
    match read_document(alloc, &parsed.document) {
        Ok(settings) => {
            warn_of_values(alloc, file, &parsed.document, &settings, errors);
            Ok(settings)
        }
        Err(fault) => Err(tell_file_fault(alloc, file, parsed, fault, writer, errors)),
    }
}
