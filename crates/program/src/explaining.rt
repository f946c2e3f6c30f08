//! What goes to standard error: why the program doesn't do what was meant.

ghost use Rattle.std.specs.Prelude.{◌≡◌, IfOk, string_bytes};
ghost use Rattle.toml.specs.View.{table_view};
ghost use Rattle.settings_file.specs.ServeSentences as server;
ghost use Rattle.program.specs.Explaining.{IsTold, IsToldMade, IsToldOf, usage_text, unread_text, unread_sentence};
ghost use Rattle.program.specs.Explaining.{IsWarned, IsWarnedOfValues, AreFaultsExplained};
ghost use Rattle.program.specs.Explaining.{IsEndExplained, IsScriptExplained, IsLabEndExplained};
ghost use Rattle.program.specs.Explaining.{strangers_sentence, lab_line_sentence};

use crate::console_client::CallFault;
use crate::folder::Unread;
use crate::sentences::sentence;
use crate::settings_files::ParsedFile;
use script::{LineFault, ScriptFault, Sink};
use settings::Settings;
use settings_file::serve::{ConsolePlace, ServeFault};
use settings_file::{all_faults, all_sentences, value_warnings, warnings};
use std::alloc::{AllocError, Global};
use toml::Table;

/// The program's commands, and what they mean.
pub(crate) const USAGE: &[u8] = b"\
stp run               runs the script on standard input, with the built-in settings
stp run FILE          runs it with the settings in FILE
stp check FILE        prints ok, or the first fault of the settings in FILE
stp lab NEAR FAR      runs the lab script on standard input, on two nodes that it joins
stp lab FILE FILE ..  runs it on three nodes or more, whose points the script then names
stp lab-udp NEAR FAR  runs it on two nodes that it joins by SCTP in UDP
stp serve FILE        serves a node on the network, with the settings in FILE
stp tell FILE ..      writes a line, or those on standard input, to the console of that node
stp help              prints these lines
stp version           prints the version
The lines of a script, the settings and the exit statuses are in docs/MANUAL.md.
README.md is the introduction, and lists the other pages in docs/.
";

/// What is told if the system has no poll, or no time.
pub(crate) const NO_POLL: &str = "the system fails to tell of sockets or of the time\n";

/// Writes a text to standard error. If that fails, nothing more can be written there.
fn tell<E: Sink>(text: &[u8], errors: &mut E)
    ensures { IsTold text.now (E.output errors.old) (E.output errors.new) }
{
    let _told = errors.write(text);
}

/// Writes a text, unless memory ran out for it.
pub(crate) fn tell_made<E: Sink>(text: Result<String, AllocError>, errors: &mut E)
    ensures { IsToldMade text (E.output errors.old) (E.output errors.new) }
{
    if let Ok(text) = text {
        tell(text.as_bytes(), errors);
    }
}

/// Writes the program's commands, and what they mean.
pub(crate) fn explain_words<E: Sink>(errors: &mut E)
    ensures { IsTold usage_text (E.output errors.old) (E.output errors.new) }
{
    tell(USAGE, errors);
}

/// Explains why a file can't be read.
pub(crate) fn explain_unread<E: Sink>(alloc: Global, file: &str, why: Unread, errors: &mut E)
    ensures { IsToldOf (λ text. text ≡ unread_sentence file.now why) (E.output errors.old) (E.output errors.new) }
{
    let why = unread_text(why);
    tell_made(format!(in alloc; "{file}: {why}\n"), errors);
}

/// Why a file can't be read.
fn unread_text(why: Unread) -> &'static str
    ensures { result.now ≡ unread_text why }
{
    match why {
        Unread::Missing => "there is no such file",
        Unread::Forbidden => "reading it isn't permitted",
        Unread::Directory => "it is a directory",
        Unread::TooLarge => "it is larger than 16 MB, which no settings file is",
        Unread::Failed => "a read of it failed",
    }
}

/// Warns about unknown keys in the document of a settings file.
pub(crate) fn warn<E: Sink>(alloc: Global, file: &str, document: &Table, errors: &mut E)
    ensures { IsWarned file.now (E.output errors.old) (E.output errors.new) }
{
    tell_made(warnings(alloc, file, document), errors);
}

/// Warns of values that are hardly meant, in the document of a settings file that says these settings.
pub(crate) fn warn_of_values<E: Sink>(
    alloc: Global,
    file: &str,
    document: &Table,
    settings: &Settings,
    errors: &mut E,
)
    ensures { IsWarnedOfValues file.now (table_view document.now) settings.now
        (E.output errors.old) (E.output errors.new) }
{
    tell_made(value_warnings(alloc, file, document, settings), errors);
}

/// Writes the sentence that says why a settings file isn't a document.
pub(crate) fn explain_no_document<E: Sink>(sentence: &str, errors: &mut E)
    ensures { IsTold sentence.now (E.output errors.old) (E.output errors.new) }
{
    tell(sentence.as_bytes(), errors);
}

/// Explains all faults of the settings in a file, of which this is the first.
pub(crate) fn explain_faults<E: Sink>(
    alloc: Global,
    file: &str,
    parsed: &ParsedFile,
    first: ServeFault,
    errors: &mut E,
)
    ensures { IsToldOf (AreFaultsExplained file.now parsed.now.octets.items (table_view parsed.now.document) first)
        (E.output errors.old) (E.output errors.new) }
{
    tell_made(sentences_of(alloc, file, parsed, first), errors);
}

/// A sentence for each fault of the settings in a file.
fn sentences_of(
    alloc: Global,
    file: &str,
    parsed: &ParsedFile,
    first: ServeFault,
) -> Result<String, AllocError>
    ensures { IfOk result (λ text. AreFaultsExplained file.now parsed.now.octets.items
        (table_view parsed.now.document) first (string_bytes text)) }
{
    let faults = all_faults(alloc, &parsed.document, first)?;
    all_sentences(alloc, file, &parsed.octets, &parsed.document, &faults)
}

/// Explains why the document of a file names no console.
pub(crate) fn explain_server<E: Sink>(
    alloc: Global,
    file: &str,
    document: &Table,
    fault: ServeFault,
    errors: &mut E,
)
    ensures { IsToldOf (server.Explains file.now fault) (E.output errors.old) (E.output errors.new) }
{
    tell_made(
        settings_file::serve::sentence(alloc, file, document, fault),
        errors,
    );
}

/// Explains why a script ended before its end, if it did; for a line that ended it, what is wrong with it.
pub(crate) fn explain_end<E: Sink>(
    alloc: Global,
    script: Result<(), ScriptFault>,
    line: &[u8],
    wrong: LineFault,
    errors: &mut E,
)
    ensures { IsEndExplained script (E.output errors.old) (E.output errors.new) }
{
    if let Err(fault) = script {
        explain_script(alloc, fault, line, wrong, errors);
    }
}

/// Explains why a script ended before its end.
fn explain_script<E: Sink>(
    alloc: Global,
    fault: ScriptFault,
    line: &[u8],
    wrong: LineFault,
    errors: &mut E,
)
    ensures { IsScriptExplained fault (E.output errors.old) (E.output errors.new) }
{
    match fault {
        ScriptFault::Line(number) => {
            tell_made(sentence(alloc, number, line, wrong), errors);
        }
        ScriptFault::Read => tell(b"standard input: a read failed\n", errors),
        ScriptFault::Write => tell(b"standard output: a write failed\n", errors),
        ScriptFault::TooManyReads => tell(
            b"standard input: its end wasn't found in 4194304 reads\n",
            errors,
        ),
        ScriptFault::NoMemory => {}
    }
}

/// Explains that the nodes of two files don't face each other.
pub(crate) fn explain_strangers<E: Sink>(alloc: Global, near: &str, far: &str, errors: &mut E)
    ensures { IsToldOf (λ text. text ≡ strangers_sentence near.now far.now)
        (E.output errors.old) (E.output errors.new) }
{
    tell_made(
        format!(in alloc;
            "{near} and {far} don't face each other: docs/MANUAL.md says what that needs\n"
        ),
        errors,
    );
}

/// Tells why nodes aren't a network, unless memory ran out for the sentence.
pub(crate) fn explain_network<E: Sink>(sentence: Result<String, AllocError>, errors: &mut E)
    ensures { IsToldMade sentence (E.output errors.old) (E.output errors.new) }
{
    tell_made(sentence, errors);
}

/// Explains why a lab script ended before its end, if it did.
pub(crate) fn explain_lab_end<E: Sink>(
    alloc: Global,
    script: Result<(), ScriptFault>,
    errors: &mut E,
)
    ensures { IsLabEndExplained script (E.output errors.old) (E.output errors.new) }
{
    if let Err(ScriptFault::Line(number)) = script {
        explain_lab_line(alloc, number, errors);
    } else {
        explain_end(alloc, script, b"", LineFault::Malformed, errors);
    }
}

/// Explains which line ended a lab script.
fn explain_lab_line<E: Sink>(alloc: Global, number: u64, errors: &mut E)
    ensures { IsToldOf (λ text. text ≡ lab_line_sentence number) (E.output errors.old) (E.output errors.new) }
{
    tell_made(
        format!(in alloc; "line {number}: not a line of a lab script; docs/MANUAL.md lists them\n"),
        errors,
    );
}

/// Explains why the console at this place wasn't told everything, or why its answers weren't read, but for memory that
/// ran out.
pub(crate) fn explain_call<E: Sink>(
    alloc: Global,
    place: ConsolePlace<'_>,
    fault: CallFault,
    errors: &mut E,
) {
    match fault {
        CallFault::NoMemory => {}
        CallFault::Connect(kind) => {
            let text = format!(in alloc; "{place}: connecting there fails: {kind}\n");
            tell_made(text, errors);
        }
        CallFault::Lost => {
            let text = format!(in alloc; "{place}: the connection ended before all was answered\n");
            tell_made(text, errors);
        }
        CallFault::Poll => tell(NO_POLL.as_bytes(), errors),
        CallFault::Read => tell(b"standard input: a read failed\n", errors),
        CallFault::Write => tell(b"standard output: a write failed\n", errors),
    }
}
