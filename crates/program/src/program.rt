//! The program around scripts: what it does for its arguments, and how it ends.

ghost use Rattle.std.specs.Prelude.{◌≡◌, ◌⊎◌, ℕ, List, Ok, IfOk, IfErr};
ghost use Rattle.toml.specs.View.{table_view};
ghost use Rattle.settings_file.specs.Parsed.{AreDocument};
ghost use Rattle.settings.specs.Configuration.{Configuration};
ghost use Rattle.exchange.specs.Calls.{StandsFor};
ghost use Rattle.exchange_rules.specs.First.{first_state};
ghost use Rattle.script.specs.BuiltIn.{built_in_settings};
ghost use Rattle.program.specs.Folders.{FileRead};
ghost use Rattle.settings_file.specs.Faults.{no_memory};
ghost use Rattle.program.specs.Program.{status_number, status_after, streams, NoText, RunsScript, HasNoMemory, RunsNode, RunsFile, ChecksServer, ChecksFile};
ghost use Rattle.program.specs.Tasks.{Does};

use crate::command_line::{Words, read_words};
use crate::ending::{
    end_with, tell_help, tell_no_memory, tell_server_fault, tell_usage, tell_version,
};
use crate::explaining::explain_end;
use crate::folder::Folder;
use crate::network::run_network_files;
use crate::serving::serve_file;
use crate::settings_files::{ParsedFile, parsed_file, settings_in, settings_of};
use crate::telling::tell_file;
use crate::two_nodes::{Medium, run_files};
use exchange::{Exchange, NoMemory};
use lab::Joiner;
use script::{OpenLine, ScriptFault, Sink, Source, built_in, run_pieces};
use settings::Settings;
use settings_file::SettingsFault;
use settings_file::serve::check_server;
use std::alloc::Global;

/// How the program ends. The numbers are its exit statuses.
#[derive(Clone, Copy, Debug, PartialEq, Eq)]
pub enum Status {
    /// Everything was done.
    Done = 0,
    /// Words that aren't the program's, or that a console refuses.
    Refused = 1,
    /// The settings, nodes that a lab doesn't join, or the memory to start with.
    Start = 2,
    /// A line of the script.
    Line = 3,
    /// A read or a write failed, or the end of the script wasn't reached within the limit of reads.
    Stream = 4,
}

impl Status {
    /// The exit status.
    pub fn number(self) -> u8
        ensures { result ≡ status_number self }
    {
        self as u8
    }
}

/// The whole program: does what the words after its name ask for. Settings files come from the folder, the script from
/// the reader, and all that it prints goes to the writer. Why it doesn't do what was meant goes to `errors`, in
/// sentences for a person. The joiner joins the links of a lab over streams; one over datagrams, a node that is
/// served, and a console that is told something are on the machine's network.
pub fn run_program<F: Folder, J: Joiner, R: Source, W: Sink, E: Sink>(
    rt: &HostRuntime,
    words: &[String],
    folder: &F,
    joiner: &mut J,
    reader: &mut R,
    writer: &mut W,
    errors: &mut E,
) -> Status
    ensures { Does words.now (F.reads folder.now)
        (streams (R.input reader.old) (W.output writer.old) (E.output errors.old))
        (streams (R.input reader.new) (W.output writer.new) (E.output errors.new)) result }
{
    let alloc = rt.alloc();
    match read_words(alloc, words) {
        Words::Run(None) => run_built_in(alloc, reader, writer, errors),
        Words::Run(Some(file)) => run_file(alloc, folder, file.as_str(), reader, writer, errors),
        Words::Check(file) => check_file(alloc, folder, file.as_str(), writer, errors),
        Words::Lab(near, far) => {
            let files = (near.as_str(), far.as_str());
            let medium = Medium::Streams(joiner);
            run_files(alloc, folder, files, medium, reader, writer, errors)
        }
        Words::DatagramLab(near, far) => {
            let files = (near.as_str(), far.as_str());
            let medium: Medium<'_, J> = Medium::Datagrams(rt);
            run_files(alloc, folder, files, medium, reader, writer, errors)
        }
        Words::Network(files) => {
            run_network_files(alloc, folder, files, joiner, reader, writer, errors)
        }
        Words::Serve(file) => serve_file(rt, folder, file.as_str(), writer, errors),
        Words::Tell(file, line) => tell_file(rt, folder, file, line, reader, writer, errors),
        Words::Help => tell_help(writer),
        Words::Version => tell_version(writer),
        Words::Usage => tell_usage(writer, errors),
        Words::NoMemory => tell_no_memory(writer),
    }
}

/// Runs the script on a node with the built-in settings, which have no fault: it can only run out of memory.
fn run_built_in<R: Source, W: Sink, E: Sink>(
    alloc: Global,
    reader: &mut R,
    writer: &mut W,
    errors: &mut E,
) -> Status
    ensures { RunsNode (λ settings. settings ≡ built_in_settings) (λ why. why ≡ no_memory) NoText
        (streams (R.input reader.old) (W.output writer.old) (E.output errors.old))
        (streams (R.input reader.new) (W.output writer.new) (E.output errors.new)) result }
{
    match built_in_settings(alloc) {
        Ok(settings) => run_on(alloc, settings, reader, writer, errors),
        Err(_) => tell_no_memory(writer),
    }
}

/// Runs the script on a node with the settings of a file.
fn run_file<F: Folder, R: Source, W: Sink, E: Sink>(
    alloc: Global,
    folder: &F,
    file: &str,
    reader: &mut R,
    writer: &mut W,
    errors: &mut E,
) -> Status
    ensures { (read : FileRead) × F.reads folder.now file.now read × RunsFile file.now read
        (streams (R.input reader.old) (W.output writer.old) (E.output errors.old))
        (streams (R.input reader.new) (W.output writer.new) (E.output errors.new)) result }
{
    match settings_of(alloc, folder, file, writer, errors) {
        Ok(settings) => run_on(alloc, settings, reader, writer, errors),
        Err(status) => status,
    }
}

/// Prints whether the settings of a file have a fault: those of a node, and those of its server, if it has any.
fn check_file<F: Folder, W: Sink, E: Sink>(
    alloc: Global,
    folder: &F,
    file: &str,
    writer: &mut W,
    errors: &mut E,
) -> Status
    ensures { (read : FileRead) × F.reads folder.now file.now read × ChecksFile file.now read
        (W.output writer.old) (W.output writer.new) (E.output errors.old) (E.output errors.new) result }
{
    let parsed = match parsed_file(alloc, folder, file, writer, errors) {
        Ok(parsed) => parsed,
        Err(status) => return status,
    };
    let status = check_parsed(alloc, file, &parsed, writer, errors);
    drop(parsed);
    status
}

/// Prints whether the settings in a file have a fault.
fn check_parsed<W: Sink, E: Sink>(
    alloc: Global,
    file: &str,
    parsed: &ParsedFile,
    writer: &mut W,
    errors: &mut E,
) -> Status
    requires { AreDocument parsed.now.octets.items (table_view parsed.now.document) }
    ensures { ChecksFile file.now (Ok parsed.now.octets.items)
        (W.output writer.old) (W.output writer.new) (E.output errors.old) (E.output errors.new) result }
{
    match settings_in(alloc, file, parsed, writer, errors) {
        Ok(settings) => {
            drop(settings);
            check_server_in(alloc, file, parsed, writer, errors)
        }
        Err(status) => status,
    }
}

/// Prints whether the settings of a server in a file have a fault.
fn check_server_in<W: Sink, E: Sink>(
    alloc: Global,
    file: &str,
    parsed: &ParsedFile,
    writer: &mut W,
    errors: &mut E,
) -> Status
    requires { AreDocument parsed.now.octets.items (table_view parsed.now.document) }
    ensures { ChecksServer file.now parsed.now.octets.items (W.output writer.old) (W.output writer.new)
        (E.output errors.old) (E.output errors.new) result }
{
    match check_server(alloc, &parsed.document) {
        Ok(()) => end_with(Status::Done, b"ok\n", writer),
        Err(fault) => tell_server_fault(alloc, file, parsed, fault, writer, errors),
    }
}

/// Runs the script on a node with these settings.
fn run_on<R: Source, W: Sink, E: Sink>(
    alloc: Global,
    settings: Settings,
    reader: &mut R,
    writer: &mut W,
    errors: &mut E,
) -> Status
    ensures { RunsScript settings
        (streams (R.input reader.old) (W.output writer.old) (E.output errors.old))
        (streams (R.input reader.new) (W.output writer.new) (E.output errors.new)) result
        ⊎ HasNoMemory (streams (R.input reader.old) (W.output writer.old) (E.output errors.old))
        (streams (R.input reader.new) (W.output writer.new) (E.output errors.new)) result }
{
    match Exchange::boot(alloc, settings) {
        Ok(mut exchange) => {
            let ended = run_in(alloc, &mut exchange, reader, writer, errors);
            drop(exchange);
            ended
        }
        Err(NoMemory) => tell_no_memory(writer),
    }
}

/// Runs the script on a node that was just booted.
fn run_in<R: Source, W: Sink, E: Sink>(
    alloc: Global,
    exchange: &mut Exchange,
    reader: &mut R,
    writer: &mut W,
    errors: &mut E,
) -> Status
    ensures { (settings : Configuration) → StandsFor exchange.old (first_state settings) → RunsScript settings
        (streams (R.input reader.old) (W.output writer.old) (E.output errors.old))
        (streams (R.input reader.new) (W.output writer.new) (E.output errors.new)) result }
{
    let mut line = OpenLine::first();
    let script = run_pieces(&mut line, exchange, reader, writer);
    explain_end(alloc, script, line.octets(), line.wrong(), errors);
    status_after(script)
}

/// The settings of a node that is given none.
fn built_in_settings(alloc: Global) -> Result<Settings, SettingsFault>
    ensures settings { IfOk result (λ settings. settings ≡ built_in_settings) }
    ensures fault { IfErr result (λ why. why ≡ no_memory) }
{
    let draft = built_in(alloc)?;
    match Settings::check(alloc, draft) {
        Ok(settings) => Ok(settings),
        Err(fault) => Err(SettingsFault::Draft(fault)),
    }
}

/// How the program ends after a script.
pub(crate) fn status_after(script: Result<(), ScriptFault>) -> Status
    ensures { result ≡ status_after script }
{
    match script {
        Ok(()) => Status::Done,
        Err(ScriptFault::Line(_)) => Status::Line,
        Err(ScriptFault::Read | ScriptFault::Write | ScriptFault::TooManyReads) => Status::Stream,
        Err(ScriptFault::NoMemory) => Status::Start,
    }
}
