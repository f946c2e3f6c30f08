//! The program's arguments.

ghost use Rattle.std.specs.Prelude.{◌≡◌, ◌≢◌, IfOk, IfErr, Some, option_map, true};
ghost use Rattle.std.specs.List.{list_all};
ghost use Rattle.clap.specs.Words.{kind_of, subcommand_rows_of};
ghost use Rattle.clap.specs.declared.error.kind.ErrorKind.TheVariants.{OutOfMemory};
ghost use Rattle.program.specs.Words.{asked_by, asked_by_command, asked_by_two, are_plain, asks_help, asks_version};
ghost use Rattle.program.specs.Words.{are_network, are_in_line, are_told, found, found_by, is_in_line, is_plain};
ghost use Rattle.program.specs.Words.{network_files, task_of, texts, told_words};
ghost use Rattle.program.specs.Words.{OtherWords, AreReadAs, AreReadAsTask};

mod grammar;

use clap::error::ErrorKind;
use clap::{ArgMatches, Error};
use grammar::stp;
use std::alloc::{AllocError, Global};

/// What the program's arguments ask for.
#[derive(Drop)]
pub enum Words<'a> {
    /// `run` or `run FILE`: run the script on standard input, on the settings of this file, or on those built in.
    Run(Option<String>),
    /// `check FILE`: check whether the settings of this file have a fault.
    Check(String),
    /// `lab NEAR FAR`: run the lab script on standard input, on two nodes with the settings of these files.
    Lab(String, String),
    /// `lab-udp NEAR FAR`: the same, over UDP sockets of this machine.
    DatagramLab(String, String),
    /// `lab FILE FILE FILE ..`: run the lab script on standard input, on three nodes or more with the settings of these
    /// files.
    Network(&'a [String]),
    /// `serve FILE`: serve a node on the network with the settings of this file.
    Serve(String),
    /// `tell FILE` and any further words: write these, as one line, or else the lines on standard input, to the console
    /// that the settings of this file name.
    Tell(&'a str, &'a [String]),
    /// `help` or `--help`: print the program's commands, and what they mean.
    Help,
    /// `version` or `--version`: print the version of the program.
    Version,
    /// Any other words.
    Usage,
    /// Memory ran out.
    NoMemory,
}

/// What the program's arguments ask for. If one of them is empty or begins with `-`, they are none of the commands,
/// unless they are `--help` or `--version`, or it is among the words that `tell` writes. No memory is allocated for
/// `--help`, `--version`, `help` and `version`; for all others it may run out.
pub fn read_words<'a>(alloc: Global, words: &'a [String]) -> Words<'a>
    ensures { AreReadAs words.now result }
{
    if asks_help(words) {
        Words::Help
    } else if asks_version(words) {
        Words::Version
    } else if let Some(files) = network_files(words) {
        Words::Network(files)
    } else if let Some((file, line)) = told_words(words) {
        Words::Tell(file, line)
    } else {
        read_command(alloc, words)
    }
}

/// The files of a lab of three nodes or more, where the words ask for one.
fn network_files(words: &[String]) -> Option<&[String]>
    ensures { option_map (λ files. texts files.now) result ≡ network_files (texts words.now) }
{
    match words {
        [command, files @ ..] if are_network(command.as_str(), files) => Some(files),
        _ => None,
    }
}

/// Whether this command and these files ask for a lab of three nodes or more.
#[tactic(auto, using(crate::proofs::Asked::word_steps))]
fn are_network(command: &str, files: &[String]) -> bool
    ensures { result ≡ are_network command.now (texts files.now) }
{
    command == "lab" && files.len() > 2 && are_plain(files)
}

/// The file whose console is told something, and the words that it is told, where the words ask for that.
fn told_words(words: &[String]) -> Option<(&str, &[String])>
    ensures { option_map (λ told. (told.0.now, texts told.1.now)) result ≡ told_words (texts words.now) }
{
    match words {
        [command, file, line @ ..] if are_told(command.as_str(), file.as_str(), line) => {
            Some((file.as_str(), line))
        }
        _ => None,
    }
}

/// Whether this command, this file and these words ask for something to be told.
#[tactic(auto, using(crate::proofs::Asked::word_steps))]
fn are_told(command: &str, file: &str, line: &[String]) -> bool
    ensures { result ≡ are_told command.now file.now (texts line.now) }
{
    command == "tell" && is_plain(file) && are_in_line(line)
}

/// Whether no word has a line feed.
fn are_in_line(words: &[String]) -> bool
    ensures { result ≡ are_in_line words.now }
{
    words.iter().all(|word| is_in_line(word.as_str()))
}

/// Whether a word has no line feed.
fn is_in_line(word: &str) -> bool
    ensures { result ≡ is_in_line word.now }
{
    word.as_bytes().iter().all(|octet| *octet != b'\n')
}

/// Whether the words ask for help.
fn asks_help(words: &[String]) -> bool
    ensures { result ≡ asks_help (texts words.now) }
{
    match words {
        [word] => word.as_str() == "help" || word.as_str() == "--help",
        _ => false,
    }
}

fn asks_version(words: &[String]) -> bool
    ensures { result ≡ asks_version (texts words.now) }
{
    match words {
        [word] => word.as_str() == "version" || word.as_str() == "--version",
        _ => false,
    }
}

/// Which command the arguments ask for. If one of them is empty or begins with `-` they ask for none, and no memory is
/// allocated for them; for all others it may run out.
fn read_command<'a>(alloc: Global, words: &'a [String]) -> Words<'a>
    ensures { AreReadAsTask (asked_by (texts words.now)) (are_plain words.now) result }
{
    if !are_plain(words) {
        return Words::Usage;
    }
    match parse(alloc, words) {
        Ok(matches) => match found(alloc, &matches) {
            Ok(words) => words,
            Err(_) => Words::NoMemory,
        },
        Err(error) if error.kind() == ErrorKind::OutOfMemory => Words::NoMemory,
        Err(_) => Words::Usage,
    }
}

/// Whether no word is empty or begins with `-`.
fn are_plain(words: &[String]) -> bool
    ensures { result ≡ are_plain words.now }
{
    words.iter().all(|word| is_plain(word.as_str()))
}

/// Whether a word isn't empty and doesn't begin with `-`.
fn is_plain(word: &str) -> bool
    ensures { result ≡ is_plain word.now }
{
    match word.as_bytes() {
        [] | [b'-', ..] => false,
        _ => true,
    }
}

/// Parses plain words. If they aren't the program's, or if memory runs out, the parse fails.
fn parse<'a>(alloc: Global, words: &'a [String]) -> Result<ArgMatches<'a>, Error>
    requires { are_plain words.now ≡ true }
    ensures taken { IfOk result (λ matches. found (subcommand_rows_of matches) ≡ asked_by (texts words.now)) }
    ensures refused { IfErr result (λ error. kind_of error ≢ OutOfMemory → asked_by (texts words.now) ≡ OtherWords) }
{
    stp(alloc)?.try_get_matches_from(words)
}

/// What arguments that were parsed like this ask for.
fn found<'a>(alloc: Global, matches: &ArgMatches<'_>) -> Result<Words<'a>, AllocError>
    ensures { IfOk result (λ read. task_of read ≡ Some (found (subcommand_rows_of matches.now))) }
{
    match matches.subcommand() {
        Some((command, inner)) => {
            let file = inner.get_str("file");
            let near = inner.get_str("near");
            let far = inner.get_str("far");
            with_files(alloc, command, file, near, far)
        }
        None => Ok(Words::Usage),
    }
}

/// What a command asks for, by the files after it.
fn with_files<'a>(
    alloc: Global,
    command: &str,
    file: Option<&str>,
    near: Option<&str>,
    far: Option<&str>,
) -> Result<Words<'a>, AllocError>
    ensures { IfOk result (λ read. task_of read ≡ Some (found_by command.now (option_map (λ name. name.now) file.entry)
        (option_map (λ name. name.now) near.entry) (option_map (λ name. name.now) far.entry))) }
{
    if command == "lab" || command == "lab-udp" {
        with_two_files(alloc, command, near, far)
    } else {
        with_file(alloc, command, file)
    }
}

/// What a command asks for, by the file after it.
fn with_file<'a>(alloc: Global, command: &str, file: Option<&str>) -> Result<Words<'a>, AllocError>
    ensures { IfOk result (λ read.
        task_of read ≡ Some (asked_by_command command.now (option_map (λ name. name.now) file.entry))) }
{
    match (command, file) {
        ("run", None) => Ok(Words::Run(None)),
        ("run", Some(file)) => Ok(Words::Run(Some(String::from_str(alloc, file)?))),
        ("check", Some(file)) => Ok(Words::Check(String::from_str(alloc, file)?)),
        ("serve", Some(file)) => Ok(Words::Serve(String::from_str(alloc, file)?)),
        _ => Ok(Words::Usage),
    }
}

/// What a command with two files after it asks for.
fn with_two_files<'a>(
    alloc: Global,
    command: &str,
    near: Option<&str>,
    far: Option<&str>,
) -> Result<Words<'a>, AllocError>
    ensures { IfOk result (λ read. task_of read ≡ Some (asked_by_two command.now
        (option_map (λ name. name.now) near.entry) (option_map (λ name. name.now) far.entry))) }
{
    let (Some(near), Some(far)) = (near, far) else {
        return Ok(Words::Usage);
    };
    let near = String::from_str(alloc, near)?;
    let far = String::from_str(alloc, far)?;
    match command {
        "lab" => Ok(Words::Lab(near, far)),
        "lab-udp" => Ok(Words::DatagramLab(near, far)),
        _ => Ok(Words::Usage),
    }
}
