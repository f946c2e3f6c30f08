//! Scripts that are run again and again, over streams that give little, fail, or never end, and in labs whose links
//! fail. All else that scripts and labs do is in the transcripts.
//!
//! `prints SCRIPT PLACE`: what a script prints on a node or in a lab, and how it ends. `endless SCRIPT PLACE`: empty
//! lines for ever, one octet a read: how that ends, how many reads were made, and how many octets were written. The
//! others run a script again and again, and say each time that its end changes what failed, and how it ended:
//!
//! - `pieces SCRIPT PLACE`: 0, 1 .. octets a read, and at least one, up to the length of the script;
//! - `reads SCRIPT PLACE`: the read after 0, 1 .. others fails, of one octet each; one more than the script has octets
//!   finds its end;
//! - `writes SCRIPT PLACE`: the write after 0, 1 .. others fails;
//! - `rooms SCRIPT PLACE`: the writer has room for 0, 1 .. octets, takes three a call while it has, and then none;
//! - `joins SCRIPT FAULT FIRST LAST`: of the calls of the streams of a lab, which give an octet a read, the one after
//!   FIRST others fails, after one more, .. and after LAST; a join fails by FAULT;
//! - `replays SCRIPT OCTETS`: in a lab, in place of a frame none, one, .. and all of these octets come, and then the
//!   end.
//!
//! The end of `joins` and `replays` is what the script printed, and in a word how it ended; that of the others is this
//! word, or `other` if something else was printed than by the script alone, and how many octets were written, or of
//! `rooms`, for how many there is still room.

use super::drafts::facing;
use super::node::Node;
use super::streams::{Endless, Narrow, Replaying};
use super::{script_of, text_of};
use crate::said::Said;
use crate::words::{OCTETS, last, number, octets, word};
use lab::{JoinFault, Joiner, MemoryJoiner};
use script::{
    MemorySink, MemorySource, ReaderSource, ScriptFault, Sink, Source, WriterSink, built_in,
};
use std::alloc::Global;
use std::ops::Range;

/// More reads and writes than a run makes.
const NO_LIMIT: u64 = u64::MAX;

/// A script that is run, and what it prints alone.
#[derive(Clone, Copy)]
struct Case<'a> {
    alloc: Global,
    row: &'a str,
    script: &'a str,
    printed: &'a [u8],
}

/// Says what comes of a row.
pub(crate) fn say(said: &mut Said, alloc: Global, text: &str, row: &str) {
    let Ok(script) = text_of(alloc, script_of(text, word(row, 1))) else {
        return;
    };
    let script = script.as_str();
    let mut writer = MemorySink::new(alloc);
    let case = Case {
        alloc,
        row,
        script,
        printed: &[],
    };
    let run = run(case, &mut MemorySource::new(script.as_bytes()), &mut writer);
    let printed = writer.written();
    match word(row, 0) {
        "prints" => say_printed(said, printed, run),
        "endless" => say_endless(said, case),
        _ => say_each(said, Case { printed, ..case }),
    }
}

/// Runs a script in the place of the row.
fn run<R: Source, W: Sink>(
    case: Case<'_>,
    reader: &mut R,
    writer: &mut W,
) -> Result<(), ScriptFault> {
    if word(case.row, 2) != "node" {
        return run_joined(
            case.alloc,
            MemoryJoiner::new(case.alloc).ok(),
            reader,
            writer,
        );
    }
    match Node::new(case.alloc, built_in(case.alloc)) {
        Some(mut node) => node.play(reader, writer),
        None => Err(ScriptFault::NoMemory),
    }
}

/// Runs a script in a lab of points 1 and 2, whose link e0 is joined in this way.
fn run_joined<J: Joiner + Drop, R: Source, W: Sink>(
    alloc: Global,
    joiner: Option<J>,
    reader: &mut R,
    writer: &mut W,
) -> Result<(), ScriptFault> {
    let Some(mut joiner) = joiner else {
        return Err(ScriptFault::NoMemory);
    };
    let Some(mut near) = Node::new(alloc, facing(alloc, 1, 2)) else {
        return Err(ScriptFault::NoMemory);
    };
    match Node::new(alloc, facing(alloc, 2, 1)) {
        Some(mut far) => near.play_with(alloc, &mut far, &mut joiner, reader, writer),
        None => Err(ScriptFault::NoMemory),
    }
}

/// How a script ended, in a word.
fn end_of(run: Result<(), ScriptFault>) -> &'static str {
    match run {
        Ok(()) => "done",
        Err(ScriptFault::Read) => "unread",
        Err(ScriptFault::Write) => "unwritten",
        Err(ScriptFault::Line(_)) => "line",
        Err(ScriptFault::TooManyReads) => "endless",
        Err(ScriptFault::NoMemory) => "memory",
    }
}

/// Says lines that were printed, each before a `;`, and how the script ended.
fn say_printed(said: &mut Said, printed: &[u8], run: Result<(), ScriptFault>) {
    for line in str::from_utf8(printed).unwrap_or("no text").lines() {
        said.say(format_args!("{line};"));
    }
    said.say(end_of(run));
}

/// Runs a script that has no end, and says how it ends, how many reads were made, and how many octets were written.
fn say_endless(said: &mut Said, case: Case<'_>) {
    let mut reader = Endless { reads: 0 };
    let mut writer = MemorySink::new(case.alloc);
    let end = end_of(run(case, &mut reader, &mut writer));
    let (reads, octets) = (reader.reads, writer.written().len());
    said.say(format_args!("{end} {reads} {octets}"));
}

/// Runs a script again and again, and says each change of its end.
fn say_each(said: &mut Said, case: Case<'_>) {
    let mut before = Said::new(case.alloc);
    for number in numbers_of(case) {
        let mut now = Said::new(case.alloc);
        say_run(&mut now, case, number);
        if now.text.as_str() != before.text.as_str() {
            said.say(format_args!("| {number}{}", now.text.as_str()));
        }
        before = now;
    }
}

/// The numbers of its runs.
fn numbers_of(case: Case<'_>) -> Range<usize> {
    let after_last = match word(case.row, 0) {
        "pieces" => case.script.len(),
        "reads" => case.script.len().saturating_add(2),
        "writes" => case.script.lines().count().saturating_add(1),
        "rooms" => case.printed.len().saturating_add(1),
        "joins" => number::<usize>(case.row, 4).saturating_add(1),
        _ => (last(case.row).len() / 2).saturating_add(1),
    };
    number(case.row, 3)..after_last
}

/// Runs a script, as the verb of its row and the number of the run ask for, and says how it ends.
fn say_run(said: &mut Said, case: Case<'_>, number: usize) {
    match word(case.row, 0) {
        "pieces" => say_failing(said, case, number, NO_LIMIT, NO_LIMIT),
        "reads" => say_failing(said, case, 1, number as u64, NO_LIMIT),
        "writes" => say_failing(said, case, usize::MAX, NO_LIMIT, number as u64),
        "rooms" => say_in_room(said, case, number),
        "joins" => say_unjoined(said, case, number as u64),
        _ => say_replayed(said, case, number),
    }
}

/// Says how a run ends whose streams give at most this many octets a read, and fail after this many reads and writes.
fn say_failing(said: &mut Said, case: Case<'_>, most: usize, reads: u64, writes: u64) {
    let source = MemorySource::new(case.script.as_bytes()).in_pieces_of(most);
    let mut reader = source.failing_after(reads);
    let mut writer = MemorySink::new(case.alloc).failing_after(writes);
    let end = end_of(run(case, &mut reader, &mut writer));
    let written = writer.written();
    say_end(said, case, written, end, written.len());
}

/// Says how a run ends whose writer has room for this many octets, and how much of it is left then.
fn say_in_room(said: &mut Said, case: Case<'_>, room: usize) {
    let taken = Vec::new(case.alloc);
    let mut narrow = Narrow { taken, room };
    let mut reader = ReaderSource::new(case.script.as_bytes());
    let mut writer = WriterSink::new(&mut narrow);
    let end = end_of(run(case, &mut reader, &mut writer));
    say_end(said, case, narrow.taken.as_slice(), end, narrow.room);
}

/// Says an end, if what was written is the beginning of what the script prints, and a count of octets.
fn say_end(said: &mut Said, case: Case<'_>, written: &[u8], end: &str, octets: usize) {
    let is_first = case.printed.starts_with(written);
    let end = if is_first { end } else { "other" };
    said.say(format_args!("{end} {octets}"));
}

/// Says what comes of a run whose streams give an octet a read. The call after this many others fails, a join by the
/// fault of the row.
fn say_unjoined(said: &mut Said, case: Case<'_>, calls: u64) {
    let fault = match word(case.row, 2) {
        "listen" => JoinFault::Listen,
        "accept" => JoinFault::Accept,
        _ => JoinFault::Connect,
    };
    if let Ok(joiner) = MemoryJoiner::new(case.alloc) {
        let joiner = joiner.in_pieces_of(1).with_fault(fault);
        say_joined(said, case, joiner.failing_after(calls));
    }
}

/// Says what comes of a run in which this many of the octets of the row come in place of a frame.
fn say_replayed(said: &mut Said, case: Case<'_>, count: usize) {
    let mut buffer = [0; OCTETS];
    let octets = octets(last(case.row), &mut buffer);
    let octets = octets.get(..count).unwrap_or(octets);
    say_joined(said, case, Replaying { octets });
}

/// Says what a script prints in a lab whose links are joined in this way, and how it ends.
fn say_joined<J: Joiner + Drop>(said: &mut Said, case: Case<'_>, joiner: J) {
    let mut reader = MemorySource::new(case.script.as_bytes());
    let mut writer = MemorySink::new(case.alloc);
    let run = run_joined(case.alloc, Some(joiner), &mut reader, &mut writer);
    say_printed(said, writer.written(), run);
}
