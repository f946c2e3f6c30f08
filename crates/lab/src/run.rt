//! Running a lab script, octet by octet.

ghost use Rattle.std.specs.Prelude.{◌≡◌, ◌+◌, ◌≤◌, ◌<◌, ◌^◌, length, OnOk, Err};
ghost use Rattle.std.specs.Io.KnownBytes.{IsAtEnd};
ghost use Rattle.exchange.specs.Calls.{Kept};
ghost use Rattle.settings.specs.Facing.{IsFacing};
ghost use Rattle.script.specs.Faults.{MakesReads, reads_failed, writes_failed, EndsAtLine};
ghost use Rattle.settings.specs.Naming.{link_names};
ghost use Rattle.lab.specs.Script.{EndsInScript, LeavesAll, ReadsOn};

use crate::bench::Bench;
use crate::circuits::facing_circuits;
use crate::doing::StreamBench;
use crate::joining::Joiner;
use crate::nodes::TwoNodes;
use exchange::Exchange;
use script::{Grown, Malformed, OpenLine, READS, ScriptFault, Sink, Source, print};
use std::alloc::Global;

/// Octets that one read asks for.
const PIECE_OCTETS: usize = 4096;

/// Does the lines of a lab script, in order, and prints what becomes of each: a line, but for `show`, which prints a
/// text. The exchanges face each other, and name their links alike.
///
/// The script is read, and faults end it, as in `run_script`; it returns `Ok` only if it found the script's end. Except
/// for what the streams of links take, all memory is taken before the first read. If that is refused, it returns
/// `NoMemory`: both exchanges are as before, and nothing was read or written.
pub fn run_lab<J: Joiner, R: Source, W: Sink>(
    alloc: Global,
    near: &mut Exchange,
    far: &mut Exchange,
    joiner: &mut J,
    reader: &mut R,
    writer: &mut W,
) -> Result<(), ScriptFault>
    requires facing { IsFacing near.old.settings far.old.settings }
    requires alike { link_names near.old.settings ≡ link_names far.old.settings }
    ensures end { OnOk result (IsAtEnd (R.input reader.new).remaining) }
    ensures many { ReadsOn result (R.input reader.old).remaining (R.input reader.new).remaining }
    ensures bounded { MakesReads result (R.input reader.old).reads (R.input reader.new).reads }
    ensures reads { (R.input reader.new).failures ≡ reads_failed (R.input reader.old).failures result }
    ensures writes { (W.output writer.new).failures ≡ writes_failed (W.output writer.old).failures result }
    ensures unchanged { LeavesAll {N = Kept × Kept} result (near.old, far.old) (near.new, far.new)
        (R.input reader.old) (R.input reader.new) (W.output writer.old) (W.output writer.new) }
    ensures joiner { result ≡ Err ScriptFault.NoMemory → joiner.new ≡ joiner.old }
{
    let Ok(mut circuits) = facing_circuits(alloc, near.settings().link_count()) else {
        return Err(ScriptFault::NoMemory);
    };
    let mut bench = StreamBench {
        nodes: TwoNodes { near, far },
        joiner,
        circuits: circuits.as_mut_slice(),
    };
    run_pieces(&mut bench, reader, writer)
}

/// Reads a lab script piece by piece, and does its lines on a bench. It is read, and faults end it, as in `run_script`;
/// it returns `Ok` only if it found the script's end, and never `NoMemory`.
pub fn run_pieces<B: Bench, R: Source, W: Sink>(
    bench: &mut B,
    reader: &mut R,
    writer: &mut W,
) -> Result<(), ScriptFault>
    ensures end { OnOk result (IsAtEnd (R.input reader.new).remaining) }
    ensures many { ReadsOn result (R.input reader.old).remaining (R.input reader.new).remaining }
    ensures bounded { MakesReads result (R.input reader.old).reads (R.input reader.new).reads }
    ensures reads { (R.input reader.new).failures ≡ reads_failed (R.input reader.old).failures result }
    ensures writes { (W.output writer.new).failures ≡ writes_failed (W.output writer.old).failures result }
    ensures begun { EndsInScript result }
{
    let mut line = OpenLine::first();
    let mut piece = [0; PIECE_OCTETS];
    for _ in 0..READS {
        let count = reader.read(&mut piece)?;
        if count == 0 {
            return line.end(writer);
        }
        take_all(&mut line, &piece[..count], bench, writer)?;
    }
    Err(ScriptFault::TooManyReads)
}

/// Takes the next octets, and does each line that ends in them.
fn take_all<B: Bench, W: Sink>(
    line: &mut OpenLine,
    octets: &[u8],
    bench: &mut B,
    writer: &mut W,
) -> Result<(), ScriptFault>
    requires { line.old.number + length octets.now < 2 ^ 64 }
    ensures number { line.new.number ≤ line.old.number + length octets.now }
    ensures writes { (W.output writer.new).failures ≡ writes_failed (W.output writer.old).failures result }
    ensures fault { EndsAtLine result }
{
    for octet in octets {
        take(line, *octet, bench, writer)?;
    }
    Ok(())
}

/// Takes the next octet, and does the line where it ends.
fn take<B: Bench, W: Sink>(
    line: &mut OpenLine,
    octet: u8,
    bench: &mut B,
    writer: &mut W,
) -> Result<(), ScriptFault>
    requires { line.old.number + 1 < 2 ^ 64 }
    ensures number { line.new.number ≤ line.old.number + 1 }
    ensures writes { (W.output writer.new).failures ≡ writes_failed (W.output writer.old).failures result }
    ensures fault { EndsAtLine result }
{
    match line.add(octet) {
        Grown::Open => Ok(()),
        Grown::TooLong => line.fail(writer),
        Grown::Whole => {
            do_line(line, bench, writer)?;
            line.begin_next();
            Ok(())
        }
    }
}

/// Does a whole line, and prints what became of it.
fn do_line<B: Bench, W: Sink>(
    line: &OpenLine,
    bench: &mut B,
    writer: &mut W,
) -> Result<(), ScriptFault>
    ensures writes { (W.output writer.new).failures ≡ writes_failed (W.output writer.old).failures result }
    ensures fault { EndsAtLine result }
{
    match bench.perform(line.octets()) {
        Ok(Some((place, reply))) => {
            if let Some(node) = bench.node(place) {
                print(node, &reply, writer)?;
            }
            Ok(())
        }
        Ok(None) => Ok(()),
        Err(Malformed) => line.fail(writer),
    }
}
