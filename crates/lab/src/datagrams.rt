//! A lab of two nodes whose links go over datagrams: two gates for each link, and two UDP sockets of this machine.

ghost use Rattle.std.specs.Prelude.{◌≡◌, OnOk};
ghost use Rattle.std.specs.Io.KnownBytes.{IsAtEnd};
ghost use Rattle.exchange.specs.Calls.{Kept};
ghost use Rattle.settings.specs.Facing.{IsFacing};
ghost use Rattle.settings.specs.Naming.{link_names};
ghost use Rattle.script.specs.Faults.{MakesReads, reads_failed, writes_failed};
ghost use Rattle.lab.specs.Script.{LeavesAll, ReadsOn};

mod datagram_bench;
mod drop_line;
mod gate_end;
mod gate_pair;
pub(crate) mod hearing;
pub(crate) mod incoming;
mod plugs;
mod watched_socket;

use crate::datagrams::datagram_bench::DatagramBench;
use crate::datagrams::gate_pair::{Times, no_pairs};
use crate::nodes::TwoNodes;
use crate::run::run_pieces;
use exchange::Exchange;
use script::{ScriptFault, Sink, Source};
use std::alloc::Global;
use std::net::Net;
use std::random::RandomSource;

/// Does the lines of a lab script, in order, and prints what becomes of each, as `run_lab`; but the links go over
/// datagrams. The exchanges face each other, and name their links alike.
pub fn run_datagram_lab<N: Net + RandomSource, R: Source, W: Sink>(
    net: &N,
    alloc: Global,
    near: &mut Exchange,
    far: &mut Exchange,
    reader: &mut R,
    writer: &mut W,
) -> Result<(), ScriptFault>
    requires facing { IsFacing near.old.settings far.old.settings }
    requires alike { link_names near.old.settings ≡ link_names far.old.settings }
    ensures end { OnOk result (IsAtEnd (R.input reader.new).remaining) }
    ensures many { ReadsOn result (R.input reader.old).remaining (R.input reader.new).remaining }
    ensures bounded { MakesReads result (R.input reader.old).reads (R.input reader.new).reads }
    ensures reads { (R.input reader.new).failures ≡ reads_failed (R.input reader.old).failures result }
    ensures writes { (W.output writer.new).failures ≡ writes_failed (W.output writer.old).failures result }
    ensures unchanged { LeavesAll {N = Kept × Kept} result (near.old, far.old) (near.new, far.new)
        (R.input reader.old) (R.input reader.new) (W.output writer.old) (W.output writer.new) }
{
    let Ok(mut pairs) = no_pairs(alloc, near.settings().link_count()) else {
        return Err(ScriptFault::NoMemory);
    };
    let mut bench = DatagramBench {
        net,
        alloc,
        nodes: TwoNodes { near, far },
        pairs: pairs.as_mut_slice(),
        times: Times::START,
    };
    run_pieces(&mut bench, reader, writer)
}
