//! Running a script of a lab whose nodes are named by their points.

ghost use Rattle.std.specs.Prelude.{◌≡◌, OnOk, Err};
ghost use Rattle.std.specs.Io.KnownBytes.{IsAtEnd};
ghost use Rattle.script.specs.Faults.{MakesReads, reads_failed, writes_failed};
ghost use Rattle.lab.specs.Script.{LeavesAll, ReadsOn};
ghost use Rattle.lab.specs.Network.{settings_in, network_fault};
ghost use Rattle.std.specs.Prelude.{None};

use crate::circuits::network_circuits;
use crate::doing::StreamBench;
use crate::joining::Joiner;
use crate::nodes::NodeList;
use crate::run::run_pieces;
use exchange::Exchange;
use script::{ScriptFault, Sink, Source};
use std::alloc::Global;

/// Does the lines of a script of a lab whose nodes are named by their points, in order, and prints what becomes of
/// each, as `run_lab`. The nodes are a network: their points differ, and each link has its other end among them.
pub fn run_network<J: Joiner, R: Source, W: Sink>(
    alloc: Global,
    nodes: &mut [Exchange],
    joiner: &mut J,
    reader: &mut R,
    writer: &mut W,
) -> Result<(), ScriptFault>
    requires network { network_fault (settings_in nodes.old) ≡ None }
    ensures end { OnOk result (IsAtEnd (R.input reader.new).remaining) }
    ensures many { ReadsOn result (R.input reader.old).remaining (R.input reader.new).remaining }
    ensures bounded { MakesReads result (R.input reader.old).reads (R.input reader.new).reads }
    ensures reads { (R.input reader.new).failures ≡ reads_failed (R.input reader.old).failures result }
    ensures writes { (W.output writer.new).failures ≡ writes_failed (W.output writer.old).failures result }
    ensures unchanged { LeavesAll result nodes.old nodes.new
        (R.input reader.old) (R.input reader.new) (W.output writer.old) (W.output writer.new) }
    ensures joiner { result ≡ Err ScriptFault.NoMemory → joiner.new ≡ joiner.old }
{
    let Ok(mut circuits) = network_circuits(alloc, nodes) else {
        return Err(ScriptFault::NoMemory);
    };
    let mut bench = StreamBench {
        nodes: NodeList { nodes },
        joiner,
        circuits: circuits.as_mut_slice(),
    };
    run_pieces(&mut bench, reader, writer)
}
