//! Two nodes that a lab joins, with the settings of two files.

ghost use Rattle.std.specs.Prelude.{◌≡◌, ◌≢◌, ◌⊎◌, IfOk, OnOk, Err, true, false};
ghost use Rattle.std.specs.Io.KnownBytes.{IsAtEnd};
ghost use Rattle.script.specs.Faults.{MakesReads, reads_failed, writes_failed};
ghost use Rattle.exchange.specs.Calls.{Kept};
ghost use Rattle.lab.specs.Script.{LeavesAll};
ghost use Rattle.settings_file.specs.Faults.{no_memory};
ghost use Rattle.settings.specs.Facing.{IsFacing};
ghost use Rattle.settings.specs.Naming.{link_names};
ghost use Rattle.program.specs.Explaining.{IsLabEndExplained};
ghost use Rattle.program.specs.Program.{streams, told, status_after, EndsWith, HasNoMemory};
ghost use Rattle.program.specs.Program.{AreJoined, RunsLabScript, RunsNodes, RunsLab};

use crate::ending::{end_with, tell_no_memory};
use crate::explaining::{explain_lab_end, explain_strangers};
use crate::folder::Folder;
use crate::program::{Status, status_after};
use crate::settings_files::settings_of;
use exchange::{Exchange, NoMemory};
use lab::{Joiner, run_datagram_lab, run_lab};
use script::{ScriptFault, Sink, Source};
use settings::Settings;
use std::alloc::Global;

/// How the links of a lab are joined.
#[derive(Drop)]
pub(crate) enum Medium<'a, J> {
    /// By the streams of a joiner.
    Streams(&'a mut J),
    /// By datagrams of this machine.
    Datagrams(&'a HostRuntime),
}

/// Runs the lab script on two nodes with the settings of two files. Faults are found in this order: the near file, the
/// far file, whether the nodes face each other, memory for them, the script.
pub(crate) fn run_files<F: Folder, J: Joiner, R: Source, W: Sink, E: Sink>(
    alloc: Global,
    folder: &F,
    files: (&str, &str),
    medium: Medium<'_, J>,
    reader: &mut R,
    writer: &mut W,
    errors: &mut E,
) -> Status
    ensures { RunsLab files.entry.0.now files.entry.1.now (F.reads folder.now)
        (streams (R.input reader.old) (W.output writer.old) (E.output errors.old))
        (streams (R.input reader.new) (W.output writer.new) (E.output errors.new)) result }
{
    let near = match settings_of(alloc, folder, files.0, writer, errors) {
        Ok(settings) => settings,
        Err(status) => return status,
    };
    let far = match settings_of(alloc, folder, files.1, writer, errors) {
        Ok(settings) => settings,
        Err(status) => {
            drop(near);
            return status;
        }
    };
    run_if_facing(alloc, near, far, files, medium, reader, writer, errors)
}

/// Runs the lab script on two nodes with these settings, read from files of these names, if they face each other and
/// name their links alike.
fn run_if_facing<J: Joiner, R: Source, W: Sink, E: Sink>(
    alloc: Global,
    near: Settings,
    far: Settings,
    files: (&str, &str),
    medium: Medium<'_, J>,
    reader: &mut R,
    writer: &mut W,
    errors: &mut E,
) -> Status
    ensures { RunsNodes files.entry.0.now files.entry.1.now near far
        (streams (R.input reader.old) (W.output writer.old) (E.output errors.old))
        (streams (R.input reader.new) (W.output writer.new) (E.output errors.new)) result }
{
    if can_join(&near, &far) {
        return run_between(alloc, near, far, medium, reader, writer, errors);
    }
    drop(near);
    drop(far);
    explain_strangers(alloc, files.0, files.1, errors);
    end_with(Status::Start, b"fault NotFacing\n", writer)
}

/// Whether nodes with these settings face each other, and name their links alike.
fn can_join(near: &Settings, far: &Settings) -> bool
    ensures facing { result ≡ true → IsFacing near.now far.now }
    ensures alike { result ≡ true → link_names near.now ≡ link_names far.now }
    ensures strangers { result ≡ false → ¬ (AreJoined near.now far.now) }
{
    near.faces(far) && near.named_alike(far)
}

/// Runs the lab script on two nodes with these settings.
fn run_between<J: Joiner, R: Source, W: Sink, E: Sink>(
    alloc: Global,
    near: Settings,
    far: Settings,
    medium: Medium<'_, J>,
    reader: &mut R,
    writer: &mut W,
    errors: &mut E,
) -> Status
    requires facing { IsFacing near far }
    requires alike { link_names near ≡ link_names far }
    ensures { RunsLabScript
        (streams (R.input reader.old) (W.output writer.old) (E.output errors.old))
        (streams (R.input reader.new) (W.output writer.new) (E.output errors.new)) result
        ⊎ HasNoMemory
        (streams (R.input reader.old) (W.output writer.old) (E.output errors.old))
        (streams (R.input reader.new) (W.output writer.new) (E.output errors.new)) result }
{
    let Ok(mut near) = booted(alloc, near) else {
        drop(far);
        return tell_no_memory(writer);
    };
    let ended = run_beside(alloc, &mut near, far, medium, reader, writer, errors);
    drop(near);
    ended
}

/// The same, if the near node is booted.
fn run_beside<J: Joiner, R: Source, W: Sink, E: Sink>(
    alloc: Global,
    near: &mut Exchange,
    far: Settings,
    medium: Medium<'_, J>,
    reader: &mut R,
    writer: &mut W,
    errors: &mut E,
) -> Status
    requires facing { IsFacing near.old.settings far }
    requires alike { link_names near.old.settings ≡ link_names far }
    ensures { RunsLabScript
        (streams (R.input reader.old) (W.output writer.old) (E.output errors.old))
        (streams (R.input reader.new) (W.output writer.new) (E.output errors.new)) result
        ⊎ HasNoMemory
        (streams (R.input reader.old) (W.output writer.old) (E.output errors.old))
        (streams (R.input reader.new) (W.output writer.new) (E.output errors.new)) result }
{
    let Ok(mut far) = booted(alloc, far) else {
        return tell_no_memory(writer);
    };
    let ended = run_booted(alloc, near, &mut far, medium, reader, writer, errors);
    drop(far);
    ended
}

/// The same, if both nodes are booted.
fn run_booted<J: Joiner, R: Source, W: Sink, E: Sink>(
    alloc: Global,
    near: &mut Exchange,
    far: &mut Exchange,
    medium: Medium<'_, J>,
    reader: &mut R,
    writer: &mut W,
    errors: &mut E,
) -> Status
    requires facing { IsFacing near.old.settings far.old.settings }
    requires alike { link_names near.old.settings ≡ link_names far.old.settings }
    ensures { RunsLabScript
        (streams (R.input reader.old) (W.output writer.old) (E.output errors.old))
        (streams (R.input reader.new) (W.output writer.new) (E.output errors.new)) result
        ⊎ HasNoMemory
        (streams (R.input reader.old) (W.output writer.old) (E.output errors.old))
        (streams (R.input reader.new) (W.output writer.new) (E.output errors.new)) result }
{
    let script = run_by(alloc, near, far, medium, reader, writer);
    end_lab(alloc, script, writer, errors)
}

/// Runs the lab script on two nodes whose links are joined like this.
fn run_by<J: Joiner, R: Source, W: Sink>(
    alloc: Global,
    near: &mut Exchange,
    far: &mut Exchange,
    medium: Medium<'_, J>,
    reader: &mut R,
    writer: &mut W,
) -> Result<(), ScriptFault>
    requires facing { IsFacing near.old.settings far.old.settings }
    requires alike { link_names near.old.settings ≡ link_names far.old.settings }
    ensures end { OnOk result (IsAtEnd (R.input reader.new).remaining) }
    ensures bounded { MakesReads result (R.input reader.old).reads (R.input reader.new).reads }
    ensures reads { (R.input reader.new).failures ≡ reads_failed (R.input reader.old).failures result }
    ensures writes { (W.output writer.new).failures ≡ writes_failed (W.output writer.old).failures result }
    ensures unchanged { LeavesAll {N = Kept × Kept} result (near.old, far.old) (near.new, far.new)
        (R.input reader.old) (R.input reader.new) (W.output writer.old) (W.output writer.new) }
{
    match medium {
        Medium::Streams(joiner) => run_lab(alloc, near, far, joiner, reader, writer),
        Medium::Datagrams(rt) => run_datagram_lab(rt, alloc, near, far, reader, writer),
    }
}

/// The node with these settings, before its first event.
pub(crate) fn booted(alloc: Global, settings: Settings) -> Result<Exchange, NoMemory>
    ensures { IfOk result (λ node. node.settings ≡ settings) }
{
    Exchange::boot(alloc, settings)
}

/// Explains why a lab script ended before its end, if it did, and returns how the program ends.
pub(crate) fn end_lab<W: Sink, E: Sink>(
    alloc: Global,
    script: Result<(), ScriptFault>,
    writer: &mut W,
    errors: &mut E,
) -> Status
    ensures memory { script ≡ Err ScriptFault.NoMemory
        → EndsWith Status.Start (told no_memory) (W.output writer.old) (W.output writer.new) result
        × (E.output errors.new ≡ E.output errors.old) }
    ensures status { script ≢ Err ScriptFault.NoMemory → result ≡ status_after script }
    ensures unwritten { script ≢ Err ScriptFault.NoMemory → W.output writer.new ≡ W.output writer.old }
    ensures explained { IsLabEndExplained script (E.output errors.old) (E.output errors.new) }
{
    if let Err(ScriptFault::NoMemory) = script {
        return tell_no_memory(writer);
    }
    explain_lab_end(alloc, script, errors);
    status_after(script)
}
