//! Nodes that a lab joins as their settings say, with the settings of three files or more.

ghost use Rattle.std.specs.Prelude.{◌≡◌, ◌⊎◌, [], ◌∷◌, ◌++◌, IfOk, OnOk, IfErr, string_bytes};
ghost use Rattle.settings_file.specs.Faults.{no_memory};
ghost use Rattle.lab.specs.Network.{settings_in};
ghost use Rattle.program.specs.Words.{texts};
ghost use Rattle.program.specs.Folders.{FileRead};
ghost use Rattle.program.specs.Explaining.{IsToldOf};
ghost use Rattle.program.specs.Network.{own_in, name_in_place, file_in, network_line, network_sentence};
ghost use Rattle.program.specs.Program.{streams, told, EndsWith, HasNoMemory};
ghost use Rattle.program.specs.Program.{HaveSettings, EndsReading, HasNode, EndsAtNode, RunsJoined, RunsNetwork};

use crate::ending::{end_with, tell_no_memory};
use crate::explaining::explain_network;
use crate::folder::Folder;
use crate::program::Status;
use crate::settings_files::settings_of;
use crate::two_nodes::{booted, end_lab};
use console::link_name;
use exchange::{Exchange, NoMemory};
use lab::{Joiner, NetworkFault, network_fault, run_network};
use script::{Sink, Source};
use settings::LinkId;
use std::alloc::{AllocError, Global};

/// Runs the lab script on nodes with the settings of these files. Faults are found in this order: file by file its
/// settings and memory for its node, whether the nodes are a network, the script.
pub(crate) fn run_network_files<F: Folder, J: Joiner, R: Source, W: Sink, E: Sink>(
    alloc: Global,
    folder: &F,
    files: &[String],
    joiner: &mut J,
    reader: &mut R,
    writer: &mut W,
    errors: &mut E,
) -> Status
    ensures { RunsNetwork (texts files.now) (F.reads folder.now)
        (streams (R.input reader.old) (W.output writer.old) (E.output errors.old))
        (streams (R.input reader.new) (W.output writer.new) (E.output errors.new)) result }
{
    let mut nodes = Vec::new(alloc);
    let status = run_nodes(
        alloc, folder, files, &mut nodes, joiner, reader, writer, errors,
    );
    drop(nodes);
    status
}

/// The same, with nodes that aren't booted yet.
fn run_nodes<F: Folder, J: Joiner, R: Source, W: Sink, E: Sink>(
    alloc: Global,
    folder: &F,
    files: &[String],
    nodes: &mut Vec<Exchange>,
    joiner: &mut J,
    reader: &mut R,
    writer: &mut W,
    errors: &mut E,
) -> Status
    requires { nodes.old.items ≡ [] }
    ensures { RunsNetwork (texts files.now) (F.reads folder.now)
        (streams (R.input reader.old) (W.output writer.old) (E.output errors.old))
        (streams (R.input reader.new) (W.output writer.new) (E.output errors.new)) result }
{
    match read_nodes(alloc, folder, files, nodes, writer, errors) {
        Ok(()) => {
            let nodes = nodes.as_mut_slice();
            run_if_network(alloc, files, nodes, joiner, reader, writer, errors)
        }
        Err(status) => status,
    }
}

/// Boots the nodes of these files, in order; or answers how the program ends where one can't be.
fn read_nodes<F: Folder, W: Sink, E: Sink>(
    alloc: Global,
    folder: &F,
    files: &[String],
    nodes: &mut Vec<Exchange>,
    writer: &mut W,
    errors: &mut E,
) -> Result<(), Status>
    requires { nodes.old.items ≡ [] }
    ensures settings { OnOk result (HaveSettings (texts files.now) (F.reads folder.now)
        (settings_in nodes.new.items) (E.output errors.old) (E.output errors.new)) }
    ensures unwritten { OnOk result (W.output writer.new ≡ W.output writer.old) }
    ensures ended { IfErr result (EndsReading (texts files.now) (F.reads folder.now)
        (W.output writer.old) (W.output writer.new) (E.output errors.old) (E.output errors.new)) }
{
    for place in 0..files.len() {
        match node_of(alloc, folder, files[place].as_str(), writer, errors) {
            Ok(node) => {
                let Ok(()) = add(nodes, node) else {
                    return Err(tell_no_memory(writer));
                };
            }
            Err(status) => return Err(status),
        }
    }
    Ok(())
}

/// Adds a node. The error means that memory ran out.
fn add(nodes: &mut Vec<Exchange>, node: Exchange) -> Result<(), AllocError>
    ensures { OnOk result (nodes.new.items ≡ nodes.old.items ++ node ∷ []) }
{
    match nodes.push(node) {
        Ok(_) => Ok(()),
        Err(_) => Err(AllocError),
    }
}

/// The node with the settings of a file, before its first event; or how the program ends without it.
fn node_of<F: Folder, W: Sink, E: Sink>(
    alloc: Global,
    folder: &F,
    file: &str,
    writer: &mut W,
    errors: &mut E,
) -> Result<Exchange, Status>
    ensures node { IfOk result (λ node. HasNode file.now (F.reads folder.now) node.settings
        (E.output errors.old) (E.output errors.new)) }
    ensures unwritten { IfOk result (λ _. W.output writer.new ≡ W.output writer.old) }
    ensures ended { IfErr result (EndsAtNode file.now (F.reads folder.now)
        (W.output writer.old) (W.output writer.new) (E.output errors.old) (E.output errors.new)) }
{
    let settings = match settings_of(alloc, folder, file, writer, errors) {
        Ok(settings) => settings,
        Err(status) => return Err(status),
    };
    match booted(alloc, settings) {
        Ok(node) => Ok(node),
        Err(NoMemory) => Err(tell_no_memory(writer)),
    }
}

/// Runs the lab script on nodes that were just booted, with the settings of files of these names, if they are a
/// network.
fn run_if_network<J: Joiner, R: Source, W: Sink, E: Sink>(
    alloc: Global,
    files: &[String],
    nodes: &mut [Exchange],
    joiner: &mut J,
    reader: &mut R,
    writer: &mut W,
    errors: &mut E,
) -> Status
    ensures { RunsJoined (texts files.now) (settings_in nodes.old)
        (streams (R.input reader.old) (W.output writer.old) (E.output errors.old))
        (streams (R.input reader.new) (W.output writer.new) (E.output errors.new)) result
        ⊎ HasNoMemory
        (streams (R.input reader.old) (W.output writer.old) (E.output errors.old))
        (streams (R.input reader.new) (W.output writer.new) (E.output errors.new)) result }
{
    match network_fault(nodes) {
        None => {
            let script = run_network(alloc, nodes, joiner, reader, writer);
            end_lab(alloc, script, writer, errors)
        }
        Some(fault) => tell_network_fault(alloc, files, nodes, fault, writer, errors),
    }
}

/// Prints why the nodes of these files aren't a network, and explains it; or prints that memory ran out.
fn tell_network_fault<W: Sink, E: Sink>(
    alloc: Global,
    files: &[String],
    nodes: &[Exchange],
    fault: NetworkFault,
    writer: &mut W,
    errors: &mut E,
) -> Status
    ensures { (EndsWith Status.Start (network_line (settings_in nodes.now) fault)
        (W.output writer.old) (W.output writer.new) result
        × IsToldOf (λ text. text ≡ network_sentence (texts files.now) (settings_in nodes.now) fault)
        (E.output errors.old) (E.output errors.new))
        ⊎ (EndsWith Status.Start (told no_memory) (W.output writer.old) (W.output writer.new) result
        × (E.output errors.new ≡ E.output errors.old)) }
{
    match network_line(alloc, nodes, &fault) {
        Ok(line) => {
            let sentence = network_sentence(alloc, files, nodes, &fault);
            explain_network(sentence, errors);
            end_with(Status::Start, line.as_bytes(), writer)
        }
        Err(_) => tell_no_memory(writer),
    }
}

/// The line of a fault of a network.
fn network_line(
    alloc: Global,
    nodes: &[Exchange],
    fault: &NetworkFault,
) -> Result<String, AllocError>
    ensures { IfOk result (λ line. string_bytes line ≡ network_line (settings_in nodes.now) fault.now) }
{
    match fault {
        NetworkFault::SamePoint(place) => {
            let own = own_in(nodes, *place);
            format!(in alloc; "fault SamePoint {own}\n")
        }
        NetworkFault::NotJoined(place, link) => {
            let (own, name) = (own_in(nodes, *place), name_in_place(nodes, *place, *link));
            format!(in alloc; "fault NotJoined {own} {name}\n")
        }
        NetworkFault::OtherNetwork(place, link) => {
            let (own, name) = (own_in(nodes, *place), name_in_place(nodes, *place, *link));
            format!(in alloc; "fault OtherNetwork {own} {name}\n")
        }
    }
}

/// The sentence about a fault of a network.
fn network_sentence(
    alloc: Global,
    files: &[String],
    nodes: &[Exchange],
    fault: &NetworkFault,
) -> Result<String, AllocError>
    ensures { IfOk result (λ sentence.
        string_bytes sentence ≡ network_sentence (texts files.now) (settings_in nodes.now) fault.now) }
{
    match fault {
        NetworkFault::SamePoint(place) => {
            let file = file_in(files, *place);
            format!(in alloc; "{file}: a file before it has the same point\n")
        }
        NetworkFault::NotJoined(place, link) => {
            let (file, name) = (file_in(files, *place), name_in_place(nodes, *place, *link));
            format!(in alloc; "{file}: link {name}: none of the files has its other end\n")
        }
        NetworkFault::OtherNetwork(place, link) => {
            let (file, name) = (file_in(files, *place), name_in_place(nodes, *place, *link));
            format!(in alloc; "{file}: link {name}: its other end is in another network\n")
        }
    }
}

/// The point of the node in a place; 0 where there is none.
fn own_in(nodes: &[Exchange], place: usize) -> u16
    ensures { result ≡ own_in (settings_in nodes.now) place }
{
    match nodes.get(place) {
        Some(node) => node.settings().own().code(),
        None => 0,
    }
}

/// The name of a link of the node in a place; nothing where there is none.
fn name_in_place(nodes: &[Exchange], place: usize, link: LinkId) -> &str
    ensures { result.now ≡ name_in_place (settings_in nodes.now) place link }
{
    match nodes.get(place) {
        Some(node) => link_name(node.settings(), link),
        None => "",
    }
}

/// The name of the file in a place; nothing where there is none.
fn file_in(files: &[String], place: usize) -> &str
    ensures { result.now ≡ file_in (texts files.now) place }
{
    match files.get(place) {
        Some(file) => file.as_str(),
        None => "",
    }
}
