//! A node in a program of its own: the program has its settings, its network and its user parts, and one loop drives
//! it.
#![tactic(auto)]

mod fakes;
mod node;
mod node_settings;

use exchange::{DraftFault, Exchange, LinkId, NoMemory, Settings};
use fakes::{PlayedNetwork, PrintingUsers};
use std::alloc::{AllocError, Global};
use std::process::ExitCode;

/// Why the node doesn't start.
#[derive(Drop)]
enum NoStart {
    /// Memory ran out.
    Memory,
    /// The settings have this fault.
    Settings(DraftFault),
    /// The settings have no link of a name.
    Link,
}

impl From<AllocError> for NoStart {
    fn from(_error: AllocError) -> NoStart {
        NoStart::Memory
    }
}

impl From<NoMemory> for NoStart {
    fn from(_error: NoMemory) -> NoStart {
        NoStart::Memory
    }
}

impl From<DraftFault> for NoStart {
    fn from(fault: DraftFault) -> NoStart {
        NoStart::Settings(fault)
    }
}

fn main(rt: HostRuntime) -> ExitCode {
    match run(&rt, rt.alloc()) {
        Ok(()) => ExitCode::SUCCESS,
        Err(why) => {
            let _told = tell(&rt, why);
            ExitCode::FAILURE
        }
    }
}

/// Boots the node, and serves its links.
fn run<R: Print>(rt: &R, alloc: Global) -> Result<(), NoStart> {
    let settings = Settings::check(alloc, node_settings::draft(alloc)?)?;
    let links = [link_named(&settings, "e0")?, link_named(&settings, "w0")?];
    serve(rt, Exchange::boot(alloc, settings)?, links);
    Ok(())
}

/// Serves these links of a node.
fn serve<R: Print>(rt: &R, exchange: Exchange, links: [LinkId; 2]) {
    let mut exchange = exchange;
    let mut network = PlayedNetwork::new(rt, links);
    let mut users = PrintingUsers::new(rt);
    node::serve(&mut exchange, &links, &mut network, &mut users);
}

fn link_named(settings: &Settings, name: &str) -> Result<LinkId, NoStart> {
    settings.link_named(name.as_bytes()).ok_or(NoStart::Link)
}

/// Prints why the node doesn't start.
fn tell<R: Print>(rt: &R, why: NoStart) {
    let _told = match why {
        NoStart::Memory => println!(rt; "out of memory"),
        NoStart::Settings(fault) => println!(rt; "{fault}"),
        NoStart::Link => println!(rt; "a link isn't in the settings"),
    };
}
