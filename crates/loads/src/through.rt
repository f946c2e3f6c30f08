//! Messages from one peer to another through a served node between them: how long they take.

mod arrivals;
mod nodes;
mod run;
mod station;

use crate::refuse;
use run::{Load, pass};
use settings::Limits;
use std::io;
use std::process::ExitCode;

/// Octets of the front of a message's field: a label and a number.
const FRONT_OCTETS: usize = 8;

/// Prints the settings of the node between the peers.
pub(crate) fn print_settings(rt: &HostRuntime, words: &[String]) -> io::Result<ExitCode> {
    let [port] = words else {
        return refuse(rt);
    };
    match port.as_str().parse() {
        Ok(port) => nodes::print_between(rt, port)?,
        Err(_) => return refuse(rt),
    }
    Ok(ExitCode::SUCCESS)
}

/// Has the messages that the words ask for go from one peer to the other, and prints what came.
pub(crate) fn perform(rt: &HostRuntime, words: &[String]) -> io::Result<ExitCode> {
    match load_of(words) {
        Some(load) => pass(rt, load)?,
        None => return refuse(rt),
    }
    Ok(ExitCode::SUCCESS)
}

/// What the words ask for; None if they ask for nothing that exists.
fn load_of(words: &[String]) -> Option<Load> {
    let [port, count, octets] = words else {
        return None;
    };
    let octets = octets.as_str().parse().ok()?;
    if octets < FRONT_OCTETS || octets > Limits::SIF_OCTETS {
        return None;
    }
    Some(Load {
        port: port.as_str().parse().ok()?,
        count: count.as_str().parse().ok()?,
        octets,
    })
}
