//! What messages cost, and how many go through.
//!
//! `loads bench KIND OCTETS DESTINATIONS LINKS COUNT` carries messages through an exchange in memory, and prints how
//! many frames went out with a checksum of their octets. A sixth word, `wide` or `largest`, makes the settings larger.
//!
//! `loads settings PORT` prints the settings of a node between two peers, whose links listen at PORT and the port after
//! it. `loads through PORT COUNT OCTETS` is both peers: one submits messages to the other, which come by that node.
#![tactic(auto)]

mod bench;
mod draft;
mod through;
mod titles;

use std::process::ExitCode;
use std::{env, io};

fn main(rt: HostRuntime) -> io::Result<ExitCode> {
    let words: Vec<String> = env::args(&rt)?.skip(1).collect(rt.alloc())?;
    perform(&rt, words.as_slice())
}

/// Does what the words ask for.
fn perform(rt: &HostRuntime, words: &[String]) -> io::Result<ExitCode> {
    let [verb, rest @ ..] = words else {
        return refuse(rt);
    };
    match verb.as_str() {
        "bench" => bench::perform(rt, rest),
        "settings" => through::print_settings(rt, rest),
        "through" => through::perform(rt, rest),
        _ => refuse(rt),
    }
}

/// Says which words are asked for.
fn refuse(rt: &HostRuntime) -> io::Result<ExitCode> {
    println!(rt;
        "usage: loads bench KIND OCTETS DESTINATIONS LINKS COUNT [wide|largest], loads settings PORT, or loads through \
PORT COUNT OCTETS; a KIND is forward, burst, sctp, sctp-full, submit, local, acknowledgement, relay, relay-full, udts, \
udts-full, queue, failure, changeover, return, tick, status, entry, expiry, draft, check or boot"
    )?;
    Ok(ExitCode::FAILURE)
}
