//! What a message costs an exchange: COUNT messages, whose signalling information fields have OCTETS octets, through
//! one with this many destinations and links. Count the instructions of two runs: their difference divided by that of
//! their COUNTs is what a message costs.

mod arguments;
mod end;
mod failure;
mod incoming;
mod making;
mod outage;
mod over_sctp;
mod peer;
mod route_changes;
mod side;
mod total;
mod traffic;
mod unitdata;

use crate::refuse;
use arguments::{Arguments, Kind};
use making::make;
use over_sctp::over_sctp;
use peer::Peer;
use std::alloc::Global;
use std::io;
use std::process::ExitCode;
use total::Total;
use traffic::carry;

/// Carries the messages that the words ask for, and prints how many frames went out with a checksum of their octets.
pub(crate) fn perform(rt: &HostRuntime, words: &[String]) -> io::Result<ExitCode> {
    match Arguments::read(words) {
        Some(arguments) => report(rt, total_of(rt.alloc(), &arguments)),
        None => refuse(rt),
    }
}

/// Makes the nodes, or carries the messages. None if memory ran out.
fn total_of(alloc: Global, arguments: &Arguments) -> Option<Total> {
    match arguments.kind {
        Kind::Make(making) => make(alloc, making, &arguments.shape, arguments.count),
        _ => carried(
            Peer::of_exchange_with(alloc, &arguments.shape)?,
            alloc,
            arguments,
        ),
    }
}

/// Carries the messages.
fn carried(mut peer: Peer, alloc: Global, arguments: &Arguments) -> Option<Total> {
    if let Kind::OverSctp(datagrams) = arguments.kind {
        return over_sctp(alloc, &mut peer, arguments, datagrams);
    }
    carry(&mut peer, arguments);
    Some(peer.total)
}

/// Prints what went out.
fn report(rt: &HostRuntime, total: Option<Total>) -> io::Result<ExitCode> {
    match total {
        Some(Total { frames, checksum }) => {
            println!(rt; "{frames} frames, checksum {checksum}")?;
            Ok(ExitCode::SUCCESS)
        }
        None => {
            println!(rt; "memory ran out")?;
            Ok(ExitCode::from(2))
        }
    }
}
