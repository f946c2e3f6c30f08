//! Endpoints of SCTP under trial: sessions that were recorded with an SCTP of other authors, two endpoints under random
//! schedules, and datagrams that are harmed or made up; and a network of exchanges, whose links go over gates.
//!
//! Its arguments are the names of recorded sessions, files in `data/`, and how many schedules are played, 200 if that
//! is left out.
#![tactic(auto)]

mod dice;
mod gates;
mod harmed;
mod schedules;
mod sessions;

use std::{env, io};

/// How many schedules are played.
const SCHEDULES: u32 = 200;

fn main(rt: HostRuntime) -> io::Result<()> {
    let words: Vec<String> = env::args(&rt)?.skip(1).collect(rt.alloc())?;
    let mut schedules = SCHEDULES;
    for word in &words {
        match word.as_str().parse::<u32>() {
            Ok(count) => schedules = count,
            Err(_) => sessions::print_session(&rt, word.as_str())?,
        }
    }
    schedules::print_schedules(&rt, schedules)?;
    harmed::print_phases(&rt)?;
    gates::print_network(&rt)
}
