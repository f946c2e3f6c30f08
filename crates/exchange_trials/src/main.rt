//! `exchange_trials [SECTION [N]]`: exchanges that are tried from outside. What comes of them is judged by marks in
//! their messages and by the outcomes of their steps, and by no contract.
//!
//! Without a SECTION, or with `all`, it runs all of them; it fails if there is none of this name. N is how many runs of
//! each shape the section `networks` makes, and of each kind the section `mated`.
#![tactic(auto)]

mod dice;
mod harness;
mod networks;
mod node;
mod node_settings;
mod octets;
mod pairs;
mod rounds;
mod shape;
mod throws;

use std::process::ExitCode;
use std::{env, io};

/// So many runs of each shape of networks there are where no N says it.
const RUNS: u64 = 50;

fn main(rt: HostRuntime) -> io::Result<ExitCode> {
    let words: Vec<String> = env::args(&rt)?.skip(1).collect(rt.alloc())?;
    match words.first() {
        Some(section) => run(&rt, section.as_str(), count_of(words.get(1))),
        None => run(&rt, "all", RUNS),
    }
}

/// How many runs a word asks for.
fn count_of(word: Option<&String>) -> u64 {
    match word {
        Some(word) => word.as_str().parse::<u64>().unwrap_or(0),
        None => RUNS,
    }
}

/// Runs a section, or all. Fails if there is none of this name.
fn run(rt: &HostRuntime, section: &str, runs: u64) -> io::Result<ExitCode> {
    match section {
        "all" => {
            pairs::run(rt)?;
            networks::run(rt, runs)?;
            networks::run_mated(rt, runs)?;
            octets::run(rt)?;
        }
        "pairs" => pairs::run(rt)?,
        "networks" => networks::run(rt, runs)?,
        "mated" => networks::run_mated(rt, runs)?,
        "octets" => octets::run(rt)?,
        _ => {
            println!(rt; "no section {section}")?;
            return Ok(ExitCode::FAILURE);
        }
    }
    Ok(ExitCode::SUCCESS)
}
