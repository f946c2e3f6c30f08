//! The node as a program: `stp run` runs the script on standard input, `stp check` checks settings, `stp lab` and `stp
//! lab-udp` run the lab script on standard input on two nodes (`stp lab` also on more), `stp serve` serves a node on
//! the network, and `stp tell` calls its console. `stp help` and `stp version` are about the program.
#![tactic(auto)]

use program::run_on_machine;
use std::process::ExitCode;

fn main(rt: HostRuntime) -> ExitCode {
    run_on_machine(&rt)
}
