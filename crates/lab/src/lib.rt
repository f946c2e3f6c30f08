//! The lab: two nodes or more in one process, a script that says what happens to them, and what joins their links:
//! streams, or of two nodes gates whose datagrams go over UDP sockets of this machine (RFC 6951).
#![tactic(auto)]

mod bench;
mod carrying;
mod circuit;
mod circuits;
mod datagrams;
mod doing;
mod ends;
mod joining;
mod line;
mod memory;
mod network;
mod network_line;
mod network_run;
mod nodes;
mod run;
mod sockets;
mod wire;

pub use bench::Bench;
pub use carrying::{Carried, MOVE_READS, carry};
pub use datagrams::hearing::hear_all;
pub use datagrams::incoming::Incoming;
pub use datagrams::run_datagram_lab;
pub use joining::{JoinFault, Joiner};
pub use memory::{MemoryJoiner, MemoryStream};
pub use network::{NetworkFault, network_fault};
pub use network_run::run_network;
pub use run::{run_lab, run_pieces};
pub use sockets::Loopback;
