//! The exchanges of a network, any number of them, and the frames in flight between them, in one type.
#![tactic(auto)]

mod arrival;
mod between;
mod books;
mod bringing;
mod counting;
pub mod doing;
pub mod fault;
mod flight;
mod hearing;
mod joining;
pub mod network;
mod node;
mod outside;
mod reaching;
mod reading;
mod restarting;
mod site;

pub use arrival::Arrival;
pub use doing::Doing;
pub use fault::NetworkFault;
pub use network::Network;
