//! The links of a node over SCTP in UDP (RFC 6951), by their gates: which link a datagram is for, what is told and
//! counted of what passes, when timers are due, and the rounds over the one socket of the node.
#![tactic(auto)]

pub mod allowance;
mod calling;
pub mod endpoint_settings;
mod hearing;
pub mod hosts;
pub mod keys;
pub mod laws;
pub mod links;
pub mod losing;
pub mod observer;
pub mod peers;
pub mod refusals;
pub mod screening;
pub mod setbacks;
pub mod sockets;
pub mod status;

pub use keys::Keys;
pub use links::SctpLinks;
pub use observer::Datagrams;
pub use peers::{Peer, link_of};
pub use sockets::SctpSockets;
