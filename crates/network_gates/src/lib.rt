//! A network whose nodes have a gate for each of their links, of any number of nodes. What gates do about links is what
//! nodes of `network_datagrams` may do, so the promises of a network hold however the gates are called. The crate has
//! no code; docs/EXACTLY_ONCE.md explains it.
#![tactic(auto)]

pub mod laws;
