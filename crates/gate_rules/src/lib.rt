//! What gates do about links is what nodes of `node_rules` may do. So the promises over datagrams hold for two nodes
//! that share a link set and have a gate for each link of it, however these are called, and whatever further neighbours
//! each has. The crate has no code; docs/EXACTLY_ONCE.md explains it.
#![tactic(auto)]

pub mod laws;
