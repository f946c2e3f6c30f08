//! Two abstract exchanges that share a link set, with an endpoint of SCTP at each end of its links, and the network
//! between them. Each of their steps is a list of steps of `neighbour_rules`, so its promises hold over any network
//! that loses, doubles, reorders or delays datagrams, whatever further neighbours each has. The crate has no code;
//! docs/EXACTLY_ONCE.md explains it.
#![tactic(auto)]

pub mod laws;
