//! A network of abstract exchanges, of any number, with an endpoint of SCTP at each end of each link, and the network
//! between them. Each of their steps is a list of steps of `network_rules`, so its laws hold over any network that
//! loses, doubles, reorders or delays datagrams. The crate has no code; docs/EXACTLY_ONCE.md explains it.
#![tactic(auto)]

pub mod laws;
