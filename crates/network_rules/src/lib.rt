//! A network of abstract exchanges, of any number and joined by links in any shape: each two nodes that share a link
//! set are a pair of `neighbour_rules`, so they promise each other the same; and from end to end each message is
//! accounted for. The crate has no code; docs/EXACTLY_ONCE.md tells it.
#![tactic(auto)]

pub mod laws;
