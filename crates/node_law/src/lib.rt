//! The node law, and the sums from end to end, of networks of `network_rules` of any shape.
#![tactic(auto)]

pub mod laws;
