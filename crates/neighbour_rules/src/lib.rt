//! Two nodes that share a link set, whatever other neighbours each has, with the frames in flight between them.
#![tactic(auto)]

pub mod laws;
