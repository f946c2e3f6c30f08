//! Two exchanges, with the frames in flight between them.
#![tactic(auto)]

pub mod laws;
