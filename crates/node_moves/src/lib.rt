//! Each event of a node, in a network of any shape, is a list of moves.
#![tactic(auto)]

pub mod laws;
