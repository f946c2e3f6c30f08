//! Each message once, over a network of any shape: theorems over the moves that nodes and the ends of their links make.
//! A changeover's order and answer may go by any way. The crate has no code.
#![tactic(auto)]

pub mod laws;
