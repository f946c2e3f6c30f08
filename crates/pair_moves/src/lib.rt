//! "Exactly once" and "Order" between two nodes: theorems over the moves that queues, Held, holds and frames in flight
//! make at the two ends of their links. The crate has no code; docs/EXACTLY_ONCE.md explains it.
#![tactic(auto)]

pub mod laws;
