//! The timers of a node (Q.703 §12.3, Q.704 §16.8), by name, in ticks.
#![tactic(auto)]

pub mod laws;
mod moments;
pub mod name;
mod places;
pub mod timers;
mod tree;

pub use name::{NodeCounts, RouteTimer, TimerName};
pub use timers::Timers;
