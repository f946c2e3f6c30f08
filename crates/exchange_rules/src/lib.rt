//! The abstract exchange: what becomes of each event, rule by rule, over queues of any kind; and its laws.
#![tactic(auto)]

pub mod laws;
pub mod wants;

pub use wants::Wants;
