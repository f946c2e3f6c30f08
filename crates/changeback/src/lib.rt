//! TCBC and TCRC, changeback and controlled rerouting control (Q.704 §6, §8): which flows change their link when a link
//! enters service or a route gets another status, what holds them until their old link is done, and the codes of
//! changeback declarations.
#![tactic(auto)]

pub mod changeback;
pub mod laws;
pub mod rerouting;
pub mod returning;
mod set_codes;
mod set_pairs;

pub use changeback::Changeback;
pub use rerouting::reroute;
pub use returning::{hold_changes, losing};
