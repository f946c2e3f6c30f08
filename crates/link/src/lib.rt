//! Link alignment (RFC 4165 §4.1.3) as a table of states and inputs, and the sequence numbers of a link (§2.2): which
//! message goes out next, and what a frame of the peer confirms.
#![tactic(auto)]

pub mod action;
pub mod alignment;
pub mod fault;
pub mod laws;
pub mod period;
pub mod sequence;

pub use action::{Action, Input, LinkTimer, Transition};
pub use alignment::Alignment;
pub use fault::SeqFault;
pub use period::Period;
pub use sequence::Sequence;
