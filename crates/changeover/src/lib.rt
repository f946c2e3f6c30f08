//! TCOC, changeover control (Q.704 §5, with the numbers of Q.2210): what becomes of the messages of a link that failed.
#![tactic(auto)]

pub mod beginning;
pub mod changeover;
pub mod completion;
pub mod laws;
mod standing;

pub use beginning::Beginning;
pub use changeover::Changeover;
pub use completion::{complete, count_in_doubt};
