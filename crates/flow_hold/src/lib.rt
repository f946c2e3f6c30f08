//! The holds of TCOC, TCBC and TCRC (Q.704 §5.4, §6.3, §8.2): which flows are held, and by which procedures. A held
//! flow sends nothing.
#![tactic(auto)]

pub mod holds;
pub mod laws;
pub mod procedure;
mod row;
mod table;

pub use holds::Holds;
pub use procedure::Procedure;
