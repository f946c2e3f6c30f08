//! The abstract endpoint of an association (RFC 9260): what becomes of each packet, timer and call, rule by rule; and
//! its laws.
#![tactic(auto)]

pub mod laws;
pub mod limits;
pub mod loss;
pub mod phase;

pub use loss::Loss;
pub use phase::Phase;
