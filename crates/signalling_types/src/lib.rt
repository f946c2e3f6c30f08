//! The small types that every part of the node uses: messages and their sequence numbers, points and links, causes,
//! outcomes, notices and limits.
#![tactic(auto)]

pub mod cause;
pub mod limits;
pub mod message;
pub mod msu_ref;
pub mod notice;
pub mod number;
pub mod outcome;
pub mod point;
pub mod subsystem;

pub use cause::Cause;
pub use limits::Limits;
pub use message::Msu;
pub use msu_ref::MsuRef;
pub use notice::{ChangeoverTimer, FailureReason, FrameFault, LateTimer, Notice, Unbarring};
pub use number::Number24;
pub use outcome::Outcome;
pub use point::{Flow, LinkId, PointCode, SetId, Sls};
pub use subsystem::Ssn;
