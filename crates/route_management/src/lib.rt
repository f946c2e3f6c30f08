//! RTPC, RTAC, RTRC and RSRT, transfer prohibited, allowed and restricted control and route set test control (Q.704
//! §13.2 to §13.5): what adjacent points are told of destinations, and what follows from what they tell.
#![tactic(auto)]

pub mod heard;
pub mod laws;
mod marks;
mod row;
pub mod told;
pub mod updates;

pub use heard::{Heard, RouteTest};
pub use told::{Told, status_to_advertise};
pub use updates::PendingUpdates;
