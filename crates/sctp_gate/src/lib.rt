//! The gate of a link: what joins an SCTP endpoint to the link of an exchange. It has no socket and no clock.
#![tactic(auto)]

mod bridge;
mod doing;
pub mod gate;
mod handing;
pub mod laws;
pub mod standing;
pub mod watch;

pub use gate::Gate;
pub use standing::Standing;
pub use watch::Watch;
