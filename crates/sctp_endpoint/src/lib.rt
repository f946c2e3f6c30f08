//! The endpoint of an SCTP association (RFC 9260).
#![tactic(auto)]

mod beginnings;
pub mod endpoint;
pub mod laws;
mod peer;
pub mod refusal;

pub use endpoint::Endpoint;
pub use refusal::Refusal;
pub use sctp_bundling::{Address, Addresses, Event, Settings, Watch};
