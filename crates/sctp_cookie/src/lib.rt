//! The tags of an SCTP endpoint, and its state cookie with the code that authenticates it.
#![tactic(auto)]

pub mod cookie;
pub mod hmac;
pub mod laws;
mod layout;
pub mod nonces;
mod permutation;
mod signing;
pub mod tags;

pub use cookie::{COOKIE_OCTETS, Cookie};
pub use nonces::nonce;
pub use tags::Tags;
