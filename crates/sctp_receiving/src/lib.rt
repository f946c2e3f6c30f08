//! The receiving half of an association (RFC 9260 §6): DATA in the order of TSNs, what is held until the chunks before
//! it come, fragments put together, and what a SACK says.
#![tactic(auto)]

pub(crate) mod assembly;
pub mod block;
pub mod laws;
pub mod limits;
pub mod piece;
pub(crate) mod place;
pub mod receiver;
pub mod standing;
pub mod told;
pub mod violation;

pub use block::Block;
pub use piece::Piece;
pub use receiver::Receiver;
pub use standing::Standing;
pub use told::Told;
pub use violation::Violation;
