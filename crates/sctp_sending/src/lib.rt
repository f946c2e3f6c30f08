//! What an end of an SCTP association sends, and what of it is confirmed, named, lost and sent again.
#![tactic(auto)]

pub mod acknowledgement;
pub mod bounds;
mod cell;
pub mod confirmation;
mod congestion;
pub mod data;
pub mod laws;
mod marks;
pub mod message;
mod named;
mod outbox;
mod ring;
mod round_trips;
pub mod sender;
mod tally;
pub mod timed;

pub use acknowledgement::Acknowledgement;
pub use bounds::Bounds;
pub use confirmation::Confirmation;
pub use data::Data;
pub use message::Message;
pub use sender::Sender;
