//! M2PA frames (RFC 4165 §2): read, written, and cut out of a stream of octets.
#![tactic(auto)]

pub mod frame;
pub mod framer;
pub mod laws;
mod layout;
mod reading;
pub mod status;
mod window;
mod writing;

pub use frame::{BUFFER_OCTETS, Frame};
pub use framer::{Framer, Next};
pub use reading::decode;
pub use signalling_types::FrameFault;
pub use status::LinkStatus;
pub use writing::encode;
