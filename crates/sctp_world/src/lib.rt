//! Two endpoints and the network between them, in one type: all datagrams that either ever put out.
#![tactic(auto)]

mod log;
mod messages;
mod site;
mod step;
mod text;
pub mod world;

pub use log::{Datagram, Entry, Kept};
pub use messages::Messages;
pub use step::{Doing, End};
pub use text::Text;
pub use world::{Making, World};
