//! Packets that go out: the chunks that an endpoint sends, bundled into packets (RFC 9260 §6.10), and what takes them.
#![tactic(auto)]

pub mod address;
pub mod addresses;
pub mod chunks;
pub mod draft;
mod gaps;
pub mod packets;
pub mod reply;
pub mod settings;
pub mod watch;
pub mod way;

pub use address::Address;
pub use addresses::Addresses;
pub use chunks::Chunks;
pub use draft::Draft;
pub use reply::Reply;
pub use settings::Settings;
pub use watch::{Event, Watch};
pub use way::Way;
