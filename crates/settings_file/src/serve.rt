//! The settings of a server: the keys of `[serve]` and the address of each link, read from a settings file, and
//! sentences that say what is wrong with them.

mod address;
pub mod capture;
pub mod console_place;
mod document;
mod endpoints;
pub mod fault;
pub(crate) mod faults;
mod hosts;
pub mod key;
mod key_rows;
mod keys;
pub mod laws;
pub mod log_keys;
pub(crate) mod paths;
mod remotes;
pub mod sctp;
mod sentences;
pub mod server;
mod times;

pub use capture::CaptureLimits;
pub use console_place::ConsolePlace;
pub(crate) use document::serve_in;
pub use document::{check_server, read, read_console, read_server};
pub use fault::ServeFault;
pub use key::ServeKey;
pub(crate) use keys::tick_ms;
pub use log_keys::{LogLeast, LogSettings};
pub use sctp::{Remote, SctpTimes};
pub use sentences::sentence;
pub use server::{Endpoint, ServeSettings};
