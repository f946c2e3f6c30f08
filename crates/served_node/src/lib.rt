//! A served node, without the connections of its links: the node, the sockets of a poll, and those who are told what
//! happens in it, which are its log, its counters, its capture and the clients of its console; and what such a client
//! is answered (`console_session`).
#![tactic(auto)]

pub mod capture_place;
pub mod captured_links;
mod changes;
mod client_socket;
pub mod clients;
pub mod console_listener;
pub mod console_session;
pub mod console_stream;
pub mod datagram_socket;
pub mod dropping;
pub mod fault;
pub mod held_file;
mod journal;
mod line_kind;
pub mod line_limits;
pub mod listener;
pub mod listing_laws;
pub mod log;
mod log_output;
mod missed_notices;
pub mod naming;
pub mod node;
pub mod node_watch;
mod noticing;
pub mod observers;
mod order_line;
mod packets;
mod readiness;
pub mod ring_files;
pub mod socket;
pub mod socket_file;
mod telling;

pub use capture_place::{CaptureFault, CapturePlace};
pub use captured_links::{CaptureOrder, CapturedLinks};
pub use clients::ConsoleClients;
pub use console_listener::ConsoleListener;
pub use console_stream::ConsoleStream;
pub use datagram_socket::{DatagramSocket, Received};
pub use dropping::{DroppingLog, LogFault};
pub use fault::OpenFault;
pub use held_file::HeldFile;
pub use listener::Listener;
pub use log::{Log, OneLine};
pub use naming::SocketName;
pub use node::Node;
pub use node_watch::NodeWatch;
pub use observers::{FileCapture, FrameObserver, Observers};
pub use socket::{Progress, read_some, unmoved, write_some};
pub use socket_file::SocketFile;
