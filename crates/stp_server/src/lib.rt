//! A node on sockets: its links over TCP and over SCTP, its status page and the clients of that, the server that owns
//! these, its clock, and the loop that serves it.
#![tactic(auto)]

mod failure;
pub mod served_page;
mod server;
mod serving;
pub mod tcp_links;

pub use failure::ServeFailure;
pub use served_node::{CaptureFault, FileCapture, LogFault, OpenFault};
pub use served_page::ServedPage;
pub use server::{Places, Server};
pub use serving::serve;
pub use tcp_links::TcpLinks;
