//! Any number of nodes with a gate for each link, and all packets that these ever put out, in one type.
#![tactic(auto)]

mod between;
mod booting;
mod call;
mod calling;
pub mod fault;
mod joining;
mod log;
pub mod making;
mod node;
mod node_making;
mod port;
mod reading;
pub mod world;

pub use call::Call;
pub use fault::WorldFault;
pub use log::Datagram;
pub use making::GateMaking;
pub use node_making::NodeMaking;
pub use world::World;
