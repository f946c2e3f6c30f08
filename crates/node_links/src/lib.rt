//! TLAC and TSRC, link availability and signalling routing control (Q.704 §3.2, §4.2): the state of each link of a
//! node, and the routes that its links open.
#![tactic(auto)]

pub mod laws;
pub mod link_state;
pub mod node_links;

pub use link_state::LinkState;
pub use node_links::NodeLinks;
