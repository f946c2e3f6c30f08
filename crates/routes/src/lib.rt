//! TSRC, signalling routing control (Q.704 §2.3, §4.2): link sets, the routes over them, which link a message takes,
//! and what is known of each route.
#![tactic(auto)]

mod flow_links;
mod known;
pub mod laws;
pub mod link_group;
pub mod link_set;
pub mod route;
pub mod route_facts;
pub mod routes;

pub use link_group::{LinkGroup, Member};
pub use link_set::LinkSet;
pub use route::{Route, RouteStatus};
pub use route_facts::RouteFacts;
pub use routes::Routes;
