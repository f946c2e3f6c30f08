//! Parts of a node at their limits: stores, the numbers of a link's messages, timers, holds, codes and routes. The rows
//! are about numbers that wrap to 0, the largest windows, pools and sets, both kinds of stores, the order of what is at
//! its limit, and names that a node doesn't have. That a call does what its definition says is proved in its crate.

pub(crate) mod flow_rows;
pub(crate) mod route_rows;
pub(crate) mod store_rows;
pub(crate) mod timer_rows;

/// What parts the calls of a row.
const PARTING: &str = "; ";
