//! Numbered lists of messages under fixed limits: the trait `Lanes`, and `CellPool`, over a row of cells that each name
//! the next one of their list.
#![tactic(auto)]

mod cell_links;
mod cell_number;
mod chain;
pub mod lanes;
pub mod laws;
mod linked_lists;
pub mod linked_pool;
pub mod pick;

pub use lanes::Lanes;
pub use linked_pool::CellPool;
pub use pick::{Pick, UserMessages};
