//! The status page of a node: which request over HTTP gets which page, and what the pages hold, its metrics, its state
//! and the page that a person reads. It does no input or output.
#![tactic(auto)]

mod alarm_labels;
mod alarm_sampling;
pub mod answer;
pub mod asking;
pub mod content;
mod counted;
pub mod facts;
pub mod family;
pub mod kind;
pub mod labels;
mod link_state;
mod link_values;
pub mod measuring;
mod members;
mod message_kinds;
pub mod metric;
mod metrics;
pub mod names;
pub mod noticed;
pub mod page;
pub mod patience;
mod places;
mod reasons;
mod route_values;
mod sample;
mod sampling;
pub mod service;
mod set_values;
mod state;
pub mod text;
pub mod times;

pub use answer::Answer;
pub use asking::answer_request;
pub use content::StatusPage;
pub use facts::Facts;
pub use measuring::kept_messages;
pub use names::PageNames;
pub use noticed::{NoticeKind, NoticeLog};
pub use page::{Content, Page};
pub use patience::{Allowance, PAGE_CLIENTS, Patience, limits};
pub use service::PageService;
pub use times::Times;
