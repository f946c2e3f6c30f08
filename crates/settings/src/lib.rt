//! The settings of a node: as they were written, their faults, and the rows of those that have none; a draft is
//! checked, and settings without a fault are kept and read. And point codes as an operator writes them: as numbers, or
//! in three parts.
#![tactic(auto)]

mod changes;
mod check;
pub mod destination_row;
mod destinations;
mod digits;
pub mod draft;
mod facing;
pub mod fault;
mod faults;
mod kept_name;
pub mod key;
pub mod link_row;
mod links;
mod names;
mod naming;
mod numbers;
pub mod point;
pub mod points;
pub mod set_row;
mod sets;
pub mod settings;
mod sharing;
pub mod timer_ticks;
mod timers;
pub mod title_change;
mod title_digits;
pub mod title_row;
mod titles;

pub use destination_row::DestinationRow;
pub use draft::{
    ChangeDraft, DestinationDraft, Draft, LinkDraft, LinkTestsDraft, SetDraft, TimersDraft,
    TitleDraft,
};
pub use fault::{DraftFault, FaultKind};
pub use faults::{all_faults, all_faults_begin};
pub use key::{Key, TimerKey};
pub use link_row::LinkRow;
pub use point::{POINT_OCTETS, PointFormat, parse_point, point_text};
pub use set_row::SetRow;
pub use settings::Settings;
pub use signalling_types::{
    Cause, ChangeoverTimer, FailureReason, Flow, FrameFault, LateTimer, Limits, LinkId, Msu,
    MsuRef, Notice, Outcome, PointCode, SetId, Sls, Ssn, Unbarring,
};
pub use timer_ticks::{LinkTestTicks, TimerTicks};
pub use title_change::TitleChange;
pub use title_row::{TitleRoute, TitleRow};
