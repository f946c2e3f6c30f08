//! The exchange: the links, queues and messages of one node, as a machine that does no input or
//! output. Each call is one atomic step.
#![tactic(auto)]

pub mod event;
pub mod exchange;
pub mod frame_text;
pub mod memory;
mod reroutings;
mod unequipped;
pub mod view;

pub use cell_pool::Pick;
pub use event::{Answer, Call, Event, Order, TitleDigits};
pub use exchange::{Exchange, LinkWays};
pub use exchange_rules::Wants;
pub use frame_text::{FrameText, LONGEST_FRAME};
pub use m2pa_codec::{BUFFER_OCTETS, Frame, Framer, Next, decode};
pub use memory::NoMemory;
pub use mtp3_codec::Label;
pub use routes::RouteStatus;
pub use sccp_relay::{ProhibitedSubsystem, Subsystem, TitleKey, Titles};
pub use settings::{
    Cause, ChangeDraft, ChangeoverTimer, DestinationDraft, Draft, DraftFault, FailureReason,
    FaultKind, FrameFault, Key, LateTimer, Limits, LinkDraft, LinkId, Msu, MsuRef, Notice, Outcome,
    PointCode, SetDraft, SetId, Settings, Sls, Ssn, TimersDraft, TitleChange, TitleDraft,
    TitleRoute, TitleRow, Unbarring,
};
pub use view::{LinkStanding, LinkView, NewNotices, Obstacle, RouteView};
