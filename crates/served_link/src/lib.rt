//! A served link without its socket. Octets that come are cut into frames, which are handed in; frames are taken while
//! there is room, and written in as many pieces as it takes. Also when ticks are due, when a connection is tried again,
//! and the counters of the link. And what the log of a served node tells of links, sets and destinations: their states,
//! as an operator sees them, which alarms are raised, the lines of what changed, and how a line is written.
#![tactic(auto)]

pub mod alarm;
pub mod alarm_laws;
pub mod alarm_text;
pub mod alarms;
pub mod association;
pub mod association_status;
pub mod counter;
pub mod counters;
pub mod datagrams;
pub mod destination_states;
mod filling;
mod frame;
pub mod laws;
pub mod line;
pub mod line_form;
pub mod link_failure;
pub mod log_laws;
pub mod log_lines;
pub mod management_kind;
pub mod messages;
pub mod outgoing;
pub mod pool_level;
mod reading;
pub mod retrying;
pub mod row;
pub mod service_states;
pub mod setback;
pub mod severity;
pub mod shown_states;
pub mod ticking;
pub mod times;
pub mod unavailable;
pub mod utc;
pub mod watch;

pub use alarm::Alarm;
pub use alarm_text::{alarm_name, seconds_text};
pub use alarms::{AlarmChange, Alarms};
pub use association::{Association, Broken};
pub use association_status::AssociationStatus;
pub use counter::Counter;
pub use counters::Counters;
pub use datagrams::{DATAGRAMS_OCTETS, DatagramCounters};
pub use destination_states::{Access, DestinationState, DestinationStates};
pub use line::{LINE_OCTETS, write_counter};
pub use line_form::{FORMED_OCTETS, FormedLine, LineForm};
pub use link_failure::{FailingTimer, LinkFailure, failure_text, timer_suffix};
pub use log_lines::{
    CHANGE_OCTETS, ChangeLine, alarm_change_line, destination_change_line, link_change_line,
    set_change_line,
};
pub use management_kind::ManagementKind;
pub use messages::{LinkMessages, MessageCounts};
pub use outgoing::OUTPUT_OCTETS;
pub use pool_level::is_pool_high;
pub use retrying::{LONGEST_WAIT, Retry};
pub use row::LinkCounters;
pub use service_states::{ServiceState, ServiceStates, StateChange, StateSince};
pub use setback::Setback;
pub use severity::Severity;
pub use shown_states::{destination_state, failing_timer, service_state};
pub use ticking::{MOST_TICKS, TickClock};
pub use unavailable::{Unavailable, UnavailableTimes};
pub use watch::{Unwatched, Watch};
