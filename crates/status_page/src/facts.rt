//! What is known of a served node beside its exchange.

use crate::noticed::NoticeLog;
use crate::times::Times;
use served_link::{Alarms, AssociationStatus, Counters, ServiceStates, UnavailableTimes};
use settings::PointFormat;

/// What the pages show of a served node beside its exchange.
#[derive(Clone, Copy)]
pub struct Facts<'a> {
    /// What was counted of its links.
    pub counters: &'a Counters,
    /// What was seen of its notices.
    pub notices: &'a NoticeLog,
    /// Which alarms are raised.
    pub alarms: &'a Alarms,
    /// The states of its links, as they were last seen.
    pub states: &'a ServiceStates,
    /// For how long each link was unavailable.
    pub link_times: &'a UnavailableTimes,
    /// For how long each set was unavailable.
    pub set_times: &'a UnavailableTimes,
    /// How the association of each link does, in the order of the settings: None unless it is over SCTP, and up.
    pub associations: &'a [Option<AssociationStatus>],
    /// How point codes are shown.
    pub points: PointFormat,
    /// How long it has run, and how long it was busy at once.
    pub times: Times,
}
