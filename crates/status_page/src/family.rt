//! The families of metrics.

mod help;
mod kinds;
mod measured;
mod naming;

/// Octets of a family's name, at most.
pub const NAME_OCTETS: usize = 40;

/// Octets of what is said of a family, at most.
pub const HELP_OCTETS: usize = 120;

/// Metrics of one name.
#[derive(Clone, Copy)]
pub enum Family {
    /// The version of the program.
    Build,
    /// How long the node has run.
    Uptime,
    /// How long the longest turn of its loop took so far.
    LongestTurn,
    /// How many user messages the node may keep.
    PoolLimit,
    /// How many user messages it keeps.
    Pool,
    /// User messages that are held.
    Held,
    /// Notices so far, by kind.
    Notices,
    /// Whether each flag is raised.
    Flags,
    /// How often each flag was raised.
    Raised,
    /// Messages that notices named as lost.
    Lost,
    /// How often it wasn't known for sure what the other end has of a link.
    Broken,
    /// How often a flow changed its link set, but away from its destination's own.
    Rerouted,
    /// Whether each alarm is raised.
    Alarms,
    /// Datagrams of links that came.
    DatagramsReceived,
    /// Datagrams of links that went out.
    DatagramsSent,
    /// Datagrams that came and are no link's.
    Strangers,
    /// Whether messages may go to each destination.
    Accessible,
    /// Whether they go there by a restricted route.
    Restricted,
    /// Whether the messages to each destination take each of its sets.
    InUse,
    /// Whether a link of each set is in service.
    SetAvailable,
    /// How many links of each set are in service.
    SetLinks,
    /// For how long each set was unavailable.
    SetUnavailable,
    /// How often each set became unavailable.
    SetUnavailabilities,
    /// Whether each link is in service.
    InService,
    /// Whether the changeover of each link isn't over.
    ChangingOver,
    /// Whether each link is barred from opening.
    Barred,
    /// For how long each link was unavailable.
    LinkUnavailable,
    /// How often each link became unavailable.
    LinkUnavailabilities,
    /// How many changeovers of each link ended.
    LinkChangeovers,
    /// Messages of each link that aren't confirmed.
    Queue,
    /// Frames that came in.
    FramesReceived,
    /// Octets of these.
    OctetsReceived,
    /// Frames that went out.
    FramesSent,
    /// Octets of these.
    OctetsSent,
    /// User messages that were sent on.
    Forwarded,
    /// Messages that were for this node.
    Delivered,
    /// Messages that came in, by service indicator.
    MessagesReceived,
    /// Messages that went out, by service indicator.
    MessagesSent,
    /// Management messages and link tests that came in, by kind.
    ManagementReceived,
    /// Management messages and link tests that went out, by kind.
    ManagementSent,
    /// Frames that were refused, by cause.
    Refused,
    /// Failures of links, by reason.
    Failures,
    /// Connections that were tried again.
    Retries,
    /// INITs that were refused, by reason.
    InitsRefused,
    /// Tries that failed, by reason.
    TriesFailed,
    /// The smoothed round trip of each link's association.
    RoundTrip,
    /// The retransmission timeout of each link's association.
    RetransmissionTimeout,
    /// The congestion window of each link's association.
    CongestionWindow,
    /// Chunks that each link's associations sent again.
    Retransmissions,
}

impl Family {
    /// All families, in the order in which they are shown.
    pub const ALL: [Family; 49] = [
        Family::Build,
        Family::Uptime,
        Family::LongestTurn,
        Family::PoolLimit,
        Family::Pool,
        Family::Held,
        Family::Notices,
        Family::Flags,
        Family::Raised,
        Family::Lost,
        Family::Broken,
        Family::Rerouted,
        Family::Alarms,
        Family::DatagramsReceived,
        Family::DatagramsSent,
        Family::Strangers,
        Family::Accessible,
        Family::Restricted,
        Family::InUse,
        Family::SetAvailable,
        Family::SetLinks,
        Family::SetUnavailable,
        Family::SetUnavailabilities,
        Family::InService,
        Family::ChangingOver,
        Family::Barred,
        Family::LinkUnavailable,
        Family::LinkUnavailabilities,
        Family::LinkChangeovers,
        Family::Queue,
        Family::FramesReceived,
        Family::OctetsReceived,
        Family::FramesSent,
        Family::OctetsSent,
        Family::Forwarded,
        Family::Delivered,
        Family::MessagesReceived,
        Family::MessagesSent,
        Family::ManagementReceived,
        Family::ManagementSent,
        Family::Refused,
        Family::Failures,
        Family::Retries,
        Family::InitsRefused,
        Family::TriesFailed,
        Family::RoundTrip,
        Family::RetransmissionTimeout,
        Family::CongestionWindow,
        Family::Retransmissions,
    ];
}
