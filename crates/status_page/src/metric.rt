//! What is measured.

use crate::noticed::NoticeKind;
use served_link::{Counter, ManagementKind};

/// One thing that is measured.
#[derive(Clone, Copy)]
pub enum Metric {
    /// Of the node as a whole.
    Node(NodeMetric),
    /// Of each link.
    Link(LinkMetric),
    /// Of each set.
    Set(SetMetric),
    /// Of each destination.
    Destination(DestinationMetric),
    /// Of each route, a set that leads to a destination: whether messages take it.
    Route,
    /// Of each alarm: whether it is raised.
    Alarm,
}

/// What is measured of the node as a whole.
#[derive(Clone, Copy)]
pub enum NodeMetric {
    /// Its version.
    Build,
    /// Whole seconds since its start.
    Uptime,
    /// How many microseconds the longest turn of its loop took so far.
    LongestTurn,
    /// User messages that it may keep.
    PoolLimit,
    /// User messages that it keeps.
    Pool,
    /// User messages that are held.
    Held,
    /// Notices of a kind so far.
    Notices(NoticeKind),
    /// Whether a message may have been lost.
    LostAny,
    /// Whether messages of a flow may have gone out of order.
    LateAny,
    /// How often a message may have been lost.
    TimesLost,
    /// How often messages of a flow may have gone out of order.
    TimesLate,
    /// Messages that notices named as lost.
    MessagesLost,
    /// How often it wasn't known for sure what the other end has of a link.
    TimesBroken,
    /// How often a flow changed its link set, but away from its destination's own.
    TimesRerouted,
    /// Datagrams of links that came.
    DatagramsReceived,
    /// Datagrams of links that went out.
    DatagramsSent,
    /// Datagrams that came and are no link's.
    Strangers,
}

/// What is measured of each link.
#[derive(Clone, Copy)]
pub enum LinkMetric {
    /// Whether it is in service.
    InService,
    /// Whether it is down and its changeover isn't over.
    ChangingOver,
    /// Whether it is barred from opening.
    Barred,
    /// Messages of its queue that aren't confirmed.
    Waiting,
    /// For how many milliseconds it wasn't in service since the start.
    UnavailableTime,
    /// How often it was in service, and then wasn't.
    Unavailabilities,
    /// How many changeovers of it ended since the start.
    Changeovers,
    /// What was counted for it.
    Counted(Counter),
    /// Messages that came in with this service indicator.
    ServiceHeard(u8),
    /// Messages that went out with this service indicator.
    ServiceSent(u8),
    /// Management messages or link tests of a kind that came in.
    ManagementHeard(ManagementKind),
    /// Management messages or link tests of a kind that went out.
    ManagementSent(ManagementKind),
    /// The smoothed round trip of its association over SCTP, in milliseconds.
    RoundTrip,
    /// The retransmission timeout of its association over SCTP, in milliseconds.
    RetransmissionTimeout,
    /// The congestion window of its association over SCTP, in octets.
    CongestionWindow,
}

/// What is measured of each set.
#[derive(Clone, Copy)]
pub enum SetMetric {
    /// Whether a link of it is in service.
    Available,
    /// How many of its links are in service.
    LinksInService,
    /// For how many milliseconds none of its links was in service since the start.
    UnavailableTime,
    /// How often a link of it was in service, and then none was.
    Unavailabilities,
}

/// What is measured of each destination.
#[derive(Clone, Copy)]
pub enum DestinationMetric {
    /// Whether messages may go there.
    Accessible,
    /// Whether they go there by a restricted route.
    Restricted,
}
