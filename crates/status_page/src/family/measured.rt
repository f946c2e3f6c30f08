//! The metrics of families.

ghost use Rattle.std.specs.Prelude.{◌≡◌};
ghost use Rattle.status_page.specs.Families.{metrics_of};

use crate::family::Family;
use crate::message_kinds::{MANAGEMENT_HEARD, MANAGEMENT_SENT, SERVICES_HEARD, SERVICES_SENT};
use crate::metric::{DestinationMetric, LinkMetric, Metric, NodeMetric, SetMetric};
use crate::reasons::{FAILURES, INITS_REFUSED, NOTICES, REFUSED, TRIES_FAILED};
use served_link::Counter;

impl Family {
    /// The metrics of the family, in the order in which they are shown.
    pub fn metrics(self) -> &'static [Metric]
        ensures { result.now ≡ metrics_of self }
    {
        match self {
            Family::Build => &[Metric::Node(NodeMetric::Build)],
            Family::Uptime => &[Metric::Node(NodeMetric::Uptime)],
            Family::LongestTurn => &[Metric::Node(NodeMetric::LongestTurn)],
            Family::PoolLimit => &[Metric::Node(NodeMetric::PoolLimit)],
            Family::Pool => &[Metric::Node(NodeMetric::Pool)],
            Family::Held => &[Metric::Node(NodeMetric::Held)],
            Family::Notices => &NOTICES,
            Family::Flags => &[
                Metric::Node(NodeMetric::LostAny),
                Metric::Node(NodeMetric::LateAny),
            ],
            Family::Raised => &[
                Metric::Node(NodeMetric::TimesLost),
                Metric::Node(NodeMetric::TimesLate),
            ],
            Family::Lost => &[Metric::Node(NodeMetric::MessagesLost)],
            Family::Broken => &[Metric::Node(NodeMetric::TimesBroken)],
            Family::Rerouted => &[Metric::Node(NodeMetric::TimesRerouted)],
            Family::Alarms => &[Metric::Alarm],
            Family::DatagramsReceived => &[Metric::Node(NodeMetric::DatagramsReceived)],
            Family::DatagramsSent => &[Metric::Node(NodeMetric::DatagramsSent)],
            Family::Strangers => &[Metric::Node(NodeMetric::Strangers)],
            Family::Accessible => &[Metric::Destination(DestinationMetric::Accessible)],
            Family::Restricted => &[Metric::Destination(DestinationMetric::Restricted)],
            Family::InUse => &[Metric::Route],
            Family::SetAvailable => &[Metric::Set(SetMetric::Available)],
            Family::SetLinks => &[Metric::Set(SetMetric::LinksInService)],
            Family::SetUnavailable => &[Metric::Set(SetMetric::UnavailableTime)],
            Family::SetUnavailabilities => &[Metric::Set(SetMetric::Unavailabilities)],
            Family::InService => &[Metric::Link(LinkMetric::InService)],
            Family::ChangingOver => &[Metric::Link(LinkMetric::ChangingOver)],
            Family::Barred => &[Metric::Link(LinkMetric::Barred)],
            Family::LinkUnavailable => &[Metric::Link(LinkMetric::UnavailableTime)],
            Family::LinkUnavailabilities => &[Metric::Link(LinkMetric::Unavailabilities)],
            Family::LinkChangeovers => &[Metric::Link(LinkMetric::Changeovers)],
            Family::Queue => &[Metric::Link(LinkMetric::Waiting)],
            Family::FramesReceived => &[Metric::Link(LinkMetric::Counted(Counter::FramesIn))],
            Family::OctetsReceived => &[Metric::Link(LinkMetric::Counted(Counter::OctetsIn))],
            Family::FramesSent => &[Metric::Link(LinkMetric::Counted(Counter::FramesOut))],
            Family::OctetsSent => &[Metric::Link(LinkMetric::Counted(Counter::OctetsOut))],
            Family::Forwarded => &[Metric::Link(LinkMetric::Counted(Counter::Forwarded))],
            Family::Delivered => &[Metric::Link(LinkMetric::Counted(Counter::Delivered))],
            Family::MessagesReceived => &SERVICES_HEARD,
            Family::MessagesSent => &SERVICES_SENT,
            Family::ManagementReceived => &MANAGEMENT_HEARD,
            Family::ManagementSent => &MANAGEMENT_SENT,
            Family::Refused => &REFUSED,
            Family::Failures => &FAILURES,
            Family::Retries => &[Metric::Link(LinkMetric::Counted(Counter::Retries))],
            Family::InitsRefused => &INITS_REFUSED,
            Family::TriesFailed => &TRIES_FAILED,
            Family::RoundTrip => &[Metric::Link(LinkMetric::RoundTrip)],
            Family::RetransmissionTimeout => &[Metric::Link(LinkMetric::RetransmissionTimeout)],
            Family::CongestionWindow => &[Metric::Link(LinkMetric::CongestionWindow)],
            Family::Retransmissions => {
                &[Metric::Link(LinkMetric::Counted(Counter::Retransmissions))]
            }
        }
    }
}
