//! What families do over time, and the units of their values.

ghost use Rattle.std.specs.Prelude.{◌≡◌, ◌≤◌, length};
ghost use Rattle.status_page.specs.Families.{exponent_of, kind_of};

use crate::family::Family;
use crate::kind::Kind;

impl Family {
    /// What the family does over time.
    pub fn kind(self) -> Kind
        ensures { result ≡ kind_of self }
    {
        match self {
            Family::Build
            | Family::Uptime
            | Family::LongestTurn
            | Family::PoolLimit
            | Family::Pool
            | Family::Held
            | Family::Flags
            | Family::Alarms
            | Family::Accessible
            | Family::Restricted
            | Family::InUse
            | Family::SetAvailable
            | Family::SetLinks
            | Family::InService
            | Family::ChangingOver
            | Family::Barred
            | Family::Queue
            | Family::RoundTrip
            | Family::RetransmissionTimeout
            | Family::CongestionWindow => Kind::Gauge,
            Family::Notices
            | Family::Raised
            | Family::Lost
            | Family::Broken
            | Family::Rerouted
            | Family::DatagramsReceived
            | Family::DatagramsSent
            | Family::Strangers
            | Family::SetUnavailable
            | Family::SetUnavailabilities
            | Family::LinkUnavailable
            | Family::LinkUnavailabilities
            | Family::LinkChangeovers
            | Family::FramesReceived
            | Family::OctetsReceived
            | Family::FramesSent
            | Family::OctetsSent
            | Family::Forwarded
            | Family::Delivered
            | Family::MessagesReceived
            | Family::MessagesSent
            | Family::ManagementReceived
            | Family::ManagementSent
            | Family::Refused
            | Family::Failures
            | Family::Retries
            | Family::InitsRefused
            | Family::TriesFailed
            | Family::Retransmissions => Kind::Counter,
        }
    }

    /// What is written behind each value of the family: nothing, or the exponent of one that is in smaller units than its
    /// name says.
    pub fn exponent(self) -> &'static str
        ensures exponent { result.now ≡ exponent_of self }
        ensures fits { length result.now ≤ 3 }
    {
        match self {
            Family::LongestTurn => "e-6",
            Family::SetUnavailable
            | Family::LinkUnavailable
            | Family::RoundTrip
            | Family::RetransmissionTimeout => "e-3",
            Family::Build
            | Family::Uptime
            | Family::PoolLimit
            | Family::Pool
            | Family::Held
            | Family::Notices
            | Family::Flags
            | Family::Raised
            | Family::Lost
            | Family::Broken
            | Family::Rerouted
            | Family::Alarms
            | Family::DatagramsReceived
            | Family::DatagramsSent
            | Family::Strangers
            | Family::Accessible
            | Family::Restricted
            | Family::InUse
            | Family::SetAvailable
            | Family::SetLinks
            | Family::SetUnavailabilities
            | Family::InService
            | Family::ChangingOver
            | Family::Barred
            | Family::LinkUnavailabilities
            | Family::LinkChangeovers
            | Family::Queue
            | Family::FramesReceived
            | Family::OctetsReceived
            | Family::FramesSent
            | Family::OctetsSent
            | Family::Forwarded
            | Family::Delivered
            | Family::MessagesReceived
            | Family::MessagesSent
            | Family::ManagementReceived
            | Family::ManagementSent
            | Family::Refused
            | Family::Failures
            | Family::Retries
            | Family::InitsRefused
            | Family::TriesFailed
            | Family::CongestionWindow
            | Family::Retransmissions => "",
        }
    }
}
