//! What is said of families.

ghost use Rattle.std.specs.Prelude.{◌≡◌, ◌≤◌, length};
ghost use Rattle.status_page.specs.Families.{family_help};

use crate::family::{Family, HELP_OCTETS};

impl Family {
    /// What is said of the family.
    pub fn help(self) -> &'static str
        ensures help { result.now ≡ family_help self }
        ensures fits { length result.now ≤ HELP_OCTETS }
    {
        match self {
            Family::Build => "The version of the program; the value is always 1.",
            Family::Uptime => "Whole seconds since the start of the node.",
            Family::LongestTurn =>
                "How long the longest turn of the node's loop took; what comes meanwhile waits.",
            Family::PoolLimit => "User messages that the node may keep.",
            Family::Pool =>
                "User messages that the node keeps: of links those that aren't confirmed, and those held.",
            Family::Held => "User messages that are held until a flow may go on.",
            Family::Notices => "Notices since the start; missed are those whose kind nobody saw.",
            Family::Flags =>
                "1 if the flag is raised: a message may be lost, or may have come late.",
            Family::Raised => "How often the flag was raised.",
            Family::Lost => "Messages that notices named as lost.",
            Family::Broken =>
                "Changeovers of which it isn't known for sure what the peer has of the link.",
            Family::Rerouted =>
                "How often a flow changed its link set, but away from its destination's own.",
            Family::Alarms =>
                "1 if the alarm is raised, else 0; of destinations only those that are raised.",
            Family::DatagramsReceived => "Datagrams of links that came.",
            Family::DatagramsSent => "Datagrams of links that went out.",
            Family::Strangers => "Datagrams that came and are no link's; they get no answer.",
            Family::Accessible =>
                "1 if messages may go to the destination, 0 if each route there is prohibited or out of service.",
            Family::Restricted =>
                "1 if messages go to the destination by a restricted route, else 0.",
            Family::InUse =>
                "1 if messages to the destination take the set, 0 if it leads there and they don't.",
            Family::SetAvailable => "1 if a link of the set is in service, else 0.",
            Family::SetLinks => "How many links of the set are in service.",
            Family::SetUnavailable =>
                "How long no link of the set was in service, also before the first one was.",
            Family::SetUnavailabilities =>
                "How often a link of the set was in service, and then none was.",
            Family::InService => "1 if the link is in service, else 0.",
            Family::ChangingOver => "1 if the link is down and its changeover isn't over, else 0.",
            Family::Barred =>
                "1 if the link can't open until its changeover order is answered, else 0.",
            Family::LinkUnavailable =>
                "How long the link wasn't in service, also before it first was.",
            Family::LinkUnavailabilities =>
                "How often the link was in service, and then wasn't, whatever the reason.",
            Family::LinkChangeovers => "Changeovers of the link that are over.",
            Family::Queue => "Messages of the link that the peer hasn't confirmed, sent or not.",
            Family::FramesReceived => "Frames that came in on the link.",
            Family::OctetsReceived => "Octets of the frames that came in on the link.",
            Family::FramesSent => "Frames that went out on the link.",
            Family::OctetsSent => "Octets of the frames that went out on the link.",
            Family::Forwarded => "User messages from the link that were queued or held to go on.",
            Family::Delivered =>
                "Messages from the link for a user part or a subsystem of the node.",
            Family::MessagesReceived => "Messages that came in on the link, by service indicator.",
            Family::MessagesSent => "Messages that went out on the link, by service indicator.",
            Family::ManagementReceived =>
                "Management messages and link tests that came in on the link.",
            Family::ManagementSent =>
                "Management messages and link tests that went out on the link.",
            Family::Refused => "Frames from the link that were refused, or whose message was.",
            Family::Failures => "Failures of the link.",
            Family::Retries => "Connections of the link that were tried again.",
            Family::InitsRefused =>
                "INITs and INIT ACKs of the link that were refused or left out.",
            Family::TriesFailed => "Tries to open the link's association over SCTP that failed.",
            Family::RoundTrip =>
                "The smoothed round trip of the link's association over SCTP: SRTT.",
            Family::RetransmissionTimeout =>
                "The retransmission timeout of the link's association over SCTP: RTO.",
            Family::CongestionWindow =>
                "The congestion window of the link's association over SCTP: cwnd.",
            Family::Retransmissions => {
                "DATA chunks that the link's associations over SCTP sent again."
            }
        }
    }
}
