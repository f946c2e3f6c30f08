//! The names of families.

ghost use Rattle.std.specs.Prelude.{◌≡◌, ◌≤◌, length};
ghost use Rattle.status_page.specs.Families.{family_name};

use crate::family::{Family, NAME_OCTETS};

impl Family {
    /// The family's name.
    pub fn name(self) -> &'static str
        ensures name { result.now ≡ family_name self }
        ensures fits { length result.now ≤ NAME_OCTETS }
    {
        match self {
            Family::Build => "stp_build_info",
            Family::Uptime => "stp_uptime_seconds",
            Family::LongestTurn => "stp_longest_turn_seconds",
            Family::PoolLimit => "stp_pool_limit_messages",
            Family::Pool => "stp_pool_messages",
            Family::Held => "stp_held_messages",
            Family::Notices => "stp_notices_total",
            Family::Flags => "stp_flag",
            Family::Raised => "stp_flag_raised_total",
            Family::Lost => "stp_messages_lost_total",
            Family::Broken => "stp_changeovers_broken_total",
            Family::Rerouted => "stp_flows_rerouted_total",
            Family::Alarms => "stp_alarm_raised",
            Family::DatagramsReceived => "stp_datagrams_received_total",
            Family::DatagramsSent => "stp_datagrams_sent_total",
            Family::Strangers => "stp_strangers_total",
            Family::Accessible => "stp_destination_accessible",
            Family::Restricted => "stp_destination_restricted",
            Family::InUse => "stp_route_in_use",
            Family::SetAvailable => "stp_set_available",
            Family::SetLinks => "stp_set_links_in_service",
            Family::SetUnavailable => "stp_set_unavailable_seconds_total",
            Family::SetUnavailabilities => "stp_set_unavailabilities_total",
            Family::InService => "stp_link_in_service",
            Family::ChangingOver => "stp_link_changing_over",
            Family::Barred => "stp_link_barred",
            Family::LinkUnavailable => "stp_link_unavailable_seconds_total",
            Family::LinkUnavailabilities => "stp_link_unavailabilities_total",
            Family::LinkChangeovers => "stp_link_changeovers_total",
            Family::Queue => "stp_queue_messages",
            Family::FramesReceived => "stp_frames_received_total",
            Family::OctetsReceived => "stp_octets_received_total",
            Family::FramesSent => "stp_frames_sent_total",
            Family::OctetsSent => "stp_octets_sent_total",
            Family::Forwarded => "stp_messages_forwarded_total",
            Family::Delivered => "stp_messages_delivered_total",
            Family::MessagesReceived => "stp_messages_received_total",
            Family::MessagesSent => "stp_messages_sent_total",
            Family::ManagementReceived => "stp_management_received_total",
            Family::ManagementSent => "stp_management_sent_total",
            Family::Refused => "stp_refused_total",
            Family::Failures => "stp_link_failures_total",
            Family::Retries => "stp_connection_retries_total",
            Family::InitsRefused => "stp_inits_refused_total",
            Family::TriesFailed => "stp_tries_failed_total",
            Family::RoundTrip => "stp_sctp_round_trip_seconds",
            Family::RetransmissionTimeout => "stp_sctp_retransmission_timeout_seconds",
            Family::CongestionWindow => "stp_sctp_congestion_window_octets",
            Family::Retransmissions => "stp_sctp_retransmissions_total",
        }
    }
}
