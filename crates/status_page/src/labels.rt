//! The labels of samples.

ghost use Rattle.std.specs.Prelude.{◌≡◌, ◌+◌, ◌≤◌, ◌++◌, length};
ghost use Rattle.status_page.specs.Samples.{counter_labels, destination_labels, kind_label, kind_labels, link_labels};
ghost use Rattle.status_page.specs.Samples.{metric_labels, node_labels, route_labels, service_label, set_labels, set_pairs};

use crate::metric::{LinkMetric, NodeMetric};
use crate::noticed::NoticeKind;
use arrayvec::ArrayString;
use itoa::Buffer;
use served_link::{Counter, ManagementKind};
use settings::POINT_OCTETS;
use signalling_types::Limits;

/// The version of the program, as the pages show it.
pub const VERSION: &str = "0.1.0";

/// Octets of a sample's labels, at most.
pub const LABELS_OCTETS: usize = 144;

pub(crate) fn node_labels(metric: NodeMetric) -> ArrayString<LABELS_OCTETS>
    ensures { result.bytes ≡ node_labels metric }
{
    let mut labels = ArrayString::new();
    match metric {
        NodeMetric::Build => {
            labels.push_str("{version=\"");
            labels.push_str(VERSION);
            labels.push_str("\"}");
        }
        NodeMetric::LostAny | NodeMetric::TimesLost => labels.push_str("{name=\"lost_any\"}"),
        NodeMetric::LateAny | NodeMetric::TimesLate => labels.push_str("{name=\"late_any\"}"),
        NodeMetric::Notices(kind) => labels.push_str(kind_labels(kind)),
        NodeMetric::Uptime
        | NodeMetric::LongestTurn
        | NodeMetric::PoolLimit
        | NodeMetric::Pool
        | NodeMetric::Held
        | NodeMetric::MessagesLost
        | NodeMetric::TimesBroken
        | NodeMetric::TimesRerouted
        | NodeMetric::DatagramsReceived
        | NodeMetric::DatagramsSent
        | NodeMetric::Strangers => {}
    }
    labels
}

/// The label of notices of a kind.
fn kind_labels(kind: NoticeKind) -> &'static str
    ensures labels { result.now ≡ kind_labels kind }
    ensures fits { length result.now ≤ LABELS_OCTETS }
{
    match kind {
        NoticeKind::Refused => "{kind=\"refused\"}",
        NoticeKind::Frame => "{kind=\"frame\"}",
        NoticeKind::Failed => "{kind=\"failed\"}",
        NoticeKind::Lost => "{kind=\"lost\"}",
        NoticeKind::Unsent => "{kind=\"unsent\"}",
        NoticeKind::Expired => "{kind=\"expired\"}",
        NoticeKind::Unbarred => "{kind=\"unbarred\"}",
        NoticeKind::Late => "{kind=\"late\"}",
        NoticeKind::Missed => "{kind=\"missed\"}",
    }
}

/// The labels of a metric of the link of this name, of a set of this name, which leads to this point. A name has only
/// letters, digits, dashes, low lines and dots, so none of it is escaped.
pub(crate) fn link_labels(
    metric: LinkMetric,
    link: &str,
    set: &str,
    adjacent: &str,
) -> ArrayString<LABELS_OCTETS>
    requires link { length link.now ≤ Limits.NAME_OCTETS }
    requires set { length set.now ≤ Limits.NAME_OCTETS }
    requires adjacent { length adjacent.now ≤ POINT_OCTETS }
    ensures { result.bytes ≡ link_labels metric link.now set.now adjacent.now }
{
    let mut labels = ArrayString::new();
    labels.push_str("{link=\"");
    labels.push_str(link);
    labels.push_str("\",");
    push_set(set, adjacent, &mut labels);
    push_further(metric, &mut labels);
    labels.push_str("}");
    labels
}

/// The labels of a metric of the set of this name, which leads to this point.
pub(crate) fn set_labels(set: &str, adjacent: &str) -> ArrayString<LABELS_OCTETS>
    requires set { length set.now ≤ Limits.NAME_OCTETS }
    requires adjacent { length adjacent.now ≤ POINT_OCTETS }
    ensures { result.bytes ≡ set_labels set.now adjacent.now }
{
    let mut labels = ArrayString::new();
    labels.push_str("{");
    push_set(set, adjacent, &mut labels);
    labels.push_str("}");
    labels
}

/// The label of a metric of this destination.
pub(crate) fn destination_labels(destination: &str) -> ArrayString<LABELS_OCTETS>
    requires { length destination.now ≤ POINT_OCTETS }
    ensures { result.bytes ≡ destination_labels destination.now }
{
    let mut labels = ArrayString::new();
    labels.push_str("{destination=\"");
    labels.push_str(destination);
    labels.push_str("\"}");
    labels
}

/// The labels of a metric of the route to this destination by the set of this name, which leads to this point.
pub(crate) fn route_labels(
    destination: &str,
    set: &str,
    adjacent: &str,
) -> ArrayString<LABELS_OCTETS>
    requires destination { length destination.now ≤ POINT_OCTETS }
    requires set { length set.now ≤ Limits.NAME_OCTETS }
    requires adjacent { length adjacent.now ≤ POINT_OCTETS }
    ensures { result.bytes ≡ route_labels destination.now set.now adjacent.now }
{
    let mut labels = ArrayString::new();
    labels.push_str("{destination=\"");
    labels.push_str(destination);
    labels.push_str("\",");
    push_set(set, adjacent, &mut labels);
    labels.push_str("}");
    labels
}

/// Appends the labels of a set: its name, and the point that it leads to.
fn push_set(set: &str, adjacent: &str, labels: &mut ArrayString<LABELS_OCTETS>)
    requires room { length labels.old.bytes ≤ 41 }
    requires set { length set.now ≤ Limits.NAME_OCTETS }
    requires adjacent { length adjacent.now ≤ POINT_OCTETS }
    ensures labels { labels.new.bytes ≡ labels.old.bytes ++ set_pairs set.now adjacent.now }
    ensures short { length labels.new.bytes ≤ length labels.old.bytes + 57 }
{
    labels.push_str("set=\"");
    labels.push_str(set);
    labels.push_str("\",adjacent=\"");
    labels.push_str(adjacent);
    labels.push_str("\"");
}

/// Appends the further label of a metric of a link.
fn push_further(metric: LinkMetric, labels: &mut ArrayString<LABELS_OCTETS>)
    requires { length labels.old.bytes ≤ 98 }
    ensures label { labels.new.bytes ≡ labels.old.bytes ++ metric_labels metric }
    ensures short { length labels.new.bytes ≤ length labels.old.bytes + 32 }
{
    match metric {
        LinkMetric::Counted(counter) => push_reason(counter, labels),
        LinkMetric::ServiceHeard(service) | LinkMetric::ServiceSent(service) => {
            push_service(service, labels)
        }
        LinkMetric::ManagementHeard(kind) | LinkMetric::ManagementSent(kind) => {
            push_kind(kind, labels)
        }
        LinkMetric::InService
        | LinkMetric::ChangingOver
        | LinkMetric::Barred
        | LinkMetric::Waiting
        | LinkMetric::UnavailableTime
        | LinkMetric::Unavailabilities
        | LinkMetric::Changeovers
        | LinkMetric::RoundTrip
        | LinkMetric::RetransmissionTimeout
        | LinkMetric::CongestionWindow => {}
    }
}

/// Appends the label of messages of a service indicator.
fn push_service(service: u8, labels: &mut ArrayString<LABELS_OCTETS>)
    requires { length labels.old.bytes ≤ 98 }
    ensures label { labels.new.bytes ≡ labels.old.bytes ++ service_label service }
    ensures short { length labels.new.bytes ≤ length labels.old.bytes + 32 }
{
    let mut digits = Buffer::new();
    labels.push_str(",service=\"");
    labels.push_str(digits.format(service));
    labels.push_str("\"");
}

/// Appends the label of management messages or link tests of a kind.
fn push_kind(kind: ManagementKind, labels: &mut ArrayString<LABELS_OCTETS>)
    requires { length labels.old.bytes ≤ 98 }
    ensures label { labels.new.bytes ≡ labels.old.bytes ++ kind_label kind }
    ensures short { length labels.new.bytes ≤ length labels.old.bytes + 32 }
{
    labels.push_str(",message=\"");
    labels.push_str(kind.name());
    labels.push_str("\"");
}

/// Appends the label of a counter of refusals, failures or setbacks, its cause or its reason.
fn push_reason(counter: Counter, labels: &mut ArrayString<LABELS_OCTETS>)
    requires { length labels.old.bytes ≤ 98 }
    ensures label { labels.new.bytes ≡ labels.old.bytes ++ counter_labels counter }
    ensures short { length labels.new.bytes ≤ length labels.old.bytes + 32 }
{
    match counter {
        Counter::Refused(cause) => {
            labels.push_str(",cause=\"");
            labels.push_str(cause.name());
            labels.push_str("\"");
        }
        Counter::Failed(reason) => {
            labels.push_str(",reason=\"");
            labels.push_str(reason.name());
            labels.push_str("\"");
        }
        Counter::Setbacks(reason) => {
            labels.push_str(",reason=\"");
            labels.push_str(reason.name());
            labels.push_str("\"");
        }
        Counter::FramesIn
        | Counter::OctetsIn
        | Counter::FramesOut
        | Counter::OctetsOut
        | Counter::Forwarded
        | Counter::Delivered
        | Counter::Retries
        | Counter::Retransmissions => {}
    }
}
