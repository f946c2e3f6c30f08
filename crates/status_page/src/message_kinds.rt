//! The metrics of families that have one for each kind of message.

use crate::metric::{LinkMetric, Metric};
use served_link::ManagementKind;

/// Messages that came in, by service indicator.
pub(crate) const SERVICES_HEARD: [Metric; 16] = [
    Metric::Link(LinkMetric::ServiceHeard(0)),
    Metric::Link(LinkMetric::ServiceHeard(1)),
    Metric::Link(LinkMetric::ServiceHeard(2)),
    Metric::Link(LinkMetric::ServiceHeard(3)),
    Metric::Link(LinkMetric::ServiceHeard(4)),
    Metric::Link(LinkMetric::ServiceHeard(5)),
    Metric::Link(LinkMetric::ServiceHeard(6)),
    Metric::Link(LinkMetric::ServiceHeard(7)),
    Metric::Link(LinkMetric::ServiceHeard(8)),
    Metric::Link(LinkMetric::ServiceHeard(9)),
    Metric::Link(LinkMetric::ServiceHeard(10)),
    Metric::Link(LinkMetric::ServiceHeard(11)),
    Metric::Link(LinkMetric::ServiceHeard(12)),
    Metric::Link(LinkMetric::ServiceHeard(13)),
    Metric::Link(LinkMetric::ServiceHeard(14)),
    Metric::Link(LinkMetric::ServiceHeard(15)),
];

/// Messages that went out, by service indicator.
pub(crate) const SERVICES_SENT: [Metric; 16] = [
    Metric::Link(LinkMetric::ServiceSent(0)),
    Metric::Link(LinkMetric::ServiceSent(1)),
    Metric::Link(LinkMetric::ServiceSent(2)),
    Metric::Link(LinkMetric::ServiceSent(3)),
    Metric::Link(LinkMetric::ServiceSent(4)),
    Metric::Link(LinkMetric::ServiceSent(5)),
    Metric::Link(LinkMetric::ServiceSent(6)),
    Metric::Link(LinkMetric::ServiceSent(7)),
    Metric::Link(LinkMetric::ServiceSent(8)),
    Metric::Link(LinkMetric::ServiceSent(9)),
    Metric::Link(LinkMetric::ServiceSent(10)),
    Metric::Link(LinkMetric::ServiceSent(11)),
    Metric::Link(LinkMetric::ServiceSent(12)),
    Metric::Link(LinkMetric::ServiceSent(13)),
    Metric::Link(LinkMetric::ServiceSent(14)),
    Metric::Link(LinkMetric::ServiceSent(15)),
];

/// Management messages and link tests that came in, by kind.
pub(crate) const MANAGEMENT_HEARD: [Metric; 18] = [
    Metric::Link(LinkMetric::ManagementHeard(ManagementKind::ChangeoverOrder)),
    Metric::Link(LinkMetric::ManagementHeard(ManagementKind::ChangeoverAcknowledgement)),
    Metric::Link(LinkMetric::ManagementHeard(ManagementKind::ExtendedChangeoverOrder)),
    Metric::Link(LinkMetric::ManagementHeard(ManagementKind::ExtendedChangeoverAcknowledgement)),
    Metric::Link(LinkMetric::ManagementHeard(ManagementKind::ChangebackDeclaration)),
    Metric::Link(LinkMetric::ManagementHeard(ManagementKind::ChangebackAcknowledgement)),
    Metric::Link(LinkMetric::ManagementHeard(ManagementKind::EmergencyChangeoverOrder)),
    Metric::Link(LinkMetric::ManagementHeard(ManagementKind::EmergencyChangeoverAcknowledgement)),
    Metric::Link(LinkMetric::ManagementHeard(ManagementKind::TransferControlled)),
    Metric::Link(LinkMetric::ManagementHeard(ManagementKind::TransferProhibited)),
    Metric::Link(LinkMetric::ManagementHeard(ManagementKind::TransferRestricted)),
    Metric::Link(LinkMetric::ManagementHeard(ManagementKind::TransferAllowed)),
    Metric::Link(LinkMetric::ManagementHeard(ManagementKind::RouteSetTestProhibited)),
    Metric::Link(LinkMetric::ManagementHeard(ManagementKind::RouteSetTestRestricted)),
    Metric::Link(LinkMetric::ManagementHeard(ManagementKind::TrafficRestartAllowed)),
    Metric::Link(LinkMetric::ManagementHeard(ManagementKind::UserPartUnavailable)),
    Metric::Link(LinkMetric::ManagementHeard(ManagementKind::LinkTest)),
    Metric::Link(LinkMetric::ManagementHeard(ManagementKind::LinkTestAcknowledgement)),
];

/// Management messages and link tests that went out, by kind.
pub(crate) const MANAGEMENT_SENT: [Metric; 18] = [
    Metric::Link(LinkMetric::ManagementSent(ManagementKind::ChangeoverOrder)),
    Metric::Link(LinkMetric::ManagementSent(ManagementKind::ChangeoverAcknowledgement)),
    Metric::Link(LinkMetric::ManagementSent(ManagementKind::ExtendedChangeoverOrder)),
    Metric::Link(LinkMetric::ManagementSent(ManagementKind::ExtendedChangeoverAcknowledgement)),
    Metric::Link(LinkMetric::ManagementSent(ManagementKind::ChangebackDeclaration)),
    Metric::Link(LinkMetric::ManagementSent(ManagementKind::ChangebackAcknowledgement)),
    Metric::Link(LinkMetric::ManagementSent(ManagementKind::EmergencyChangeoverOrder)),
    Metric::Link(LinkMetric::ManagementSent(ManagementKind::EmergencyChangeoverAcknowledgement)),
    Metric::Link(LinkMetric::ManagementSent(ManagementKind::TransferControlled)),
    Metric::Link(LinkMetric::ManagementSent(ManagementKind::TransferProhibited)),
    Metric::Link(LinkMetric::ManagementSent(ManagementKind::TransferRestricted)),
    Metric::Link(LinkMetric::ManagementSent(ManagementKind::TransferAllowed)),
    Metric::Link(LinkMetric::ManagementSent(ManagementKind::RouteSetTestProhibited)),
    Metric::Link(LinkMetric::ManagementSent(ManagementKind::RouteSetTestRestricted)),
    Metric::Link(LinkMetric::ManagementSent(ManagementKind::TrafficRestartAllowed)),
    Metric::Link(LinkMetric::ManagementSent(ManagementKind::UserPartUnavailable)),
    Metric::Link(LinkMetric::ManagementSent(ManagementKind::LinkTest)),
    Metric::Link(LinkMetric::ManagementSent(ManagementKind::LinkTestAcknowledgement)),
];
