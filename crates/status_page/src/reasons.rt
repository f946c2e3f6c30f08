//! The metrics of families that have one for each kind, cause or reason.

use crate::metric::{LinkMetric, Metric, NodeMetric};
use crate::noticed::{NOTICE_KINDS, NoticeKind};
use served_link::{Counter, Setback};
use signalling_types::{Cause, FailureReason};

/// Notices, of each kind.
pub(crate) const NOTICES: [Metric; NOTICE_KINDS] = [
    Metric::Node(NodeMetric::Notices(NoticeKind::Refused)),
    Metric::Node(NodeMetric::Notices(NoticeKind::Frame)),
    Metric::Node(NodeMetric::Notices(NoticeKind::Failed)),
    Metric::Node(NodeMetric::Notices(NoticeKind::Lost)),
    Metric::Node(NodeMetric::Notices(NoticeKind::Unsent)),
    Metric::Node(NodeMetric::Notices(NoticeKind::Expired)),
    Metric::Node(NodeMetric::Notices(NoticeKind::Unbarred)),
    Metric::Node(NodeMetric::Notices(NoticeKind::Late)),
    Metric::Node(NodeMetric::Notices(NoticeKind::Missed)),
];

/// Frames that were refused, by each cause.
pub(crate) const REFUSED: [Metric; 25] = [
    Metric::Link(LinkMetric::Counted(Counter::Refused(Cause::WrongNetwork))),
    Metric::Link(LinkMetric::Counted(Counter::Refused(Cause::NoLabel))),
    Metric::Link(LinkMetric::Counted(Counter::Refused(Cause::UnknownDestination))),
    Metric::Link(LinkMetric::Counted(Counter::Refused(Cause::NoRoute))),
    Metric::Link(LinkMetric::Counted(Counter::Refused(Cause::PoolFull))),
    Metric::Link(LinkMetric::Counted(Counter::Refused(Cause::NoUserPart))),
    Metric::Link(LinkMetric::Counted(Counter::Refused(Cause::NotInProfile))),
    Metric::Link(LinkMetric::Counted(Counter::Refused(Cause::BadManagement))),
    Metric::Link(LinkMetric::Counted(Counter::Refused(Cause::BadSccp))),
    Metric::Link(LinkMetric::Counted(Counter::Refused(Cause::NoNature))),
    Metric::Link(LinkMetric::Counted(Counter::Refused(Cause::NoDigits))),
    Metric::Link(LinkMetric::Counted(Counter::Refused(Cause::Unequipped))),
    Metric::Link(LinkMetric::Counted(Counter::Refused(Cause::TooLong))),
    Metric::Link(LinkMetric::Counted(Counter::Refused(Cause::LostUnconfirmed))),
    Metric::Link(LinkMetric::Counted(Counter::Refused(Cause::ManagementFull))),
    Metric::Link(LinkMetric::Counted(Counter::Refused(Cause::NotFromAdjacent))),
    Metric::Link(LinkMetric::Counted(Counter::Refused(Cause::LinkNotReady))),
    Metric::Link(LinkMetric::Counted(Counter::Refused(Cause::ChangeoverPending))),
    Metric::Link(LinkMetric::Counted(Counter::Refused(Cause::NoMemory))),
    Metric::Link(LinkMetric::Counted(Counter::Refused(Cause::TableFull))),
    Metric::Link(LinkMetric::Counted(Counter::Refused(Cause::DuplicateRow))),
    Metric::Link(LinkMetric::Counted(Counter::Refused(Cause::NoSuchName))),
    Metric::Link(LinkMetric::Counted(Counter::Refused(Cause::HopCounter))),
    Metric::Link(LinkMetric::Counted(Counter::Refused(Cause::ShareFull))),
    Metric::Link(LinkMetric::Counted(Counter::Refused(Cause::SubsystemProhibited))),
];

/// Failures, by each reason.
pub(crate) const FAILURES: [Metric; 8] = [
    Metric::Link(LinkMetric::Counted(Counter::Failed(FailureReason::Association))),
    Metric::Link(LinkMetric::Counted(Counter::Failed(FailureReason::Timer))),
    Metric::Link(LinkMetric::Counted(Counter::Failed(FailureReason::Sequence))),
    Metric::Link(LinkMetric::Counted(Counter::Failed(FailureReason::Status))),
    Metric::Link(LinkMetric::Counted(Counter::Failed(FailureReason::Length))),
    Metric::Link(LinkMetric::Counted(Counter::Failed(FailureReason::Changeover))),
    Metric::Link(LinkMetric::Counted(Counter::Failed(FailureReason::Operator))),
    Metric::Link(LinkMetric::Counted(Counter::Failed(FailureReason::Test))),
];

/// INITs that were refused, by each reason.
pub(crate) const INITS_REFUSED: [Metric; 10] = [
    Metric::Link(LinkMetric::Counted(Counter::Setbacks(Setback::OtherPort))),
    Metric::Link(LinkMetric::Counted(Counter::Setbacks(Setback::TooMany))),
    Metric::Link(LinkMetric::Counted(Counter::Setbacks(Setback::WithoutTag))),
    Metric::Link(LinkMetric::Counted(Counter::Setbacks(Setback::HostName))),
    Metric::Link(LinkMetric::Counted(Counter::Setbacks(Setback::FewStreams))),
    Metric::Link(LinkMetric::Counted(Counter::Setbacks(Setback::Unwanted))),
    Metric::Link(LinkMetric::Counted(Counter::Setbacks(Setback::NoTagLeft))),
    Metric::Link(LinkMetric::Counted(Counter::Setbacks(Setback::ShuttingDown))),
    Metric::Link(LinkMetric::Counted(Counter::Setbacks(Setback::WithoutCookie))),
    Metric::Link(LinkMetric::Counted(Counter::Setbacks(Setback::LongCookie))),
];

/// Tries that failed, by each reason.
pub(crate) const TRIES_FAILED: [Metric; 4] = [
    Metric::Link(LinkMetric::Counted(Counter::Setbacks(Setback::EndedByPeer))),
    Metric::Link(LinkMetric::Counted(Counter::Setbacks(Setback::Unanswered))),
    Metric::Link(LinkMetric::Counted(Counter::Setbacks(Setback::BadAnswer))),
    Metric::Link(LinkMetric::Counted(Counter::Setbacks(Setback::EndedByNode))),
];
