//! What is counted, by name.

ghost use Rattle.std.specs.Prelude.{◌≡◌, ◌+◌, ◌<◌};
ghost use Rattle.signalling_types.specs.Causes.{cause_number};
ghost use Rattle.served_link.specs.Counting.{reason_number};

use crate::setback::Setback;
use signalling_types::{Cause, FailureReason};

/// What is counted for each link.
#[derive(Clone, Copy)]
pub enum Counter {
    /// Frames that came in.
    FramesIn,
    /// Octets of the frames that came in.
    OctetsIn,
    /// Frames that went out.
    FramesOut,
    /// Octets of the frames that went out.
    OctetsOut,
    /// Frames that came in with a user message, of a service indicator above 1, which was queued or held to go on.
    Forwarded,
    /// Frames that came in with a message for a user part or a subsystem of this node.
    Delivered,
    /// Frames that came in and were refused, or whose message was, for this cause.
    Refused(Cause),
    /// Failures of the link for this reason.
    Failed(FailureReason),
    /// Connections of the link that were tried again.
    Retries,
    /// INITs that were refused, and tries that failed, for this reason.
    Setbacks(Setback),
    /// DATA chunks that the link's association over SCTP sent again (RFC 9260 §6.3.3, §7.2.4).
    Retransmissions,
}

impl Counter {
    /// All counters, in the order in which they are shown.
    pub const ALL: [Counter; 55] = [
        Counter::FramesIn,
        Counter::OctetsIn,
        Counter::FramesOut,
        Counter::OctetsOut,
        Counter::Forwarded,
        Counter::Delivered,
        Counter::Refused(Cause::WrongNetwork),
        Counter::Refused(Cause::NoLabel),
        Counter::Refused(Cause::UnknownDestination),
        Counter::Refused(Cause::NoRoute),
        Counter::Refused(Cause::PoolFull),
        Counter::Refused(Cause::NoUserPart),
        Counter::Refused(Cause::NotInProfile),
        Counter::Refused(Cause::BadManagement),
        Counter::Refused(Cause::BadSccp),
        Counter::Refused(Cause::NoNature),
        Counter::Refused(Cause::NoDigits),
        Counter::Refused(Cause::Unequipped),
        Counter::Refused(Cause::TooLong),
        Counter::Refused(Cause::LostUnconfirmed),
        Counter::Refused(Cause::ManagementFull),
        Counter::Refused(Cause::NotFromAdjacent),
        Counter::Refused(Cause::LinkNotReady),
        Counter::Refused(Cause::ChangeoverPending),
        Counter::Refused(Cause::NoMemory),
        Counter::Refused(Cause::TableFull),
        Counter::Refused(Cause::DuplicateRow),
        Counter::Refused(Cause::NoSuchName),
        Counter::Refused(Cause::HopCounter),
        Counter::Refused(Cause::ShareFull),
        Counter::Refused(Cause::SubsystemProhibited),
        Counter::Failed(FailureReason::Association),
        Counter::Failed(FailureReason::Timer),
        Counter::Failed(FailureReason::Sequence),
        Counter::Failed(FailureReason::Status),
        Counter::Failed(FailureReason::Length),
        Counter::Failed(FailureReason::Changeover),
        Counter::Failed(FailureReason::Operator),
        Counter::Failed(FailureReason::Test),
        Counter::Retries,
        Counter::Setbacks(Setback::OtherPort),
        Counter::Setbacks(Setback::TooMany),
        Counter::Setbacks(Setback::WithoutTag),
        Counter::Setbacks(Setback::HostName),
        Counter::Setbacks(Setback::FewStreams),
        Counter::Setbacks(Setback::Unwanted),
        Counter::Setbacks(Setback::NoTagLeft),
        Counter::Setbacks(Setback::ShuttingDown),
        Counter::Setbacks(Setback::WithoutCookie),
        Counter::Setbacks(Setback::LongCookie),
        Counter::Setbacks(Setback::EndedByPeer),
        Counter::Setbacks(Setback::Unanswered),
        Counter::Setbacks(Setback::BadAnswer),
        Counter::Setbacks(Setback::EndedByNode),
        Counter::Retransmissions,
    ];
}

/// Causes of refusals.
pub(crate) const CAUSES: usize = 25;

/// Reasons of failures.
pub(crate) const REASONS: usize = 8;

/// The index of a cause among all.
pub(crate) fn cause_place(cause: Cause) -> usize
    ensures place { result + 1 ≡ cause_number cause }
    ensures fits { result < CAUSES }
{
    usize::from(cause.number()) - 1
}

/// The index of a reason among all.
pub(crate) fn reason_place(reason: FailureReason) -> usize
    ensures place { result ≡ reason_number reason }
    ensures fits { result < REASONS }
{
    match reason {
        FailureReason::Association => 0,
        FailureReason::Timer => 1,
        FailureReason::Sequence => 2,
        FailureReason::Status => 3,
        FailureReason::Length => 4,
        FailureReason::Changeover => 5,
        FailureReason::Operator => 6,
        FailureReason::Test => 7,
    }
}
