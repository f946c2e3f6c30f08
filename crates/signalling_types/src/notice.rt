//! What the node notes for its operator.

ghost use Rattle.std.specs.Prelude.{◌≡◌};
ghost use Rattle.signalling_types.specs.Notices.{frame_fault_number, frame_fault_name, failure_name};

use crate::cause::Cause;
use crate::point::{LinkId, PointCode, Sls};

/// What is wrong with the octets of a frame: the first fault that reading finds (RFC 4165 §2).
#[derive(Clone, Copy, Debug, PartialEq, Eq)]
pub enum FrameFault {
    /// Too few octets for what the frame announces.
    Short = 1,
    /// The length field isn't the number of octets.
    Length = 2,
    /// The version isn't 1.
    Version = 3,
    /// A class, type or link state that M2PA doesn't have.
    Unknown = 4,
}

impl FrameFault {
    /// The fault's number, 1 to 4.
    pub fn number(self) -> u8
        ensures { result ≡ frame_fault_number self }
    {
        self as u8
    }

    /// The fault's name, as texts print it.
    pub fn name(self) -> &'static str
        ensures { result.now ≡ frame_fault_name self }
    {
        match self {
            FrameFault::Short => "Short",
            FrameFault::Length => "Length",
            FrameFault::Version => "Version",
            FrameFault::Unknown => "Unknown",
        }
    }
}

/// Why a link failed.
#[derive(Clone, Copy, PartialEq, Eq)]
pub enum FailureReason {
    /// Its association was lost.
    Association,
    /// A timer of the link ran out.
    Timer,
    /// A frame with a number out of place.
    Sequence,
    /// A link status that fails the link.
    Status,
    /// A frame whose length field is wrong.
    Length,
    /// The adjacent point began a changeover of the link.
    Changeover,
    /// An order of the operator.
    Operator,
    /// Two tests of the link in a row that weren't answered (Q.707 §2.2).
    Test,
}

impl FailureReason {
    /// The reason's name, as texts print it.
    pub fn name(self) -> &'static str
        ensures { result.now ≡ failure_name self }
    {
        match self {
            FailureReason::Association => "association",
            FailureReason::Timer => "timer",
            FailureReason::Sequence => "sequence",
            FailureReason::Status => "status",
            FailureReason::Length => "length",
            FailureReason::Changeover => "changeover",
            FailureReason::Operator => "operator",
            FailureReason::Test => "test",
        }
    }
}

/// The timers that end a changeover (Q.704 §16.8).
#[derive(Clone, Copy, PartialEq, Eq)]
pub enum ChangeoverTimer {
    /// No link was left to the adjacent point.
    T1,
    /// The acknowledgement of the changeover order didn't come.
    T2,
}

/// What let a link open though the acknowledgement of its changeover order didn't come.
#[derive(Clone, Copy, PartialEq, Eq)]
pub enum Unbarring {
    /// T2, which ran longer after the changeover was complete.
    T2,
    /// An order of the operator.
    Operator,
}

/// The timers that end a changeback (Q.704 §16.8).
#[derive(Clone, Copy, PartialEq, Eq)]
pub enum LateTimer {
    /// Flows that a link took over were held by time.
    T3,
    /// The answer to a changeback declaration didn't come.
    T4,
}

/// What the node notes for its operator.
#[derive(Clone, Copy, PartialEq, Eq)]
pub enum Notice {
    /// A message in a frame of this link was refused.
    Refused(Cause, LinkId),
    /// A frame of this link was discarded.
    Frame(FrameFault, LinkId),
    /// The link failed.
    Failed(LinkId, FailureReason),
    /// A message to this point with this signalling link selection was lost.
    Lost(Cause, PointCode, Sls),
    /// A management message to this point could not go out.
    Unsent(Cause, PointCode),
    /// A changeover of this link ended by its timer.
    Expired(ChangeoverTimer, LinkId),
    /// This link may open, though the acknowledgement of its changeover order didn't come.
    Unbarred(Unbarring, LinkId),
    /// A changeback ended by its timer: T3 of the link of this number, or T4 of this code.
    Late(LateTimer, u8),
}
