//! What became of an event.

use crate::cause::Cause;
use crate::point::LinkId;

/// What became of an event.
#[derive(Clone, Copy, Debug, PartialEq, Eq)]
pub enum Outcome {
    /// The message is at the end of this link's queue.
    Queued(LinkId),
    /// The message is held until its flow may go on.
    Held,
    /// The message is for a user part or a subsystem of this node: the caller passes it on, even one that was
    /// submitted.
    Local,
    /// The event was taken. A link may have failed by it.
    Handled,
    /// The event asks for nothing here. What accepting its frame did stays, and a frame that can't be read is noted.
    Ignored,
    /// The event was refused, and changed nothing; but a refused message may be answered by one that this node makes
    /// (TFP, UPU, UDTS, XUDTS), and what accepting its frame did stays.
    Refused(Cause),
}
