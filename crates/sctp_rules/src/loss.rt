//! Why an association ends.

/// Why an association ends, or the try of one.
#[derive(Clone, Copy)]
pub enum Loss {
    /// This end ended it.
    Local,
    /// The peer aborted it.
    Aborted,
    /// The peer shut it down.
    Shutdown,
    /// The peer has restarted.
    Restart,
    /// The peer doesn't answer.
    NoAnswer,
    /// The peer refused it.
    Refused,
    /// The peer violates the protocol.
    Protocol,
    /// The peer's INIT ACK can't be used.
    BadInitAck,
    /// The peer found the cookie stale too often.
    StaleCookie,
    /// No tag is left.
    NoTag,
}
