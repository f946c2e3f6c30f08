//! The states of an association.

/// The state of an association (RFC 9260 §4).
#[derive(Clone, Copy)]
pub enum Phase {
    /// There is none.
    Closed,
    /// An INIT was sent.
    CookieWait,
    /// A COOKIE ECHO was sent.
    CookieEchoed,
    /// It is there.
    Established,
    /// It is to end once all that was sent is confirmed.
    ShutdownPending,
    /// A SHUTDOWN was sent.
    ShutdownSent,
    /// A SHUTDOWN came.
    ShutdownReceived,
    /// A SHUTDOWN ACK was sent.
    ShutdownAckSent,
}
