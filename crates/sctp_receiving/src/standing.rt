//! Where a chunk stands.

/// Where a chunk stands by its TSN (RFC 9260 §6.2).
#[derive(Clone, Copy)]
pub enum Standing {
    /// It is the next one, and is consumed.
    Next,
    /// One before it is missing, and it is held.
    Early,
    /// It came before: it was consumed, or is held.
    Again,
    /// It is too far ahead, or there is no room for it: it is dropped, and will come again.
    Beyond,
}
