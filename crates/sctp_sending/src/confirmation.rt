//! What a cumulative TSN confirms.

/// What a cumulative TSN confirms (RFC 9260 §6.2.1).
#[derive(Clone, Copy, Debug, PartialEq, Eq)]
pub enum Confirmation {
    /// It is behind what is confirmed already: an acknowledgement that was overtaken.
    Old,
    /// A message that didn't go out: no peer that received what was sent says so.
    Beyond,
    /// This many messages more than before.
    Of(u32),
}
