//! What a link asks of its caller.

/// What a link asks of its caller.
#[derive(Clone, Copy, Debug, PartialEq, Eq)]
pub enum Wants {
    /// Nothing.
    Nothing,
    /// An association: the link is down, and may open.
    Open,
    /// The end of its association: the link failed.
    Close,
}
