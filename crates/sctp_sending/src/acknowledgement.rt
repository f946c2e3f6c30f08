//! What a SACK says of what was sent.

use crate::confirmation::Confirmation;

/// What a SACK says of what was sent (RFC 9260 §6.2.1).
#[derive(Clone, Copy)]
pub struct Acknowledgement {
    /// What its cumulative TSN confirms.
    pub confirmation: Confirmation,
    /// Whether it confirms a message, or names one for the first time.
    pub makes_progress: bool,
}
