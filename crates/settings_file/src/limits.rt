//! The limits of settings files of earlier versions.

/// Octets in a name of a link or a link set in a file of version 1, 2 or 3, at most.
pub const SHORT_NAME_OCTETS: usize = 16;

/// What a file of the first version may ask for at most. Files of later versions have the limits of the node.
pub struct FirstLimits;

impl FirstLimits {
    /// Messages that may be sent on a link before one is confirmed.
    pub const WINDOW: usize = 4096;

    /// Destinations of a node.
    pub const DESTINATIONS: usize = 1024;
}
