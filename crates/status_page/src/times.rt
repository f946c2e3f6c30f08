//! How long a node has run, and how long it was busy at once.

/// What the clock says of a node. It has none itself, so whoever serves it tells.
#[derive(Clone, Copy)]
pub struct Times {
    /// Milliseconds since the start of the node.
    pub uptime_ms: u64,
    /// How many microseconds the longest turn of its loop took so far. Whatever comes meanwhile waits.
    pub longest_turn_us: u64,
}
