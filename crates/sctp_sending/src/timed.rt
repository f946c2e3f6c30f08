//! A message whose round trip is measured.

/// A message whose round trip is measured: it went out once.
#[derive(Clone, Copy)]
pub struct Timed {
    /// Its place among those that aren't confirmed.
    pub place: usize,
    /// When it went out, in milliseconds.
    pub since: u64,
}
