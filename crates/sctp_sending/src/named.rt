//! What the gap blocks of a SACK named.

/// What the gap blocks of a SACK named for the first time.
#[derive(Clone, Copy)]
pub struct Named {
    /// How many octets.
    pub octets: u32,
    /// The index of the last message of these; 0 if there is none.
    pub reach: usize,
}
