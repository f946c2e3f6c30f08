//! A gap block.

/// Chunks in a row that are held, by how far the first and the last are ahead of the cumulative TSN (RFC 9260 §3.3.4).
#[derive(Clone, Copy)]
pub struct Block {
    /// How far the first is ahead.
    pub start: u16,
    /// How far the last is ahead.
    pub end: u16,
}

impl Default for Block {
    fn default() -> Block {
        Block { start: 0, end: 0 }
    }
}
