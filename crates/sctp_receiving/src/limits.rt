//! The limits of a receiver.

/// How far ahead of the cumulative TSN a chunk is held: there is a place for each.
pub const CHUNKS: usize = 256;

/// Octets of a chunk that is held, at most: those of the longest frame of a link.
pub const CHUNK_OCTETS: usize = 290;

/// Octets of a message that fragments make, at most.
pub const MESSAGE_OCTETS: usize = 4096;

/// The window that a peer is told while nothing is held, in octets.
pub const WINDOW: usize = 65_536;

/// Gap blocks of a SACK, at most.
pub const BLOCKS: usize = 100;

/// TSNs that came again of a SACK, at most.
pub const DUPLICATES: usize = 20;
