//! Every limit of the node, by name.

/// The limits of the node.
pub struct Limits;

impl Limits {
    /// Octets in the signalling information field of a message (Q.703 §2.3.8).
    pub const SIF_OCTETS: usize = 272;

    /// Links of a node.
    pub const LINKS: usize = 64;

    /// Signalling link selections, which have four bits (Q.704 §2.2.4).
    pub const SELECTIONS: usize = 16;

    /// Links of one link set (Q.704 §2.2.4: four bits of link selection).
    pub const LINKS_PER_SET: usize = 16;

    /// Link sets of a node.
    pub const SETS: usize = 32;

    /// Destinations of a node.
    pub const DESTINATIONS: usize = 4096;

    /// Link sets that lead to one destination.
    pub const SETS_PER_DESTINATION: usize = 8;

    /// Translation rows of a node.
    pub const TITLES: usize = 65_535;

    /// Digits of a translation row.
    pub const TITLE_DIGITS: usize = 32;

    /// Octets in a name of a link or a link set.
    pub const NAME_OCTETS: usize = 32;

    /// User messages in the whole state, at most.
    pub const POOL: usize = 65_535;

    /// Management messages in the whole state.
    pub const MANAGEMENT_MESSAGES: usize = 256;

    /// Messages that may be sent on a link before one is confirmed, at most.
    pub const WINDOW: usize = 16_384;

    /// Changeback codes of one adjacent point that are used: 0 to 15 (Q.704 §15.5).
    pub const CHANGEBACK_CODES: usize = 16;

    /// Ticks of a timer, at most.
    pub const TICKS: usize = 65_535;

    /// Octets of a frame that a framer or a script takes, at most. The longest frame of M2PA whose message isn't
    /// refused TooLong has 290.
    pub const FRAME_OCTETS: usize = 4096;

    /// Notices that are kept.
    pub const NOTICES: usize = 64;
}
