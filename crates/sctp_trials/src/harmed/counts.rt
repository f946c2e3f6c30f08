//! What came of datagrams.

/// What came of datagrams.
#[derive(Clone, Copy)]
pub struct Counts {
    /// Sessions that weren't seen in their phase as they began.
    pub elsewhere: u64,
    /// All datagrams.
    pub handed_in: u64,
    /// Those whose checksum is wrong.
    pub refused: u64,
    /// Those that are packets.
    pub read: u64,
    /// Of these, those to other ports or with another tag than they need.
    pub foreign: u64,
    /// Of these, those that were answered.
    pub out_of_the_blue: u64,
    /// Events that were told.
    pub told: u64,
    /// Datagrams that did what they may not.
    pub wrong: u64,
}

impl Counts {
    /// Nothing yet.
    pub fn new() -> Counts {
        Counts {
            elsewhere: 0,
            handed_in: 0,
            refused: 0,
            read: 0,
            foreign: 0,
            out_of_the_blue: 0,
            told: 0,
            wrong: 0,
        }
    }
}

/// One more, if it is.
pub fn add(number: &mut u64, is_one: bool) {
    if is_one {
        *number = number.saturating_add(1);
    }
}
