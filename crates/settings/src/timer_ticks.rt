//! The ticks of the timers.

/// How many ticks the timers of the node's own link tests run (Q.707 §5.5).
#[derive(Clone, Copy, PartialEq, Eq)]
pub struct LinkTestTicks {
    /// T1: waiting for the answer to a test.
    pub slt1: u16,
    /// T2: between a test and the next.
    pub slt2: u16,
}

/// How many ticks each timer runs.
#[derive(Clone, Copy, PartialEq, Eq)]
pub struct TimerTicks {
    /// Waiting for the adjacent point's Ready.
    pub l1: u16,
    /// Not aligned.
    pub l2: u16,
    /// Aligned.
    pub l3: u16,
    /// Proving.
    pub l4: u16,
    /// The adjacent point is busy.
    pub l6: u16,
    /// Waiting for a confirmation.
    pub l7: u16,
    /// Holding messages of a link that failed with no other to its adjacent point.
    pub t1: u16,
    /// Waiting for the acknowledgement of a changeover order.
    pub t2: u16,
    /// Holding messages that come back to a link.
    pub t3: u16,
    /// Waiting for the acknowledgement of a changeback declaration.
    pub t4: u16,
    /// Holding messages during a controlled rerouting.
    pub t6: u16,
    /// After a transfer-prohibited message, before the next about the same point.
    pub t8: u16,
    /// Between two route set tests.
    pub t10: u16,
    /// Those of the node's own link tests; without them it makes none.
    pub link_tests: Option<LinkTestTicks>,
    /// Emergency proving, where links align as RFC 4165 has it as a whole.
    pub l4e: Option<u16>,
    /// Between two tests of a prohibited subsystem, where the node hears of other points' subsystems.
    pub sst: Option<u16>,
    /// Waiting further for the acknowledgement of a changeover order, after the changeover is complete: longer than
    /// `t2`. Without it the wait ends with that timer.
    pub t2_bar: Option<u16>,
}
