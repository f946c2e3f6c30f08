//! The names of timers, and their order.

use signalling_types::{LinkId, SetId};

/// A timer by what it is for. Names come in the order of these kinds, and within a kind in the
/// order of the settings: by link, by set and code, by destination, by set and destination.
#[derive(Clone, Copy, PartialEq, Eq)]
pub enum TimerName {
    /// The link waits, aligned and ready, for its peer (Q.703 §12.3).
    L1(LinkId),
    /// The link waits for its peer to align (Q.703 §12.3).
    L2(LinkId),
    /// The aligned link waits for its peer to prove (Q.703 §12.3).
    L3(LinkId),
    /// The link is proved (Q.703 §12.3).
    L4(LinkId),
    /// The peer of the link is busy (Q.703 §12.3).
    L6(LinkId),
    /// A message sent on the link waits for its confirmation (Q.703 §12.3).
    L7(LinkId),
    /// The changeover of the link waits until it may go on without the peer (Q.704 §16.8).
    T1(LinkId),
    /// The changeover of the link waits for its acknowledgement (Q.704 §16.8).
    T2(LinkId),
    /// Messages for the link wait if no changeback declaration can go (Q.704 §16.8).
    T3(LinkId),
    /// A changeback declaration of this code waits for its answer (Q.704 §16.8).
    T4(SetId, u8),
    /// Messages to the destination wait in controlled rerouting (Q.704 §16.8).
    T6(u16),
    /// A transfer prohibited message about the destination was just sent to the set's adjacent
    /// point (Q.704 §16.8).
    T8(SetId, u16),
    /// The set's adjacent point will be asked about its route to the destination again (Q.704
    /// §16.8).
    T10(SetId, u16),
    /// T1 of the link's test: the link waits for the answer to it (Q.707 §5.5).
    Slt1(LinkId),
    /// T2 of the link's test: the next one will go out on the link (Q.707 §5.5).
    Slt2(LinkId),
}

/// A timer that a set has for each destination (Q.704 §16.8).
#[derive(Clone, Copy, PartialEq, Eq)]
pub enum RouteTimer {
    /// Transfer prohibited inhibition: such a message about the destination was just sent to the
    /// set's adjacent point.
    T8,
    /// Signalling route set test: the set's adjacent point will be asked about its route to the
    /// destination again.
    T10,
}

/// How many links, sets and destinations a node has, which says what timers it has.
#[derive(Clone, Copy, PartialEq, Eq)]
pub struct NodeCounts {
    /// Its links.
    pub links: u8,
    /// Its link sets.
    pub sets: u16,
    /// Its destinations.
    pub destinations: u16,
}
