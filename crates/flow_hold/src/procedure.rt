//! The procedures that hold flows.

use signalling_types::{LinkId, SetId};

/// What holds a flow.
#[derive(Clone, Copy, PartialEq, Eq)]
pub enum Procedure {
    /// The changeover of a link that failed (Q.704 §5).
    Changeover(LinkId),
    /// A changeback with the adjacent point of a set, by its code (Q.704 §6).
    Code(SetId, u8),
    /// A changeback to a link that only time ends (Q.704 §6).
    Time(LinkId),
    /// The controlled rerouting of a destination, by its number in the order of the settings (Q.704 §8).
    Reroute(usize),
}
