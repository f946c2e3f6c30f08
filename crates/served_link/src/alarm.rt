//! What an alarm is about.

ghost use Rattle.std.specs.Prelude.{◌≡◌, ◌+◌, ◌<◌};
ghost use Rattle.served_link.specs.Alarms.{alarm_at, behind_node, place_of};

use signalling_types::{LinkId, SetId};

/// Alarms that are about the node as a whole.
pub const NODE_ALARMS: usize = 5;

/// Numbers of links, and of sets.
pub const LINK_NUMBERS: usize = 256;

/// Alarms that are about no destination.
pub const NEAR_ALARMS: usize = NODE_ALARMS + 2 * LINK_NUMBERS;

/// Numbers of destinations.
pub const DESTINATION_NUMBERS: usize = 65_536;

/// What an alarm is about.
#[derive(Clone, Copy, PartialEq, Eq)]
pub enum Alarm {
    /// A message may have been lost since the start.
    LostAny,
    /// Messages of a flow may have gone out of order since the start.
    LateAny,
    /// The pool of user messages is nearly full.
    Pool,
    /// The capture has failed.
    Capture,
    /// More ticks are due than a round can let pass.
    Behind,
    /// A link isn't in service (Q.704 §3.2).
    Link(LinkId),
    /// No link of a set is in service.
    Set(SetId),
    /// No route to the destination of this number is open (Q.704 §3.6).
    Destination(u16),
}

impl Alarm {
    /// The alarm's place in the table of alarms.
    pub fn place(self) -> usize
        ensures place { result ≡ place_of self }
        ensures fits { result < NEAR_ALARMS + DESTINATION_NUMBERS }
    {
        match self {
            Alarm::LostAny => 0,
            Alarm::LateAny => 1,
            Alarm::Pool => 2,
            Alarm::Capture => 3,
            Alarm::Behind => 4,
            Alarm::Link(link) => NODE_ALARMS + link.index(),
            Alarm::Set(set) => NODE_ALARMS + LINK_NUMBERS + set.index(),
            Alarm::Destination(destination) => NEAR_ALARMS + destination as usize,
        }
    }

    /// The alarm at a place of the table. None behind the last.
    pub fn at(place: usize) -> Option<Alarm>
        ensures { result ≡ alarm_at place }
    {
        match place {
            0 => Some(Alarm::LostAny),
            1 => Some(Alarm::LateAny),
            2 => Some(Alarm::Pool),
            3 => Some(Alarm::Capture),
            4 => Some(Alarm::Behind),
            _ => Alarm::behind_node(place - NODE_ALARMS),
        }
    }

    /// The alarm so far behind those of the node.
    fn behind_node(place: usize) -> Option<Alarm>
        ensures { result ≡ behind_node place }
    {
        if place < LINK_NUMBERS {
            Some(Alarm::Link(LinkId::new(place as u8)))
        } else if place < 2 * LINK_NUMBERS {
            Some(Alarm::Set(SetId::new((place - LINK_NUMBERS) as u8)))
        } else if place < 2 * LINK_NUMBERS + DESTINATION_NUMBERS {
            Some(Alarm::Destination((place - 2 * LINK_NUMBERS) as u16))
        } else {
            None
        }
    }
}
