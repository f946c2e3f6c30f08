//! Settings as they were written, not yet checked.

ghost use Rattle.std.specs.Prelude.{◌≡◌, [], None, pos, string_bytes};

use std::alloc::Global;

/// The settings of a node as they were written: any numbers, any texts.
#[derive(Drop)]
pub struct Draft {
    /// The node's own point code.
    pub own: i64,
    /// The network indicator of the node's messages.
    pub network: i64,
    /// Messages that may be sent on a link before one is confirmed.
    pub window: i64,
    /// User messages that the node may keep.
    pub pool: i64,
    /// Service indicators of the user parts that are on this node.
    pub users: Vec<i64>,
    /// Numbers of the subsystems that are on this node.
    pub subsystems: Vec<i64>,
    /// Whether extended unitdata (XUDT, XUDTS) are relayed.
    pub extended_unitdata: bool,
    /// Whether a test of a subsystem on this node (SST) is answered.
    pub subsystem_tests: bool,
    /// Whether the sender of a message for a user part that isn't on this node is told so (UPU).
    pub user_part_unavailable: bool,
    /// Whether a link stays in service while its peer's processor is out (Q.703 §8).
    pub processor_outage: bool,
    /// Whether a link sends Out of Service before Alignment as its association comes up (RFC 4165 §5.1).
    pub out_of_service: bool,
    /// Whether an order to change over goes out by any way to the adjacent point, not only by another link of its set.
    pub changeover_by_any_route: bool,
    /// How long each timer runs.
    pub timers: TimersDraft,
    /// The link sets.
    pub sets: Vec<SetDraft>,
    /// The links.
    pub links: Vec<LinkDraft>,
    /// The destinations.
    pub destinations: Vec<DestinationDraft>,
    /// The translation rows.
    pub titles: Vec<TitleDraft>,
}

/// How many ticks each timer runs, as it was written.
#[derive(Clone, Copy)]
pub struct TimersDraft {
    /// Waiting for the adjacent point's Ready.
    pub l1: i64,
    /// Not aligned.
    pub l2: i64,
    /// Aligned.
    pub l3: i64,
    /// Proving.
    pub l4: i64,
    /// The adjacent point is busy.
    pub l6: i64,
    /// Waiting for a confirmation.
    pub l7: i64,
    /// Holding messages of a link that failed with no other to its adjacent point.
    pub t1: i64,
    /// Waiting for the acknowledgement of a changeover order.
    pub t2: i64,
    /// Holding messages that come back to a link.
    pub t3: i64,
    /// Waiting for the acknowledgement of a changeback declaration.
    pub t4: i64,
    /// Holding messages during a controlled rerouting.
    pub t6: i64,
    /// After a transfer-prohibited message, before the next about the same point.
    pub t8: i64,
    /// Between two route set tests.
    pub t10: i64,
    /// Those of the node's own link tests; without them it makes none.
    pub link_tests: Option<LinkTestsDraft>,
    /// Emergency proving; if there is one, links align as RFC 4165 has it as a whole.
    pub l4e: Option<i64>,
    /// Between two tests of a prohibited subsystem; if there is one, the node hears of other points' subsystems.
    pub sst: Option<i64>,
    /// Waiting further for the acknowledgement of a changeover order, after the changeover is complete; if there is
    /// none, the wait ends with T2.
    pub t2_bar: Option<i64>,
}

/// How many ticks the timers of the node's own link tests run, as it was written.
#[derive(Clone, Copy)]
pub struct LinkTestsDraft {
    /// Waiting for the answer to a test.
    pub slt1: i64,
    /// Between a test and the next.
    pub slt2: i64,
}

/// A link set, as it was written.
#[derive(Drop)]
pub struct SetDraft {
    /// Its name.
    pub name: String,
    /// The point that its links lead to.
    pub adjacent: i64,
}

/// A link, as it was written.
#[derive(Drop)]
pub struct LinkDraft {
    /// Its name.
    pub name: String,
    /// The name of its link set.
    pub set: String,
    /// Its signalling link code.
    pub slc: i64,
    /// How many messages it may keep before more are refused; as many as the pool has room for, if none.
    pub share: Option<i64>,
}

/// A destination, as it was written.
#[derive(Drop)]
pub struct DestinationDraft {
    /// Its point code.
    pub point: i64,
    /// The names of the link sets that lead to it, the preferred one first.
    pub sets: Vec<String>,
    /// Whether its first two sets are preferred alike, and share its messages.
    pub joined: bool,
}

/// A translation row, as it was written.
#[derive(Drop)]
pub struct TitleDraft {
    /// Translation type.
    pub translation: i64,
    /// Numbering plan.
    pub plan: i64,
    /// Nature of address.
    pub nature: i64,
    /// The digits that an address begins with.
    pub digits: String,
    /// The point that such an address leads to.
    pub point: i64,
    /// The point that it leads to while that one can't be reached, if any.
    pub backup: Option<i64>,
    /// How it is routed there: `title` or `ssn`.
    pub route: String,
    /// The subsystem number there, if any.
    pub ssn: Option<i64>,
    /// How the title of such an address changes.
    pub change: ChangeDraft,
}

/// How a translation row changes titles, as it was written.
#[derive(Drop)]
pub struct ChangeDraft {
    /// The numbering plan that a title gets, if another.
    pub plan: Option<i64>,
    /// The nature of address that it gets, if another.
    pub nature: Option<i64>,
    /// How many of its first digits are taken off.
    pub removed: i64,
    /// The digits that are then put on in front.
    pub added: String,
}

impl ChangeDraft {
    /// No change. It allocates nothing.
    pub fn none(alloc: Global) -> ChangeDraft
        ensures plan { result.plan ≡ None }
        ensures nature { result.nature ≡ None }
        ensures removed { result.removed ≡ pos 0 }
        ensures added { string_bytes result.added ≡ [] }
    {
        ChangeDraft {
            plan: None,
            nature: None,
            removed: 0,
            added: String::new(alloc),
        }
    }
}
