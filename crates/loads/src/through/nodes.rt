//! The settings of the peers, and of the node between them.

use crate::draft::{Routes, Sets, Shape, draft_with};
use crate::titles::Table;
use settings::{Draft, TimersDraft};
use std::alloc::{AllocError, Global};
use std::io;

/// The point that submits messages.
pub(crate) const SENDER: u16 = 1;

/// The point that counts them.
pub(crate) const RECEIVER: u16 = 2;

/// The point of the node between these two.
const BETWEEN: u16 = 3;

/// Prints the settings of the node between the peers. Its link to the one that submits listens at this port, that to
/// the other at the next.
pub(crate) fn print_between(rt: &HostRuntime, port: u16) -> io::Result<()> {
    let next = u32::from(port) + 1;
    print!(rt;
        "\
version = 2
own = {BETWEEN}
network = 2
window = 4096
pool = 65535
users = [5]
subsystems = []
serve = {{ tick_ms = 100 }}
timers = {{ l1=10, l2=10, l3=10, l4=3, l6=20, l7=50, t1=4, t2=6, t3=4, t4=4, t6=4, t8=3, t10=8 }}
"
    )?;
    print_set(rt, SENDER, u32::from(port))?;
    print_set(rt, RECEIVER, next)
}

/// Prints the set to a peer, whose link listens at this port, and the peer as a destination.
fn print_set(rt: &HostRuntime, peer: u16, port: u32) -> io::Result<()> {
    print!(rt;
        "\
[[set]]
name = \"to-{peer}\"
adjacent = {peer}
[[link]]
name = \"e{peer}-0\"
set = \"to-{peer}\"
slc = 0
listen = \"127.0.0.1:{port}\"
[[destination]]
point = {peer}
sets = [\"to-{peer}\"]
joined = false
"
    )
}

/// How many ticks each timer of a peer runs: as many as those of the node between.
const TIMERS: TimersDraft = TimersDraft {
    l1: 10,
    l2: 10,
    l3: 10,
    l4: 3,
    l6: 20,
    l7: 50,
    t1: 4,
    t2: 6,
    t3: 4,
    t4: 4,
    t6: 4,
    t8: 3,
    t10: 8,
    link_tests: None,
    l4e: None,
    sst: None,
    t2_bar: None,
};

/// A node with one link, and a destination behind its adjacent point.
const PEER: Shape = Shape {
    destinations: 2,
    links: 1,
    sets: Sets::Single,
    routes: Routes::One,
    window: 4096,
    table: Table::Empty,
};

/// The settings of a peer: its link leads to the node between, with the other peer behind it.
pub(crate) fn peer(alloc: Global, own: u16, other: u16) -> Result<Draft, AllocError> {
    let mut draft = draft_with(alloc, &PEER)?;
    draft.own = i64::from(own);
    draft.timers = TIMERS;
    for set in draft.sets.iter_mut() {
        set.adjacent = i64::from(BETWEEN);
    }
    for (destination, point) in draft.destinations.iter_mut().zip([BETWEEN, other]) {
        destination.point = i64::from(point);
    }
    Ok(draft)
}
