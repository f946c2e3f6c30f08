//! Networks of four shapes, whose links fail and return at random: `exchange_trials networks N`, N runs of each shape.
//!
//! A network is a line of four nodes, a triangle, a square, or a mated pair: two ends, points 1 and 4, and two transfer
//! points, each joined to both ends and to the other. Each set has two links, in the line three. One set alone leads to
//! an adjacent point. In the square two lead to the opposite one, and each end of the mated pair shares its messages
//! for the other among two. To point 9, which isn't there, sets lead by which the last node refuses what comes. Timers
//! are as built in, but L7, T1, T2 and T4 are longer than most schedules: so what one end waits for comes by frames,
//! unless a set fails whole. All that is done in a schedule is a turn of the plain harness.
//!
//! # A run
//!
//! Two of three links come up, by chance. Then the dice of the run are thrown 800 times, each time at a random link of
//! a random node. Of 256 throws 50 submit a message for another point on one of the 16 flows, 80 take a frame, 78
//! deliver one of the two streams, 4 lose a link status, 4 double one, 6 lose the link, 5 let a tick pass, 1 keeps the
//! link from opening by an operator's order or lets it open, 9 open it first, 8 let it follow the other end, and 11
//! carry a frame on each link each way. A link that is alone in its set in service is lost or kept from opening in few
//! of these throws alone: a set that fails whole is named as lost. Then all links are let open, those that aren't in
//! service come back, three times, and frames are carried with ticks until nothing moves.
//!
//! # A run that begins anew
//!
//! One run of four, by the dice, goes on. They are thrown 80 times, then a random node starts again
//! (`Network::restart`), and they are thrown 80 times more; in half of these runs, by the dice too, a random node does
//! so once more, and 80 throws follow. Each is as above, but for one of eight: there a random end of a link loses it
//! and gives up following, if the other end is down. Then each link is lost at both ends, no end may follow
//! (`Deed::Fall`), and 16 ticks pass at each node: the network is to be quiet by then (`Network::is_quiet`). If
//! it is, the books begin anew (`Network::begin_anew`), and so does what is submitted; and a schedule passes as above,
//! from the links that come up to the end.
//!
//! # What a line says
//!
//! Each message has a mark of its own. What came is judged by the marks in the books of the nodes, and by nothing
//! else. A shape has two lines. One is of all runs, before any goes on. The other, `anew`, is of the runs whose books
//! began anew, and of what was submitted since: one that was submitted before and comes then is made up. That a node
//! sets a flag means there that it counts one loss or lateness more than it had when the books began (`times_lost` and
//! `times_late` of `Exchange`).
//!
//! - `steps`: how many turns the schedules took. `failures`: how often a node lost a link in them. `reroutings`: how
//!   often the first set to some destination changed at a node, till the end of the run.
//! - `submitted`, `accepted` (queued or held where they were submitted), `received` at their destinations, `refused in
//!   transit` by another node.
//! - `judged`: how many of the accepted messages are of runs in which no node set `lost_any`. Each of them came once
//!   or was refused once. Of no run did a message come twice, or one that wasn't accepted. Then the line says `all
//!   once or refused`, else how many were `lost`, `doubled` and `made up`.
//! - `in order (N)`: N messages came while their flow was promised to be in order, and none after one that was
//!   submitted later. It is promised from a node to an adjacent one for what came while the first hadn't set
//!   `late_any`; and in the line from each node to each in `steady` runs: those in which no node set a flag, and no
//!   first set changed.
//! - `lost_any`: in how many runs a node set the flag.
//! - `unended`: in how many runs frames never came to rest, or a link didn't come into service.
//! - `restarts`: how often a node started again. `restless`: in how many runs the network wasn't quiet behind that.
//!
//! The first two lines are of a run that is made wrong, so that there is something to find: one message is booked as
//! accepted that was never submitted, one is submitted twice, and two in the wrong order. Then node 2 starts again, and
//! in the books that begin anew the same is wrong; besides, one message is submitted with a mark of before.

mod book;
mod deliberate;
mod judge;
mod mated;
mod rest;
mod schedule;
mod third_flag;
mod total;
mod world;

use crate::shape::Shape;
use deliberate::make_wrong;
use schedule::schedules;
use std::io;

/// The four shapes, and what they are called.
const SHAPES: [(Shape, &str); 4] = [
    (Shape::Line, "line of 4"),
    (Shape::Triangle, "triangle"),
    (Shape::Square, "square"),
    (Shape::MatedPair, "mated pair"),
];

/// Plays a run that shows what the flags of third nodes are for, and tries mated pairs whose orders to change over go
/// by any route in so many runs. Prints what became of them.
pub(crate) fn run_mated(rt: &HostRuntime, runs: u64) -> io::Result<()> {
    third_flag::run(rt)?;
    mated::run(rt, runs)
}

/// Tries each shape in so many runs, and prints what became of them, behind the two lines of a run that is made wrong.
pub(crate) fn run(rt: &HostRuntime, runs: u64) -> io::Result<()> {
    make_wrong(rt.alloc()).print(rt, "made wrong")?;
    for (shape, name) in SHAPES {
        schedules(rt.alloc(), shape, runs).print(rt, name)?;
    }
    Ok(())
}
