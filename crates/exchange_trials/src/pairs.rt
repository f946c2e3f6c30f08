//! Two nodes whose links stop and come back, at each place of a busy exchange and at random; and two that have a third
//! neighbour each, whose routes fail and return meanwhile.
//!
//! Two nodes with the built-in timers have one to four links of one set between them, and each other as the one
//! destination. All that is done is a turn of the plain harness. A round is, for each end and each link in
//! order, a frame that is taken and then delivered at the other end. Each message carries its flow in its label, and
//! after that its number in the flow: the accepted messages of a flow are numbered 1, 2, 3 and so on.
//!
//! # What a line says
//!
//! - `frames`: how many were taken. `messages`: how many were accepted (queued or held) at either end.
//! - `all once (N)`: N messages came while neither end had set `lost_any`. None of them came twice, and each had been
//!   accepted; in a run in which no end ever set it, all that was accepted came. If that isn't so, the line says how
//!   many were `lost` and `doubled`.
//! - `in order (N)`: N of these came while the end that accepted them hadn't set `late_any` either. Those of each
//!   flow are the first that were accepted of it, in order, with none left out. If that isn't so, the line says how
//!   many `flows` were `out of order`.
//! - `lost_any`, `late_any`: in how many runs an end set the flag.
//! - `sums compared`: while no end had set `lost_any`, before each 16th step, the sums of both ends were compared: as
//!   many messages were accepted as the other end received and as wait, of all, of one flow, and
//!   of one message. That is done in every group; only the lines of the random groups say how often. If a sum is wrong,
//!   the line says how many `sums` were `wrong`.
//! - `unended`: in how many runs a link that was to open didn't, rounds never came to rest, not all messages came while
//!   one of several links was down though no end had set `lost_any`, or an order to add or remove a translation row
//!   wasn't carried out.
//!
//! What an end accepted is told by the outcomes of its steps, and what it received by the messages in the frames that
//! it newly accepted. Nothing is promised after `lost_any`, so what comes then isn't judged; the numbers in brackets
//! show how much was.
//!
//! # The groups
//!
//! - Stopped: all links come up, and each end submits a message on each of the 16 flows. At one of the places before,
//!   between and after the steps of eight rounds (12 steps a round over 3 links, so 97 places; 65 over 2; 33 over 1)
//!   a link stops, at end 1, at end 2 or at both. Rounds pass until one does nothing; by then all has come. All is
//!   submitted again, the link comes back while these messages wait on the others, all is submitted a third time, and
//!   rounds pass. Without a tick no timer of a changeover or a changeback runs out, so no flag is set. With ticks
//!   after each round T1 to T4 run out, at either end or at both.
//! - SCCP by title: as Stopped, without a tick, but only end 1 submits: a UDT for its own point on each of the 16
//!   flows, whose title its one translation row leads to end 2. That end has no row, and returns each by a UDTS, which
//!   end 1 refuses, since it has no subsystem. So each run accepts 48 UDTs at end 1 and as many UDTSs at end 2, and
//!   each comes.
//! - Stopped again: `e1` stops at both ends at the first place and comes back. After the third submissions end 1
//!   loses one of the links at one of the 13 places of the next round, while flows are taken back.
//! - One end first: as Stopped, without a tick, if the link stops at the end that is to open first. It opens at one
//!   end, and a round passes; then the other follows, or the first falls before that and opens again, or the other
//!   follows the fallen one and both open again, or never follows and opens first itself. In both orders of the ends.
//! - An answer late: both ends lose a link. The answer to one end's order stays behind, the link opens if it may,
//!   carries messages and is lost again, and only then does the answer come: for each end and each link, with 0 to 3
//!   messages that come before and 1 to 4 that are lost. By itself the link may not open. It does once T2 of that order
//!   has run out; then the late answer is taken for one to the second order, and that end has set `lost_any`.
//! - At random: 400 steps from a seed. Of 256 steps 78 submit a message, 86 take a frame, 67 deliver one, 4 lose a link
//!   status, 4 double one, 3 lose a link at an end, 3 let a tick pass, 1 keeps a link from opening by an operator's
//!   order or lets it open, 2 add or remove a translation row by one, 5 open a link at one end, and 3 let an end
//!   follow. The dice say whether a link status or User Data comes next, and whether the other end loses the link
//!   before it opens at this one. Then all links are let open, those that aren't in service come back, three times, and
//!   rounds pass until nothing is left.
//! - Third neighbours: four nodes in a ring. Points 1 and 2 are the two ends, with two links between them, which each
//!   knows by another number. Two more lead from end 1 to point 3, and from end 2 to point 4; one more is between
//!   these. A round has a frame each way on each of these links besides. End 1 submits a message on each of 8 flows to
//!   end 2, and on each to point 4; point 3 submits one on each of 8 others to end 2, and one to a point that end 1
//!   doesn't know; and so do end 2 and point 4. A link between the ends stops as in Stopped, without a tick. In these
//!   rounds the link between points 3 and 4 fails, so that each end is told and takes the other way to the point
//!   behind, and then one link of each end to its neighbour. All is submitted again, the link comes back, then the
//!   others do, and all is submitted a third time. So each run accepts 96 messages of one end for the other, has 4
//!   failures and 4 reroutings at the ends, refuses 6 messages, and of those that pass through 48 are for the other
//!   end. The line says more: `failures`, how often an end lost a link; `reroutings`, how often its route to the point
//!   behind the other end's neighbour took another set; `refused in transit` and `passed through`, how many messages
//!   that came by a frame it refused, and how many it led on.
//!
//! A link that fails while no other is left loses what waits for it when T1 runs out, and doesn't open before that. So
//! in each run over one link an end sets `lost_any`, and all that is left to judge is that nothing comes twice or out
//! of order.
//!
//! # What it has caught
//!
//! Twelve wrong rules were put into the code by hand, one at a time. A changeover that drops unsent messages, that
//! moves messages after the held ones, or that moves what the number of the order or the answer says was accepted; an
//! order or an answer with a number one too late; a changeback declaration on the link that came back; and a returning
//! link that holds no flow: these show in many lines. The others show in few:
//!
//! - A link may open while the answer to its order is awaited, or the other end's order ends that wait: "an answer
//!   late". T2 raises no flag: where it runs out before that answer.
//! - An order about a link whose changeover is complete isn't answered: `unended` where ticks pass.
//! - A link may open before its changeover is complete: `sums` at random.
//! - An acknowledgement also lifts the hold of a changeover: at random, over 3 and 4 links.

mod chance;
mod choices;
mod ends;
mod first;
mod late;
mod mark;
mod ring;
mod stop;
mod tally;

use crate::harness::Network;
use crate::rounds::Clock;
use crate::shape::Shape;
use chance::{throw_steps, translate};
use first::{FIRST_FALLS, FOLLOWS_FALLEN, IN_TURN, NEVER_FOLLOWS, Way, open_at_one_first};
use late::answer_late;
use ring::stop_in_ring;
use std::alloc::Global;
use std::io;
use stop::{stop_again, stop_once};
use tally::Tally;

/// What passes in the runs of a group.
#[derive(Clone, Copy)]
enum Play {
    /// A link stops, and comes back.
    Stop(Clock),
    /// So it does while end 1 relays.
    Relay,
    /// A link stops, and opens at one end before the other.
    First(Way),
    /// A link stops while another that stopped before takes its flows back.
    Again,
    /// A link stops, and an answer about it comes late, once T2 has run out or before.
    Late(bool),
    /// A random schedule.
    Chance,
    /// A link stops between ends that have a third neighbour each.
    Ring,
}

/// How many schedules there are over each number of links.
const SCHEDULES: u16 = 1250;

const THREE: Shape = Shape::Pair(3);

/// So many ticks pass at the two ends between two rounds.
const STILL: Play = Play::Stop(Clock::STILL);

const BOTH: Play = Play::Stop(Clock { one: 1, two: 1 });

const ONE: Play = Play::Stop(Clock { one: 1, two: 0 });

const TWO: Play = Play::Stop(Clock { one: 0, two: 2 });

/// All groups of runs that are alike, what they are called, and how many runs they have.
const GROUPS: [(Shape, Play, u16, &str); 19] = [
    (
        THREE,
        STILL,
        97 * 3 * 3,
        "stopped at 97 places, 3 links, 3 ends",
    ),
    (THREE, BOTH, 97 * 3 * 3, "the same, a tick at both ends"),
    (THREE, ONE, 97 * 3 * 3, "the same, a tick at end 1"),
    (THREE, TWO, 97 * 3 * 3, "the same, 2 ticks at end 2"),
    (
        THREE,
        Play::Relay,
        97 * 3 * 3,
        "SCCP by title, stopped at 97 places, 3 links, 3 ends",
    ),
    (
        THREE,
        Play::First(IN_TURN),
        97 * 3 * 2,
        "one end first at 97 places, 3 links, 2 orders",
    ),
    (
        THREE,
        Play::First(FIRST_FALLS),
        97 * 3 * 2,
        "the same, it falls and opens again before the other follows",
    ),
    (
        THREE,
        Play::First(FOLLOWS_FALLEN),
        97 * 3 * 2,
        "the same, it falls before the other follows, and both open again",
    ),
    (
        THREE,
        Play::First(NEVER_FOLLOWS),
        97 * 3 * 2,
        "the same, the other never follows, and opens first",
    ),
    (
        THREE,
        Play::Again,
        13 * 3,
        "stopped again at 13 places, 3 links, end 1",
    ),
    (
        THREE,
        Play::Late(false),
        3 * 2 * 16,
        "an answer late, 3 links, 2 ends, 16 counts",
    ),
    (
        THREE,
        Play::Late(true),
        3 * 2 * 16,
        "the same, T2 runs out before it comes",
    ),
    (
        Shape::Pair(2),
        BOTH,
        65 * 2 * 3,
        "stopped at 65 places, 2 links, 3 ends, a tick at both ends",
    ),
    (
        Shape::Pair(1),
        BOTH,
        33 * 3,
        "stopped at 33 places, 1 link, 3 ends, a tick at both ends",
    ),
    (
        Shape::Pair(1),
        Play::Chance,
        SCHEDULES,
        "400 steps by chance, 1 link",
    ),
    (
        Shape::Pair(2),
        Play::Chance,
        SCHEDULES,
        "400 steps by chance, 2 links",
    ),
    (
        THREE,
        Play::Chance,
        SCHEDULES,
        "400 steps by chance, 3 links",
    ),
    (
        Shape::Pair(4),
        Play::Chance,
        SCHEDULES,
        "400 steps by chance, 4 links",
    ),
    (
        Shape::Ring,
        Play::Ring,
        65 * 2 * 3,
        "third neighbours, stopped at 65 places, 2 links, 3 ends",
    ),
];

/// Runs all groups, and prints a line for each.
pub(crate) fn run(rt: &HostRuntime) -> io::Result<()> {
    for (shape, play, runs, name) in GROUPS {
        let mut total = Tally::default();
        for run in 0..runs {
            try_run(rt.alloc(), shape, play, run, &mut total);
        }
        total.print(rt, name)?;
        print_rest(rt, play, &total)?;
    }
    Ok(())
}

/// Adds what becomes of the run of a number. Networks are dropped only here, since a function that does it has a long
/// proof.
fn try_run(alloc: Global, shape: Shape, play: Play, run: u16, total: &mut Tally) {
    match Network::new(alloc, shape) {
        Some(mut network) => {
            let ended = pass(&mut network, play, run);
            total.add(&network, ended);
        }
        None => total.starved = true,
    }
}

/// The run of a number. Says whether all ended as it should.
fn pass(network: &mut Network, play: Play, run: u16) -> bool {
    match play {
        Play::Stop(clock) => stop_once(network, run, clock),
        Play::Relay => {
            network.relays = translate(network, 1);
            network.relays && stop_once(network, run, Clock::STILL)
        }
        Play::First(way) => open_at_one_first(network, run, way),
        Play::Again => stop_again(network, run),
        Play::Late(expires) => answer_late(network, run, expires),
        Play::Chance => throw_steps(network, run),
        Play::Ring => stop_in_ring(network, run),
    }
}

/// Prints what else is said of a group, and ends the line.
fn print_rest(rt: &HostRuntime, play: Play, total: &Tally) -> io::Result<()> {
    match play {
        Play::Chance => println!(rt; ", sums compared {}", total.compared),
        Play::Ring => println!(rt;
            ", failures {}, reroutings {}, refused in transit {}, passed through {}",
            total.failures, total.reroutings, total.refused, total.passed
        ),
        _ => println!(rt;),
    }
}
