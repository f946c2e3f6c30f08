//! A mated pair that gives nothing up: `exchange_trials mated N`, N runs with long bars, and N with short ones.
//!
//! Points 1 and 4 are two ends, points 2 and 3 two transfer points, each joined to both ends and to the other: by two
//! links from 1 to 3 and from 2 to 4, else by one. To each adjacent point the mate leads, too, but from one transfer
//! point to the other. Orders to change over go by any route (`changeover_by_any_route`), and links are barred until
//! their answers come (`timers.t2_bar`). Sets aren't spared: each link fails as often as any other.
//!
//! # A run
//!
//! A schedule passes as in `networks`, of the same 800 throws. Of 256 throws 40 submit a message, 62 take a frame, 62
//! deliver one of the two streams, 1 loses a link status, 1 doubles one, 3 lose the link, 10 let a tick pass, 24 open
//! it first, 28 let it follow the other end, and 25 carry a frame on each link each way. So T1 and T2 run out, too.
//! All links that may open come back then, three times, and frames are carried with ticks until nothing moves; and
//! what came is judged. Long bars last past that, short ones don't. At last bars run out, and all links are to come
//! back.
//!
//! # What a line says
//!
//! Its words are those of `networks`, and these:
//!
//! - `judged`: how many of the accepted messages are of runs in which no node counted by then that it doesn't know
//!   what the other end of a link has (`times_broken`). Each of them came once, or was refused once on its way, or a
//!   notice of some node names it as lost, by its destination and selection, and it came once at most. Then the line
//!   says `all once, refused or named`.
//! - `named`: how many of these didn't come, and weren't refused, so that they were named.
//! - `elsewhere`: how many orders and answers left the node that made them by a set which leads to another point than
//!   theirs; `passed on`: how often another node accepted one; `refused`: how often it refused one.
//! - `late`: how many orders went out about a link at whose failure no route led to its point.
//! - `overlooked`, if it isn't 0: in how many runs a step made more notices than a node keeps, so that some of what it
//!   named counts as lost.
//! - `broken`: in how many runs a node had counted such a thing as what came was judged, and in how many behind all
//!   bars. With long bars the first is 0: no end of a wait counts before, and no number is one that names nothing.
//! - `unended`: in how many runs a link didn't come into service by then.

use super::rest::{come_to_rest, tick_all};
use super::schedule::pass_schedule;
use super::total::{Ending, Total};
use super::world::World;
use crate::harness::count;
use crate::shape::Shape;
use std::alloc::Global;
use std::io;

/// Links are barred for so many ticks: past the end of each schedule,
const LONG_BAR: u8 = 120;

/// or hardly longer than T2 runs.
const SHORT_BAR: u8 = 3;

/// Tries so many runs with each bar, and prints what became of them.
pub(super) fn run(rt: &HostRuntime, runs: u64) -> io::Result<()> {
    for (bar, name) in [
        (LONG_BAR, "any route, long bars"),
        (SHORT_BAR, "any route, short bars"),
    ] {
        print!(rt; "{name}: ")?;
        pass_runs(rt.alloc(), bar, runs).print(rt)?;
    }
    Ok(())
}

/// What became of some runs.
#[derive(Clone, Copy, Default)]
struct Mated {
    /// Before bars ran out.
    total: Total,
    /// In how many of them a node didn't know by then what the other end of a link had,
    broken: u64,
    /// in how many behind all bars,
    broken_since: u64,
    /// and in how many a step made more notices than a node keeps.
    overlooked: u64,
}

/// So many runs with bars of so many ticks.
fn pass_runs(alloc: Global, bar: u8, runs: u64) -> Mated {
    let mut mated = Mated::default();
    for run in 0..runs {
        match World::new(alloc, Shape::AnyRoute(bar), run) {
            Some(mut world) => mated.pass_run(&mut world, bar),
            None => mated.total.starved = true,
        }
    }
    mated
}

impl Mated {
    /// One run.
    fn pass_run(&mut self, world: &mut World, bar: u8) {
        let ending = pass_schedule(world);
        count(&mut self.overlooked, world.network.overlooks() as u64);
        count(&mut self.broken, world.network.is_broken() as u64);
        self.total.add(
            world,
            Ending {
                ended: true,
                ..ending
            },
        );
        for _ in 0..bar {
            tick_all(&mut world.network);
        }
        count(
            &mut self.total.unended,
            !come_to_rest(&mut world.network) as u64,
        );
        count(&mut self.broken_since, world.network.is_broken() as u64);
    }

    /// Prints what became of them.
    fn print(&self, rt: &HostRuntime) -> io::Result<()> {
        let total = &self.total;
        if total.starved {
            return println!(rt; "memory ran out");
        }
        total.print_counts(rt)?;
        print!(rt; "{} named; ", total.named)?;
        total.print_judged(rt, "all once, refused or named")?;
        self.print_words(rt)?;
        if self.overlooked != 0 {
            print!(rt; "; overlooked {}", self.overlooked)?;
        }
        println!(rt;
            "; broken {}, then {}; unended {}",
            self.broken, self.broken_since, total.unended
        )
    }

    /// Prints what nodes did with orders to change over and their answers.
    fn print_words(&self, rt: &HostRuntime) -> io::Result<()> {
        let words = self.total.words;
        print!(rt;
            "elsewhere {} orders, {} answers; passed on {}, refused {}; late {} orders",
            words.orders_elsewhere, words.answers_elsewhere, words.passed, words.refused, words.late
        )
    }
}
