//! What became of some runs, and what is printed of it.

use super::judge::{Promise, judge};
use super::rest::fall_to_rest;
use super::world::World;
use crate::harness::{Words, count};
use std::io;

/// How a schedule ended.
#[derive(Clone, Copy)]
pub(super) struct Ending {
    /// How often something was done at a node in it,
    pub steps: u64,
    /// and a node lost a link.
    pub failures: u64,
    /// Whether frames came to rest, with all links in service.
    pub ended: bool,
}

/// What became of some runs, in the words of a line (`networks`).
#[derive(Clone, Copy, Default)]
pub(super) struct Total {
    pub runs: u64,
    pub steps: u64,
    pub failures: u64,
    pub reroutings: u64,
    pub submitted: u64,
    pub accepted: u64,
    pub received: u64,
    pub refused: u64,
    pub named: u64,
    pub judged: u64,
    pub lost: u64,
    pub doubled: u64,
    pub made_up: u64,
    pub in_order: u64,
    pub out_of_order: u64,
    pub lost_any: u64,
    pub steady: u64,
    pub unended: u64,
    /// What all nodes did with orders to change over and their answers.
    pub words: Words,
    /// Whether memory ran out: then not all was done.
    pub starved: bool,
}

impl Total {
    /// Adds what became of one more run since its books began.
    pub(super) fn add(&mut self, world: &World, ending: Ending) {
        let promise = Promise::of(world);
        count(&mut self.runs, 1);
        count(&mut self.steps, ending.steps);
        count(&mut self.failures, ending.failures);
        for site in world.network.sites.as_slice() {
            count(&mut self.reroutings, site.seen.reroutings);
            self.words.add(site.words);
        }
        count(&mut self.lost_any, !promise.whole as u64);
        count(&mut self.steady, promise.steady as u64);
        count(&mut self.unended, !ending.ended as u64);
        self.starved |= world.network.starved || world.book.starved;
        self.starved |= judge(world, promise, self).is_none();
    }

    /// Prints it, without the end of the line.
    fn print(&self, rt: &HostRuntime) -> io::Result<()> {
        self.print_counts(rt)?;
        self.print_judged(rt, "all once or refused")?;
        match self.out_of_order {
            0 => print!(rt; "in order ({})", self.in_order)?,
            turned => print!(rt; "{turned} out of order ({})", self.in_order)?,
        }
        print!(rt;
            "; lost_any {}, steady {}; unended {}",
            self.lost_any, self.steady, self.unended
        )
    }

    /// Prints what was done, and how many messages there were.
    pub(super) fn print_counts(&self, rt: &HostRuntime) -> io::Result<()> {
        print!(rt;
            "{} runs, {} steps, {} failures, {} reroutings; ",
            self.runs, self.steps, self.failures, self.reroutings
        )?;
        print!(rt;
            "{} submitted, {} accepted, {} received, {} refused in transit; ",
            self.submitted, self.accepted, self.received, self.refused
        )
    }

    /// Prints how many were judged, and if all is well this, else what isn't.
    pub(super) fn print_judged(&self, rt: &HostRuntime, well: &str) -> io::Result<()> {
        let hundred = self.judged.wrapping_mul(100);
        print!(rt; "{}% judged, ", hundred / self.accepted.max(1))?;
        match (self.lost, self.doubled, self.made_up) {
            (0, 0, 0) => print!(rt; "{well}, "),
            (lost, doubled, made_up) => {
                print!(rt; "{lost} lost, {doubled} doubled, {made_up} made up, ")
            }
        }
    }
}

/// What became of the runs of a shape.
#[derive(Clone, Copy, Default)]
pub(super) struct Totals {
    /// Of all of them, until they ended first.
    pub first: Total,
    /// Of those in which nodes started again, since their books began anew.
    pub anew: Total,
    restarts: u64,
    restless: u64,
}

impl Totals {
    /// So many nodes started again. All links fall, and if the network is quiet then, all books begin anew. Says
    /// whether they do.
    pub(super) fn begin_anew(&mut self, world: &mut World, restarts: u64) -> bool {
        let rests = fall_to_rest(&mut world.network);
        count(&mut self.restarts, restarts);
        count(&mut self.restless, !rests as u64);
        if rests {
            world.network.begin_anew();
            world.book.begin_anew();
        }
        rests
    }

    /// Prints what became of them, in two lines: until they ended first, and since their books began anew.
    pub(super) fn print(&self, rt: &HostRuntime, name: &str) -> io::Result<()> {
        if self.first.starved || self.anew.starved {
            return println!(rt; "{name}: memory ran out");
        }
        print!(rt; "{name}: ")?;
        self.first.print(rt)?;
        print!(rt; "\n{name}, anew: ")?;
        self.anew.print(rt)?;
        println!(rt; "; restarts {}, restless {}", self.restarts, self.restless)
    }
}
