//! What became of the runs of a group, and what is printed of it.

use super::ends::{ENDS, other};
use super::mark::Mark;
use crate::harness::{Network, count, goes_to, place_of};
use crate::throws::FLOWS;
use std::io;

/// What is counted of runs, in the words of a line (`pairs`). Each is a count but the last.
#[derive(Clone, Copy, Default)]
pub(crate) struct Tally {
    pub runs: u64,
    pub frames: u64,
    pub messages: u64,
    pub once: u64,
    pub in_order: u64,
    pub lost: u64,
    /// Messages that came again, or were never accepted.
    pub doubled: u64,
    /// Flows with a message that wasn't the next one.
    pub turned: u64,
    pub lost_any: u64,
    pub late_any: u64,
    pub unended: u64,
    pub compared: u64,
    pub wrong: u64,
    pub failures: u64,
    pub reroutings: u64,
    pub refused: u64,
    pub passed: u64,
    /// Whether memory ran out: then not all was done.
    pub starved: bool,
}

impl Tally {
    /// Adds what became of a run that ended as it should, or not.
    pub(crate) fn add(&mut self, network: &Network, ended: bool) {
        count(&mut self.runs, 1);
        count(&mut self.frames, network.frames);
        count(&mut self.lost_any, network.may_have_lost() as u64);
        count(&mut self.unended, !ended as u64);
        count(&mut self.compared, network.compared);
        count(&mut self.wrong, network.wrong);
        self.starved |= network.starved;
        let mut late_any = false;
        for site in network.sites.iter().take(2) {
            late_any |= site.seen.late_any;
            count(&mut self.failures, site.failures);
            count(&mut self.reroutings, site.seen.reroutings);
            count(&mut self.refused, site.refused.len() as u64);
            count(&mut self.passed, site.passed);
        }
        count(&mut self.late_any, late_any as u64);
        for end in ENDS {
            self.starved |= self.judge(network, end, other(end)).is_none();
        }
    }

    /// Adds what became of the messages from an end to the other. None if memory ran out.
    ///
    /// While neither end says that one may be lost, each that was accepted has come once, or waits. While the accepting
    /// end doesn't say that one may be late either, the first messages of each flow have come, in order, and the others
    /// wait. So what came until then is judged.
    fn judge(&mut self, network: &Network, from: u16, to: u16) -> Option<()> {
        let near = network.site(from)?.seen.came(place_of(to));
        let far = network.site(to)?.seen.came(place_of(to));
        let whole = near.whole.min(far.whole);
        self.judge_order(network, from, to, near.in_time.min(whole))?;
        let accepted = accepted_marks(network, from, to)?;
        let once = received_marks(network, from, to, whole)?;
        let found = accepted.iter().filter(|mark| once.contains(mark)).count();
        count(&mut self.messages, accepted.len() as u64);
        count(&mut self.once, once.len() as u64);
        count(&mut self.doubled, once.len().saturating_sub(found) as u64);
        if !network.may_have_lost() {
            let missing = accepted.len().saturating_sub(found);
            count(&mut self.lost, missing as u64);
        }
        Some(())
    }

    /// Adds how many of the first so many messages that came to an end are from the other, and whether these came in
    /// order. None if memory ran out.
    fn judge_order(&mut self, network: &Network, from: u16, to: u16, most: usize) -> Option<()> {
        let came = received_marks(network, from, to, most)?;
        count(&mut self.in_order, came.len() as u64);
        count(&mut self.turned, count_turned(came.as_slice()));
        Some(())
    }
}

/// The messages that an end accepted for the other. One that returns all that comes accepts that.
fn accepted_marks(network: &Network, from: u16, to: u16) -> Option<Vec<Mark>> {
    if network.relays && from == 2 {
        return received_marks(network, to, from, usize::MAX);
    }
    let mut marks = Vec::new(network.alloc);
    for message in network.site(from)?.accepted.as_slice() {
        if goes_to(to, message) {
            marks.push(Mark::of(message)?).ok()?;
        }
    }
    Some(marks)
}

/// Of the first so many messages that came to an end, those from the other.
fn received_marks(network: &Network, from: u16, to: u16, most: usize) -> Option<Vec<Mark>> {
    let mut marks = Vec::new(network.alloc);
    for arrival in network.site(to)?.arrived.iter().take(most) {
        if network.has_come(from, to, arrival) {
            marks.push(Mark::of(&arrival.message)?).ok()?;
        }
    }
    Some(marks)
}

/// How many flows had a message that wasn't the next one.
fn count_turned(came: &[Mark]) -> u64 {
    let mut turned = 0u64;
    for flow in 0..FLOWS {
        count(&mut turned, is_turned(flow, came) as u64);
    }
    turned
}

/// Whether the messages of a flow aren't numbered 1, 2, 3 and so on.
fn is_turned(flow: u8, came: &[Mark]) -> bool {
    let mut next = 1u16;
    for mark in came {
        if mark.flow == flow {
            if mark.number != next {
                return true;
            }
            next = next.wrapping_add(1);
        }
    }
    false
}

impl Tally {
    /// Prints what became of a group, without the end of the line.
    pub(crate) fn print(&self, rt: &HostRuntime, name: &str) -> io::Result<()> {
        if self.starved {
            return print!(rt; "{name}: memory ran out");
        }
        print!(rt;
            "{name}: {} runs, {} frames, {} messages; ",
            self.runs, self.frames, self.messages
        )?;
        match (self.lost, self.doubled) {
            (0, 0) => print!(rt; "all once ({}), ", self.once)?,
            (lost, doubled) => print!(rt; "{lost} lost, {doubled} doubled ({}), ", self.once)?,
        }
        match self.turned {
            0 => print!(rt; "in order ({})", self.in_order)?,
            turned => print!(rt; "{turned} flows out of order ({})", self.in_order)?,
        }
        print!(rt;
            "; lost_any {}, late_any {}, unended {}",
            self.lost_any, self.late_any, self.unended
        )?;
        match self.wrong {
            0 => Ok(()),
            wrong => print!(rt; ", {wrong} sums wrong"),
        }
    }
}
