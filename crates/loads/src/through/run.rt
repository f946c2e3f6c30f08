//! Both peers of a node, by the clock of this machine.

use super::nodes::{RECEIVER, SENDER, peer};
use super::station::Station;
use served_link::TickClock;
use std::io;
use std::time::Instant;

/// How long a tick takes, in milliseconds.
const TICK_MS: u16 = 100;

/// How long a run takes at most, in milliseconds.
const MOST_MS: u64 = 120_000;

/// How long both peers must have been at rest until messages go, in milliseconds: no flow is held for that long.
const REST_MS: u64 = 1_000;

/// Messages that are on their way through the node, at most: twice its window.
const ON_THE_WAY: u64 = 8192;

/// Messages from one peer to the other.
#[derive(Clone, Copy)]
pub(crate) struct Load {
    /// The port of the link to the peer that submits; the link to the other has the one after it.
    pub port: u16,
    /// How many messages are sent.
    pub count: u32,
    /// Octets of the signalling information field of each.
    pub octets: usize,
}

/// Both peers, and the clock of their run.
#[derive(Drop)]
struct Run<'a> {
    rt: &'a HostRuntime,
    near: Station,
    far: Station,
    clock: TickClock,
    started: Instant,
}

/// Has messages pass from one peer to the other, and prints what came.
pub(crate) fn pass(rt: &HostRuntime, load: Load) -> io::Result<()> {
    let started = Instant::now(rt)?;
    match begun(rt, load, started) {
        Some(mut run) => run.pass(load.count),
        None => println!(rt; "the node can't be opened"),
    }
}

/// The peers before their first round. None if memory can't be had.
fn begun(rt: &HostRuntime, load: Load, started: Instant) -> Option<Run<'_>> {
    let Load { port, octets, .. } = load;
    let alloc = rt.alloc();
    let (near, far) = (peer(alloc, SENDER, RECEIVER), peer(alloc, RECEIVER, SENDER));
    Some(Run {
        rt,
        near: Station::new(alloc, near, port, octets)?,
        far: Station::new(alloc, far, port.saturating_add(1), octets)?,
        clock: TickClock::new(TICK_MS),
        started,
    })
}

impl Run<'_> {
    /// Has messages pass from one peer to the other, and prints what came.
    fn pass(&mut self, count: u32) -> io::Result<()> {
        self.await_rest()?;
        let took = self.pass_all(count)?;
        let came = self.far.arrivals.came;
        let right = self.far.arrivals.wrong == 0 && came == u64::from(count);
        println!(self.rt;
            "{came} messages came; each once and in order: {right}; {took} ms from the first to the last"
        )
    }

    /// Round after round, until both peers have been at rest for some time.
    fn await_rest(&mut self) -> io::Result<()> {
        let mut since = self.millis()?;
        for _ in 0..u64::MAX {
            let now = self.round()?;
            if !self.near.is_at_rest() || !self.far.is_at_rest() {
                since = now;
            }
            if now.saturating_sub(since) > REST_MS || now > MOST_MS {
                break;
            }
        }
        Ok(())
    }

    /// Submits this many messages at one peer, and makes rounds until they came to the other. No more than
    /// `ON_THE_WAY` are on their way. Returns how many milliseconds it took from the first to the last.
    fn pass_all(&mut self, count: u32) -> io::Result<u64> {
        let first = self.millis()?;
        let mut now = first;
        for _ in 0..u64::MAX {
            let came = self.far.arrivals.came;
            if came >= u64::from(count) || now > MOST_MS {
                break;
            }
            let taken = self.near.taken;
            let on_the_way = u64::from(taken).saturating_sub(came);
            let room = ON_THE_WAY.saturating_sub(on_the_way) as u32;
            self.near.submit(room.min(count.saturating_sub(taken)));
            now = self.round()?;
        }
        Ok(self.millis()?.saturating_sub(first))
    }

    /// Does what there is to do at both peers, and waits for nothing. Returns how long the run had taken by then.
    fn round(&mut self) -> io::Result<u64> {
        let now = self.millis()?;
        let is_due = self.clock.is_due(now);
        self.near.turn(self.rt, is_due);
        self.far.turn(self.rt, is_due);
        Ok(now)
    }

    /// How long the run has taken, in milliseconds.
    fn millis(&self) -> io::Result<u64> {
        let time = Instant::now(self.rt)?.duration_since(self.started);
        Ok(u64::try_from(time.as_millis()).unwrap_or(u64::MAX))
    }
}
