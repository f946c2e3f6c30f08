//! The ticks that are left at each place, kept as moments.

ghost use Rattle.std.specs.Prelude.{◌≡◌, ◌≤◌, ◌<◌, ◌+◌, ◌^◌, if◌then◌else◌, IfOk, IfSome, Some, None, is_some};
ghost use Rattle.std.specs.Prelude.{length, filter, map, position, replicate, slice_set, get_or};
ghost use Rattle.timers.specs.Tree.{never, left_at};
ghost use Rattle.timers.specs.Timers.{one_less, no_tick_left};

use crate::tree::{
    NEVER, clear_leaf, count_below, first_below, new_nodes, rebase, refresh, set_leaf, take_leaf,
};
use std::alloc::{AllocError, Global};
use std::marker::Model;

/// A timer of the most ticks that starts now runs out before `NEVER`.
const LAST: u32 = NEVER - 65_536;

/// No tree has more levels above its leaves.
const LEVELS: u32 = 48;

/// The ticks that are left at each place, if a timer runs there.
///
/// The clock goes on with each tick, and a place holds the moment at which its timer runs out. The places are the first
/// leaves of a tree in which no node holds more than the moments below it. So a tick touches no timer, what is due is
/// found from the top, stopping a timer costs one write, and starting one costs the part of a path to the top that
/// holds later moments. What a stopped timer leaves above it stays until its moment has come; then a tick mends it.
#[derive(Drop)]
pub struct Moments {
    /// Ticks that have passed.
    clock: u32,
    /// How many places there are.
    places: usize,
    /// How many levels of nodes are above the leaves.
    levels: u32,
    /// How many leaves there are, and where they begin.
    leaves: usize,
    nodes: Vec<u32>,
}

impl Model for Moments {
    ghost use Rattle.std.specs.Prelude.{List, Option, ℕ};

    ghost Value = { List (Option ℕ) };

    ghost use Rattle.timers.specs.Moments.{ticks_in, AreMoments};

    ghost view = { ticks_in };

    ghost invariant = { AreMoments };
}

impl Moments {
    /// This many places; no timer runs.
    pub fn new(alloc: Global, places: usize) -> Result<Moments, AllocError>
        requires { places < 2 ^ 48 }
        ensures { IfOk result (λ moments. moments ≡ replicate places None) }
    {
        let levels = levels_for(places);
        let leaves = leaves_at(levels);
        Ok(Moments {
            clock: 0,
            places,
            levels,
            leaves,
            nodes: new_nodes(alloc, 2 * leaves)?,
        })
    }

    /// The timer at a place has this many ticks left.
    #[inline]
    pub fn put(&mut self, place: usize, left: u16)
        requires { place < length self.old }
        ensures { self.new ≡ slice_set self.old place (Some left) }
    {
        let moment = moment_of(self.clock, left);
        set_leaf(&mut self.nodes, self.leaves, place, moment);
    }

    /// The timer at a place doesn't run.
    #[inline]
    pub fn clear(&mut self, place: usize)
        requires { place < length self.old }
        ensures { self.new ≡ slice_set self.old place None }
    {
        clear_leaf(&mut self.nodes, self.leaves, place);
    }

    /// The timer at a place doesn't run, and nothing of it stays in the nodes above.
    pub fn take(&mut self, place: usize)
        requires { place < length self.old }
        ensures { self.new ≡ slice_set self.old place None }
    {
        take_leaf(&mut self.nodes, self.leaves, place);
    }

    /// The timer at a place has this many ticks left, unless it runs.
    #[inline]
    pub fn start(&mut self, place: usize, left: u16)
        requires { place < length self.old }
        ensures { self.new
            ≡ if is_some (get_or self.old place None) then self.old
            else slice_set self.old place (Some left) }
    {
        if !self.is_running(place) {
            self.put(place, left);
        }
    }

    /// Whether the timer at a place runs.
    pub fn is_running(&self, place: usize) -> bool
        requires { place < length self.now }
        ensures { result ≡ is_some (get_or self.now place None) }
    {
        self.nodes[self.leaves + place] < NEVER
    }

    /// Takes one tick from each timer.
    ///
    /// If nothing has come, this is one addition and one look at the top.
    pub fn tick(&mut self)
        ensures { self.new ≡ map one_less self.old }
    {
        self.advance();
        if self.nodes[1] <= self.clock {
            self.mend();
        }
    }

    /// The clock goes on. Once in four billion ticks it counts from 0 again.
    fn advance(&mut self)
        ensures { self.new ≡ map one_less self.old }
    {
        if self.clock < LAST {
            self.clock += 1;
        } else {
            rebase(&mut self.nodes, self.clock);
            self.clock = 1;
        }
    }

    /// No node has come any more unless a timer below it is due.
    fn mend(&mut self)
        ensures { self.new ≡ self.old }
    {
        refresh(&mut self.nodes, self.clock, self.leaves, 1);
    }

    /// The first place whose timer is due.
    pub fn first_due(&self) -> Option<usize>
        ensures place { result ≡ position no_tick_left self.now }
        ensures fits { IfSome result (λ place. place < length self.now) }
    {
        match first_below(&self.nodes, self.clock, self.levels, 1) {
            Some(leaf) => Some(leaf - self.leaves),
            None => None,
        }
    }

    /// How many timers are due.
    pub fn due_count(&self) -> usize
        ensures { result ≡ length (filter no_tick_left self.now) }
    {
        count_below(&self.nodes, self.clock, self.levels, 1)
    }
}

/// How many levels make room for this many leaves.
fn levels_for(leaves: usize) -> u32
    requires { leaves < 2 ^ 48 }
    ensures room { leaves ≤ 2 ^ result }
    ensures few { result ≤ 48 }
{
    for levels in 0..LEVELS {
        if leaves <= leaves_at(levels) {
            return levels;
        }
    }
    LEVELS
}

/// How many leaves there are below this many levels.
fn leaves_at(levels: u32) -> usize
    requires { levels ≤ 48 }
    ensures count { result ≡ 2 ^ levels }
    ensures fits { result < 2 ^ 49 }
{
    1 << levels
}

/// The moment at which a timer runs out that has this many ticks left.
fn moment_of(clock: u32, left: u16) -> u32
    requires { clock + 65536 ≤ never }
    ensures { left_at clock result ≡ Some left }
{
    clock + u32::from(left)
}
