//! The timers of a node.

ghost use Rattle.std.specs.Prelude.{◌≡◌, IfOk, max};
ghost use Rattle.timers.specs.Timers.{none_running, set_timer, start_unless_running, clear_timer, clear_set};
ghost use Rattle.timers.specs.Timers.{is_running, ticked, due_name, due_count, after_due};
ghost use Rattle.timers.specs.Places.{name_of_route};

use crate::moments::Moments;
use crate::name::{NodeCounts, RouteTimer, TimerName};
use crate::places::{count_of, name_at, named_sets, place_of};
use signalling_types::SetId;
use std::alloc::{AllocError, Global};
use std::marker::Model;

/// The timers of a node: a finite map from names to the ticks that are left. `laws` says what each
/// call does to it.
///
/// Each timer of the node is at a place of its own, and places rise in name order. Setting a timer costs at most one
/// path of a tree over the places, and stopping one costs a write. A tick costs a constant, and the timers that run out
/// in it, or would have if they hadn't been stopped or set again.
#[derive(Drop)]
pub struct Timers {
    counts: NodeCounts,
    left: Moments,
}

impl Model for Timers {
    ghost use Rattle.timers.specs.Timers.{Running};

    ghost Value = { Running };

    ghost use Rattle.timers.specs.OneMap.{running_code};

    ghost coded = { running_code };

    ghost use Rattle.timers.specs.Table.{map_in, ArePlaced};

    ghost view = { map_in };

    ghost invariant = { ArePlaced };
}

impl Timers {
    /// The timers of a node with this many links, sets and destinations; none runs. Makes room for
    /// all that may run.
    pub fn new(alloc: Global, counts: NodeCounts) -> Result<Timers, AllocError>
        ensures { IfOk result (λ timers. timers ≡ none_running counts) }
    {
        Ok(Timers {
            counts,
            left: Moments::new(alloc, count_of(named_sets(counts)))?,
        })
    }

    /// Starts a timer, which runs out after this many ticks, at the next one if that is 0. If it runs already it
    /// restarts, and forgets its old moment. A name of a link, set or destination that the node doesn't have is
    /// ignored.
    #[inline(always)]
    pub fn set(&mut self, name: TimerName, ticks: u16)
        ensures { self.new ≡ set_timer name ticks self.old }
    {
        if let Some(place) = place_of(self.counts, name) {
            self.left.put(place, at_least_one(ticks));
        }
    }

    /// Starts a timer, as `set` does, unless it runs: one that runs keeps its moment, even if it is
    /// due and not handed out yet.
    ///
    /// For a timer that runs this is one read.
    #[inline(always)]
    pub fn start_unless_running(&mut self, name: TimerName, ticks: u16)
        ensures { self.new ≡ start_unless_running name ticks self.old }
    {
        if let Some(place) = place_of(self.counts, name) {
            self.left.start(place, at_least_one(ticks));
        }
    }

    /// Stops a timer, if it runs.
    #[inline(always)]
    pub fn clear(&mut self, name: TimerName)
        ensures { self.new ≡ clear_timer name self.old }
    {
        if let Some(place) = place_of(self.counts, name) {
            self.left.clear(place);
        }
    }

    /// Stops a timer of a set, for every destination for which it runs.
    ///
    /// This costs one pass over the destinations.
    pub fn clear_set(&mut self, timer: RouteTimer, set: SetId)
        ensures { self.new ≡ clear_set timer set self.old }
    {
        for destination in 0..self.counts.destinations {
            self.clear(route_name(timer, set, destination));
        }
    }

    /// Whether a timer runs, even if it is due and not handed out yet.
    ///
    /// This is one read.
    pub fn is_running(&self, name: TimerName) -> bool
        ensures { result ≡ is_running name self.now }
    {
        match place_of(self.counts, name) {
            Some(place) => self.left.is_running(place),
            None => false,
        }
    }

    /// Lets one tick pass: each timer has one tick less, and is due if none is left. Take what is
    /// due before the next tick: a timer that is due stays due.
    pub fn tick(&mut self)
        ensures { self.new ≡ ticked self.old }
    {
        self.left.tick();
    }

    /// How many timers are due.
    pub fn due_count(&self) -> usize
        ensures { result ≡ due_count self.now }
    {
        self.left.due_count()
    }

    /// The first name that is due, in name order; it runs no longer. None if nothing is due. What
    /// was stopped or set since the tick isn't due.
    pub fn next_due(&mut self) -> Option<TimerName>
        ensures name { result ≡ due_name self.old }
        ensures timers { self.new ≡ after_due self.old }
    {
        match self.left.first_due() {
            Some(place) => {
                self.left.take(place);
                Some(name_at(named_sets(self.counts), place))
            }
            None => None,
        }
    }
}

/// The ticks, or one if there are none.
fn at_least_one(ticks: u16) -> u16
    ensures { result ≡ max 1 ticks }
{
    ticks.max(1)
}

fn route_name(timer: RouteTimer, set: SetId, destination: u16) -> TimerName
    ensures { result ≡ name_of_route timer set destination }
{
    match timer {
        RouteTimer::T8 => TimerName::T8(set, destination),
        RouteTimer::T10 => TimerName::T10(set, destination),
    }
}
