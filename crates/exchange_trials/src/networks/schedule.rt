//! Random schedules, and nodes that start again amid them.

use super::rest::{bring_into_service, come_to_rest, fall_to_rest};
use super::total::{Ending, Totals};
use super::world::World;
use crate::harness::Deed;
use crate::rounds::{Each, do_one};
use crate::shape::{Shape, UNKNOWN};
use crate::throws::{FLOWS, Odds, Throw, play, thrown, thrown_link, thrown_point};
use std::alloc::Global;

/// So many times the dice are thrown in a schedule; each throw is one step at least, but for a few that find nothing.
const THROWS: usize = 800;

/// So many times they are before a node starts again, and once it has.
const THROWS_AROUND_RESTARTS: usize = 80;

/// Once in so many of these throws an end of a link sees that the other one is down.
const SEES: usize = 8;

/// In one of so many runs nodes start again behind a schedule, and another one passes.
const ANEW: usize = 4;

/// What is thrown where sets are spared.
const ODDS: Odds = Odds {
    times: 256,
    throws: [
        (50, Throw::Submit),
        (80, Throw::Do(Deed::Take)),
        (78, Throw::Deliver),
        (4, Throw::Do(Deed::LoseStatus)),
        (4, Throw::Do(Deed::DoubleStatus)),
        (6, Throw::Lose),
        (5, Throw::Tick),
        (1, Throw::Operate),
        (9, Throw::Reopen),
        (8, Throw::Do(Deed::OpenSecond)),
        (11, Throw::Round),
    ],
};

/// What is thrown where whole sets fail.
const ODDS_OF_ANY_ROUTE: Odds = Odds {
    times: 256,
    throws: [
        (40, Throw::Submit),
        (62, Throw::Do(Deed::Take)),
        (62, Throw::Deliver),
        (1, Throw::Do(Deed::LoseStatus)),
        (1, Throw::Do(Deed::DoubleStatus)),
        (3, Throw::Lose),
        (10, Throw::Tick),
        (0, Throw::Operate),
        (24, Throw::Reopen),
        (28, Throw::Do(Deed::OpenSecond)),
        (25, Throw::Round),
    ],
};

/// So many runs of a shape.
pub(super) fn schedules(alloc: Global, shape: Shape, runs: u64) -> Totals {
    let mut totals = Totals::default();
    for run in 0..runs {
        match World::new(alloc, shape, run) {
            Some(mut world) => pass_run(&mut world, &mut totals),
            None => totals.first.starved = true,
        }
    }
    totals
}

/// One run: a schedule passes. In some runs nodes start again then, all falls to rest, and if it does so, the books
/// begin anew, and another schedule passes.
fn pass_run(world: &mut World, totals: &mut Totals) {
    let ended = pass_schedule(world);
    totals.first.add(world, ended);
    if world.dice.one_in(ANEW) {
        let restarts = restart_some(world);
        if totals.begin_anew(world, restarts) {
            let ended = pass_schedule(world);
            totals.anew.add(world, ended);
        }
    }
}

/// Some links come up, a schedule passes, all links come back, and frames are carried until nothing moves. It ends well
/// if nothing does, and all links are in service. Says how many steps the schedule took and how often a node lost a
/// link in it, and whether it ended well.
pub(super) fn pass_schedule(world: &mut World) -> Ending {
    open_some(world);
    bring_into_service(&mut world.network);
    world.network.count_anew();
    for _ in 0..THROWS {
        throw_once(world);
    }
    let (steps, failures) = (world.network.steps, world.network.failures());
    let ended = come_to_rest(&mut world.network);
    Ending {
        steps,
        failures,
        ended,
    }
}

/// Two of three links open at both ends, by chance; so that some sets come up only later.
fn open_some(world: &mut World) {
    for number in 0..world.network.links.len() {
        if let Some(link) = world.network.links.get(number).copied() {
            if !world.dice.one_in(3) && link.is_lower() {
                do_one(&mut world.network, Each::Open, link);
            }
        }
    }
}

/// One node starts again amid throws, or two do one after the other. Says how many.
fn restart_some(world: &mut World) -> u64 {
    let restarts = if world.dice.one_in(2) { 2 } else { 1 };
    throw_some(world);
    for _ in 0..restarts {
        let point = thrown_point(world.network.shape, &mut world.dice);
        world.network.restart(point);
        throw_some(world);
    }
    restarts
}

/// The dice are thrown, and now and then an end of a link sees that the other one is down: it loses the link, and gives
/// up following.
fn throw_some(world: &mut World) {
    for _ in 0..THROWS_AROUND_RESTARTS {
        if world.dice.one_in(SEES) {
            see(world);
        } else {
            throw_once(world);
        }
    }
}

/// One end of a link sees that the other one is down, if it is.
fn see(world: &mut World) {
    if let Some(link) = thrown_link(world.network.shape, &mut world.dice) {
        if world.network.is_down(link.there) {
            world.network.act(link.here, Deed::Fall);
        }
    }
}

/// A throw.
fn throw_once(world: &mut World) {
    let odds = if world.network.shape.spares_sets() {
        ODDS
    } else {
        ODDS_OF_ANY_ROUTE
    };
    match thrown(world.network.shape, &mut world.dice, odds) {
        Some((Throw::Submit, link)) => submit(world, link.here.point),
        Some((what, link)) => {
            play(&mut world.network, &mut world.dice, what, link);
        }
        None => {}
    }
}

/// A node submits a message for another point, now and then for one that isn't there.
fn submit(world: &mut World, from: u16) {
    let to = thrown_point(world.network.shape, &mut world.dice);
    let flow = world.dice.octet() % FLOWS;
    world.submit(from, if to == from { UNKNOWN } else { to }, flow);
}
