//! A link that stops at some place of a busy exchange, and comes back.

use super::choices::Choices;
use super::ends::{bring_up, come_back, has_brought_all, link_from, links, settle, submit_all};
use crate::harness::{Deed, Network};
use crate::rounds::{Clock, deliver};

/// How many rounds pass in which a link may stop.
pub(crate) const ROUNDS: u8 = 8;

/// At which ends a link stops: at either, or at both.
pub(crate) const WAYS: [&[u16]; 3] = [&[1], &[2], &[1, 2]];

/// A link that stops at a place: before a step of a round, or behind the last one.
#[derive(Clone, Copy)]
pub(crate) struct Stop {
    /// The place, by the steps of all rounds.
    pub place: u8,
    /// The link, by its number.
    pub link: u8,
    /// The ends at which it stops.
    pub ends: &'static [u16],
}

impl Stop {
    /// One of all stops, by its number.
    pub(crate) fn numbered(number: u16, links: u8) -> Stop {
        let mut choices = Choices(number);
        let way = choices.below(3);
        Stop {
            ends: WAYS.get(way as usize).copied().unwrap_or(&[]),
            link: choices.below(links),
            place: choices.below(places(ROUNDS, links)),
        }
    }

    /// The link stops, if it is to stop at this place.
    pub(crate) fn strike_at(self, network: &mut Network, place: u8) {
        if self.place == place {
            for end in self.ends {
                let link = link_from(network, *end, self.link);
                network.act(link.here, Deed::Lose);
            }
        }
    }

    /// The link stops, if it is to stop behind the last of this many rounds.
    pub(crate) fn strike_behind(self, network: &mut Network, rounds: u8) {
        let place = steps_over(links(network)).saturating_mul(rounds);
        self.strike_at(network, place);
    }
}

/// How many steps a round has over this many links, at most 63: for each end and each link, a frame is taken, and then
/// delivered at the other end.
fn steps_over(links: u8) -> u8 {
    links.saturating_mul(4)
}

/// At how many places of this many rounds a link may stop: before, between and behind their steps.
pub(crate) fn places(rounds: u8, links: u8) -> u8 {
    steps_over(links).saturating_mul(rounds).saturating_add(1)
}

/// A round passes, in which the link may stop.
pub(crate) fn round_with(network: &mut Network, stop: Stop, round: u8) {
    let steps = steps_over(links(network));
    let before = steps.saturating_mul(round);
    for step in 0..steps {
        stop.strike_at(network, before.saturating_add(step));
        step_of_round(network, step);
    }
}

/// A step of a round.
fn step_of_round(network: &mut Network, step: u8) {
    if let Some(link) = network.links.get(step as usize / 2).copied() {
        if step % 2 == 0 {
            network.act(link.here, Deed::Take);
        } else {
            deliver(network, link.there);
        }
    }
}

/// All links come up, and the link stops. Says whether all went well: if another link is left, what was submitted came.
/// Over a single link nothing does while it is down.
pub(crate) fn stop_and_settle(network: &mut Network, stop: Stop, clock: Clock) -> bool {
    let up = bring_up(network);
    submit_all(network);
    for round in 0..ROUNDS {
        round_with(network, stop, round);
        clock.pass(network);
    }
    stop.strike_behind(network, ROUNDS);
    up && settle(network, clock) && (links(network) == 1 || has_brought_all(network))
}

/// The link stops and comes back. All messages are submitted again before it comes back, so some wait on the other
/// links then, and once more after that. Says whether all went well: if another link is left, what was submitted first
/// came while this one was down.
fn stop_and_return(network: &mut Network, stop: Stop, clock: Clock) -> bool {
    let stopped = stop_and_settle(network, stop, clock);
    submit_all(network);
    let link = link_from(network, 1, stop.link);
    let back = come_back(network, link, clock);
    submit_all(network);
    stopped && back
}

/// A link stops once. Says whether all ended as it should.
pub(crate) fn stop_once(network: &mut Network, run: u16, clock: Clock) -> bool {
    let stop = Stop::numbered(run, links(network));
    let back = stop_and_return(network, stop, clock);
    settle(network, clock) && back
}

/// A link stops at both ends and at the first place. While it takes its flows back, the first end loses one at some
/// place of the next round. Says whether all ended as it should.
pub(crate) fn stop_again(network: &mut Network, run: u16) -> bool {
    let links = links(network);
    let mut choices = Choices(run);
    let first = Stop {
        place: 0,
        link: 1,
        ends: &[1, 2],
    };
    let stop = Stop {
        link: choices.below(links),
        place: choices.below(places(1, links)),
        ends: &[1],
    };
    let back = stop_and_return(network, first, Clock::STILL);
    round_with(network, stop, 0);
    stop.strike_behind(network, 1);
    settle(network, Clock::STILL) && back
}
