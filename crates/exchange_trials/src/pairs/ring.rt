//! A link that stops at each place while both ends have a third neighbour: routes there fail and return, and messages
//! pass through the two.

use super::ends::{
    ENDS, bring_up, come_back, has_brought_all, link_from, links, other, prove_links, submit,
};
use super::mark::Mark;
use super::stop::{ROUNDS, Stop, round_with};
use crate::harness::{Link, Network};
use crate::rounds::{Clock, Each, MOST_ROUNDS, PROVING_TICKS, do_each, do_one};
use crate::shape::{Shape, UNKNOWN};
use crate::throws::FLOWS;

/// The points of the third neighbours of the two ends.
const BESIDE: [u16; 2] = [3, 4];

/// Before this round the third neighbours lose the link between them,
const LOST_ACROSS: u8 = 2;

/// and before this one each end loses a link to its neighbour.
const LOST_BESIDE: u8 = 4;

/// How many ticks pass until T1, and with it T6, has run out.
const OUTLASTING_TICKS: u8 = 4;

/// The flows from there on are those of the third neighbours.
const NEIGHBOURS_FLOW: u8 = FLOWS / 2;

/// A link of a third neighbour: its point, the point to which it leads, and its number among those that lead there.
type Beside = (u16, u16, u8);

/// The link between the third neighbours,
const ACROSS: [Beside; 1] = [(3, 4, 0)];

/// a link of each to its end,
const FIRST_BESIDE: [Beside; 2] = [(3, 1, 0), (4, 2, 0)];

/// and all links but those between the two ends.
const ELSEWHERE: [Beside; 5] = [(3, 1, 0), (3, 1, 1), (4, 2, 0), (4, 2, 1), (3, 4, 0)];

fn at((from, to, code): Beside) -> Link {
    Shape::Ring.link_between(from, to, code)
}

/// The third neighbour of an end.
fn beside(end: u16) -> u16 {
    if end == 1 { 3 } else { 4 }
}

/// A link stops while routes fail, and all come back. Says whether all ended as it should.
pub(crate) fn stop_in_ring(network: &mut Network, run: u16) -> bool {
    let stop = Stop::numbered(run, links(network));
    let stopped = stop_and_fail(network, stop);
    return_all(network, link_from(network, 1, stop.link)) && stopped
}

/// All links come up, and the link stops while routes fail. Says whether all went well, and all came meanwhile.
fn stop_and_fail(network: &mut Network, stop: Stop) -> bool {
    let up = bring_up(network) && do_all(network, Each::Open, &ELSEWHERE) && serve_all(network);
    network.count_anew();
    let submitted = submit_everywhere(network, 1);
    for round in 0..ROUNDS {
        if round == LOST_ACROSS {
            do_all(network, Each::Lose, &ACROSS);
        }
        if round == LOST_BESIDE {
            do_all(network, Each::Lose, &FIRST_BESIDE);
        }
        round_with(network, stop, round);
        carry_elsewhere(network);
    }
    stop.strike_behind(network, ROUNDS);
    settle_all(network) && up && submitted && has_brought_all(network)
}

/// All is submitted again, the link comes back, and then the routes; and once more. Says whether all went well.
fn return_all(network: &mut Network, link: Link) -> bool {
    let submitted = submit_everywhere(network, 2);
    let back = come_back(network, link, Clock::STILL) && settle_all(network);
    tick_each(network, BESIDE, OUTLASTING_TICKS);
    let across = do_all(network, Each::Open, &ACROSS);
    let beside = do_all(network, Each::Open, &FIRST_BESIDE);
    let routes = across && beside && serve_all(network);
    submitted && back && routes && pass_again(network)
}

/// All is submitted once more, and comes. Says whether it did.
fn pass_again(network: &mut Network) -> bool {
    let submitted = submit_everywhere(network, 3);
    let settled = settle_all(network);
    // The holds of controlled reroutings end.
    tick_each(network, ENDS, OUTLASTING_TICKS);
    settle_all(network) && submitted && settled && has_brought_all(network)
}

/// Links that are open come into service. Says whether all came to rest.
fn serve_all(network: &mut Network) -> bool {
    let told = settle_all(network);
    prove_links(network);
    tick_each(network, BESIDE, PROVING_TICKS);
    settle_all(network) && told
}

/// This many ticks pass at two nodes.
fn tick_each(network: &mut Network, points: [u16; 2], count: u8) {
    for point in points {
        network.tick(point, count);
    }
}

/// It is done at links of third neighbours, from there. Says whether something moved at each.
fn do_all(network: &mut Network, each: Each, links: &[Beside]) -> bool {
    let mut moved = true;
    for link in links {
        moved &= do_one(network, each, at(*link));
    }
    moved
}

/// A frame is carried each way on all links but those between the two ends, and whether one was.
fn carry_elsewhere(network: &mut Network) -> bool {
    let mut moved = false;
    for link in ELSEWHERE {
        moved |= do_one(network, Each::Exchange, at(link).reversed());
        moved |= do_one(network, Each::Exchange, at(link));
    }
    moved
}

/// Rounds pass on all links until one does nothing. Says whether one did nothing.
fn settle_all(network: &mut Network) -> bool {
    for _ in 0..MOST_ROUNDS {
        let between = do_each(network, Each::Exchange);
        let elsewhere = carry_elsewhere(network);
        if !between && !elsewhere {
            return true;
        }
    }
    false
}

/// Each end submits a message on each flow of its own, for the other end and for the other's neighbour, and each
/// neighbour one on each of its flows for the far end, and one for a point that no other node knows. Says whether all
/// were accepted.
fn submit_everywhere(network: &mut Network, number: u16) -> bool {
    let mut accepted = true;
    for flow in 0..NEIGHBOURS_FLOW {
        for end in ENDS {
            accepted &= submit_at(network, end, flow, number);
        }
    }
    accepted
}

fn submit_at(network: &mut Network, end: u16, flow: u8, number: u16) -> bool {
    let own = Mark { flow, number };
    let theirs = Mark {
        flow: flow.wrapping_add(NEIGHBOURS_FLOW),
        number,
    };
    let far = other(end);
    let straight = submit(network, end, flow);
    let past = network.submit(end, own.message(end, beside(far)));
    let through = network.submit(beside(end), theirs.message(end, far));
    let unknown = flow != 0 || network.submit(beside(end), theirs.message(end, UNKNOWN));
    straight && past && through && unknown
}
