//! A link that stops at each place, and opens at one end before it opens at the other.

use super::choices::Choices;
use super::ends::{link_from, links, serve, settle, submit_all};
use super::stop::{ROUNDS, Stop, WAYS, places, stop_and_settle};
use crate::harness::{Deed, Link, Network};
use crate::rounds::{Clock, Each, do_each, lose_both};

/// An end of the link: that which is to open first, or the other.
#[derive(Clone, Copy)]
pub(crate) enum Side {
    First,
    Second,
}

/// What is done at the ends, one after another, till the link is open at both. A round passes behind each but
/// `OpenSecond`.
pub(crate) type Way = &'static [(Side, Deed)];

/// It opens at one end, and then at the other.
pub(crate) const IN_TURN: Way = &[
    (Side::First, Deed::OpenFirst),
    (Side::Second, Deed::OpenSecond),
];

/// The first end falls before the other follows, and opens again.
pub(crate) const FIRST_FALLS: Way = &[
    (Side::First, Deed::OpenFirst),
    (Side::First, Deed::Lose),
    (Side::First, Deed::OpenFirst),
    (Side::Second, Deed::OpenSecond),
];

/// The other end follows the first once that has fallen, and both open again.
pub(crate) const FOLLOWS_FALLEN: Way = &[
    (Side::First, Deed::OpenFirst),
    (Side::First, Deed::Lose),
    (Side::Second, Deed::OpenSecond),
    (Side::Second, Deed::Lose),
    (Side::First, Deed::OpenFirst),
    (Side::Second, Deed::OpenSecond),
];

/// The other end never follows the first, but opens first once that has fallen.
pub(crate) const NEVER_FOLLOWS: Way = &[
    (Side::First, Deed::OpenFirst),
    (Side::First, Deed::Lose),
    (Side::Second, Deed::OpenFirst),
    (Side::First, Deed::OpenSecond),
];

/// A link stops at the end that is to open first, and comes back. Messages are submitted before it does, and after
/// that. Says whether all ended as it should.
pub(crate) fn open_at_one_first(network: &mut Network, run: u16, way: Way) -> bool {
    let mut choices = Choices(run);
    let first = choices.below(2);
    let stop = Stop {
        ends: WAYS.get(first as usize).copied().unwrap_or(&[]),
        link: choices.below(links(network)),
        place: choices.below(places(ROUNDS, links(network))),
    };
    let stopped = stop_and_settle(network, stop, Clock::STILL);
    submit_all(network);
    let link = link_from(network, 1 + first as u16, stop.link);
    let back = come_back_by(network, way, link);
    submit_all(network);
    settle(network, Clock::STILL) && stopped && back
}

/// The link is lost at both ends, and comes back, at this end first. Says whether all was done that leads there.
fn come_back_by(network: &mut Network, way: Way, link: Link) -> bool {
    lose_both(network, link);
    let mut came = true;
    for (side, deed) in way {
        came &= do_at(network, link, *side, *deed);
    }
    serve(network, link);
    came
}

/// It is done at one side of the link, and unless that follows the other, a round passes.
fn do_at(network: &mut Network, link: Link, side: Side, deed: Deed) -> bool {
    let place = match side {
        Side::First => link.here,
        Side::Second => link.there,
    };
    let is_done = network.act(place, deed);
    if deed != Deed::OpenSecond {
        do_each(network, Each::Exchange);
    }
    is_done
}
