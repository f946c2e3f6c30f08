//! What the dice choose in a random schedule.

use crate::dice::Dice;
use crate::harness::{Deed, Link, Network, Place};
use crate::rounds::{Each, do_each};
use crate::shape::{Shape, UNKNOWN};
use exchange::Limits;

/// A link that is alone in its set in service fails once in so many times, where sets are spared.
const WHOLE_SETS: usize = 50;

/// How many flows there are to a point: one for each signalling link selection.
pub(crate) const FLOWS: u8 = Limits::SELECTIONS as u8;

/// What a throw does, at a random end of a random link.
#[derive(Clone, Copy)]
pub(crate) enum Throw {
    /// The node submits a message.
    Submit,
    /// Its operator adds a translation row, or removes it.
    Translate,
    /// Something is done about the link.
    Do(Deed),
    /// The next frame of one of the two streams comes; where there is none, of the other.
    Deliver,
    /// The link is lost.
    Lose,
    /// A tick passes.
    Tick,
    /// Its operator keeps the link from opening, or lets it open.
    Operate,
    /// The link opens, where it may.
    Reopen,
    /// A frame is carried on each link each way.
    Round,
}

/// How often each is thrown, of so many times.
#[derive(Clone, Copy)]
pub(crate) struct Odds {
    pub times: u16,
    pub throws: [(u16, Throw); 11],
}

/// Throws what is done, and the end of the link.
pub(crate) fn thrown(shape: Shape, dice: &mut Dice, odds: Odds) -> Option<(Throw, Link)> {
    let chance = dice.octet();
    let link = thrown_link(shape, dice)?;
    Some((chosen(chance, odds)?, link))
}

/// What an octet chooses.
fn chosen(octet: u8, odds: Odds) -> Option<Throw> {
    let mut left = octet as u16 % odds.times.max(1);
    for (often, throw) in odds.throws {
        if left < often {
            return Some(throw);
        }
        left = left.wrapping_sub(often);
    }
    Some(Throw::Round)
}

/// A random link, from a random end.
pub(crate) fn thrown_link(shape: Shape, dice: &mut Dice) -> Option<Link> {
    if let Shape::Pair(links) = shape {
        let number = dice.octet() % links.max(1);
        return shape.link(thrown_point(shape, dice), number);
    }
    let point = thrown_point(shape, dice);
    shape.link(point, dice.octet() % shape.links_at(point).max(1))
}

/// A random point.
pub(crate) fn thrown_point(shape: Shape, dice: &mut Dice) -> u16 {
    let points = shape.points();
    let place = dice.octet() as usize % points.len().max(1);
    points.get(place).copied().unwrap_or(UNKNOWN)
}

/// Does what was thrown, but for messages and translation rows. Between two ends anything may fail; in other shapes
/// sets are spared. Says whether something came of it.
pub(crate) fn play(network: &mut Network, dice: &mut Dice, throw: Throw, link: Link) -> bool {
    let here = link.here;
    match throw {
        Throw::Submit | Throw::Translate => false,
        Throw::Do(deed) => network.act(here, deed),
        Throw::Deliver => deliver(network, dice, here),
        Throw::Lose => {
            (may_fail(network, link) || dice.one_in(WHOLE_SETS)) && network.act(here, Deed::Lose)
        }
        Throw::Tick => {
            network.tick(here.point, 1);
            true
        }
        Throw::Operate => {
            let keeps = dice.one_in(2) && may_fail(network, link);
            network.act(
                here,
                if keeps {
                    Deed::Deactivate
                } else {
                    Deed::Activate
                },
            )
        }
        Throw::Reopen => reopen(network, dice, link),
        Throw::Round => do_each(network, Each::Carry),
    }
}

/// The next frame of one of the two streams comes, as the dice say; where there is none, of the other.
fn deliver(network: &mut Network, dice: &mut Dice, here: Place) -> bool {
    let (first, second) = if dice.one_in(2) {
        (Deed::DeliverStatus, Deed::Deliver)
    } else {
        (Deed::Deliver, Deed::DeliverStatus)
    };
    network.act(here, first) || network.act(here, second)
}

/// A link opens at an end, where it may. As the dice say, where it is down at one end it is lost at the other before.
fn reopen(network: &mut Network, dice: &mut Dice, link: Link) -> bool {
    if dice.one_in(2) {
        let lower = if link.is_lower() {
            link
        } else {
            link.reversed()
        };
        lose_half(network, lower.reversed());
        lose_half(network, lower);
    }
    network.act(link.here, Deed::OpenFirst)
}

/// A link is lost at one end if it is down at the other.
fn lose_half(network: &mut Network, link: Link) {
    let is_half = network.shape.has_ends() || !network.is_down(link.here);
    if is_half && network.is_down(link.there) && may_fail(network, link) {
        network.act(link.here, Deed::Lose);
    }
}

/// Whether a link may fail: sets aren't spared, or another link of the same set is in service at both ends.
fn may_fail(network: &Network, link: Link) -> bool {
    !network.shape.spares_sets()
        || network
            .links
            .iter()
            .any(|other| other.is_beside(link) && network.serves(*other))
}
