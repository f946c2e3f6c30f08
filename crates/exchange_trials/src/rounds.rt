//! Frames that are carried in rounds until nothing moves, and links that come into service.

use crate::harness::{Deed, Link, Network, Place};

/// So many rounds at most carry what is left.
pub(crate) const MOST_ROUNDS: usize = 500;

/// So many ticks pass while a link is proved.
pub(crate) const PROVING_TICKS: u8 = 3;

/// So many times links come back behind a schedule.
pub(crate) const RETURNS: usize = 3;

/// How many ticks pass at points 1 and 2 between two rounds.
#[derive(Clone, Copy)]
pub(crate) struct Clock {
    /// At point 1.
    pub one: u8,
    /// At point 2.
    pub two: u8,
}

impl Clock {
    /// No tick passes.
    pub(crate) const STILL: Clock = Clock { one: 0, two: 0 };

    /// The ticks between two rounds pass.
    pub(crate) fn pass(self, network: &mut Network) {
        network.tick(1, self.one);
        network.tick(2, self.two);
    }
}

/// What is done at each end of each link.
#[derive(Clone, Copy)]
pub(crate) enum Each {
    /// It is done there.
    Do(Deed),
    /// The next frame that is in flight from there comes.
    Drain,
    /// The next frame is fetched there, and if there was one, the next in flight from there comes.
    Carry,
    /// The next frame is fetched there, and the next in flight from there comes.
    Exchange,
    /// It is lost at both ends,
    Lose,
    /// unless it is in service at both.
    LoseUnserved,
    /// It opens there first, where it may, and then at the other end.
    Open,
}

/// It is done at each end of each link. Says whether something moved.
pub(crate) fn do_each(network: &mut Network, each: Each) -> bool {
    let mut moved = false;
    for number in 0..network.links.len() {
        if let Some(link) = network.links.get(number).copied() {
            moved |= do_one(network, each, link);
        }
    }
    moved
}

/// It is done at the end of each link that is at the lower point.
pub(crate) fn do_each_once(network: &mut Network, each: Each) {
    for number in 0..network.links.len() {
        if let Some(link) = network.links.get(number).copied() {
            if link.is_lower() {
                do_one(network, each, link);
            }
        }
    }
}

/// It is done at one end of a link. Says whether something moved.
pub(crate) fn do_one(network: &mut Network, each: Each, link: Link) -> bool {
    let Link { here, there } = link;
    match each {
        Each::Do(deed) => network.act(here, deed),
        Each::Drain => deliver(network, there),
        Each::Carry => network.act(here, Deed::Take) && deliver(network, there),
        Each::Exchange => network.act(here, Deed::Take) | deliver(network, there),
        Each::Lose => lose_both(network, link),
        Each::LoseUnserved => !network.serves(link) && lose_both(network, link),
        Each::Open => network.act(here, Deed::OpenFirst) && network.act(there, Deed::OpenSecond),
    }
}

/// The next frame in flight to one end of a link comes: a link status if there is one, else User Data. Says whether
/// there was one.
pub(crate) fn deliver(network: &mut Network, there: Place) -> bool {
    network.act(there, Deed::DeliverStatus) || network.act(there, Deed::Deliver)
}

/// Both ends of a link lose it.
pub(crate) fn lose_both(network: &mut Network, Link { here, there }: Link) -> bool {
    network.act(here, Deed::Lose) | network.act(there, Deed::Lose)
}

/// It is done at each end of each link until nothing moves, and ticks pass between. Says whether nothing does.
pub(crate) fn repeat(network: &mut Network, each: Each, clock: Clock) -> bool {
    for _ in 0..MOST_ROUNDS {
        if !do_each(network, each) {
            return true;
        }
        clock.pass(network);
    }
    false
}
