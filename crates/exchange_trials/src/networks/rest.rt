//! Networks that come to rest.

use crate::harness::{Deed, Network};
use crate::rounds::{Clock, Each, PROVING_TICKS, RETURNS, do_each, repeat};

/// So many ticks pass behind each return of links: T1 ends by then, and each hold.
const RESTING_TICKS: u8 = 16;

/// All links that may open do, and come into service.
pub(super) fn bring_up(network: &mut Network) {
    do_each(network, Each::Open);
    bring_into_service(network);
}

/// Links that are open come into service.
pub(super) fn bring_into_service(network: &mut Network) {
    settle(network);
    pass_ticks(network, PROVING_TICKS);
}

/// All links come back, and frames are carried with ticks until nothing moves. Says whether nothing does, and all links
/// are in service.
pub(super) fn come_to_rest(network: &mut Network) -> bool {
    do_each(network, Each::Do(Deed::Activate));
    settle(network);
    let mut settled = false;
    for _ in 0..RETURNS {
        do_each(network, Each::LoseUnserved);
        settle(network);
        bring_up(network);
        settled = pass_ticks(network, RESTING_TICKS);
    }
    settled && network.serves_all()
}

/// All links are lost at both ends, no end may follow the other, and ticks pass. Says whether the network is quiet.
pub(super) fn fall_to_rest(network: &mut Network) -> bool {
    do_each(network, Each::Do(Deed::Fall));
    for _ in 0..RESTING_TICKS {
        tick_all(network);
    }
    network.is_quiet()
}

/// All that is in flight comes, and then frames are carried until no node has one. Says whether none has.
fn settle(network: &mut Network) -> bool {
    repeat(network, Each::Drain, Clock::STILL) && repeat(network, Each::Carry, Clock::STILL)
}

/// So many ticks pass at each node, and after each frames are carried until no node has one. Says whether none has.
fn pass_ticks(network: &mut Network, count: u8) -> bool {
    let mut settled = true;
    for _ in 0..count {
        tick_all(network);
        settled = repeat(network, Each::Carry, Clock::STILL);
    }
    settled
}

/// A tick passes at each node.
pub(super) fn tick_all(network: &mut Network) {
    for point in network.shape.points() {
        network.tick(*point, 1);
    }
}
