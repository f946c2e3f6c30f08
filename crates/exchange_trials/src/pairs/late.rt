//! An answer about a link, which comes only in the link's next epoch if the link may open before.

use super::choices::Choices;
use super::ends::{
    bring_up, carry_statuses, come_back, link_from, links, serve, settle, submit, submit_all,
};
use crate::harness::{Deed, Link, Network};
use crate::rounds::{Clock, Each, do_one};

/// The most messages that go out after the link stops; before that, one fewer at most.
const MOST: u8 = 4;

/// How many ticks T2 takes, as built in.
const T2_TICKS: u8 = 6;

/// One run for each end whose order is answered late, each link, and each count of messages that arrive on it before,
/// and of those that go out on it after and are lost with it. T2 of that order runs out before the answer comes, or
/// not. Says whether all ended as it should.
pub(crate) fn answer_late(network: &mut Network, run: u16, expires: bool) -> bool {
    let mut choices = Choices(run);
    let near = if choices.below(2) == 0 { 1 } else { 2 };
    let link = link_from(network, near, choices.below(links(network)));
    let up = bring_up(network);
    submit_some(network, link, choices.below(MOST));
    settle(network, Clock::STILL);
    stop_first(network, link, expires);
    open_between(network, link);
    let behind = choices.below(MOST).saturating_add(1);
    submit_some(network, link, behind);
    for _ in 0..behind {
        network.act(link.here, Deed::Take);
    }
    // Both ends lose the link again, and the answer to the first order comes.
    network.act(link.here, Deed::Lose);
    carry_others(network, link.reversed());
    network.act(link.there, Deed::Lose);
    let rests = settle(network, Clock::STILL);
    let back = come_back(
        network,
        link_from(network, 1, link.here.number),
        Clock::STILL,
    );
    submit_all(network);
    settle(network, Clock::STILL) && up && rests && back
}

/// Both ends lose the link. The far end's order comes, and the near end's, but no answer to that. If T2 is to run out,
/// it does so once that order has come, one tick after it went out: L7 runs from then on, and must not run out.
fn stop_first(network: &mut Network, link: Link, expires: bool) {
    let near = link.here.point;
    network.act(link.here, Deed::Lose);
    network.tick(near, if expires { T2_TICKS - 1 } else { 0 });
    network.act(link.there, Deed::Lose);
    carry_others(network, link.reversed());
    carry_others(network, link);
    carry_others(network, link);
    network.tick(near, if expires { 1 } else { 0 });
}

/// The link opens, if it may, and comes into service. The far end's answers come on it, and nothing on the others.
fn open_between(network: &mut Network, link: Link) {
    let first = link_from(network, 1, link.here.number);
    do_one(network, Each::Open, first);
    serve(network, first);
    carry_others(network, link);
    carry_others(network, link);
    carry_statuses(network, first);
}

/// The near end submits this many messages on a flow.
fn submit_some(network: &mut Network, link: Link, count: u8) {
    for _ in 0..count {
        submit(network, link.here.point, link.here.number);
    }
}

/// The next frame of each link but this one is carried from this end to the other.
fn carry_others(network: &mut Network, but: Link) {
    for number in 0..links(network) {
        if number != but.here.number {
            let link = link_from(network, but.here.point, number);
            do_one(network, Each::Exchange, link);
        }
    }
}
