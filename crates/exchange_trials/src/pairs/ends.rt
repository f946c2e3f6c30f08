//! What is done to the two ends, and to the links between them.

use super::mark::Mark;
use crate::harness::{AllMessages, Link, Network, OnFlow};
use crate::rounds::{Clock, Each, PROVING_TICKS, do_each_once, do_one, lose_both, repeat};
use crate::throws::FLOWS;
use exchange::{Msu, Sls};

/// The points of the two ends.
pub(crate) const ENDS: [u16; 2] = [1, 2];

/// How many times the ticks between two rounds pass until T1 has run out. A link that is the only one may not open
/// before that.
const T1_PASSES: usize = 4;

/// How many exchanges of frames carry the statuses of a link.
const STATUSES: usize = 4;

/// The other end.
pub(crate) fn other(end: u16) -> u16 {
    if end == 1 { 2 } else { 1 }
}

/// How many links there are between the two.
pub(crate) fn links(network: &Network) -> u8 {
    network.shape.links_between(1, 2)
}

/// A link between the two, by its number among these, as an end sees it.
pub(crate) fn link_from(network: &Network, end: u16, number: u8) -> Link {
    network.shape.link_between(end, other(end), number)
}

/// Rounds pass until one does nothing. Says whether one did nothing.
pub(crate) fn settle(network: &mut Network, clock: Clock) -> bool {
    repeat(network, Each::Exchange, clock)
}

/// All links come into service, and every declaration of a changeback is answered. Says whether all did.
pub(crate) fn bring_up(network: &mut Network) -> bool {
    come_up(network) && network.serves_all()
}

/// All links that may open do, and are proved. Says whether all came to rest.
pub(crate) fn come_up(network: &mut Network) -> bool {
    do_each_once(network, Each::Open);
    let told = settle(network, Clock::STILL);
    prove_links(network);
    settle(network, Clock::STILL) && told
}

/// The ticks pass in which links are proved.
pub(crate) fn prove_links(network: &mut Network) {
    for end in ENDS {
        network.tick(end, PROVING_TICKS);
    }
}

/// A link that is lost at both ends comes back. Says whether it opened.
pub(crate) fn come_back(network: &mut Network, link: Link, clock: Clock) -> bool {
    lose_both(network, link);
    if links(network) == 1 {
        for _ in 0..T1_PASSES {
            clock.pass(network);
        }
    }
    let opened = do_one(network, Each::Open, link);
    serve(network, link);
    opened
}

/// A link that is open at both ends comes into service.
pub(crate) fn serve(network: &mut Network, link: Link) {
    carry_statuses(network, link);
    prove_links(network);
    carry_statuses(network, link);
}

/// The statuses of a link are carried.
pub(crate) fn carry_statuses(network: &mut Network, link: Link) {
    for _ in 0..STATUSES {
        do_one(network, Each::Exchange, link);
        do_one(network, Each::Exchange, link.reversed());
    }
}

/// Each end submits a message on each flow.
pub(crate) fn submit_all(network: &mut Network) {
    for flow in 0..FLOWS {
        for end in ENDS {
            submit(network, end, flow);
        }
    }
}

/// An end submits its next message on a flow. Says whether it accepted it.
pub(crate) fn submit(network: &mut Network, end: u16, flow: u8) -> bool {
    let message = next_message(network, end, flow);
    network.submit(end, message)
}

/// The next message of an end on a flow. If it is relayed, end 1 has a UDT, and end 2 none.
fn next_message(network: &Network, end: u16, flow: u8) -> Option<Msu> {
    let sls = Sls::of_low_bits(flow as u32);
    let before = network.count_accepted(end, other(end), &OnFlow { sls });
    let number = u16::try_from(before).unwrap_or(u16::MAX).wrapping_add(1);
    let mark = Mark { flow, number };
    match (network.relays, end) {
        (false, _) => mark.message(end, other(end)),
        (true, 1) => mark.unitdata(end),
        (true, _) => None,
    }
}

/// Whether as many messages came from each end as it accepted for the other, or an end says that one may be lost.
pub(crate) fn has_brought_all(network: &Network) -> bool {
    let mut all = true;
    for end in ENDS {
        let accepted = network.count_accepted(end, other(end), &AllMessages);
        all &= accepted == network.count_received(end, other(end), &AllMessages);
    }
    all || network.may_have_lost()
}
