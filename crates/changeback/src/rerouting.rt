//! Controlled rerouting: the flows that a status of a route moves from one link to another.

ghost use Rattle.std.specs.Prelude.{◌≡◌, ℕ, ◌<◌, [], ◌∷◌, None, length, nat_lt, slice_index_or, if◌then◌else◌};
ghost use Rattle.routes.specs.Routes.{chosen_link};
ghost use Rattle.node_links.specs.NodeLinks.{facts_of, with_route_status};
ghost use Rattle.signalling_types.specs.declared.limits.TheConstants.Limits.{SELECTIONS};
ghost use Rattle.changeback.specs.Rerouting.{is_other_link, rerouted, moved_from, held_for};

use flow_hold::{Holds, Procedure};
use node_links::NodeLinks;
use routes::RouteStatus;
use signalling_types::{Limits, LinkId, SetId, Sls};

/// Gives the route to a destination over a set a status, and holds each flow to that destination that changes its link
/// by that, for the rerouting of the destination (Q.704 §8). Says whether there is such a flow. A route that isn't
/// there is ignored.
///
/// It asks for the link of each of the 16 flows to the destination before and after, by `NodeLinks::link_of`.
pub fn reroute(
    links: &mut NodeLinks,
    holds: &mut Holds,
    destination: usize,
    set: SetId,
    status: RouteStatus,
) -> bool
    ensures links { links.new ≡ with_route_status destination set status links.old }
    ensures holds { holds.new ≡ held_for destination
        (rerouted (facts_of links.old) (facts_of links.new) destination) holds.old }
    ensures moved { result
        ≡ nat_lt 0 (length (rerouted (facts_of links.old) (facts_of links.new) destination)) }
{
    let before = links_to(links, destination);
    links.set_status(destination, set, status);
    hold_moved(links, &before, destination, holds)
}

/// The links that the flows to a destination take, by their selections.
fn links_to(links: &NodeLinks, destination: usize) -> [Option<LinkId>; Limits::SELECTIONS]
    ensures { (sls : ℕ) → sls < SELECTIONS
        → slice_index_or result sls None ≡ chosen_link (facts_of links.now) destination sls }
{
    let mut taken = [None; Limits::SELECTIONS];
    for selection in 0..Limits::SELECTIONS as u8 {
        taken[usize::from(selection)] = link_of(links, destination, selection);
    }
    taken
}

/// Holds the flows to a destination that go from one link to another. Says whether there is one.
fn hold_moved(
    links: &NodeLinks,
    before: &[Option<LinkId>; Limits::SELECTIONS],
    destination: usize,
    holds: &mut Holds,
) -> bool
    ensures holds { holds.new ≡ held_for destination
        (moved_from before.now (facts_of links.now) destination SELECTIONS) holds.old }
    ensures moved { result
        ≡ nat_lt 0 (length (moved_from before.now (facts_of links.now) destination SELECTIONS)) }
{
    let mut moved = false;
    for selection in 0..Limits::SELECTIONS as u8 {
        let former = before[usize::from(selection)];
        moved |= hold_if_moved(links, former, destination, selection, holds);
    }
    moved
}

/// Holds a flow, if it goes from one link to another. Says whether it does.
fn hold_if_moved(
    links: &NodeLinks,
    before: Option<LinkId>,
    destination: usize,
    selection: u8,
    holds: &mut Holds,
) -> bool
    requires selection { selection < SELECTIONS }
    ensures moved { result ≡ is_other_link before (chosen_link (facts_of links.now) destination selection) }
    ensures holds { holds.new ≡ held_for destination (if result then selection ∷ [] else []) holds.old }
{
    let Some(sls) = Sls::new(selection) else {
        unreachable!()
    };
    let moved = is_other_link(before, links.link_of(destination, sls));
    if moved {
        holds.hold(Procedure::Reroute(destination), destination, sls);
    }
    moved
}

/// The link that a flow takes.
fn link_of(links: &NodeLinks, destination: usize, selection: u8) -> Option<LinkId>
    requires selection { selection < SELECTIONS }
    ensures { result ≡ chosen_link (facts_of links.now) destination selection }
{
    match Sls::new(selection) {
        Some(sls) => links.link_of(destination, sls),
        None => None,
    }
}

/// Whether a flow goes from one link to another.
fn is_other_link(before: Option<LinkId>, after: Option<LinkId>) -> bool
    ensures { result ≡ is_other_link before after }
{
    match (before, after) {
        (Some(from), Some(to)) => from != to,
        _ => false,
    }
}
