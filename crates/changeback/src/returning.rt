//! The flows that a link takes over when it enters service.

ghost use Rattle.std.specs.Prelude.{◌≡◌, ℕ, ◌<◌, ◌≤◌, ◌||◌, false, length, slice_index_or, IfSome, if◌then◌else◌};
ghost use Rattle.routes.specs.Routes.{with_link};
ghost use Rattle.signalling_types.specs.declared.limits.TheConstants.Limits.{SELECTIONS};
ghost use Rattle.flow_hold.specs.Holds.{HoldSet};
ghost use Rattle.node_links.specs.NodeLinks.{facts_of};
ghost use Rattle.changeback.specs.Return.{former_link_of, change_from, changes_of, returned, comes_from, gives_up, held_by};
ghost use Rattle.changeback.specs.Seen.{IsSeen, is_seen, with_seen};

use crate::set_pairs::SetPairs;
use flow_hold::{Holds, Procedure};
use node_links::NodeLinks;
use routes::RouteFacts;
use signalling_types::{Limits, LinkId, SetId, Sls};

/// Which links lose flows to a link, compared with when it is out of service (Q.704 §6.2).
///
/// It looks at the sets of each destination, and at its 16 flows, unless messages to an earlier one took the same set
/// alone, and take the same set alone now: those lose the same links.
pub fn losing(links: &NodeLinks, link: LinkId) -> [bool; Limits::LINKS]
    requires { length links.now.links ≤ Limits.LINKS }
    ensures { (other : ℕ) → slice_index_or result other false
        ≡ gives_up (returned link (with_link link false (facts_of links.now)) (facts_of links.now)) other }
{
    let in_service = links.in_service_without(link);
    losing_by(links, &links.facts_by(&in_service), link)
}

/// Holds each flow that a link takes over, compared with when it is out of service, for the procedure given for the
/// link that it comes from (Q.704 §6.3, §6.4). A flow whose former link has none is ignored.
///
/// It walks each flow of the node once, by one call of `NodeLinks::former_link`.
pub fn hold_changes(
    links: &NodeLinks,
    link: LinkId,
    holders: &[Option<Procedure>; Limits::LINKS],
    holds: &mut Holds,
)
    requires { length links.now.links ≤ Limits.LINKS }
    ensures { holds.new ≡ held_by holders.now
        (returned link (with_link link false (facts_of links.now)) (facts_of links.now)) holds.old }
{
    let in_service = links.in_service_without(link);
    hold_changes_by(links, &links.facts_by(&in_service), link, holders, holds);
}

/// The same, by what is known of routes with the link out of service.
fn losing_by(links: &NodeLinks, before: &RouteFacts<'_>, link: LinkId) -> [bool; Limits::LINKS]
    requires few { length links.now.links ≤ Limits.LINKS }
    requires before { before.now ≡ with_link link false (facts_of links.now) }
    ensures { (other : ℕ) → slice_index_or result other false
        ≡ gives_up (returned link (with_link link false (facts_of links.now)) (facts_of links.now)) other }
{
    let mut losing = [false; Limits::LINKS];
    let mut seen = SetPairs::new();
    for destination in 0..before.destinations() {
        look_at(links, before, link, destination, &mut seen, &mut losing);
    }
    losing
}

/// Holds what a link takes over, by what is known of routes with the link out of service.
fn hold_changes_by(
    links: &NodeLinks,
    before: &RouteFacts<'_>,
    link: LinkId,
    holders: &[Option<Procedure>; Limits::LINKS],
    holds: &mut Holds,
)
    requires few { length links.now.links ≤ Limits.LINKS }
    requires before { before.now ≡ with_link link false (facts_of links.now) }
    ensures { holds.new ≡ held_by holders.now
        (returned link (with_link link false (facts_of links.now)) (facts_of links.now)) holds.old }
{
    for destination in 0..before.destinations() {
        hold_changes_to(links, before, link, destination, holders, holds);
    }
}

/// Marks the links that lose flows to one destination, unless messages to an earlier one took the same set alone, and
/// take the same set alone now: those lose the same links.
fn look_at(
    links: &NodeLinks,
    before: &RouteFacts<'_>,
    link: LinkId,
    destination: usize,
    seen: &mut SetPairs,
    losing: &mut [bool; Limits::LINKS],
)
    requires few { length links.now.links ≤ Limits.LINKS }
    requires before { before.now ≡ with_link link false (facts_of links.now) }
    requires seen { IsSeen links.now link seen.old losing.old }
    ensures losing { (other : ℕ) → slice_index_or losing.new other false
        ≡ (slice_index_or losing.old other false || gives_up (changes_of link
        (with_link link false (facts_of links.now)) (facts_of links.now) destination SELECTIONS) other) }
    ensures seen { IsSeen links.now link seen.new losing.new }
{
    let was = before.lone_set(destination);
    let is = links.facts().lone_set(destination);
    if is_seen(seen, was, is) {
        return;
    }
    mark_losing(links, before, link, destination, losing);
}

/// Whether the pair of two sets was looked at, if they are a pair. If it wasn't, it is from now on.
fn is_seen(seen: &mut SetPairs, before: Option<SetId>, after: Option<SetId>) -> bool
    ensures was { result ≡ is_seen seen.old before after }
    ensures seen { seen.new ≡ (if result then seen.old else with_seen seen.old before after) }
{
    let (Some(before), Some(after)) = (before, after) else {
        return false;
    };
    if seen.has(before, after) {
        return true;
    }
    seen.add(before, after);
    false
}

/// Marks the links that lose flows to one destination.
fn mark_losing(
    links: &NodeLinks,
    before: &RouteFacts<'_>,
    link: LinkId,
    destination: usize,
    losing: &mut [bool; Limits::LINKS],
)
    requires few { length links.now.links ≤ Limits.LINKS }
    requires before { before.now ≡ with_link link false (facts_of links.now) }
    ensures { (other : ℕ) → slice_index_or losing.new other false
        ≡ (slice_index_or losing.old other false || gives_up (changes_of link
        (with_link link false (facts_of links.now)) (facts_of links.now) destination SELECTIONS) other) }
{
    for selection in 0..Limits::SELECTIONS as u8 {
        let from = former_link(links, before, link, destination, selection);
        mark(losing, from);
    }
}

fn mark(losing: &mut [bool; Limits::LINKS], from: Option<LinkId>)
    requires { IfSome from (λ from. from < Limits.LINKS) }
    ensures { (other : ℕ) → slice_index_or losing.new other false
        ≡ (slice_index_or losing.old other false || comes_from from other) }
{
    if let Some(from) = from {
        losing[from.index()] = true;
    }
}

/// The link that a flow comes from which the link in service takes over.
fn former_link(
    links: &NodeLinks,
    before: &RouteFacts<'_>,
    link: LinkId,
    destination: usize,
    selection: u8,
) -> Option<LinkId>
    requires few { length links.now.links ≤ Limits.LINKS }
    requires before { before.now ≡ with_link link false (facts_of links.now) }
    requires selection { selection < SELECTIONS }
    ensures from { result ≡ former_link_of link (with_link link false (facts_of links.now)) (facts_of links.now)
        destination selection }
    ensures fits { IfSome result (λ from. from < Limits.LINKS) }
{
    let Some(sls) = Sls::new(selection) else {
        unreachable!()
    };
    links.former_link(before, link, destination, sls)
}

/// Holds the flows to one destination.
fn hold_changes_to(
    links: &NodeLinks,
    before: &RouteFacts<'_>,
    link: LinkId,
    destination: usize,
    holders: &[Option<Procedure>; Limits::LINKS],
    holds: &mut Holds,
)
    requires few { length links.now.links ≤ Limits.LINKS }
    requires before { before.now ≡ with_link link false (facts_of links.now) }
    ensures { holds.new ≡ held_by holders.now (changes_of link
        (with_link link false (facts_of links.now)) (facts_of links.now) destination SELECTIONS) holds.old }
{
    for selection in 0..Limits::SELECTIONS as u8 {
        hold_change(links, before, link, destination, selection, holders, holds);
    }
}

/// Holds one flow, if the link in service takes it over.
fn hold_change(
    links: &NodeLinks,
    before: &RouteFacts<'_>,
    link: LinkId,
    destination: usize,
    selection: u8,
    holders: &[Option<Procedure>; Limits::LINKS],
    holds: &mut Holds,
)
    requires few { length links.now.links ≤ Limits.LINKS }
    requires before { before.now ≡ with_link link false (facts_of links.now) }
    requires selection { selection < SELECTIONS }
    ensures { holds.new ≡ held_by holders.now (change_from destination selection (former_link_of link
        (with_link link false (facts_of links.now)) (facts_of links.now) destination selection)) holds.old }
{
    let Some(sls) = Sls::new(selection) else {
        unreachable!()
    };
    if let Some(from) = links.former_link(before, link, destination, sls) {
        if let Some(procedure) = holders[from.index()] {
            holds.hold(procedure, destination, sls);
        }
    }
}
