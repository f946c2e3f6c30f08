//! Whether nodes are those of a world.

ghost use Rattle.std.specs.Prelude.{◌≡◌, ◌↔◌, ◌<◌, IsTrue, IfSome, length, nat_eq, position};
ghost use Rattle.std.specs.List.{list_any};
ghost use Rattle.node_world.specs.Joined.{AreJoined, AreWell, IsJoined, IsJoinedBy, are_apart};

use crate::between::adjacent_of;
use crate::node_making::NodeMaking;
use settings::{LinkRow, PointCode, Settings};

/// Whether no two are at the same point.
pub(crate) fn are_apart(nodes: &[NodeMaking]) -> bool
    ensures { result ≡ are_apart nodes.now }
{
    for place in 0..nodes.len() {
        if has_point(&nodes[place + 1..], nodes[place].settings.own()) {
            return false;
        }
    }
    true
}

/// Whether some of these are at a point.
fn has_point(nodes: &[NodeMaking], point: PointCode) -> bool
    ensures { result ≡ list_any (λ m. nat_eq m.settings.own point) nodes.now }
{
    nodes.iter().any(|making| making.settings.own() == point)
}

/// The place of the first that is at a point.
fn place_for(nodes: &[NodeMaking], point: PointCode) -> Option<usize>
    ensures place { result ≡ position (λ m. nat_eq m.settings.own point) nodes.now }
    ensures fits { IfSome result (λ place. place < length nodes.now) }
{
    nodes
        .iter()
        .position(|making| making.settings.own() == point)
}

/// Whether each link leads to a node with which its own shares a set.
pub(crate) fn are_joined(nodes: &[NodeMaking]) -> bool
    ensures { IsTrue result ↔ AreJoined nodes.now }
{
    for place in 0..nodes.len() {
        if !is_joined(&nodes[place].settings, nodes) {
            return false;
        }
    }
    true
}

/// Whether each link of one node does.
fn is_joined(near: &Settings, all: &[NodeMaking]) -> bool
    ensures { IsTrue result ↔ IsJoined all.now near.now }
{
    for place in 0..near.links().len() {
        if !is_joined_by(near, &near.links()[place], all) {
            return false;
        }
    }
    true
}

/// Whether one of its links does. Requires that the set of the link is there.
fn is_joined_by(near: &Settings, link: &LinkRow, all: &[NodeMaking]) -> bool
    requires { link.now.set < length near.now.sets }
    ensures { IsTrue result ↔ IsJoinedBy all.now near.now link.now }
{
    match place_for(all, adjacent_of(near, link)) {
        Some(far) => near.shares_set_with(&all[far].settings),
        None => false,
    }
}

/// Settings are within every limit.
pub(crate) fn are_well(nodes: &[NodeMaking])
    ensures { AreWell nodes.now }
{
    for place in 0..nodes.len() {
        nodes[place].settings.are_well();
    }
}
