//! Whether settings are those of a network.

ghost use Rattle.std.specs.Prelude.{◌≡◌, ◌↔◌, ◌<◌, IsTrue, IfOk, IfSome, length, map, nat_eq, position};
ghost use Rattle.std.specs.List.{list_any};
ghost use Rattle.network_rules.specs.Networks.{first_node};
ghost use Rattle.network_world.specs.KeptNodes.{kept_node_of};
ghost use Rattle.network_world.specs.Joined.{AreJoined, AreWell, IsJoined, IsJoinedBy, are_apart};

use crate::between::adjacent_of;
use crate::node::Node;
use exchange::NoMemory;
use settings::{LinkRow, PointCode, Settings};
use std::alloc::Global;

/// Whether no two are for the same point.
pub(crate) fn are_apart(settings: &[Settings]) -> bool
    ensures { result ≡ are_apart settings.now }
{
    for place in 0..settings.len() {
        if has_point(&settings[place + 1..], settings[place].own()) {
            return false;
        }
    }
    true
}

/// Whether some of these are for a point.
fn has_point(settings: &[Settings], point: PointCode) -> bool
    ensures { result ≡ list_any (λ c. nat_eq c.own point) settings.now }
{
    settings.iter().any(|own| own.own() == point)
}

/// The place of the first settings for a point.
fn place_for(settings: &[Settings], point: PointCode) -> Option<usize>
    ensures place { result ≡ position (λ c. nat_eq c.own point) settings.now }
    ensures fits { IfSome result (λ place. place < length settings.now) }
{
    settings.iter().position(|own| own.own() == point)
}

/// Whether each link leads to a node with which its own shares a set.
pub(crate) fn are_joined(settings: &[Settings]) -> bool
    ensures { IsTrue result ↔ AreJoined settings.now }
{
    for place in 0..settings.len() {
        if !is_joined(&settings[place], settings) {
            return false;
        }
    }
    true
}

/// Whether each link of one node does.
fn is_joined(near: &Settings, all: &[Settings]) -> bool
    ensures { IsTrue result ↔ IsJoined all.now near.now }
{
    for place in 0..near.links().len() {
        if !is_joined_by(near, &near.links()[place], all) {
            return false;
        }
    }
    true
}

/// Whether one of its links does. Requires that the set of the link is there.
fn is_joined_by(near: &Settings, link: &LinkRow, all: &[Settings]) -> bool
    requires { link.now.set < length near.now.sets }
    ensures { IsTrue result ↔ IsJoinedBy all.now near.now link.now }
{
    match place_for(all, adjacent_of(near, link)) {
        Some(far) => near.shares_set_with(&all[far]),
        None => false,
    }
}

/// Settings are within every limit.
pub(crate) fn are_well(settings: &[Settings])
    ensures { AreWell settings.now }
{
    for place in 0..settings.len() {
        settings[place].are_well();
    }
}

/// Nodes with these settings, before anything was done at them.
pub(crate) fn boot_all(alloc: Global, settings: Vec<Settings>) -> Result<Vec<Node>, NoMemory>
    ensures { IfOk result (λ nodes. nodes.items ≡ map (λ c. kept_node_of (first_node c)) settings.items) }
{
    let mut nodes = Vec::with_capacity(alloc, settings.len())?;
    for own in settings {
        nodes.push(Node::boot(alloc, own)?)?;
    }
    Ok(nodes)
}
