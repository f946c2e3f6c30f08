//! The nodes of a network by their points, and what is done at one of them and reaches another.

ghost use Rattle.std.specs.Prelude.{◌≡◌, ◌<◌, ◌≢◌, ◌↔◌, length, slice_get, IsTrue, IfOk, IfSome, OnOk, OnErr};
ghost use Rattle.network_world.specs.KeptLinks.{AreAllLinked, IsLinkedAt};
ghost use Rattle.network_world.specs.KeptNetworks.{KeptPlace, kept_other_end, kept_reaches, one_turned, place_at, reached_at};
ghost use Rattle.network_world.specs.KeptNodes.{node_did, node_takes};
ghost use Rattle.network_world.specs.Told.{doing_told};

use crate::between::{adjacent_of, far_end};
use crate::doing::{Doing, Reach};
use crate::node::{Node, reach};
use exchange::NoMemory;
use settings::{LinkId, Outcome, PointCode};
use std::marker::Model;

/// The other end of a link: the place of its node, and its link there.
#[derive(Drop)]
pub(crate) struct There {
    place: usize,
    link: LinkId,
}

impl Model for There {
    ghost Value = { KeptPlace };

    ghost view = { λ there. record { place = there.place; link = there.link } };
}

/// The place of the node at a point.
pub(crate) fn place_of(nodes: &[Node], point: PointCode) -> Option<usize>
    ensures place { result ≡ place_at point nodes.now }
    ensures fits { IfSome result (λ place. place < length nodes.now) }
{
    nodes.iter().position(|node| node.point() == point)
}

/// The other end of a link of the node at a place. Requires that the node is there. It looks through the nodes, and
/// through the links of that of the other end.
fn other_end(nodes: &[Node], near: usize, link: LinkId) -> Option<There>
    requires { near < length nodes.now }
    ensures place { result ≡ kept_other_end nodes.now (slice_get nodes.now near) link }
    ensures fits { IfSome result (λ there. there.place < length nodes.now) }
{
    let settings = nodes[near].settings();
    let row = settings.links().get(link.index())?;
    let place = place_of(nodes, adjacent_of(settings, row))?;
    let other = far_end(settings, nodes[place].settings(), link)?;
    Some(There { place, link: other })
}

/// Whether each link of these nodes has its other end at one of them.
pub(crate) fn are_linked(nodes: &[Node]) -> bool
    ensures { IsTrue result ↔ AreAllLinked nodes.now }
{
    for place in 0..nodes.len() {
        if !is_linked(nodes, place) {
            return false;
        }
    }
    true
}

/// Whether each link of the node at a place has. Requires that the node is there.
fn is_linked(nodes: &[Node], near: usize) -> bool
    requires { near < length nodes.now }
    ensures { IsTrue result ↔ IsLinkedAt nodes.now near }
{
    let links = nodes[near].settings().link_count() as u8;
    for link in 0..links {
        if other_end(nodes, near, LinkId::new(link)).is_none() {
            return false;
        }
    }
    true
}

/// Does what is done at the node at a place alone. Requires that it is there. After NoMemory nothing has changed.
pub(crate) fn act_at(nodes: &mut [Node], place: usize, what: Doing) -> Result<Outcome, NoMemory>
    requires { place < length nodes.old }
    ensures outcome { IfOk result (λ outcome.
        outcome ≡ (one_turned place (node_did (doing_told what outcome)) (slice_get nodes.old place) nodes.old).outcome) }
    ensures state { IfOk result (λ outcome.
        nodes.new ≡ (one_turned place (node_did (doing_told what outcome)) (slice_get nodes.old place) nodes.old).left) }
    ensures unchanged { OnErr result (nodes.new ≡ nodes.old) }
{
    nodes[place].act(what)
}

/// Does something at the node at a place that reaches the other end of a link. Requires that the node is there. After
/// NoMemory nothing has changed.
pub(crate) fn reach_from(
    nodes: &mut [Node],
    what: Reach,
    near: usize,
    link: LinkId,
) -> Result<Outcome, NoMemory>
    requires { near < length nodes.old }
    ensures outcome { IfOk result (λ outcome. outcome ≡ (kept_reaches what near link nodes.old).outcome) }
    ensures state { OnOk result (nodes.new ≡ (kept_reaches what near link nodes.old).left) }
    ensures unchanged { OnErr result (nodes.new ≡ nodes.old) }
{
    match (other_end(nodes, near, link), what) {
        (Some(there), _) => reach_at(nodes, what, near, link, there.place, there.link),
        (None, Reach::Fetch) => Ok(take_alone(nodes, near, link)),
        (None, Reach::Open) => Ok(Outcome::Ignored),
    }
}

/// The next frame of a link of the node at a place is fetched, and goes nowhere. Requires that the node is there.
fn take_alone(nodes: &mut [Node], place: usize, link: LinkId) -> Outcome
    requires { place < length nodes.old }
    ensures outcome { result ≡ (one_turned place (node_takes link) (slice_get nodes.old place) nodes.old).outcome }
    ensures state { nodes.new ≡ (one_turned place (node_takes link) (slice_get nodes.old place) nodes.old).left }
{
    match nodes[place].take(link) {
        Some(_) => Outcome::Handled,
        None => Outcome::Ignored,
    }
}

/// What `reach_from` does, where the other end is this link at this place. Ignored where that is the same place.
fn reach_at(
    nodes: &mut [Node],
    what: Reach,
    near: usize,
    link: LinkId,
    far: usize,
    other: LinkId,
) -> Result<Outcome, NoMemory>
    requires near { near < length nodes.old }
    requires far { far < length nodes.old }
    ensures outcome { IfOk result (λ outcome. outcome ≡
        (reached_at what near link far other (slice_get nodes.old near) (slice_get nodes.old far) nodes.old).outcome) }
    ensures state { OnOk result (nodes.new ≡
        (reached_at what near link far other (slice_get nodes.old near) (slice_get nodes.old far) nodes.old).left) }
    ensures unchanged { OnErr result (nodes.new ≡ nodes.old) }
{
    if near == far {
        return Ok(Outcome::Ignored);
    }
    if near < far {
        let (front, back) = nodes.split_at_mut(far);
        reach(what, &mut front[near], &mut back[0], link, other)
    } else {
        let (front, back) = nodes.split_at_mut(near);
        reach(what, &mut back[0], &mut front[far], link, other)
    }
}
