//! What the node at a point shows.

ghost use Rattle.std.specs.Prelude.{◌≡◌, [], is_some};
ghost use Rattle.std.specs.Option.{option_map};
ghost use Rattle.network_world.specs.KeptNetworks.{node_at};
ghost use Rattle.network_world.specs.NetworkPromised.{booked, follows_at, waiting_between};
ghost use Rattle.network_world.specs.NetworkStands.{has_node};

use crate::arrival::Arrival;
use crate::node::Node;
use crate::reaching::place_of;
use exchange::{Exchange, Pick};
use settings::{LinkId, Msu, PointCode};

/// The exchange of the node at a point. None where there is none.
pub(crate) fn exchange_at(nodes: &[Node], point: PointCode) -> Option<&Exchange>
    ensures there { is_some result ≡ has_node point nodes.now }
    ensures exchange { option_map (λ x. x.now) result ≡ option_map (λ n. n.exchange) (node_at point nodes.now) }
{
    match place_of(nodes, point) {
        Some(place) => Some(nodes[place].exchange()),
        None => None,
    }
}

/// What the node at a point accepted; nothing where there is none.
pub(crate) fn accepted_at(nodes: &[Node], point: PointCode) -> &[Msu]
    ensures { result.now ≡ booked (λ n. n.accepted) (node_at point nodes.now) }
{
    match place_of(nodes, point) {
        Some(place) => nodes[place].accepted(),
        None => &[],
    }
}

/// What came to the node at a point; nothing where there is none.
pub(crate) fn arrived_at(nodes: &[Node], point: PointCode) -> &[Arrival]
    ensures { result.now ≡ booked (λ n. n.arrived) (node_at point nodes.now) }
{
    match place_of(nodes, point) {
        Some(place) => nodes[place].arrived(),
        None => &[],
    }
}

/// What entered the network at the node at a point; nothing where there is none.
pub(crate) fn entered_at(nodes: &[Node], point: PointCode) -> &[Msu]
    ensures { result.now ≡ booked (λ n. n.entered) (node_at point nodes.now) }
{
    match place_of(nodes, point) {
        Some(place) => nodes[place].entered(),
        None => &[],
    }
}

/// What the node at a point refused of others; nothing where there is none.
pub(crate) fn refused_at(nodes: &[Node], point: PointCode) -> &[Msu]
    ensures { result.now ≡ booked (λ n. n.refused) (node_at point nodes.now) }
{
    match place_of(nodes, point) {
        Some(place) => nodes[place].refused(),
        None => &[],
    }
}

/// Whether the node at a point may follow the other end of a link; false where there is none.
pub(crate) fn follows_at(nodes: &[Node], point: PointCode, link: LinkId) -> bool
    ensures { result ≡ follows_at link (node_at point nodes.now) }
{
    match place_of(nodes, point) {
        Some(place) => nodes[place].may_follow(link),
        None => false,
    }
}

/// How many user messages that a choice takes wait at the node at a point for that at another; 0 where one of the two
/// has no node.
pub(crate) fn waiting_between<P: Pick>(
    nodes: &[Node],
    near: PointCode,
    far: PointCode,
    pick: &P,
) -> u128
    ensures { result ≡ waiting_between (P.picks pick.now) (node_at near nodes.now) (node_at far nodes.now) }
{
    match (place_of(nodes, near), place_of(nodes, far)) {
        (Some(one), Some(two)) => nodes[one].count_waiting(&nodes[two], pick),
        (Some(_), None) | (None, _) => 0,
    }
}
