//! What the node at a point shows.

ghost use Rattle.std.specs.Prelude.{◌≡◌, ◌<◌, length, is_some, IfSome};
ghost use Rattle.std.specs.Option.{option_map};
ghost use Rattle.node_world.specs.Kept.{due_at, has_node, is_whole_at, lost_at, node_at, place_at, sent_at};

use crate::log::Datagram;
use crate::node::Node;
use exchange::Exchange;
use settings::{LinkId, PointCode};

/// The place of the node at a point.
pub(crate) fn place_of(nodes: &[Node], point: PointCode) -> Option<usize>
    ensures place { result ≡ place_at point nodes.now }
    ensures fits { IfSome result (λ place. place < length nodes.now) }
{
    nodes.iter().position(|node| node.point() == point)
}

/// The exchange of the node at a point. None where there is none.
pub(crate) fn exchange_at(nodes: &[Node], point: PointCode) -> Option<&Exchange>
    ensures there { is_some result ≡ has_node point nodes.now }
    ensures exchange { option_map (λ x. x.now) result ≡ option_map (λ n. n.exchange) (node_at point nodes.now) }
{
    match place_of(nodes, point) {
        Some(place) => Some(nodes[place].exchange()),
        None => None,
    }
}

/// Whether the exchange of the node at a point may have lost a message. False where there is none.
pub(crate) fn lost_at(nodes: &[Node], point: PointCode) -> bool
    ensures { result ≡ lost_at (node_at point nodes.now) }
{
    match place_of(nodes, point) {
        Some(place) => nodes[place].exchange().lost_any(),
        None => false,
    }
}

/// The datagrams that the gate of a link of the node at a point put out, in order; none where there is none.
pub(crate) fn sent_at(nodes: &[Node], point: PointCode, link: LinkId) -> &[Datagram]
    ensures { result.now ≡ sent_at (node_at point nodes.now) link }
{
    match place_of(nodes, point) {
        Some(place) => nodes[place].sent(link),
        None => &[],
    }
}

/// Whether all of them are kept; not where there is none.
pub(crate) fn is_whole_at(nodes: &[Node], point: PointCode, link: LinkId) -> bool
    ensures { result ≡ is_whole_at (node_at point nodes.now) link }
{
    match place_of(nodes, point) {
        Some(place) => nodes[place].is_whole(link),
        None => false,
    }
}

/// When to call the gate next, in milliseconds.
pub(crate) fn deadline_at(nodes: &[Node], point: PointCode, link: LinkId) -> Option<u64>
    ensures { result ≡ due_at (node_at point nodes.now) link }
{
    match place_of(nodes, point) {
        Some(place) => nodes[place].deadline(link),
        None => None,
    }
}
