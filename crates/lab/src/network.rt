//! Whether each link of a network has its other end among the nodes.

ghost use Rattle.std.specs.Prelude.{◌≡◌, ◌<◌, ◌≤◌, length};
ghost use Rattle.lab.specs.Network.{settings_in, network_fault, node_fault, link_faults, link_fault};

use crate::ends::{other_end, place_of};
use exchange::Exchange;
use settings::{Limits, LinkId, LinkRow, Settings};

/// Why nodes aren't a network. A node is named by its place among them.
#[derive(Clone, Copy)]
pub enum NetworkFault {
    /// A node before this one has the same point.
    SamePoint(usize),
    /// No node has the other end of this link of a node.
    NotJoined(usize, LinkId),
    /// The other end of this link of a node is in another network, by the network indicator.
    OtherNetwork(usize, LinkId),
}

/// Why nodes aren't a network, if they aren't: the first fault, node by node, and of a node first of its point and then
/// of its links.
pub fn network_fault(nodes: &[Exchange]) -> Option<NetworkFault>
    ensures { result ≡ network_fault (settings_in nodes.now) }
{
    for place in 0..nodes.len() {
        match node_fault(nodes, place, nodes[place].settings()) {
            Some(fault) => return Some(fault),
            None => {}
        }
    }
    None
}

/// The first fault of the node in a place, if it has one.
fn node_fault(nodes: &[Exchange], place: usize, node: &Settings) -> Option<NetworkFault>
    ensures { result ≡ node_fault (settings_in nodes.now) place node.now }
{
    match place_of(nodes, node.own()) {
        Some(first) if first < place => Some(NetworkFault::SamePoint(place)),
        _ => link_faults(nodes, place, node, node.links()),
    }
}

/// The first fault of these links of the node in a place, if one has a fault.
fn link_faults(
    nodes: &[Exchange],
    place: usize,
    node: &Settings,
    links: &[LinkRow],
) -> Option<NetworkFault>
    requires { length links.now ≤ Limits.LINKS }
    ensures { result ≡ link_faults (settings_in nodes.now) place node.now 0 links.now }
{
    for number in 0..links.len() {
        match link_fault(nodes, place, node, number, &links[number]) {
            Some(fault) => return Some(fault),
            None => {}
        }
    }
    None
}

/// The fault of a link of this number of the node in a place, if it has one.
fn link_fault(
    nodes: &[Exchange],
    place: usize,
    node: &Settings,
    number: usize,
    row: &LinkRow,
) -> Option<NetworkFault>
    requires { number < Limits.LINKS }
    ensures { result ≡ link_fault (settings_in nodes.now) place node.now number row.now }
{
    let link = LinkId::new(number as u8);
    let Some(end) = other_end(nodes, node, row) else {
        return Some(NetworkFault::NotJoined(place, link));
    };
    match nodes.get(end.place) {
        Some(other) if other.settings().network() == node.network() => None,
        _ => Some(NetworkFault::OtherNetwork(place, link)),
    }
}
