//! Where the links of a network end, by the settings of its nodes.

ghost use Rattle.std.specs.Prelude.{◌≡◌, position, nat_eq};
ghost use Rattle.settings.specs.Sharing.{is_link_of};
ghost use Rattle.lab.specs.Network.{settings_in, place_of, link_back, other_end};

use exchange::Exchange;
use settings::{LinkId, LinkRow, PointCode, SetId, Settings};

/// An end of a link: a node, by its place, and the number that the link has there.
#[derive(Clone, Copy)]
pub(crate) struct LinkEnd {
    /// The place of the node.
    pub(crate) place: usize,
    /// The link's number at that node.
    pub(crate) link: LinkId,
}

/// The other end of a link of a node (Q.704 §2.2, §15.2): at the point that the link's set leads to, in the set that
/// leads back, with the same signalling link code.
pub(crate) fn other_end(nodes: &[Exchange], node: &Settings, row: &LinkRow) -> Option<LinkEnd>
    ensures { result ≡ other_end (settings_in nodes.now) node.now row.now }
{
    let set = node.sets().get(row.set().index())?;
    let place = place_of(nodes, set.adjacent())?;
    let other = nodes.get(place)?;
    let link = link_back(other.settings(), node.own(), row.slc())?;
    Some(LinkEnd { place, link })
}

/// The place of the first node of a point.
pub(crate) fn place_of(nodes: &[Exchange], point: PointCode) -> Option<usize>
    ensures { result ≡ place_of (settings_in nodes.now) point }
{
    first_at(nodes, point)
}

/// The same, of the nodes themselves.
fn first_at(nodes: &[Exchange], point: PointCode) -> Option<usize>
    ensures { result ≡ position (λ node. nat_eq node.settings.own point) nodes.now }
{
    nodes.iter().position(|node| node.settings().own() == point)
}

/// The link of this signalling link code in the set that leads to a point.
fn link_back(settings: &Settings, point: PointCode, slc: u8) -> Option<LinkId>
    ensures { result ≡ link_back settings.now point slc }
{
    let set = settings.set_to(point)?;
    let place = link_in(settings.links(), set, slc)?;
    Some(LinkId::new(place as u8))
}

/// The place of the first of these links that is of a set and has a signalling link code.
fn link_in(links: &[LinkRow], set: SetId, slc: u8) -> Option<usize>
    ensures { result ≡ position (is_link_of set slc) links.now }
{
    links
        .iter()
        .position(|row| row.set() == set && row.slc() == slc)
}
