//! The shapes of networks.

use crate::harness::{Link, Place};
use exchange::{LinkId, PointCode};
use std::alloc::Global;

/// Which nodes there are, at points 1, 2, 3 and so on, and which of them are joined.
#[derive(Clone, Copy, PartialEq, Eq)]
pub(crate) enum Shape {
    /// Two nodes, joined by so many links.
    Pair(u8),
    /// Two ends, points 1 and 2, and a third neighbour of each, points 3 and 4, which are joined by one link.
    Ring,
    /// Four nodes in a row.
    Line,
    /// Three nodes, each joined to each.
    Triangle,
    /// Four nodes in a ring.
    Square,
    /// Two ends, points 1 and 4, and two transfer points, each joined to both ends and to the other.
    MatedPair,
    /// The same, where orders to change over go by any route, and links are barred for so many ticks. The mate leads to
    /// each adjacent point, too.
    AnyRoute(u8),
    /// Four nodes, each joined to each, whose orders to change over go by any route.
    Mesh,
}

/// A point that some nodes lead messages to, but that isn't there: the last one on the way doesn't know it.
pub(crate) const UNKNOWN: u16 = 9;

/// The code of a point.
pub(crate) fn code_of(point: u16) -> PointCode {
    PointCode::of_low_bits(point as u32)
}

impl Shape {
    /// The points of its nodes.
    pub(crate) fn points(self) -> &'static [u16] {
        match self {
            Shape::Pair(_) => &[1, 2],
            Shape::Triangle => &[1, 2, 3],
            _ => &[1, 2, 3, 4],
        }
    }

    /// How many links join two adjacent nodes.
    pub(crate) fn links_between(self, one: u16, other: u16) -> u8 {
        match self {
            Shape::Pair(links) => links,
            Shape::Ring if one > 2 && other > 2 => 1,
            Shape::Line => 3,
            Shape::Mesh => 1,
            Shape::AnyRoute(_) if !is_wide(one, other) => 1,
            _ => 2,
        }
    }

    /// The adjacent points of a node, in the order of its sets.
    pub(crate) fn neighbours(self, point: u16) -> &'static [u16] {
        match (self, point) {
            (Shape::Pair(_), 1) => &[2],
            (Shape::Pair(_), _) => &[1],
            (Shape::Ring, 1) => &[2, 3],
            (Shape::Ring, 2) => &[4, 1],
            (Shape::Ring, 3) => &[1, 4],
            (Shape::Ring, _) => &[2, 3],
            (Shape::Line, 1) => &[2],
            (Shape::Line, 2) => &[1, 3],
            (Shape::Line, 3) => &[2, 4],
            (Shape::Line, _) => &[3],
            (Shape::Triangle, 1) => &[2, 3],
            (Shape::Triangle, 2) => &[1, 3],
            (Shape::Triangle, _) => &[1, 2],
            (Shape::Square, 1 | 3) => &[2, 4],
            (Shape::Square, _) => &[1, 3],
            (Shape::MatedPair | Shape::AnyRoute(_) | Shape::Mesh, 2) => &[1, 3, 4],
            (Shape::MatedPair | Shape::AnyRoute(_) | Shape::Mesh, 3) => &[1, 2, 4],
            (Shape::Mesh, 1) => &[2, 3, 4],
            (Shape::Mesh, _) => &[1, 2, 3],
            (Shape::MatedPair | Shape::AnyRoute(_), _) => &[2, 3],
        }
    }

    /// The adjacent points by which a node leads to another point, the first one before the others. Empty where it
    /// leads to an adjacent point by that alone, or doesn't know the point.
    pub(crate) fn ways(self, from: u16, to: u16) -> &'static [u16] {
        match (self, from, to) {
            (Shape::Ring, 1, 3 | 4) | (Shape::Ring, 4, 3) => &[3, 2],
            (Shape::Ring, 2, 3 | 4) | (Shape::Ring, 3, 4) => &[4, 1],
            (Shape::Ring, 3, 2 | UNKNOWN) => &[1],
            (Shape::Ring, 4, 1 | UNKNOWN) => &[2],
            (Shape::Line, 1, 3 | 4 | UNKNOWN) => &[2],
            (Shape::Line, 2, 4 | UNKNOWN) => &[3],
            (Shape::Line, 3, 1) => &[2],
            (Shape::Line, 3, UNKNOWN) => &[4],
            (Shape::Line, 4, 1 | 2) => &[3],
            (Shape::Triangle, 1, UNKNOWN) => &[2, 3],
            (Shape::Triangle, 2, UNKNOWN) => &[3, 1],
            (Shape::Square, 1, 3) => &[2, 4],
            (Shape::Square, 1, UNKNOWN) | (Shape::Square, 3, 1) => &[4, 2],
            (Shape::Square, 2, 4 | UNKNOWN) | (Shape::Square, 4, UNKNOWN) => &[3, 1],
            (Shape::Square, 4, 2) => &[1, 3],
            (Shape::MatedPair, 1, 4) | (Shape::MatedPair, 4, 1) => &[2, 3],
            (Shape::MatedPair, 1, UNKNOWN) => &[3, 2],
            (Shape::MatedPair, 2, UNKNOWN) => &[4, 3],
            (Shape::MatedPair, 3, UNKNOWN) => &[4, 2],
            (Shape::AnyRoute(_), _, _) => ways_of_mates(from, to),
            (Shape::Mesh, _, _) => ways_of_mesh(from, to),
            _ => &[],
        }
    }

    /// Whether two nodes are adjacent.
    pub(crate) fn are_adjacent(self, one: u16, other: u16) -> bool {
        self.neighbours(one).contains(&other)
    }

    /// Whether two nodes are adjacent, and no other way leads from one to the other.
    pub(crate) fn leads_alone(self, one: u16, other: u16) -> bool {
        self.are_adjacent(one, other) && !self.orders_by_any_route()
    }

    /// Whether a node shares its messages for another among two sets.
    pub(crate) fn shares(self, from: u16, to: u16) -> bool {
        matches!(self, Shape::MatedPair | Shape::AnyRoute(_))
            && (from == 1 && to == 4 || from == 4 && to == 1)
    }

    /// Whether orders to change over go by any route, so that a message is named as lost where a node in other shapes
    /// could only say that one may be.
    pub(crate) fn orders_by_any_route(self) -> bool {
        matches!(self, Shape::AnyRoute(_) | Shape::Mesh)
    }

    /// Whether links that are alone in their sets in service seldom fail.
    pub(crate) fn spares_sets(self) -> bool {
        !self.has_ends() && !self.orders_by_any_route()
    }

    /// How many links a node has.
    pub(crate) fn links_at(self, point: u16) -> u8 {
        self.links_before(point, UNKNOWN)
    }

    /// How many links a node has in the sets before that to an adjacent point; in all of them if it isn't adjacent.
    pub(crate) fn links_before(self, point: u16, far: u16) -> u8 {
        let mut links = 0u8;
        for other in self.neighbours(point) {
            if *other == far {
                return links;
            }
            links = links.wrapping_add(self.links_between(point, *other));
        }
        links
    }

    /// Whether a link of a node leads to this adjacent point.
    pub(crate) fn leads_to(self, point: u16, link: LinkId, far: u16) -> bool {
        let number = link.index() as u8;
        number.wrapping_sub(self.links_before(point, far)) < self.links_between(point, far)
    }

    /// A link between two adjacent nodes, by its number among these.
    pub(crate) fn link_between(self, from: u16, to: u16, code: u8) -> Link {
        Link {
            here: Place {
                point: from,
                number: self.links_before(from, to).wrapping_add(code),
            },
            there: Place {
                point: to,
                number: self.links_before(to, from).wrapping_add(code),
            },
        }
    }

    /// A link of a node by its number. None if the node has fewer.
    pub(crate) fn link(self, point: u16, number: u8) -> Option<Link> {
        for far in self.neighbours(point) {
            let code = number.wrapping_sub(self.links_before(point, *far));
            if code < self.links_between(point, *far) {
                return Some(self.link_between(point, *far, code));
            }
        }
        None
    }

    /// Whether points 1 and 2 are two ends, of which all messages are judged (`pairs`).
    pub(crate) fn has_ends(self) -> bool {
        matches!(self, Shape::Pair(_) | Shape::Ring)
    }

    /// Each link from each of its ends, node by node; of two ends those between them. None where memory ran out.
    pub(crate) fn links(self, alloc: Global) -> Option<Vec<Link>> {
        let mut links = Vec::new(alloc);
        for point in self.points() {
            for number in 0..self.links_at(*point) {
                let link = self.link(*point, number)?;
                if !self.has_ends() || link.is_between_ends() {
                    links.push(link).ok()?;
                }
            }
        }
        Some(links)
    }
}

/// Whether two links join two adjacent nodes of a mated pair whose orders go by any route: points 1 and 3, and 2 and 4.
fn is_wide(one: u16, other: u16) -> bool {
    one % 2 == other % 2
}

/// The adjacent points by which a node of a mated pair leads to another point, where the mate leads to adjacent ones,
/// too. Empty from one transfer point to the other, which leads there by itself alone.
fn ways_of_mates(from: u16, to: u16) -> &'static [u16] {
    match (from, to) {
        (1, 2 | 4) | (4, 1 | 2) => &[2, 3],
        (1, 3 | UNKNOWN) | (4, 3) => &[3, 2],
        (2, 1) => &[1, 3],
        (2, 4 | UNKNOWN) => &[4, 3],
        (3, 1) => &[1, 2],
        (3, 4 | UNKNOWN) => &[4, 2],
        _ => &[],
    }
}

/// The adjacent points by which a node of a mesh leads to another.
fn ways_of_mesh(from: u16, to: u16) -> &'static [u16] {
    match (from, to) {
        (1, 2) => &[2, 3, 4],
        (1, 3) => &[3, 2],
        (1, 4) => &[4, 2],
        (2, 1) => &[1, 3, 4],
        (2, 3) => &[3, 1, 4],
        (2, 4) => &[4, 3],
        (3, 1) => &[1, 2],
        (3, 2) => &[2, 4, 1],
        (3, 4) => &[4, 1],
        (4, 1) => &[1, 2],
        (4, 2) => &[2, 1],
        (4, 3) => &[3, 1],
        _ => &[],
    }
}
