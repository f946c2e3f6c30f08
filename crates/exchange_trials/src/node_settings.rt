//! The settings of the nodes of a shape.

use crate::shape::{Shape, UNKNOWN};
use exchange::Settings;
use settings_file::read;
use std::alloc::{AllocError, Global};

/// What two ends and their neighbours have.
const OF_ENDS: &str = "version = 1\n\
    timers = { l1 = 10, l2 = 10, l3 = 10, l4 = 3, l6 = 20, l7 = 5, \
    t1 = 4, t2 = 6, t3 = 4, t4 = 4, t6 = 4, t8 = 3, t10 = 8 }\n";

/// What other nodes have. L7, T1, T2 and T4 are longer than most schedules, so that a changeover or a changeback waits
/// for the other node rather than for time: what is given up by time is named as lost.
const OF_NETWORKS: &str = "version = 2\n\
    timers = { l1 = 10, l2 = 10, l3 = 10, l4 = 3, l6 = 20, l7 = 12, \
    t1 = 12, t2 = 12, t3 = 4, t4 = 12, t6 = 4, t8 = 3, t10 = 8 }\n";

/// What those have whose orders go by any route, but for the last timer. T1 and T2 run out in some schedules.
const OF_ANY_ROUTE: &str = "version = 4\n\
    changeover_by_any_route = true\n\
    timers = { l1 = 10, l2 = 10, l3 = 10, l4 = 1, l6 = 20, l7 = 12, \
    t1 = 4, t2 = 2, t3 = 4, t4 = 12, t6 = 4, t8 = 3, t10 = 8, ";

/// What the nodes of a mesh have: no timer ends a changeover,
const OF_MESH: &str = "version = 4\n\
    changeover_by_any_route = true\n\
    timers = { l1 = 60000, l2 = 60000, l3 = 60000, l4 = 1, l6 = 60000, l7 = 60000, \
    t1 = 60000, t2 = 60000, t3 = 2, t4 = 60000, t6 = 4, t8 = 3, t10 = 60000, t2_bar = 60001 }\n";

/// but at the third of them.
const OF_THIRD: &str = "version = 4\n\
    changeover_by_any_route = true\n\
    timers = { l1 = 60000, l2 = 60000, l3 = 60000, l4 = 1, l6 = 60000, l7 = 60000, \
    t1 = 60000, t2 = 3, t3 = 2, t4 = 60000, t6 = 4, t8 = 3, t10 = 60000, t2_bar = 4 }\n";

/// What all have.
const COMMON: &str = "network = 2\n\
    window = 128\n\
    pool = 1000\n\
    users = [5]\n\
    subsystems = [8]\n";

/// The settings of a node. None where memory ran out.
pub(crate) fn settings_at(alloc: Global, shape: Shape, point: u16) -> Option<Settings> {
    let mut text = String::from_str(alloc, COMMON).ok()?;
    write_first(&mut text, shape, point).ok()?;
    write_sets(&mut text, shape, point).ok()?;
    write_links(&mut text, shape, point).ok()?;
    write_destinations(&mut text, shape, point).ok()?;
    read(alloc, text.as_str()).ok()
}

/// The version, and the timers.
fn write_first(text: &mut String, shape: Shape, point: u16) -> Result<(), AllocError> {
    match shape {
        Shape::AnyRoute(bar) => {
            text.push_str(OF_ANY_ROUTE)?;
            write!(text, "t2_bar = {bar} }}\n")
        }
        Shape::Mesh => text.push_str(if point == 3 { OF_THIRD } else { OF_MESH }),
        Shape::Pair(_) | Shape::Ring => text.push_str(OF_ENDS),
        Shape::Line | Shape::Triangle | Shape::Square | Shape::MatedPair => text.push_str(
            OF_NETWORKS,
        ),
    }
}

/// A set for each adjacent point.
fn write_sets(text: &mut String, shape: Shape, point: u16) -> Result<(), AllocError> {
    write!(text, "own = {point}\nset = [")?;
    for far in shape.neighbours(point) {
        write!(text, "{{ name = \"n{far}\", adjacent = {far} }}, ")?;
    }
    text.push_str("]\n")
}

/// The links of each set.
fn write_links(text: &mut String, shape: Shape, point: u16) -> Result<(), AllocError> {
    text.push_str("link = [")?;
    for far in shape.neighbours(point) {
        for code in 0..shape.links_between(point, *far) {
            write!(
                text,
                "{{ name = \"l{far}-{code}\", set = \"n{far}\", slc = {code} }}, "
            )?;
        }
    }
    text.push_str("]\n")
}

/// A destination for each point to which the node leads.
fn write_destinations(text: &mut String, shape: Shape, point: u16) -> Result<(), AllocError> {
    text.push_str("destination = [")?;
    for to in shape.points() {
        let ways = shape.ways(point, *to);
        if ways.is_empty() && shape.are_adjacent(point, *to) {
            write_destination(text, *to, &[*to], false)?;
        } else {
            write_destination(text, *to, ways, shape.shares(point, *to))?;
        }
    }
    write_destination(text, UNKNOWN, shape.ways(point, UNKNOWN), false)?;
    text.push_str("]\n")
}

/// A destination, if some way leads there. Its messages are shared among the first two if they are joined.
fn write_destination(
    text: &mut String,
    to: u16,
    ways: &[u16],
    joined: bool,
) -> Result<(), AllocError> {
    if ways.is_empty() {
        return Ok(());
    }
    write!(text, "{{ point = {to}, sets = [")?;
    for way in ways {
        write!(text, "\"n{way}\", ")?;
    }
    text.push_str(if joined {
        "], joined = true }, "
    } else {
        "] }, "
    })
}
