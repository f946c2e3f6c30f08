//! The links between nodes, before any is joined.

ghost use Rattle.std.specs.Prelude.{◌≤◌};

use crate::circuit::Circuit;
use crate::ends::{LinkEnd, other_end};
use exchange::Exchange;
use settings::{Limits, LinkId};
use std::alloc::{AllocError, Global};
use std::io::{Read, Write};

/// So many links between two nodes that have the same numbers at both, with their streams closed.
pub(crate) fn facing_circuits<S: Read + Write + Drop>(
    alloc: Global,
    count: usize,
) -> Result<Vec<Circuit<S>>, AllocError>
    requires { count ≤ Limits.LINKS }
{
    let mut circuits = Vec::with_capacity(alloc, count)?;
    for number in 0..count {
        let link = LinkId::new(number as u8);
        circuits.push(Circuit::closed(LinkEnd { place: 0, link }, LinkEnd { place: 1, link }))?;
    }
    Ok(circuits)
}

/// The links between nodes, with their streams closed: in the order of the nodes, and of the links of the node in the
/// first place.
pub(crate) fn network_circuits<S: Read + Write + Drop>(
    alloc: Global,
    nodes: &[Exchange],
) -> Result<Vec<Circuit<S>>, AllocError> {
    let mut circuits = Vec::new(alloc);
    for (place, node) in nodes.iter().enumerate() {
        for (number, row) in node.settings().links().iter().enumerate() {
            let link = LinkId::new(number as u8);
            match other_end(nodes, node.settings(), row) {
                Some(end) if place < end.place => {
                    circuits.push(Circuit::closed(LinkEnd { place, link }, end))?;
                }
                _ => {}
            }
        }
    }
    Ok(circuits)
}
