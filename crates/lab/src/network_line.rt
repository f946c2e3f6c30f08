//! The lines of a script of a lab whose nodes are named by their points.

use crate::line::{LabLine, asked_at};
use console::words::cut;
use exchange::Exchange;
use script::{Malformed, is_skipped};
use settings::{PointFormat, parse_point};

/// Whether a line asks to carry what there is on all links.
pub(crate) fn is_carry(line: &[u8]) -> bool {
    line == b"carry".as_slice()
}

/// What a line without its end asks for: nothing if it is empty or begins with `#`. A node is named by its own point.
pub(crate) fn parse_network_line<'a>(
    line: &'a [u8],
    nodes: &[Exchange],
) -> Result<Option<LabLine<'a>>, Malformed> {
    if is_skipped(line) {
        return Ok(None);
    }
    match asked(line, nodes) {
        Some(line) => Ok(Some(line)),
        None => Err(Malformed),
    }
}

/// What the words of a line ask for.
fn asked<'a>(line: &'a [u8], nodes: &[Exchange]) -> Option<LabLine<'a>> {
    let (word, rest) = cut(line);
    let (point, rest) = cut(rest?);
    let place = place_named(nodes, point)?;
    match cut(rest?) {
        (last, None) if word == b"open".as_slice() && !last.is_empty() => {
            Some(LabLine::Open { place, link: last })
        }
        (last, None) => asked_at(word, place, last),
        (_, Some(_)) => None,
    }
}

/// The place of the node of the point that a word is, in decimal.
fn place_named(nodes: &[Exchange], word: &[u8]) -> Option<usize> {
    let point = parse_point(word, PointFormat::Plain)?;
    nodes.iter().position(|node| node.settings().own() == point)
}
