//! What the lines of a lab script do.

use crate::bench::Bench;
use crate::carrying::Carried;
use crate::circuit::{Circuit, circuit_of};
use crate::joining::Joiner;
use crate::line::{End, LabLine};
use crate::nodes::{Nodes, no_such_name};
use arrayvec::ArrayString;
use console::{LINE_OCTETS, link_name};
use exchange::Exchange;
use script::{Line, Malformed, Reply, console_line, none_line};
use settings::{LinkId, Outcome};
use std::fmt::Write;
use std::io;

/// How often all links are carried by one `carry`, at most.
const ROUNDS: u32 = 65_536;

/// Nodes whose links are joined by streams.
#[derive(Drop)]
pub(crate) struct StreamBench<'a, N, J, S> {
    pub(crate) nodes: N,
    pub(crate) joiner: &'a mut J,
    pub(crate) circuits: &'a mut [Circuit<S>],
}

impl<N: Nodes, J: Joiner> Bench for StreamBench<'_, N, J, J::Stream> {
    fn perform(&mut self, line: &[u8]) -> Result<Option<(usize, Reply)>, Malformed> {
        if self.nodes.asks_to_carry(line) {
            return Ok(Some((0, carry_all(&mut self.nodes, self.circuits))));
        }
        match self.nodes.read_line(line)? {
            Some(asked) => Ok(Some(do_asked(asked, &mut self.nodes, self.joiner, self.circuits))),
            None => Ok(None),
        }
    }

    fn node(&self, place: usize) -> Option<&Exchange> {
        self.nodes.node(place)
    }
}

/// Does what a line asks for, and answers what is printed of it, and the place of the node whose names and texts it
/// tells.
fn do_asked<N: Nodes, J: Joiner>(
    asked: LabLine<'_>,
    nodes: &mut N,
    joiner: &mut J,
    circuits: &mut [Circuit<J::Stream>],
) -> (usize, Reply) {
    match asked {
        LabLine::Open { place, link } => (place, open(link, place, nodes, joiner, circuits)),
        LabLine::Move { place, link } => carry_by(link, place, nodes, circuits),
        LabLine::Lose { place, link } => (place, lose(link, place, nodes, circuits)),
        LabLine::TakeCount { place, link } => match nodes.node(place) {
            Some(node) => (place, count(link, node)),
            None => (place, no_such_name()),
        },
        LabLine::AtNode { place, line } => (place, nodes.perform(place, line)),
    }
}

/// The link of a name at the node in a place, as an end of a circuit.
fn found<N: Nodes, S: io::Read + io::Write + Drop>(
    name: &[u8],
    place: usize,
    nodes: &N,
    circuits: &[Circuit<S>],
) -> Option<(usize, End)> {
    let link = nodes.node(place)?.settings().link_named(name)?;
    circuit_of(circuits, place, link)
}

/// Joins the ends of the link of a name at the node in a place, where both want it to open.
fn open<N: Nodes, J: Joiner>(
    name: &[u8],
    place: usize,
    nodes: &mut N,
    joiner: &mut J,
    circuits: &mut [Circuit<J::Stream>],
) -> Reply {
    let Some((number, end)) = found(name, place, nodes, circuits) else {
        return no_such_name();
    };
    match circuits.get_mut(number) {
        Some(circuit) => nodes.join(end, joiner, circuit),
        None => no_such_name(),
    }
}

/// Carries the next frame of the link of a name from the node in a place to the other end. Answers what is printed,
/// and the place of the node whose names it tells.
fn carry_by<N: Nodes, S: io::Read + io::Write + Drop>(
    name: &[u8],
    place: usize,
    nodes: &mut N,
    circuits: &mut [Circuit<S>],
) -> (usize, Reply) {
    let Some((number, end)) = found(name, place, nodes, circuits) else {
        return (place, no_such_name());
    };
    let Some(circuit) = circuits.get_mut(number) else {
        return (place, no_such_name());
    };
    let link = circuit.end(end).link;
    let other = circuit.end(end.other()).place;
    match nodes.carry(end, circuit) {
        Carried::Nothing => (place, Reply::Line(none_line())),
        Carried::Got(outcome) => (other, Reply::Became(outcome)),
        Carried::Lost => match nodes.node(place) {
            Some(node) => (place, lost(node, link)),
            None => (place, no_such_name()),
        },
    }
}

/// The node in a place loses the association of the link of a name, and the stream of its end is closed.
fn lose<N: Nodes, S: io::Read + io::Write + Drop>(
    name: &[u8],
    place: usize,
    nodes: &mut N,
    circuits: &mut [Circuit<S>],
) -> Reply {
    let reply = nodes.perform(place, Line::Down { link: name });
    if let Some((number, end)) = found(name, place, nodes, circuits)
        && let Some(circuit) = circuits.get_mut(number)
    {
        circuit.close_at(end);
    }
    reply
}

/// How many messages wait on the link of a name, as a line; or that there is no such link.
pub(crate) fn count(name: &[u8], node: &Exchange) -> Reply {
    let Some(link) = node.settings().link_named(name) else {
        return no_such_name();
    };
    let Some(view) = node.link(link) else {
        return no_such_name();
    };
    let mut line = ArrayString::<LINE_OCTETS>::new();
    let _fits = write!(line, "{}", view.waiting);
    Reply::Line(console_line(line.as_str()))
}

/// The line that says that a link was lost.
pub(crate) fn lost(node: &Exchange, link: LinkId) -> Reply {
    let name = link_name(node.settings(), link);
    let mut line = ArrayString::<LINE_OCTETS>::new();
    let _fits = write!(line, "lost {name}");
    Reply::Line(console_line(line.as_str()))
}

/// How many frames went out, and how many of them had a message for the node that they came to.
#[derive(Clone, Copy)]
struct Moved {
    frames: u64,
    local: u64,
}

impl Moved {
    /// No frame.
    const NONE: Moved = Moved {
        frames: 0,
        local: 0,
    };

    /// Counts what became of a frame, if there was one.
    fn count(&mut self, carried: Carried) {
        if matches!(carried, Carried::Nothing) {
            return;
        }
        self.frames = self.frames.saturating_add(1);
        if matches!(carried, Carried::Got(Outcome::Local)) {
            self.local = self.local.saturating_add(1);
        }
    }
}

/// Carries the frames of all links, one frame of each end after another, until no link has one. Answers what is
/// printed.
fn carry_all<N: Nodes, S: io::Read + io::Write + Drop>(
    nodes: &mut N,
    circuits: &mut [Circuit<S>],
) -> Reply {
    let mut moved = Moved::NONE;
    for _ in 0..ROUNDS {
        let before = moved.frames;
        carry_round(nodes, circuits, &mut moved);
        if moved.frames == before {
            break;
        }
    }
    let mut line = ArrayString::<LINE_OCTETS>::new();
    let _fits = write!(line, "frames {} local {}", moved.frames, moved.local);
    Reply::Line(console_line(line.as_str()))
}

/// Carries the next frame of each end of each link, in order.
fn carry_round<N: Nodes, S: io::Read + io::Write + Drop>(
    nodes: &mut N,
    circuits: &mut [Circuit<S>],
    moved: &mut Moved,
) {
    for circuit in &mut *circuits {
        moved.count(nodes.carry(End::Near, circuit));
        moved.count(nodes.carry(End::Far, circuit));
    }
}
