//! The nodes of a lab.

use crate::carrying::Carried;
use crate::circuit::Circuit;
use crate::joining::Joiner;
use crate::line::{End, LabLine, parse_lab_line};
use crate::network_line::{is_carry, parse_network_line};
use exchange::Exchange;
use script::{Line, Malformed, Reply, perform};
use settings::{Cause, Outcome};
use std::io::{Read, Write};

/// The nodes of a lab, each in its place, and how its script names them.
pub(crate) trait Nodes {
    /// What a line without its end asks for: nothing if it is empty or begins with `#`.
    fn read_line<'a>(&self, line: &'a [u8]) -> Result<Option<LabLine<'a>>, Malformed>;

    /// Whether a line asks to carry what there is on all links.
    fn asks_to_carry(&self, line: &[u8]) -> bool;

    /// The node in a place, if there is one.
    fn node(&self, place: usize) -> Option<&Exchange>;

    /// What the node in a place prints of a line of a script.
    fn perform(&mut self, place: usize, line: Line<'_>) -> Reply;

    /// Joins the ends of a link between two of the nodes, where both want it to open.
    fn join<J: Joiner>(
        &mut self,
        here: End,
        joiner: &mut J,
        circuit: &mut Circuit<J::Stream>,
    ) -> Reply;

    /// Carries the next frame of a link between two of the nodes from an end to the other.
    fn carry<S: Read + Write + Drop>(&mut self, end: End, circuit: &mut Circuit<S>) -> Carried;
}

/// What is printed of a name that nothing has.
pub(crate) fn no_such_name() -> Reply {
    Reply::Became(Outcome::Refused(Cause::NoSuchName))
}

/// Two nodes, which lines name 1 and 2.
#[derive(Drop)]
pub(crate) struct TwoNodes<'a> {
    pub(crate) near: &'a mut Exchange,
    pub(crate) far: &'a mut Exchange,
}

impl TwoNodes<'_> {
    /// The node of an end.
    pub(crate) fn at(&self, end: End) -> &Exchange {
        match end {
            End::Near => self.near,
            End::Far => self.far,
        }
    }

    /// The same, to be changed.
    pub(crate) fn at_mut(&mut self, end: End) -> &mut Exchange {
        match end {
            End::Near => self.near,
            End::Far => self.far,
        }
    }
}

impl Nodes for TwoNodes<'_> {
    fn read_line<'a>(&self, line: &'a [u8]) -> Result<Option<LabLine<'a>>, Malformed> {
        parse_lab_line(line)
    }

    fn asks_to_carry(&self, _line: &[u8]) -> bool {
        false
    }

    fn node(&self, place: usize) -> Option<&Exchange> {
        Some(self.at(End::in_place(place)?))
    }

    fn perform(&mut self, place: usize, line: Line<'_>) -> Reply {
        match End::in_place(place) {
            Some(end) => perform(self.at_mut(end), line),
            None => no_such_name(),
        }
    }

    fn join<J: Joiner>(
        &mut self,
        here: End,
        joiner: &mut J,
        circuit: &mut Circuit<J::Stream>,
    ) -> Reply {
        circuit.join(here, self.near, self.far, joiner)
    }

    fn carry<S: Read + Write + Drop>(&mut self, end: End, circuit: &mut Circuit<S>) -> Carried {
        circuit.carry_from(end, self.near, self.far)
    }
}

/// Any number of nodes, which lines name by their points.
#[derive(Drop)]
pub(crate) struct NodeList<'a> {
    pub(crate) nodes: &'a mut [Exchange],
}

impl Nodes for NodeList<'_> {
    fn read_line<'a>(&self, line: &'a [u8]) -> Result<Option<LabLine<'a>>, Malformed> {
        parse_network_line(line, self.nodes)
    }

    fn asks_to_carry(&self, line: &[u8]) -> bool {
        is_carry(line)
    }

    fn node(&self, place: usize) -> Option<&Exchange> {
        self.nodes.get(place)
    }

    fn perform(&mut self, place: usize, line: Line<'_>) -> Reply {
        match self.nodes.get_mut(place) {
            Some(node) => perform(node, line),
            None => no_such_name(),
        }
    }

    fn join<J: Joiner>(
        &mut self,
        here: End,
        joiner: &mut J,
        circuit: &mut Circuit<J::Stream>,
    ) -> Reply {
        join_in(self.nodes, here, joiner, circuit)
    }

    fn carry<S: Read + Write + Drop>(&mut self, end: End, circuit: &mut Circuit<S>) -> Carried {
        carry_in(self.nodes, end, circuit)
    }
}

/// Joins the ends of a link between two of these nodes.
fn join_in<J: Joiner>(
    nodes: &mut [Exchange],
    here: End,
    joiner: &mut J,
    circuit: &mut Circuit<J::Stream>,
) -> Reply {
    let near = circuit.end(End::Near).place;
    let far = circuit.end(End::Far).place;
    if near >= far || far >= nodes.len() {
        return no_such_name();
    }
    let (front, back) = nodes.split_at_mut(far);
    circuit.join(here, &mut front[near], &mut back[0], joiner)
}

/// Carries the next frame of a link between two of these nodes.
fn carry_in<S: Read + Write + Drop>(
    nodes: &mut [Exchange],
    end: End,
    circuit: &mut Circuit<S>,
) -> Carried {
    let near = circuit.end(End::Near).place;
    let far = circuit.end(End::Far).place;
    if near >= far || far >= nodes.len() {
        return Carried::Nothing;
    }
    let (front, back) = nodes.split_at_mut(far);
    circuit.carry_from(end, &mut front[near], &mut back[0])
}
