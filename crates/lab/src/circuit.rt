//! The streams of a link, and the nodes' ends of them.

ghost use Rattle.std.specs.Prelude.{◌≡◌, None};

use crate::carrying::{Carried, carry};
use crate::doing::lost;
use crate::ends::LinkEnd;
use crate::joining::Joiner;
use crate::line::End;
use crate::wire::Wire;
use exchange::{Event, Exchange, Framer, Wants};
use script::{Reply, console_line};
use settings::{LinkId, Outcome};
use std::io::{Read, Write};

/// A node's end of a link's streams.
#[derive(Drop)]
struct Port<S> {
    wire: Wire<S>,
    framer: Framer,
}

impl<S: Read + Write> Port<S> {
    /// An end that nothing came to yet.
    fn new(stream: S) -> Port<S> {
        Port {
            wire: Wire::new(stream),
            framer: Framer::new(),
        }
    }

    /// Carries the next frame of a link from this end's node to the other, of which each has a number for the link.
    fn carry_to(
        &mut self,
        other: &mut Port<S>,
        node: &mut Exchange,
        other_node: &mut Exchange,
        from: LinkId,
        to: LinkId,
    ) -> Carried {
        carry(
            node,
            other_node,
            from,
            to,
            &mut self.wire,
            &mut other.wire,
            &mut other.framer,
        )
    }
}

/// A link between two nodes, of which the near one is in the first place: where it ends, and its streams, each at one
/// of its ends, where they are open.
#[derive(Drop)]
pub(crate) struct Circuit<S> {
    near_end: LinkEnd,
    far_end: LinkEnd,
    near: Option<Port<S>>,
    far: Option<Port<S>>,
}

impl<S: Read + Write + Drop> Circuit<S> {
    /// A link with these ends whose streams are closed.
    pub(crate) fn closed(near_end: LinkEnd, far_end: LinkEnd) -> Circuit<S> {
        Circuit {
            near_end,
            far_end,
            near: None,
            far: None,
        }
    }

    /// Where an end is.
    pub(crate) fn end(&self, end: End) -> LinkEnd {
        match end {
            End::Near => self.near_end,
            End::Far => self.far_end,
        }
    }

    /// Which end is this link of the node in a place, if one is.
    pub(crate) fn end_at(&self, place: usize, link: LinkId) -> Option<End> {
        if self.near_end.place == place && self.near_end.link == link {
            Some(End::Near)
        } else if self.far_end.place == place && self.far_end.link == link {
            Some(End::Far)
        } else {
            None
        }
    }

    /// Joins the ends, where both nodes want the link to open. The far end, whose stream was accepted, opens first, and
    /// then the near one (docs/EXACTLY_ONCE.md): the link is down at both, and nothing is in flight on it. Answers what
    /// is printed, which names the link as its end here does.
    pub(crate) fn join<J: Joiner<Stream = S>>(
        &mut self,
        here: End,
        near: &mut Exchange,
        far: &mut Exchange,
        joiner: &mut J,
    ) -> Reply {
        let (near_link, far_link) = (self.near_end.link, self.far_end.link);
        let (Wants::Open, Wants::Open) = (near.wants(near_link), far.wants(far_link)) else {
            return Reply::Line(console_line("not open"));
        };
        match joiner.join() {
            Ok((near_stream, far_stream)) => {
                self.open(near_stream, far_stream);
                far.step(&Event::AssociationUp(far_link));
                near.step(&Event::AssociationUp(near_link));
                Reply::Became(Outcome::Handled)
            }
            Err(_) => {
                self.close();
                near.step(&Event::AssociationDown(near_link));
                far.step(&Event::AssociationDown(far_link));
                match here {
                    End::Near => lost(near, near_link),
                    End::Far => lost(far, far_link),
                }
            }
        }
    }

    /// Replaces the link's streams by these. What is held of a frame that came by the former ones is dropped.
    fn open(&mut self, near: S, far: S) {
        self.near = Some(Port::new(near));
        self.far = Some(Port::new(far));
    }

    /// Closes both streams.
    fn close(&mut self)
        ensures near { self.new.near ≡ None }
        ensures far { self.new.far ≡ None }
    {
        self.near = None;
        self.far = None;
    }

    /// Closes the stream of one end.
    pub(crate) fn close_at(&mut self, end: End) {
        match end {
            End::Near => self.near = None,
            End::Far => self.far = None,
        }
    }

    /// Carries the next frame of the link from one end to the other, unless either stream is closed. If it is lost,
    /// both streams are closed.
    pub(crate) fn carry_from(
        &mut self,
        end: End,
        near: &mut Exchange,
        far: &mut Exchange,
    ) -> Carried
        ensures near { result ≡ Carried.Lost → self.new.near ≡ None }
        ensures far { result ≡ Carried.Lost → self.new.far ≡ None }
    {
        let carried = self.carry_by_open(end, near, far);
        if matches!(carried, Carried::Lost) {
            self.close();
        }
        carried
    }

    /// The same, but the streams stay open.
    fn carry_by_open(&mut self, end: End, near: &mut Exchange, far: &mut Exchange) -> Carried {
        let (near_link, far_link) = (self.near_end.link, self.far_end.link);
        let Some(near_port) = &mut self.near else {
            return Carried::Nothing;
        };
        let Some(far_port) = &mut self.far else {
            return Carried::Nothing;
        };
        match end {
            End::Near => near_port.carry_to(far_port, near, far, near_link, far_link),
            End::Far => far_port.carry_to(near_port, far, near, far_link, near_link),
        }
    }
}

/// Which circuit a link of the node in a place is, and which end of it that node is, if there is one.
pub(crate) fn circuit_of<S: Read + Write + Drop>(
    circuits: &[Circuit<S>],
    place: usize,
    link: LinkId,
) -> Option<(usize, End)> {
    for (number, circuit) in circuits.iter().enumerate() {
        if let Some(end) = circuit.end_at(place, link) {
            return Some((number, end));
        }
    }
    None
}
