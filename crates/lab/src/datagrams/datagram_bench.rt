//! What the lines of a script do where links go over datagrams.

use crate::bench::Bench;
use crate::datagrams::drop_line::parse_drop;
use crate::datagrams::gate_end::Heard;
use crate::datagrams::gate_pair::{GatePair, Times, pair_at, tick_all};
use crate::doing::{count, lost};
use crate::line::{End, LabLine, parse_lab_line};
use crate::nodes::{TwoNodes, no_such_name};
use arrayvec::ArrayString;
use console::LINE_OCTETS;
use exchange::{Event, Exchange, Wants};
use script::{Line, Malformed, Reply, Text, console_line, none_line, perform};
use settings::{LinkId, Outcome};
use std::alloc::Global;
use std::fmt::Write;
use std::net::Net;
use std::random::RandomSource;

/// How long a tick takes, in milliseconds.
const TICK_MS: u64 = 100;

/// Two nodes whose links go over datagrams.
#[derive(Drop)]
pub(crate) struct DatagramBench<'a, N> {
    pub(crate) net: &'a N,
    pub(crate) alloc: Global,
    pub(crate) nodes: TwoNodes<'a>,
    pub(crate) pairs: &'a mut [Option<GatePair>],
    pub(crate) times: Times,
}

impl<N: Net + RandomSource> Bench for DatagramBench<'_, N> {
    fn perform(&mut self, line: &[u8]) -> Result<Option<(usize, Reply)>, Malformed> {
        if let Some(dropped) = parse_drop(line) {
            let reply = self.drop_from(dropped.end, dropped.link);
            return Ok(Some((dropped.end.place(), reply)));
        }
        match parse_lab_line(line)? {
            Some(asked) => Ok(Some(self.do_asked(asked))),
            None => Ok(None),
        }
    }

    fn node(&self, place: usize) -> Option<&Exchange> {
        Some(self.nodes.at(End::in_place(place)?))
    }
}

impl<N: Net + RandomSource> DatagramBench<'_, N> {
    /// Does what a line of each lab asks for.
    fn do_asked(&mut self, asked: LabLine<'_>) -> (usize, Reply) {
        match asked {
            LabLine::Open { place, link } => (place, self.open(link)),
            LabLine::Move { place, link } => {
                let end = end_in(place);
                (end.other().place(), self.carry_from(end, link))
            }
            LabLine::Lose { place, link } => (place, self.lose(end_in(place), link)),
            LabLine::TakeCount { place, link } => (
                place,
                count(link, self.nodes.at(end_in(place))),
            ),
            LabLine::AtNode {
                place,
                line: Line::Tick { ticks },
            } => (place, self.tick(end_in(place), ticks)),
            LabLine::AtNode { place, line } => {
                (place, perform(self.nodes.at_mut(end_in(place)), line))
            }
        }
    }

    /// The link of a name, which is the same at both nodes.
    fn named(&self, name: &[u8]) -> Option<LinkId> {
        self.nodes.at(End::Near).settings().link_named(name)
    }

    /// Gives the link of a name its sockets and gates, if both ends want it to open. The near end tries then.
    fn open(&mut self, name: &[u8]) -> Reply {
        let Some(link) = self.named(name) else {
            return no_such_name();
        };
        let near = self.nodes.at(End::Near).wants(link);
        let far = self.nodes.at(End::Far).wants(link);
        let (Wants::Open, Wants::Open) = (near, far) else {
            return Reply::Line(console_line("not open"));
        };
        let Some(place) = self.pairs.get_mut(link.index()) else {
            return no_such_name();
        };
        match GatePair::open(self.net, self.alloc, link) {
            Some(mut pair) => {
                pair.settle(&mut self.nodes, self.times);
                *place = Some(pair);
                Reply::Became(Outcome::Handled)
            }
            None => lost(self.nodes.at(End::Near), link),
        }
    }

    /// What there is goes out at an end of the link of a name, and comes to the other.
    fn carry_from(&mut self, end: End, name: &[u8]) -> Reply {
        let Some(link) = self.named(name) else {
            return no_such_name();
        };
        let pairs = &mut *self.pairs;
        match pair_at(pairs, link.index()) {
            Some(pair) => {
                let heard = pair.carry_from(end, &mut self.nodes, self.times);
                Reply::Line(heard_line(heard))
            }
            None => Reply::Line(none_line()),
        }
    }

    /// An end of the link of a name ends its association by ABORT.
    fn lose(&mut self, end: End, name: &[u8]) -> Reply {
        let Some(link) = self.named(name) else {
            return no_such_name();
        };
        let pairs = &mut *self.pairs;
        match pair_at(pairs, link.index()) {
            Some(pair) => {
                pair.close_at(end, &mut self.nodes, self.times);
                Reply::Became(Outcome::Handled)
            }
            None => Reply::Line(none_line()),
        }
    }

    /// What there is goes out at an end of the link of a name, and is lost.
    fn drop_from(&mut self, end: End, name: &[u8]) -> Reply {
        let Some(link) = self.named(name) else {
            return no_such_name();
        };
        let pairs = &mut *self.pairs;
        match pair_at(pairs, link.index()) {
            Some(pair) => {
                let dropped = pair.drop_from(end, &mut self.nodes, self.times);
                Reply::Line(dropped_line(dropped))
            }
            None => Reply::Line(none_line()),
        }
    }

    /// This many ticks pass at an end.
    fn tick(&mut self, end: End, ticks: u16) -> Reply {
        for _ in 0..ticks {
            self.tick_once(end);
        }
        Reply::Became(Outcome::Handled)
    }

    /// A tick passes at an end, and then the time of its gates.
    fn tick_once(&mut self, end: End) {
        self.times.pass(end, TICK_MS);
        let node = self.nodes.at_mut(end);
        node.step(&Event::Tick);
        node.test_subsystems();
        let pairs = &mut *self.pairs;
        tick_all(pairs, end, &mut self.nodes, self.times);
    }
}

/// The end in a place that a line of two nodes names.
fn end_in(place: usize) -> End {
    End::in_place(place).unwrap_or(End::Near)
}

/// The line of a move.
fn heard_line(heard: Heard) -> Text {
    let mut line = ArrayString::<LINE_OCTETS>::new();
    let _fits = write!(
        line,
        "datagrams {} frames {} local {}",
        heard.datagrams, heard.frames, heard.local
    );
    console_line(line.as_str())
}

/// The line of datagrams that were lost.
fn dropped_line(dropped: usize) -> Text {
    let mut line = ArrayString::<LINE_OCTETS>::new();
    let _fits = write!(line, "dropped {dropped}");
    console_line(line.as_str())
}
