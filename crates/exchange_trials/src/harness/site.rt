//! One node of a network: its exchange, what is in flight to it, and its books.

use super::doing::{Deed, Doing, done, is_accepted};
use super::link_end::LinkEnd;
use super::seen::Seen;
use super::words::{Words, word_in};
use crate::harness::count;
use crate::node::Node;
use exchange::{
    Event, Frame, FrameText, Label, LinkId, Msu, Notice, Order, Outcome, PointCode, Settings,
    Wants, decode,
};
use std::alloc::Global;
use std::marker::Model;
use std::mem::replace;

/// A message that a frame newly carried to a node, and the link by which it came.
#[derive(Clone, Copy)]
pub(crate) struct Arrival {
    pub link: LinkId,
    pub message: Msu,
}

/// The flow of a message that a node named as lost.
#[derive(Clone, Copy)]
pub(crate) struct Loss {
    /// Its destination,
    pub to: u16,
    /// and its signalling link selection.
    pub flow: u8,
}

/// One node, the ends of its links, and what it booked.
pub(crate) struct Site {
    /// Its exchange.
    pub node: Node,
    ends: Vec<LinkEnd>,
    /// The messages that it queued or held, as they were handed in or came, in order.
    pub accepted: Vec<Msu>,
    /// All that came to it.
    pub arrived: Vec<Arrival>,
    /// The user messages for other points that came and were refused.
    pub refused: Vec<Msu>,
    /// Those that its notices named as lost.
    pub named: Vec<Loss>,
    /// How many notices were read,
    noticed: u64,
    /// and whether a step made more than are kept, so that some were never read.
    pub overlooked: bool,
    /// What it did with orders to change over and their answers.
    pub words: Words,
    /// How many of those that came were queued or held.
    pub passed: u64,
    /// How often it lost a link.
    pub failures: u64,
    /// What was seen of it.
    pub seen: Seen,
    /// Whether memory ran out: then not all was done, or booked.
    pub starved: bool,
}

impl Model for Site {
    ghost Value = { Unit {0} };

    ghost view = { λ _. tt };
}

// By hand, so that no proof above has what a site owns.
impl Drop for Site {
    fn drop(self) {
        let Site {
            node: _,
            ends: _,
            accepted: _,
            arrived: _,
            refused: _,
            named: _,
            noticed: _,
            overlooked: _,
            words: _,
            passed: _,
            failures: _,
            seen: _,
            starved: _,
        } = self;
    }
}

impl Site {
    /// A node with these settings, before anything was done at it. None where memory ran out.
    pub(crate) fn boot(alloc: Global, settings: Settings) -> Option<Site> {
        let ends = ends_of(alloc, settings.link_count())?;
        let node = Node::boot(alloc, settings).ok()?;
        Some(Site {
            node,
            ends,
            accepted: Vec::new(alloc),
            arrived: Vec::new(alloc),
            refused: Vec::new(alloc),
            named: Vec::new(alloc),
            noticed: 0,
            overlooked: false,
            words: Words::default(),
            passed: 0,
            failures: 0,
            seen: Seen::default(),
            starved: false,
        })
    }

    /// Whether it wants a link to open.
    pub(crate) fn wants_open(&self, link: LinkId) -> bool {
        self.node.shown().wants(link) == Wants::Open
    }

    /// Whether each of its links may open, it may follow on none, and nothing is in Held.
    pub(crate) fn is_quiet(&self) -> bool {
        let node = self.node.shown();
        node.count_held() == 0
            && self
                .ends
                .iter()
                .all(|end| node.may_restart(end.link) && !end.may_follow)
    }

    /// It is looked at. Says how many messages have come to it.
    pub(crate) fn look(&mut self) -> usize {
        self.seen.look(self.node.shown());
        self.note_losses();
        self.arrived.len()
    }

    /// Reads its new notices.
    fn note_losses(&mut self) {
        let shown = self.node.shown();
        let new = shown.notices_since(self.noticed);
        self.noticed = shown.notice_count();
        self.overlooked |= new.missed != 0;
        let kept = shown.notices().len();
        for k in kept.saturating_sub(new.kept)..kept {
            if let Some(Notice::Lost(_, point, sls)) = self.node.shown().notices().get(k) {
                let loss = Loss {
                    to: point.code(),
                    flow: sls.number(),
                };
                self.starved |= self.named.push(loss).is_err();
            }
        }
    }

    /// Its books begin anew. What it counted before counts no more.
    pub(crate) fn begin_anew(&mut self) {
        self.accepted.clear();
        self.arrived.clear();
        self.refused.clear();
        self.named.clear();
        self.seen.begin_anew(self.node.shown());
    }

    /// It starts again as this node, if there was memory for one: nothing is in flight to it, and it may follow on no
    /// link. Its books stay.
    pub(crate) fn restart(&mut self, node: Option<Node>) {
        let Some(node) = node else {
            self.starved = true;
            return;
        };
        self.node = node;
        self.noticed = 0;
        for end in self.ends.iter_mut() {
            end.clear(false);
        }
    }
}

impl Site {
    /// Does what is done at this node alone; a fetch and a link that opens first do nothing.
    pub(crate) fn act(&mut self, what: Doing) -> Outcome {
        match what {
            Doing::Submit(message) => self.submit(message),
            Doing::Tick => self.node.step(&Event::Tick),
            Doing::AddTitle(row) => self.order(Order::AddTitle(row)),
            Doing::RemoveTitle(key, digits) => self.order(Order::RemoveTitle(key, digits)),
            Doing::Link(deed, place) => self.act_on(deed, place.link()),
        }
    }

    /// Does what is done about a link at this node alone.
    fn act_on(&mut self, deed: Deed, link: LinkId) -> Outcome {
        match deed {
            Deed::Deliver => self.hear(link, false),
            Deed::DeliverStatus => self.hear(link, true),
            Deed::LoseStatus => done(self.pop(link, true).is_some()),
            Deed::DoubleStatus => self.double_status(link),
            Deed::Lose => self.lose(link),
            Deed::Fall => {
                self.give_up(link);
                self.lose(link)
            }
            Deed::Activate => self.order(Order::Activate {
                link,
                emergency: false,
            }),
            Deed::Deactivate => self.order(Order::Deactivate(link)),
            Deed::OpenSecond => self.open_second(link),
            Deed::Take | Deed::OpenFirst => Outcome::Ignored,
        }
    }

    /// An operator gives an order.
    fn order(&mut self, order: Order) -> Outcome {
        self.node.step(&Event::Order(order))
    }

    /// A user part hands over a message.
    fn submit(&mut self, message: Msu) -> Outcome {
        let outcome = self.node.step(&Event::Submit(message.lend()));
        if is_accepted(&outcome) {
            self.starved |= self.accepted.push(message).is_err();
        }
        outcome
    }

    /// The association of a link is lost.
    fn lose(&mut self, link: LinkId) -> Outcome {
        let outcome = self.node.step(&Event::AssociationDown(link));
        count(&mut self.failures, (outcome != Outcome::Ignored) as u64);
        outcome
    }

    /// The next link status in flight on a link comes, or the next User Data, if there is one.
    fn hear(&mut self, link: LinkId, is_status: bool) -> Outcome {
        let Some(text) = self.pop(link, is_status) else {
            return Outcome::Ignored;
        };
        let before = self.node.last_accepted(link);
        let outcome = self.node.step(&Event::Frame(link, text.octets()));
        if before != self.node.last_accepted(link) {
            self.book(link, text.octets(), &outcome);
        }
        outcome
    }

    /// Books the message that a frame newly carried, and what became of it.
    fn book(&mut self, link: LinkId, octets: &[u8], outcome: &Outcome) {
        let Some(message) = carried(octets) else {
            return;
        };
        self.starved |= self.arrived.push(Arrival { link, message }).is_err();
        if is_accepted(outcome) {
            count(&mut self.passed, 1);
            self.starved |= self.accepted.push(message).is_err();
        } else if matches!(outcome, Outcome::Refused(_)) && self.goes_onward(&message) {
            self.starved |= self.refused.push(message).is_err();
        }
        self.note_transit(&message, outcome);
    }

    /// Whether a user message is for another point than this.
    fn goes_onward(&self, message: &Msu) -> bool {
        !message.is_management() && Label::at(message.sif()).dpc != self.own()
    }

    fn own(&self) -> PointCode {
        self.node.shown().settings().own()
    }

    /// An order to change over or an answer that came is counted, if it is for another point.
    fn note_transit(&mut self, message: &Msu, outcome: &Outcome) {
        let own = self.own().code();
        if let Some(word) = word_in(message) {
            let is_transit = word.to != own;
            let is_refused = matches!(outcome, Outcome::Refused(_));
            count(
                &mut self.words.passed,
                (is_transit && is_accepted(outcome)) as u64,
            );
            count(&mut self.words.refused, (is_transit && is_refused) as u64);
        }
    }

    /// A link that was in service has failed. Where no route leads to this point now, no order went out about it.
    pub(crate) fn note_failure(&mut self, link: LinkId, point: PointCode) {
        let unasked = !self.leads_to(point);
        if let Some(end) = self.end(link) {
            end.unasked = unasked;
        }
    }

    /// Whether a route leads to a point.
    fn leads_to(&self, point: PointCode) -> bool {
        let shown = self.node.shown();
        match shown.settings().destination(point) {
            Some(place) => match shown.route(place) {
                Some(route) => !route.sets.is_empty(),
                None => false,
            },
            None => false,
        }
    }

    /// An order about a link goes out. Says whether none had gone out when it failed.
    pub(crate) fn ask(&mut self, link: LinkId) -> bool {
        match self.end(link) {
            Some(end) => replace(&mut end.unasked, false),
            None => false,
        }
    }
}

impl Site {
    /// A link opens before it does at the other end, and nothing is in flight to this one.
    pub(crate) fn open_first(&mut self, link: LinkId) {
        self.node.step(&Event::AssociationUp(link));
        self.clear(link, false);
    }

    /// A link opens as it did at the other end, if it may follow that and wants to.
    fn open_second(&mut self, link: LinkId) -> Outcome {
        if !self.wants_open(link) || !self.give_up(link) {
            return Outcome::Ignored;
        }
        self.node.step(&Event::AssociationUp(link));
        Outcome::Handled
    }

    /// Nothing is in flight on a link any more, and it may follow its other end, or not.
    pub(crate) fn clear(&mut self, link: LinkId, may_follow: bool) {
        if let Some(end) = self.end(link) {
            end.clear(may_follow);
        }
    }

    /// It may not follow the other end of a link any more. Says whether it might.
    fn give_up(&mut self, link: LinkId) -> bool {
        match self.end(link) {
            Some(end) => replace(&mut end.may_follow, false),
            None => false,
        }
    }

    /// A frame is in flight to it on a link.
    pub(crate) fn push(&mut self, link: LinkId, text: FrameText) {
        if let Some(end) = self.end(link) {
            let has_room = end.push(text);
            self.starved |= !has_room;
        }
    }

    /// The first link status in flight on a link is so twice.
    fn double_status(&mut self, link: LinkId) -> Outcome {
        match self.end(link) {
            Some(end) => done(end.double_status()),
            None => Outcome::Ignored,
        }
    }

    fn pop(&mut self, link: LinkId, is_status: bool) -> Option<FrameText> {
        self.end(link)?.pop(is_status)
    }

    fn end(&mut self, link: LinkId) -> Option<&mut LinkEnd> {
        self.ends.get_mut(link.index())
    }
}

/// The ends of this many links, with nothing in flight to them. None where memory ran out.
fn ends_of(alloc: Global, links: usize) -> Option<Vec<LinkEnd>> {
    let mut ends = Vec::new(alloc);
    for link in 0..u8::try_from(links).unwrap_or(u8::MAX) {
        ends.push(LinkEnd::new(alloc, LinkId::new(link))).ok()?;
    }
    Some(ends)
}

/// The message of a frame.
pub(super) fn carried(octets: &[u8]) -> Option<Msu> {
    match decode(octets) {
        Ok(Frame::Message { sio, sif, .. }) => Msu::new(sio, sif).ok(),
        Ok(Frame::Empty { .. }) | Ok(Frame::Status { .. }) | Err(_) => None,
    }
}
