//! Any number of exchanges, joined by links in any shape.

use super::doing::{Deed, Doing, is_accepted};
use super::joining::{Link, Place};
use super::site::Site;
use crate::harness::count;
use crate::node::Node;
use crate::node_settings::settings_at;
use crate::shape::{Shape, code_of};
use exchange::{FrameText, LinkStanding, Msu, Outcome};
use std::alloc::Global;
use std::marker::Model;

/// The nodes of a shape, and the frames in flight between them, on two streams of each link each way (RFC 4165 §4.1.2).
pub(crate) struct Network {
    pub alloc: Global,
    /// Which nodes there are.
    pub shape: Shape,
    /// The links of which rounds carry frames, each from each of its ends, node by node (`Shape::links`).
    pub links: Vec<Link>,
    /// The nodes, in the order of their points.
    pub sites: Vec<Site>,
    /// How often something was done at a node.
    pub steps: u64,
    /// How many frames were taken on links between points 1 and 2.
    pub frames: u64,
    /// How many sums were compared,
    pub compared: u64,
    /// and how many of them had two sides that aren't the same.
    pub wrong: u64,
    /// Whether node 1 hands over SCCP for its own point, which it relays to node 2, and that returns it.
    pub relays: bool,
    /// Whether memory ran out: then not all was done, or booked.
    pub starved: bool,
}

impl Model for Network {
    ghost Value = { Unit {0} };

    ghost view = { λ _. tt };
}

// By hand, so that no proof above has what a network owns.
impl Drop for Network {
    fn drop(self) {
        let Network {
            alloc: _,
            shape: _,
            links: _,
            sites: _,
            steps: _,
            frames: _,
            compared: _,
            wrong: _,
            relays: _,
            starved: _,
        } = self;
    }
}

impl Network {
    /// A network before anything was done. None where memory ran out.
    pub(crate) fn new(alloc: Global, shape: Shape) -> Option<Network> {
        let links = shape.links(alloc)?;
        let sites = sites_of(alloc, shape)?;
        Some(Network {
            alloc,
            shape,
            links,
            sites,
            steps: 0,
            frames: 0,
            compared: 0,
            wrong: 0,
            relays: false,
            starved: false,
        })
    }

    /// The node at a point.
    pub(crate) fn site(&self, point: u16) -> Option<&Site> {
        self.sites.get(place_of(point))
    }

    pub(super) fn site_mut(&mut self, point: u16) -> Option<&mut Site> {
        self.sites.get_mut(place_of(point))
    }

    /// How a link stands at one end; Down if there is none.
    fn standing(&self, place: Place) -> LinkStanding {
        match self.site(place.point) {
            Some(site) => site.node.standing(place.link()),
            None => LinkStanding::Down,
        }
    }

    /// Whether a link is down at one end.
    pub(crate) fn is_down(&self, place: Place) -> bool {
        self.standing(place) == LinkStanding::Down
    }

    /// Whether a link is in service at both ends.
    pub(crate) fn serves(&self, link: Link) -> bool {
        self.standing(link.here) == LinkStanding::InService
            && self.standing(link.there) == LinkStanding::InService
    }

    /// Whether a link is proved at one of its ends.
    pub(crate) fn is_proving(&self, link: Link) -> bool {
        self.standing(link.here) == LinkStanding::Proving
            || self.standing(link.there) == LinkStanding::Proving
    }

    /// Whether all are of which rounds carry frames.
    pub(crate) fn serves_all(&self) -> bool {
        self.links.iter().all(|link| self.serves(*link))
    }

    /// Whether each link of each node may open, no node may follow the other end of one, and nothing is in Held.
    pub(crate) fn is_quiet(&self) -> bool {
        let mut quiet = true;
        for site in self.sites.as_slice() {
            quiet &= site.is_quiet();
        }
        quiet
    }

    /// Whether a step at a node made more notices than that keeps.
    pub(crate) fn overlooks(&self) -> bool {
        self.sites.iter().any(|site| site.overlooked)
    }

    /// Whether a node counted since the books began that it isn't known what the other end of a link has.
    pub(crate) fn is_broken(&self) -> bool {
        self.sites.iter().any(|site| site.seen.broken_any)
    }

    /// How often nodes lost a link since that is counted.
    pub(crate) fn failures(&self) -> u64 {
        let mut all = 0u64;
        for site in self.sites.as_slice() {
            count(&mut all, site.failures);
        }
        all
    }

    /// From now on steps, failures, reroutings, and messages that pass through or are refused are counted.
    pub(crate) fn count_anew(&mut self) {
        self.steps = 0;
        for site in self.sites.iter_mut() {
            site.failures = 0;
            site.passed = 0;
            site.seen.reroutings = 0;
        }
    }

    /// The books of all nodes begin anew: nothing is booked yet.
    pub(crate) fn begin_anew(&mut self) {
        for site in self.sites.iter_mut() {
            site.begin_anew();
        }
    }

    /// A node starts again: its exchange is as its settings boot it, and nothing is in flight to it. It may follow the
    /// other end of no link. Its books stay. What it sent is in flight yet, and the other end of each of its links
    /// still has its association: that loses it later, and may still follow, until it falls.
    pub(crate) fn restart(&mut self, point: u16) {
        let node = booted(self.alloc, self.shape, point);
        if let Some(site) = self.site_mut(point) {
            site.restart(node);
        }
    }
}

impl Network {
    /// Does one thing at a node, and looks at it. Says what became of it.
    pub(crate) fn turn(&mut self, at: u16, doing: Doing) -> Outcome {
        count(&mut self.steps, 1);
        self.compare_now_and_then();
        let lost = self.lost_in_service(&doing);
        let outcome = self.turn_unseen(at, doing);
        if let Some(place) = lost {
            self.note_failure(place);
        }
        self.look(at);
        outcome
    }

    /// The end of a link in service that fails by what is done.
    fn lost_in_service(&self, doing: &Doing) -> Option<Place> {
        match doing {
            Doing::Link(Deed::Lose | Deed::Fall | Deed::Deactivate, place) => {
                (self.standing(*place) == LinkStanding::InService).then_some(*place)
            }
            _ => None,
        }
    }

    /// A link in service failed at an end. Where no route leads to its point, no order went out.
    fn note_failure(&mut self, place: Place) {
        let Some(link) = self.shape.link(place.point, place.number) else {
            return;
        };
        if let Some(site) = self.site_mut(place.point) {
            site.note_failure(place.link(), code_of(link.there.point));
        }
    }

    fn turn_unseen(&mut self, at: u16, doing: Doing) -> Outcome {
        match doing {
            Doing::Link(Deed::Take, place) => self.take(place),
            Doing::Link(Deed::OpenFirst, place) => self.open_first(place),
            doing => match self.site_mut(at) {
                Some(site) => site.act(doing),
                None => Outcome::Ignored,
            },
        }
    }

    /// A node is looked at, and how many messages have come to it.
    fn look(&mut self, at: u16) {
        let Some(site) = self.site_mut(at) else {
            return;
        };
        let arrivals = site.look();
        let starved = site.starved;
        self.starved |= starved;
        for site in self.sites.iter_mut() {
            site.seen.note_arrivals(place_of(at), arrivals);
        }
    }

    /// Does something about a link at one end. Says whether something came of it.
    pub(crate) fn act(&mut self, place: Place, deed: Deed) -> bool {
        self.turn(place.point, Doing::Link(deed, place)) != Outcome::Ignored
    }

    /// This many ticks pass at a node.
    pub(crate) fn tick(&mut self, point: u16, count: u8) {
        for _ in 0..count {
            self.turn(point, Doing::Tick);
        }
    }

    /// A node submits a message, if there is one. Says whether it accepted it.
    pub(crate) fn submit(&mut self, point: u16, message: Option<Msu>) -> bool {
        match message {
            Some(message) => is_accepted(&self.turn(point, Doing::Submit(message))),
            None => false,
        }
    }

    /// The next frame of a link is fetched, and is in flight to the other end.
    fn take(&mut self, place: Place) -> Outcome {
        let Some(link) = self.shape.link(place.point, place.number) else {
            return Outcome::Ignored;
        };
        let Some(site) = self.site_mut(place.point) else {
            return Outcome::Ignored;
        };
        let Some(text) = site.node.fetch(place.link()) else {
            return Outcome::Ignored;
        };
        count(&mut self.frames, link.is_between_ends() as u64);
        self.note_word(link, &text);
        self.push(link.there, text);
        Outcome::Handled
    }

    /// A frame is in flight to an end of a link.
    fn push(&mut self, end: Place, text: FrameText) {
        if let Some(site) = self.site_mut(end.point) {
            site.push(end.link(), text);
        }
    }

    /// A link opens at one end, if that wants it to and it may open at the other, which may then follow.
    fn open_first(&mut self, place: Place) -> Outcome {
        let Some(Link { there: far, .. }) = self.shape.link(place.point, place.number) else {
            return Outcome::Ignored;
        };
        if !self.may_open_first(place, far) {
            return Outcome::Ignored;
        }
        if let Some(site) = self.site_mut(place.point) {
            site.open_first(place.link());
        }
        if let Some(site) = self.site_mut(far.point) {
            site.clear(far.link(), true);
        }
        Outcome::Handled
    }

    /// Whether one end wants a link to open, and it may open at the other.
    fn may_open_first(&self, place: Place, far: Place) -> bool {
        match (self.site(place.point), self.site(far.point)) {
            (Some(near), Some(other)) => {
                near.wants_open(place.link()) && other.node.shown().may_restart(far.link())
            }
            (Some(_), None) | (None, _) => false,
        }
    }
}

/// The nodes of a shape. None where memory ran out.
fn sites_of(alloc: Global, shape: Shape) -> Option<Vec<Site>> {
    let mut sites = Vec::new(alloc);
    for point in shape.points() {
        sites
            .push(Site::boot(alloc, settings_at(alloc, shape, *point)?)?)
            .ok()?;
    }
    Some(sites)
}

/// A node of a shape, before its first event. None where memory ran out.
fn booted(alloc: Global, shape: Shape, point: u16) -> Option<Node> {
    Node::boot(alloc, settings_at(alloc, shape, point)?).ok()
}

/// The place of a point's node among all: points are 1, 2, 3 and so on.
pub(crate) fn place_of(point: u16) -> usize {
    (point as usize).wrapping_sub(1)
}
