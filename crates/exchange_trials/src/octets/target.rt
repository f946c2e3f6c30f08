//! The node that octets are handed in to, and its links.

use crate::node::Node;
use crate::octets::buffer::Octets;
use crate::octets::found::Found;
use crate::octets::good::{FarEnd, add_data, add_empty, add_status};
use crate::octets::shown::{LINKS, Shown};
use exchange::{BUFFER_OCTETS, Event, Frame, LinkId, LinkStanding, Outcome, Wants, decode};
use settings_file::read;
use signalling_types::Number24;
use std::alloc::Global;
use std::marker::Model;

/// The node's own point.
pub(crate) const OWN: u32 = 1;

/// The settings: a window and a pool that fill, and timers that run out soon.
const SETTINGS: &str = r#"version = 1
own = 1
network = 2
window = 3
pool = 4
users = [5]
subsystems = [8]
timers = { l1 = 6, l2 = 6, l3 = 6, l4 = 2, l6 = 8, l7 = 4, t1 = 3, t2 = 3, t3 = 2, t4 = 2, t6 = 2, t8 = 2, t10 = 5 }
set = [{ name = "east", adjacent = 2 }, { name = "west", adjacent = 3 }]
link = [
  { name = "e0", set = "east", slc = 0 }, { name = "e1", set = "east", slc = 1 },
  { name = "w0", set = "west", slc = 0 }, { name = "w1", set = "west", slc = 1 },
]
destination = [
  { point = 2, sets = ["east"] }, { point = 3, sets = ["west"] },
  { point = 300, sets = ["west", "east"] }, { point = 400, sets = ["east"] },
]
title = [
  { translation = 0, plan = 1, nature = 4, digits = "49", point = 3, route = "title" },
  { translation = 0, plan = 1, nature = 4, digits = "4917", point = 300, route = "ssn", ssn = 6 },
  { translation = 0, plan = 1, nature = 4, digits = "33", point = 1, route = "ssn", ssn = 8 },
]
"#;

/// Where the SIO of a message is in its frame, after both headers and the priority octet (RFC 4165 §2.3.1).
const MESSAGE_AT: usize = 17;

/// A node, and the frame that was taken last.
#[derive(Drop)]
pub(crate) struct Target {
    pub node: Node,
    taken: [u8; BUFFER_OCTETS],
    /// What became of the frames.
    pub found: Found,
}

impl Model for Target {
    ghost Value = { Unit {0} };

    ghost view = { λ _. tt };
}

impl Target {
    /// A node before its first event. None if memory ran out.
    pub(crate) fn new(alloc: Global) -> Option<Target> {
        Some(Target {
            node: Node::boot(alloc, read(alloc, SETTINGS).ok()?).ok()?,
            taken: [0; BUFFER_OCTETS],
            found: Found::default(),
        })
    }

    /// The far end of a link, which has received all that was taken.
    pub(crate) fn far_end(&self, link: LinkId) -> FarEnd {
        let none = Number24::zero().previous();
        let (heard, sent) = match self.node.shown().link(link) {
            Some(view) => (view.last_sent, view.last_accepted),
            None => (none, none),
        };
        let point = if link.index() < 2 { 2 } else { 3 };
        FarEnd { point, heard, sent }
    }

    /// Tries a frame on a link.
    pub(crate) fn try_frame(&mut self, link: LinkId, octets: &[u8]) {
        let outcome = self.hand_in(link, octets);
        self.found.note(outcome);
    }

    /// Hands in a frame on a link, and looks at what the node shows. What is refused or ignored changes nothing. Only a
    /// message changes queues and numbers even then: it is confirmed, and may be answered. And it brings a link into
    /// service that is ready.
    fn hand_in(&mut self, link: LinkId, octets: &[u8]) -> Outcome {
        let message = matches!(decode(octets), Ok(Frame::Message { .. }));
        let enters = message && self.node.standing(link) == LinkStanding::AlignedReady;
        let before = Shown::of(self.node.shown(), !message);
        let outcome = self.node.step(&Event::Frame(link, octets));
        let changed = before != Shown::of(self.node.shown(), !message);
        if changed && !enters && matches!(outcome, Outcome::Ignored | Outcome::Refused(_)) {
            self.found.changed = self.found.changed.wrapping_add(1);
        }
        outcome
    }
}

impl Target {
    /// The association of a link is lost.
    pub(crate) fn lose(&mut self, link: LinkId) {
        self.node.step(&Event::AssociationDown(link));
    }

    /// A tick passes.
    pub(crate) fn tick(&mut self) {
        self.node.step(&Event::Tick);
    }

    /// This many ticks pass, before each of which all that waits is taken and acknowledged.
    pub(crate) fn tend_and_tick(&mut self, ticks: usize) {
        for _ in 0..ticks {
            for link in 0..LINKS {
                self.tend(LinkId::new(link));
            }
            self.tick();
        }
    }

    /// Opens or closes the association of a link, as it wants.
    pub(crate) fn serve(&mut self, link: LinkId) {
        match self.node.shown().wants(link) {
            Wants::Close => self.lose(link),
            Wants::Open => {
                self.node.step(&Event::AssociationUp(link));
            }
            Wants::Nothing => {}
        }
    }

    /// Takes all that is to go out on a link, and acknowledges it.
    pub(crate) fn tend(&mut self, link: LinkId) {
        // At most a window of messages, three statuses, and an acknowledgement go out.
        for _ in 0..7 {
            self.node.take(link, &mut self.taken);
        }
        if self.node.standing(link) == LinkStanding::InService {
            let mut frame = Octets::new();
            add_empty(&self.far_end(link), &mut frame);
            self.hand_in(link, frame.as_slice());
        }
    }

    /// The far end of a link sends a state.
    pub(crate) fn tell(&mut self, link: LinkId, state: u8) {
        let mut frame = Octets::new();
        add_status(&self.far_end(link), state, &mut frame);
        self.hand_in(link, frame.as_slice());
    }

    /// Whether a message that comes on a link is queued, and goes out as it came.
    pub(crate) fn passes(&mut self, link: LinkId, message: &[u8]) -> bool {
        let mut frame = Octets::new();
        add_data(&self.far_end(link), message, &mut frame);
        let Outcome::Queued(to) = self.hand_in(link, frame.as_slice()) else {
            return false;
        };
        let octets = self.node.take(to, &mut self.taken).unwrap_or(0);
        let sent = self.taken.get(MESSAGE_AT..octets) == Some(message);
        self.tend(to);
        sent
    }
}

impl Target {
    /// Brings a link into service.
    pub(crate) fn restore(&mut self, link: LinkId) {
        // A changeover may have to end first.
        for _ in 0..12 {
            if self.node.standing(link) != LinkStanding::InService {
                self.bring_up(link);
            }
        }
    }

    /// A link gets a new association, and is proved. If it may not open yet, a tick passes.
    fn bring_up(&mut self, link: LinkId) {
        self.lose(link);
        self.serve(link);
        if self.node.standing(link) == LinkStanding::Down {
            self.tend_and_tick(1);
            return;
        }
        // Proving Normal and Ready (RFC 4165 §2.3.2), and L4.
        self.tell(link, 2);
        self.tell(link, 4);
        self.tend_and_tick(2);
    }

    /// All links lose their associations and come into service again, and a good message of each of the 16 selections
    /// comes on each. Returns how many of these 64 went out as they came.
    pub(crate) fn count_through(&mut self) -> u64 {
        for link in 0..LINKS {
            self.lose(LinkId::new(link));
        }
        // In eight ticks all timers of a changeover, a changeback and a rerouting run out.
        self.tend_and_tick(8);
        for link in 0..LINKS {
            self.restore(LinkId::new(link));
        }
        self.tend_and_tick(8);
        let mut count = 0u64;
        for link in 0..LINKS {
            count = count.wrapping_add(self.count_from(LinkId::new(link)));
        }
        count
    }

    /// How many messages of ISUP that come on a link go through: from point 2 to point 300, or from point 3 to point 2.
    fn count_from(&mut self, link: LinkId) -> u64 {
        let east = link.index() < 2;
        let low = if east { 0x2c } else { 0x02 };
        let high = if east { 0x81 } else { 0xc0 };
        let mut count = 0u64;
        for selection in 0..16u8 {
            let code = selection % 16 * 16;
            if self.passes(link, &[0x85, low, high, 0, code, 0xaa, selection]) {
                count = count.wrapping_add(1);
            }
        }
        count
    }
}
