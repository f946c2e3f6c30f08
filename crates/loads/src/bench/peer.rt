//! The peer at the other ends of the links, which sends and takes frames and counts what it took.

ghost use Rattle.std.specs.Prelude.{◌≤◌};

mod answering;

use super::end::{End, place};
use super::incoming::Incoming;
use super::making::booted;
use super::side::Side;
use super::total::Total;
use crate::draft::Shape;
use exchange::{BUFFER_OCTETS, Event, Exchange};
use m2pa_codec::{Frame, LinkStatus, encode};
use settings::{Limits, LinkId, MsuRef, Sls};
use signalling_types::Number24;
use signalling_types::number::next;
use std::alloc::Global;
use std::marker::Model;

/// What a link tells on its way into service: Alignment, Proving Normal, Ready.
const STATUSES: usize = 3;

/// The exchange, and the peer at the other ends of its links. Its state is hidden from proofs: nothing is promised of
/// it.
pub(crate) struct Peer {
    exchange: Exchange,
    /// The last link of the first set, which carries the messages.
    pub(crate) link: LinkId,
    /// How many links there are.
    links: u8,
    /// The peer's ends of the links, by their numbers.
    ends: [End; Limits::LINKS],
    /// A frame without a message.
    empty: Incoming,
    buffer: [u8; BUFFER_OCTETS],
    /// What the peer took.
    pub(crate) total: Total,
}

// By hand, so that no proof above has what a peer owns.
impl Drop for Peer {
    fn drop(self) {
        let Peer {
            exchange: _,
            link: _,
            links: _,
            ends: _,
            empty: _,
            buffer: _,
            total: _,
        } = self;
    }
}

impl Model for Peer {
    ghost Value = { Unit {0} };

    ghost view = { λ _. tt };
}

impl Peer {
    /// The peer of an exchange with settings of this shape. The last link of the first set is in service and carries
    /// all messages, so the others of its set are looked at for nothing. All that is owed was told and confirmed, which
    /// doesn't count. None if memory ran out.
    pub(crate) fn of_exchange_with(alloc: Global, shape: &Shape) -> Option<Peer> {
        let exchange = booted(alloc, shape)?;
        let link = shape.last_of_first_set();
        let mut peer = Peer {
            exchange,
            link,
            links: shape.links,
            ends: [End::first(); Limits::LINKS],
            empty: Incoming::empty(),
            buffer: [0; BUFFER_OCTETS],
            total: Total::NOTHING,
        };
        peer.open(link);
        peer.settle(link);
        peer.total = Total::NOTHING;
        Some(peer)
    }

    /// The selection whose flows try the link that carries the messages first, if it is the last one of its set. That
    /// is its signalling link code, too.
    pub(crate) fn selection(&self) -> Sls {
        Sls::of_low_bits(self.link.index() as u32)
    }

    /// How many messages may be unconfirmed.
    pub(crate) fn window(&self) -> usize
        ensures { result ≤ Limits.WINDOW }
    {
        self.exchange.settings().window()
    }

    /// The number of the last message that was taken of a link.
    pub(crate) fn taken(&self, link: LinkId) -> Number24 {
        self.ends[place(link)].taken
    }

    /// Brings a link into service, before its first message. What it tells on its way doesn't count.
    pub(crate) fn open(&mut self, link: LinkId) {
        self.ends[place(link)] = End::first();
        self.exchange.step(&Event::AssociationUp(link));
        self.tell(link, LinkStatus::ProvingNormal);
        self.tell(link, LinkStatus::Ready);
        let ticks = self.exchange.settings().timers().l4;
        self.pass(u32::from(ticks));
        for _ in 0..STATUSES {
            self.exchange.take(link, &mut self.buffer);
        }
    }

    /// Sends a link status, before the first message.
    fn tell(&mut self, link: LinkId, status: LinkStatus) {
        let none = Number24::zero().previous();
        let told = Frame::Status {
            bsn: none,
            fsn: none,
            status,
        };
        let count = encode(&told, &mut self.buffer);
        self.exchange
            .step(&Event::Frame(link, &self.buffer[..count]));
    }

    /// Brings the links of the first set but the one that carries the messages into service.
    pub(crate) fn open_set(&mut self) {
        for number in 0..self.link.index() {
            self.open(LinkId::new(number as u8));
        }
    }

    /// Brings the links from this number on into service except the one that carries the messages. The declarations of
    /// each are answered, and each point takes and confirms what it is told, which doesn't count.
    pub(crate) fn open_from(&mut self, from: u8) {
        let total = self.total;
        for number in from..self.links {
            let link = LinkId::new(number);
            if link != self.link {
                self.open(link);
                self.answer_each(self.links, link);
                self.confirm_each();
                self.settle_each();
            }
        }
        self.total = total;
    }

    /// The association of the link that carries the messages goes down.
    pub(crate) fn break_off(&mut self) {
        self.exchange.step(&Event::AssociationDown(self.link));
    }

    /// A user part of the exchange hands over a message.
    pub(crate) fn submit(&mut self, message: MsuRef<'_>) {
        self.exchange.step(&Event::Submit(message));
    }

    /// Ticks of the clock pass.
    pub(crate) fn pass(&mut self, ticks: u32) {
        for _ in 0..ticks {
            self.exchange.step(&Event::Tick);
        }
    }

    /// Time passes until T1 ends, after which a link that failed as the last one of its set may open again. Each other
    /// timer that runs now ends too, since all run as long.
    pub(crate) fn outlast_timers(&mut self) {
        let ticks = self.exchange.settings().timers().t1;
        self.pass(u32::from(ticks));
    }

    /// Sends a message on a link, in a frame that confirms all that was taken of it.
    pub(crate) fn send(&mut self, link: LinkId, message: &mut Incoming) {
        let end = self.ends[place(link)];
        self.ends[place(link)].next = next(end.next);
        let octets = message.numbered(end.taken, end.next);
        self.exchange.step(&Event::Frame(link, octets));
    }

    /// Confirms all that was taken of a link by an empty frame.
    pub(crate) fn confirm(&mut self, link: LinkId) {
        let end = self.ends[place(link)];
        let octets = self.empty.numbered(end.taken, end.next.previous());
        self.exchange.step(&Event::Frame(link, octets));
    }

    /// Confirms all that was taken of each link.
    fn confirm_each(&mut self) {
        for number in 0..self.links {
            self.confirm(LinkId::new(number));
        }
    }

    /// Takes the next frame of a link, counts it in, and says whether there was one.
    #[inline(always)]
    pub(crate) fn take_frame(&mut self, link: LinkId) -> bool {
        let Some(count) = self.exchange.take(link, &mut self.buffer) else {
            return false;
        };
        self.total = self.total.with(&self.buffer[..count]);
        true
    }

    /// Takes the next message of a link, and says whether there was one.
    pub(crate) fn take(&mut self, link: LinkId) -> bool {
        let is_there = self.take_frame(link);
        if is_there {
            self.count_message(link);
        }
        is_there
    }

    /// Takes the next message of the link that carries them, and gives its frame to an end of an SCTP association.
    pub(crate) fn hand_over(&mut self, near: &mut Side) {
        if let Some(count) = self.exchange.take(self.link, &mut self.buffer) {
            near.give(&self.buffer[..count]);
            self.count_message(self.link);
        }
    }

    /// What was last taken of a link is its next message.
    fn count_message(&mut self, link: LinkId) {
        let at = place(link);
        self.ends[at].taken = next(self.ends[at].taken);
    }

    /// Takes all messages of a link that may go out before one of them is confirmed, and says whether there was one.
    pub(crate) fn take_window(&mut self, link: LinkId) -> bool {
        let before = self.taken(link);
        for _ in 0..self.window() {
            if !self.take(link) {
                break;
            }
        }
        self.taken(link) != before
    }

    /// Takes and confirms the messages of a link until none is left: what its adjacent point is told of destinations.
    pub(crate) fn settle(&mut self, link: LinkId) {
        for _ in 0..Limits::DESTINATIONS {
            if !self.take_window(link) {
                break;
            }
            self.confirm(link);
        }
    }

    /// The messages of the links are taken and confirmed, by link: what is owed goes out in that order.
    pub(crate) fn settle_each(&mut self) {
        for number in 0..self.links {
            self.settle(LinkId::new(number));
        }
    }
}
