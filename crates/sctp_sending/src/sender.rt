//! The sender's half of an association.

ghost use Rattle.std.specs.Prelude.{◌≡◌, ◌<◌, ◌≤◌, ◌^◌, length, IfOk};
ghost use Rattle.sctp_sending.specs.Outgoing.{octets_of, outgoing_at, tsn_at};
ghost use Rattle.sctp_sending.specs.Cells.{given_as};
ghost use Rattle.sctp_sending.specs.RoundTrips.{first_round_trips, after_measured, backed_off, smoothed_round_trip};
ghost use Rattle.sctp_sending.specs.Sending.{
  first_sending,
  given,
  has_credit,
  finds_window,
  has_room,
  after_t3,
  stopped,
};
ghost use Rattle.sctp_sending.specs.Waiting.{has_room_behind};

mod acknowledging;
mod confirming;
mod going;

use crate::bounds::Bounds;
use crate::congestion::Congestion;
use crate::data::Data;
use crate::message::Message;
use crate::outbox::Outbox;
use crate::ring::CELLS;
use crate::round_trips::RoundTrips;
use crate::timed::Timed;
use std::alloc::{AllocError, Global};
use std::marker::Model;

/// Octets of a message that is sent, at most.
const MOST_OCTETS: u32 = 290;

/// Octets of the chunks of a packet of lost messages that goes out whatever the congestion window is.
const BURST_OCTETS: u32 = 1_188;

/// The sender's half of an association: the messages that aren't confirmed, and when they go out.
#[derive(Drop)]
pub struct Sender {
    outbox: Outbox,
    first: u32,
    sequences: [u16; 2],
    peer_window: u32,
    burst: u32,
    congestion: Congestion,
    round_trips: RoundTrips,
    timed: Option<Timed>,
    t3: Option<u64>,
    retransmissions: u64,
}

impl Model for Sender {
    ghost use Rattle.sctp_sending.specs.Sending.{Sending};

    ghost Value = { Sending };

    ghost use Rattle.sctp_sending.specs.Inside.{sending_in, IsSending};

    ghost view = { sending_in };

    ghost invariant = { IsSending };
}

impl Sender {
    /// A sender without an association. All its room is made here. The error means that memory ran out.
    pub fn new(alloc: Global, bounds: Bounds) -> Result<Sender, AllocError>
        requires initial { bounds.initial ≤ bounds.most }
        requires least { bounds.least ≤ bounds.most }
        requires most { bounds.most ≤ 2 ^ 24 }
        ensures { IfOk result (λ s. s ≡ first_sending bounds 0 0) }
    {
        Ok(Sender {
            outbox: Outbox::new(alloc)?,
            first: 0,
            sequences: [0, 0],
            peer_window: 0,
            burst: 0,
            congestion: Congestion::new(0),
            round_trips: RoundTrips::new(bounds),
            timed: None,
            t3: None,
            retransmissions: 0,
        })
    }

    /// An association begins: the bounds of the timeout, the TSN of the first message, and how many octets the peer
    /// takes.
    pub fn begin(&mut self, bounds: Bounds, first: u32, peer_window: u32)
        requires initial { bounds.initial ≤ bounds.most }
        requires least { bounds.least ≤ bounds.most }
        requires most { bounds.most ≤ 2 ^ 24 }
        ensures { self.new ≡ first_sending bounds first peer_window }
    {
        self.outbox.clear();
        self.first = first;
        self.sequences = [0, 0];
        self.peer_window = peer_window;
        self.burst = 0;
        self.congestion = Congestion::new(peer_window);
        self.round_trips = RoundTrips::new(bounds);
        self.timed = None;
        self.t3 = None;
        self.retransmissions = 0;
    }

    /// Whether a message that is sent now goes out now.
    #[tactic(auto, unfolding(crate::specs::Sending::has_room))]
    pub fn has_room(&self) -> bool
        ensures { result ≡ has_room self.now }
    {
        self.outbox.len() < CELLS
            && self.outbox.first_lost().is_none()
            && self.outbox.len() == self.outbox.went()
            && self.has_credit()
            && self.finds_window(MOST_OCTETS)
    }

    /// Whether a message that is sent now goes out as soon as packets are asked for, after those that didn't go out yet
    /// and have at most this many octets.
    #[tactic(auto, unfolding(crate::specs::Waiting::has_room_behind))]
    pub fn has_room_behind(&self, octets: u32) -> bool
        ensures { result ≡ has_room_behind self.now octets }
    {
        let ahead = u64::from(self.outbox.under_way()) + u64::from(octets);
        self.outbox.len() < CELLS
            && self.outbox.first_lost().is_none()
            && ahead < u64::from(self.congestion.window())
            && (u64::from(octets) + u64::from(MOST_OCTETS) <= u64::from(self.peer_window)
                || ahead == 0)
    }

    /// How many messages were taken and aren't confirmed.
    pub fn len(&self) -> usize
        ensures { result ≡ length self.now.out }
    {
        self.outbox.len()
    }

    /// Whether less is under way than the congestion window has.
    fn has_credit(&self) -> bool
        ensures { result ≡ has_credit self.now }
    {
        self.outbox.under_way() < self.congestion.window()
    }

    /// Whether the peer's window takes this many octets, or nothing is under way.
    fn finds_window(&self, octets: u32) -> bool
        ensures { result ≡ finds_window self.now octets }
    {
        octets <= self.peer_window || self.outbox.under_way() == 0
    }

    /// Takes a message: it has the next TSN, and the next number of its stream.
    #[tactic(auto, unfolding(crate::specs::Sending::given))]
    pub fn send(&mut self, message: Message<'_>)
        requires room { length self.old.out < 256 }
        requires fits { length message.octets.now ≤ 290 }
        requires stream { message.stream < 2 }
        ensures { self.new ≡ given self.old (given_as message.entry) }
    {
        let stream = message.stream as usize;
        let sequence = self.sequences[stream];
        self.outbox.push(message, sequence);
        self.sequences[stream] = sequence.wrapping_add(1);
    }

    /// The message at an index, as it goes out.
    pub fn data(&self, place: usize) -> Data<'_>
        requires { place < length self.now.out }
        ensures tsn { result.tsn ≡ tsn_at self.now.first place }
        ensures sequence { result.sequence ≡ (outgoing_at self.now.out place).sequence }
        ensures message { given_as result.message ≡ (outgoing_at self.now.out place).message }
        ensures most { length result.message.octets.now ≤ 290 }
    {
        let cell = self.outbox.get(place);
        Data {
            tsn: self.first.wrapping_add(place as u32),
            sequence: cell.sequence(),
            message: cell.message(),
        }
    }

    /// Drops the messages that didn't go out yet: the peer wants no more (RFC 9260 §9.2).
    #[tactic(auto, unfolding(crate::specs::Sending::stopped))]
    pub fn stop(&mut self)
        ensures { self.new ≡ stopped self.old }
    {
        self.outbox.drop_new();
    }

    /// The retransmission timeout, in milliseconds: RTO.
    pub fn timeout(&self) -> u32
        ensures { result ≡ self.now.round_trips.timeout }
    {
        self.round_trips.timeout()
    }

    /// The smoothed round trip, in milliseconds: SRTT (RFC 9260 §6.3.1). None until a round trip was measured.
    pub fn smoothed_round_trip(&self) -> Option<u32>
        ensures { result ≡ smoothed_round_trip self.now.round_trips }
    {
        self.round_trips.smoothed()
    }

    /// The congestion window, in octets: cwnd (RFC 9260 §7.2).
    pub fn congestion_window(&self) -> u32
        ensures { result ≡ self.now.congestion.window }
    {
        self.congestion.window()
    }

    /// How many messages went out again since the association began, by T3-rtx or by fast retransmission (RFC 9260
    /// §6.3.3, §7.2.4). It stays at 2^64 - 1 once it is there.
    pub fn retransmissions(&self) -> u64
        ensures { result ≡ self.now.retransmissions }
    {
        self.retransmissions
    }

    /// Forgets what was measured: the timeout is the first one again.
    pub fn forget_round_trips(&mut self, bounds: Bounds)
        requires initial { bounds.initial ≤ bounds.most }
        requires least { bounds.least ≤ bounds.most }
        requires most { bounds.most ≤ 2 ^ 24 }
        ensures { self.new ≡ record self.old { round_trips = first_round_trips bounds } }
    {
        self.round_trips = RoundTrips::new(bounds);
    }

    /// Takes a round trip of this many milliseconds into account, as that of a heartbeat.
    pub fn measure(&mut self, round_trip: u64)
        ensures { self.new ≡ record self.old { round_trips = after_measured self.old.round_trips round_trip } }
    {
        self.round_trips.measure(round_trip);
    }

    /// Doubles the timeout, up to RTO.Max: another timer than T3 ran out.
    pub fn back_off(&mut self)
        ensures { self.new ≡ record self.old { round_trips = backed_off self.old.round_trips } }
    {
        self.round_trips.back_off();
    }

    /// When T3 runs out, in milliseconds of the endpoint's clock.
    pub fn t3(&self) -> Option<u64>
        ensures { result ≡ self.now.t3 }
    {
        self.t3
    }

    /// T3 ran out: what is out and isn't named is lost.
    #[tactic(auto, unfolding(crate::specs::Sending::after_t3))]
    pub fn time_out(&mut self, now: u64)
        requires { now ≤ 2 ^ 63 }
        ensures { self.new ≡ after_t3 self.old now }
    {
        self.outbox.time_out_all();
        self.burst = BURST_OCTETS;
        self.congestion.time_out();
        self.round_trips.back_off();
        self.timed = None;
        self.t3 = Some(now + u64::from(self.round_trips.timeout()));
    }
}
