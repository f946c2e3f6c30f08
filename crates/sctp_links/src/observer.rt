//! What takes the datagrams of a link's gate, and tells and counts what it sees.

ghost use Rattle.std.specs.Prelude.{◌≡◌, ℕ};
ghost use Rattle.served_link.specs.Counting.{NodeCounters};
ghost use Rattle.sctp_links.specs.Counting.{counted_by};

use crate::hosts::plain_address_of;
use crate::losing::word_of;
use crate::setbacks::failed_by;
use script::Sink;
use sctp_endpoint::Address;
use sctp_rules::Loss;
use sctp_sending::Message;
use served_link::Watch;
use served_node::{Log, Observers};
use settings::{LinkId, Outcome};
use std::fmt;
use std::marker::{Brand, PhantomData};
use std::time::Duration;
use trace::ObservedFrame;

/// What takes the datagrams that go out.
pub trait Datagrams {
    /// A datagram goes out to an address. It may be lost.
    fn send(&mut self, octets: &[u8], to: &Address);
}

/// What an observer began with, only for proofs: a call picks it.
pub(crate) trait Origin {
    ghost is_from: { NodeCounters → Type 0 };

    ghost link: { ℕ };

    ghost observers_name: { ℕ };

    ghost datagrams_name: { ℕ };

    ghost sink_name: { ℕ };

    ghost user_name: { ℕ };
}

impl Origin for Brand {
    ghost is_from = { λ _. Unit {0} };

    ghost link = { 0 };

    ghost observers_name = { 0 };

    ghost datagrams_name = { 0 };

    ghost sink_name = { 0 };

    ghost user_name = { 0 };
}

/// What sees what passes the gate of a link: the log, the counters, the capture, the clients of the console, and what
/// else watches.
#[derive(Drop)]
pub(crate) struct GateObserver<'o, 'd, 's, 'u, D, W, U, K> {
    pub(crate) link: LinkId,
    /// Where the datagram came from that is heard.
    pub(crate) source: Address,
    /// Where its peer is, as lines of the log name it.
    pub(crate) far_address: Address,
    pub(crate) observers: &'o mut Observers,
    pub(crate) datagrams: &'d mut D,
    /// Where the lines of the log go.
    pub(crate) sink: &'s mut W,
    /// How long after the start it is.
    pub(crate) now: Duration,
    pub(crate) user: &'u mut U,
    pub(crate) origin: PhantomData<K>,
}

impl<D: Datagrams, W: Sink, U: Watch, K: Origin> sctp_gate::Watch
    for GateObserver<'_, '_, '_, '_, D, W, U, K> {
    // It is still what was lent, and what passed is counted.
    ghost has = { λ w sent seen. (w.link ≡ K.link)
        × (w.observers.ghost_name ≡ K.observers_name)
        × (w.datagrams.ghost_name ≡ K.datagrams_name)
        × (w.sink.ghost_name ≡ K.sink_name)
        × (w.user.ghost_name ≡ K.user_name)
        × ((began : NodeCounters) → K.is_from began →
        w.observers.now.counters ≡ counted_by K.link sent seen began) };

    fn send(&mut self, octets: &[u8], to: &Address) {
        self.observers.datagram_went(self.link, octets);
        self.far_address = *to;
        self.datagrams.send(octets, to);
    }

    fn came_up(&mut self) {
        self.far_address = self.source;
        let (name, address) = (
            self.observers.name(self.link),
            plain_address_of(&self.far_address),
        );
        tell(self.sink, self.now, &format_args!("open {name} {address}"));
    }

    fn came_in(&mut self, frame: &[u8], outcome: &Outcome) {
        let frame = ObservedFrame::new(frame);
        self.observers.message_came_in(self.link, &frame, outcome);
        self.user.came_in(self.link, &frame, outcome);
    }

    fn dropped(&mut self, _message: &Message<'_>) {}

    fn went_down(&mut self, why: Loss) {
        let (name, address, word) = (
            self.observers.name(self.link),
            plain_address_of(&self.far_address),
            word_of(why),
        );
        let text = format_args!("close {name} {address} {word}");
        tell(self.sink, self.now, &text);
    }

    fn failed(&mut self, why: Loss) {
        let Some(setback) = failed_by(why) else {
            return;
        };
        self.observers.was_set_back(self.link, setback);
        let (name, address) = (
            self.observers.name(self.link),
            plain_address_of(&self.far_address),
        );
        let text = format_args!("fail {name} {address} {}", setback.name());
        tell(self.sink, self.now, &text);
    }

    fn went_out(&mut self, frame: &[u8]) {
        self.observers.message_went_out(self.link, frame);
        self.user.went_out(self.link, frame);
    }
}

/// Writes a line of the log.
fn tell<T: fmt::Display, W: Sink>(sink: &mut W, now: Duration, text: &T) {
    Log { sink, now }.tell(text);
}
