//! An end of an SCTP association, which hears what the other end puts out.

ghost use Rattle.std.specs.Prelude.{◌≡◌};

use super::total::Total;
use sctp_endpoint::endpoint::KEY_OCTETS;
use sctp_endpoint::{Address, Addresses, Endpoint, Event, Settings, Watch};
use sctp_sending::{Bounds, Message};
use std::alloc::{AllocError, Global};
use std::marker::Model;

/// Where datagrams come from.
const PLACE: Address = Address {
    host: [0; 16],
    port: 9_899,
};

/// The settings of both ends.
fn settings() -> Settings
    ensures initial { result.bounds.initial ≡ 300 }
    ensures least { result.bounds.least ≡ 100 }
    ensures most { result.bounds.most ≡ 1000 }
{
    Settings {
        own_port: 3_565,
        far_port: 3_565,
        address: PLACE,
        addresses: Addresses::none(),
        bounds: Bounds {
            initial: 300,
            least: 100,
            most: 1_000,
        },
        init_retransmissions: 8,
        retransmissions: 10,
        heartbeat: 5_000,
        cookie_life: 60_000,
    }
}

/// The stream of User Data, and the protocol of M2PA (RFC 4165 §4.1.2, §7.1).
const USER_DATA: u16 = 1;

const M2PA: u32 = 5;

/// Octets of a datagram, at most.
const OCTETS: usize = 1_200;

/// The frames that an end tells, and the last datagram that it puts out while it hears one.
#[derive(Drop)]
pub(crate) struct Told {
    /// What it told.
    pub(crate) total: Total,
    octets: [u8; OCTETS],
    count: usize,
}

/// An end of the association. It hears what the other end puts out as that is put out, without a copy. Its state is
/// hidden from proofs, so nothing is promised of it.
pub(crate) struct Side {
    endpoint: Endpoint,
    /// What it tells, and the datagrams that it puts out while it hears one.
    pub(crate) told: Told,
    /// The time, in milliseconds.
    now: u32,
}

// By hand, so that no proof above has what a side owns.
impl Drop for Side {
    fn drop(self) {
        let Side {
            endpoint: _,
            told: _,
            now: _,
        } = self;
    }
}

impl Model for Side {
    ghost Value = { Unit {0} };

    ghost view = { λ _. tt };
}

impl Side {
    /// An end under keys of its own. The error means that memory ran out.
    pub(crate) fn new(alloc: Global, key: u8) -> Result<Side, AllocError> {
        Ok(Side {
            endpoint: Endpoint::new(alloc, settings(), [key; KEY_OCTETS], [key; KEY_OCTETS])?,
            told: Told {
                total: Total::NOTHING,
                octets: [0; OCTETS],
                count: 0,
            },
            now: 0,
        })
    }

    /// It wants an association.
    pub(crate) fn open(&mut self, is_active: bool, other: &mut Side) {
        if self.endpoint.lasts() {
            self.endpoint.open(is_active, u64::from(self.now), other);
        }
    }

    /// It is given a frame.
    #[inline(always)]
    pub(crate) fn give(&mut self, frame: &[u8]) {
        let _ = self.endpoint.send(Message {
            stream: USER_DATA,
            protocol: M2PA,
            octets: frame,
        });
    }

    /// What is due goes out to the other end.
    pub(crate) fn flush(&mut self, other: &mut Side) {
        self.endpoint.flush(u64::from(self.now), other);
    }

    /// The other end hears what was put out while this one heard a datagram.
    pub(crate) fn answer(&mut self, other: &mut Side) {
        let count = self.told.count.min(OCTETS);
        other.hear(&self.told.octets[..count]);
        self.told.count = 0;
    }

    /// A millisecond passes.
    pub(crate) fn tick(&mut self) {
        self.now = self.now.wrapping_add(1);
    }

    /// A datagram comes.
    #[inline(always)]
    fn hear(&mut self, octets: &[u8]) {
        if self.endpoint.lasts() {
            self.endpoint
                .hear(octets, &PLACE, u64::from(self.now), &mut self.told);
        }
    }
}

impl Watch for Side {
    // nothing is proved of it
    ghost has = { λ _ _ _. Unit {0} };

    #[inline(always)]
    fn send(&mut self, octets: &[u8], _to: &Address) {
        self.hear(octets);
    }

    fn tell(&mut self, _event: &Event<'_>) {}
}

impl Watch for Told {
    // nothing is proved of it
    ghost has = { λ _ _ _. Unit {0} };

    fn send(&mut self, octets: &[u8], _to: &Address) {
        let count = octets.len().min(OCTETS);
        self.octets[..count].copy_from_slice(&octets[..count]);
        self.count = count;
    }

    #[inline(always)]
    fn tell(&mut self, event: &Event<'_>) {
        if let Event::Heard(message) = event {
            self.total = self.total.with(message.octets);
        }
    }
}
