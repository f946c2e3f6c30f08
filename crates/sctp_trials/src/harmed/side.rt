//! An endpoint, and what it puts out and tells.

ghost use Rattle.std.specs.Prelude.{◌≡◌, ◌≤◌, ◌^◌};

use crate::harmed::octets::{TAG_AT, number};
use crate::harmed::recorder::Recorder;
use sctp_endpoint::endpoint::KEY_OCTETS;
use sctp_endpoint::{Address, Addresses, Endpoint, Settings};
use sctp_sending::{Bounds, Message};
use std::alloc::{AllocError, Global};

/// The latest time, in milliseconds.
const LATEST: u64 = 1 << 63;

/// Where datagrams come from.
const PLACE: Address = Address {
    host: [0; 16],
    port: 9_899,
};

/// The settings of both ends.
fn settings() -> Settings
    ensures initial { result.bounds.initial ≡ 300 }
    ensures least { result.bounds.least ≡ 100 }
    ensures most { result.bounds.most ≡ 1000 }
{
    Settings {
        own_port: 3_565,
        far_port: 3_565,
        address: PLACE,
        addresses: Addresses::none(),
        bounds: Bounds {
            initial: 300,
            least: 100,
            most: 1_000,
        },
        init_retransmissions: 8,
        retransmissions: 10,
        heartbeat: 5_000,
        cookie_life: 60_000,
    }
}

/// What is done at an end.
#[derive(Clone, Copy)]
pub enum Doing<'a> {
    Open(bool),
    Send,
    Flush,
    Abort,
    ShutDown,
    Hear(&'a [u8]),
}

/// An end.
#[derive(Drop)]
pub struct Side {
    endpoint: Endpoint,
    /// What it put out and told.
    pub log: Recorder,
    /// How many of the datagrams that it put out came to the other end.
    pub passed: usize,
}

impl Side {
    /// An end under keys of its own. The error means that memory ran out.
    pub fn new(alloc: Global, tag_key: u8, cookie_key: u8) -> Result<Side, AllocError> {
        Ok(Side {
            endpoint: Endpoint::new(
                alloc,
                settings(),
                [tag_key; KEY_OCTETS],
                [cookie_key; KEY_OCTETS],
            )?,
            log: Recorder::new(alloc),
            passed: 0,
        })
    }

    /// Does something, and then puts out what there is.
    pub fn act(&mut self, what: Doing<'_>, now: u64) {
        self.happen(what, now);
        self.happen(Doing::Flush, now);
    }

    /// Does something.
    pub fn happen(&mut self, what: Doing<'_>, now: u64) {
        if now > LATEST || !self.endpoint.lasts() {
            return;
        }
        match what {
            Doing::Open(is_active) => self.endpoint.open(is_active, now, &mut self.log),
            Doing::Send => self.send(),
            Doing::Flush => self.endpoint.flush(now, &mut self.log),
            Doing::Abort => {
                self.endpoint.abort(&mut self.log);
                self.log.own_tag = None;
            }
            Doing::ShutDown => self.endpoint.shutdown(now, &mut self.log),
            Doing::Hear(octets) => {
                self.log.coming = number(octets, TAG_AT);
                self.endpoint.hear(octets, &PLACE, now, &mut self.log);
            }
        }
    }

    /// Sends a message.
    fn send(&mut self) {
        let message = Message {
            stream: 0,
            protocol: 5,
            octets: &[7; 40],
        };
        let _ = self.endpoint.send(message);
    }

    /// When it is to be woken, and whether it takes a message.
    pub fn shown(&self) -> (Option<u64>, bool) {
        (self.endpoint.deadline(), self.endpoint.has_room())
    }

    /// What it put out, and what didn't come yet, never comes.
    pub fn lose(&mut self) {
        self.passed = self.log.sent.len();
    }

    /// Forgets what it put out.
    pub fn clear(&mut self) {
        self.log.sent.clear();
        self.passed = 0;
    }
}
