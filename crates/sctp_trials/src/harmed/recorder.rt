//! What an endpoint puts out and tells.

use crate::harmed::octets::{number, octet};
use sctp_endpoint::{Address, Event, Watch};
use sctp_rules::Loss;
use std::alloc::{AllocError, Global};
use std::marker::Model;

/// Where the type of the first chunk is, and the tag that an INIT wants (RFC 9260 §3.2, §3.3.2).
pub const KIND_AT: usize = 12;

const INITIATE_TAG_AT: usize = 16;

/// The type of INIT.
pub const INIT: u8 = 1;

/// A datagram that was put out.
#[derive(Drop)]
pub struct Datagram {
    octets: Vec<u8>,
}

impl Datagram {
    /// Its octets.
    pub fn octets(&self) -> &[u8] {
        self.octets.as_slice()
    }
}

impl Model for Datagram {
    ghost Value = { Unit {0} };

    ghost view = { λ _. tt };
}

/// Takes what an endpoint puts out and tells. What finds no memory is left out.
#[derive(Drop)]
pub struct Recorder {
    alloc: Global,
    /// What it put out, since it was last cleared.
    pub sent: Vec<Datagram>,
    /// How much it told in all, and how much of that opened or ended an association or a try of one.
    pub told: u64,
    pub changes: u64,
    /// The tag that packets to it must have: that of its latest INIT, or of what opened its association.
    pub own_tag: Option<u32>,
    /// The verification tag of what comes.
    pub coming: u32,
}

impl Recorder {
    /// Nothing was put out, and nothing told.
    pub fn new(alloc: Global) -> Recorder {
        Recorder {
            alloc,
            sent: Vec::new(alloc),
            told: 0,
            changes: 0,
            own_tag: None,
            coming: 0,
        }
    }

    /// Keeps a datagram.
    fn keep(&mut self, octets: &[u8]) -> Result<(), AllocError> {
        let mut copy = Vec::new(self.alloc);
        copy.extend_from_slice(octets)?;
        self.sent.push(Datagram { octets: copy })?;
        Ok(())
    }

    /// An association or a try of one began or ended.
    fn change(&mut self, own_tag: Option<u32>) {
        self.own_tag = own_tag;
        self.changes = self.changes.saturating_add(1);
    }
}

impl Watch for Recorder {
    // nothing is proved of it
    ghost has = { λ _ _ _. Unit {0} };

    fn send(&mut self, octets: &[u8], _to: &Address) {
        if octet(octets, KIND_AT) == INIT {
            self.change(Some(number(octets, INITIATE_TAG_AT)));
        }
        let _ = self.keep(octets);
    }

    fn tell(&mut self, event: &Event<'_>) {
        self.told = self.told.saturating_add(1);
        match event {
            Event::Up => self.change(Some(self.coming)),
            // a peer's SHUTDOWN is told as it comes, and the association lasts until SHUTDOWN COMPLETE
            Event::Down(Loss::Shutdown) => self.change(self.own_tag),
            Event::Down(_) | Event::Failed(_) => self.change(None),
            Event::Heard(_) => {}
        }
    }
}
