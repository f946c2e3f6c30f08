//! What a gate puts out.

use exchange::Outcome;
use sctp_endpoint::Address;
use sctp_gate::Watch;
use sctp_rules::Loss;
use sctp_sending::Message;
use std::alloc::{AllocError, Global};
use std::marker::Model;

/// All datagrams that a gate put out, in order. One for which memory runs out is lost. Its state is hidden from proofs.
pub struct Outbox {
    alloc: Global,
    datagrams: Vec<Vec<u8>>,
    /// How many of them the other end heard.
    heard: usize,
}

impl Model for Outbox {
    ghost Value = { Unit {0} };

    ghost view = { λ _. tt };
}

// By hand, so that no proof above has what it owns.
impl Drop for Outbox {
    fn drop(self) {
        let Outbox {
            alloc: _,
            datagrams: _,
            heard: _,
        } = self;
    }
}

impl Outbox {
    /// Nothing was put out.
    pub fn new(alloc: Global) -> Outbox {
        Outbox {
            alloc,
            datagrams: Vec::new(alloc),
            heard: 0,
        }
    }

    /// How many datagrams were put out.
    pub fn sent(&self) -> usize {
        self.datagrams.len()
    }

    /// How many of them end with these octets.
    pub fn carrying(&self, octets: &[u8]) -> usize {
        let sent = self.datagrams.iter();
        sent.filter(|datagram| datagram.ends_with(octets)).count()
    }

    /// Those that the other end didn't hear yet.
    pub fn unheard(&self) -> &[Vec<u8>] {
        self.datagrams.get(self.heard..).unwrap_or(&[])
    }

    /// The other end heard all.
    pub fn note_heard(&mut self) {
        self.heard = self.datagrams.len();
    }

    fn keep(&mut self, octets: &[u8]) -> Result<(), AllocError> {
        let mut datagram = Vec::new(self.alloc);
        datagram.extend_from_slice(octets)?;
        self.datagrams.push(datagram)?;
        Ok(())
    }
}

impl Watch for Outbox {
    // Nothing is proved of it.
    ghost has = { λ _ _ _. Unit {0} };

    fn send(&mut self, octets: &[u8], _to: &Address) {
        let _ = self.keep(octets);
    }

    fn came_up(&mut self) {}

    fn came_in(&mut self, _frame: &[u8], _outcome: &Outcome) {}

    fn dropped(&mut self, _message: &Message<'_>) {}

    fn went_down(&mut self, _why: Loss) {}

    fn failed(&mut self, _why: Loss) {}

    fn went_out(&mut self, _frame: &[u8]) {}
}
