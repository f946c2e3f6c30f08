//! All that a gate ever put out.

ghost use Rattle.std.specs.Prelude.{◌≡◌, [], ◌∷◌, ◌++◌, true, false, OnOk, OnErr};
ghost use Rattle.sctp_bundling.specs.Settings.{address_of};
ghost use Rattle.node_world.specs.Kept.{HasSent};

use sctp_endpoint::Address;
use sctp_gate::Watch;
use sctp_rules::Loss;
use sctp_sending::Message;
use settings::Outcome;
use std::alloc::{AllocError, Global};
use std::marker::Model;

/// A datagram that was put out.
#[derive(Drop)]
pub struct Datagram {
    octets: Vec<u8>,
    to: Address,
}

impl Model for Datagram {
    ghost use Rattle.sctp_bundling.specs.Settings.{address_of};
    ghost use Rattle.sctp_bundling.specs.Watching.{Sent};

    ghost Value = { Sent };

    ghost view = { λ datagram. record { octets = datagram.octets.items; to = address_of datagram.to } };
}

impl Datagram {
    /// Its octets.
    pub fn octets(&self) -> &[u8]
        ensures { result.now ≡ self.now.octets }
    {
        self.octets.as_slice()
    }
}

/// The datagrams that a gate put out, in order. If memory runs out for one, it isn't kept, as if the network had lost
/// it.
#[derive(Drop)]
pub(crate) struct Log {
    alloc: Global,
    is_whole: bool,
    sent: Vec<Datagram>,
}

impl Model for Log {
    ghost use Rattle.node_world.specs.Kept.{KeptLog};

    ghost Value = { KeptLog };

    ghost view = { λ log. record { sent = log.sent.items; is_whole = log.is_whole } };
}

impl Log {
    /// Nothing was put out.
    pub(crate) fn new(alloc: Global) -> Log
        ensures { result ≡ record { sent = []; is_whole = true } }
    {
        Log {
            alloc,
            is_whole: true,
            sent: Vec::new(alloc),
        }
    }

    pub(crate) fn sent(&self) -> &[Datagram]
        ensures { result.now ≡ self.now.sent }
    {
        self.sent.as_slice()
    }

    /// Whether all are there: memory never ran out for one.
    pub(crate) fn is_whole(&self) -> bool
        ensures { result ≡ self.now.is_whole }
    {
        self.is_whole
    }

    /// Keeps a datagram.
    fn keep(&mut self, octets: &[u8], to: &Address) -> Result<(), AllocError>
        ensures kept { OnOk result (self.new ≡ record self.old {
          sent = self.old.sent ++ record { octets = octets.now; to = address_of to.now } ∷ [];
        }) }
        ensures unchanged { OnErr result (self.new ≡ self.old) }
    {
        let mut copy = Vec::new(self.alloc);
        copy.extend_from_slice(octets)?;
        self.sent.push(Datagram {
            octets: copy,
            to: *to,
        })?;
        Ok(())
    }

    /// Memory ran out.
    fn lose(&mut self)
        ensures { self.new ≡ record self.old { is_whole = false } }
    {
        self.is_whole = false;
    }
}

impl Watch for Log {
    ghost has = { HasSent };

    fn send(&mut self, octets: &[u8], to: &Address) {
        if self.keep(octets, to).is_err() {
            self.lose();
        }
    }

    fn came_up(&mut self) {}

    fn came_in(&mut self, _frame: &[u8], _outcome: &Outcome) {}

    fn dropped(&mut self, _message: &Message<'_>) {}

    fn went_down(&mut self, _why: Loss) {}

    fn failed(&mut self, _why: Loss) {}

    fn went_out(&mut self, _frame: &[u8]) {}
}
