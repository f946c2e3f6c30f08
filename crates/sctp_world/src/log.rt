//! All that an endpoint ever put out and told.

ghost use Rattle.std.specs.Prelude.{◌≡◌, [], ◌∷◌, ◌++◌, true, false, IfOk, OnOk};
ghost use Rattle.sctp_bundling.specs.Settings.{address_of};
ghost use Rattle.sctp_bundling.specs.Watching.{told_of};
ghost use Rattle.sctp_world.specs.Kept.{told_by_entry, HasAll};

use crate::text::Text;
use sctp_endpoint::{Address, Event, Watch};
use sctp_rules::Loss;
use std::alloc::{AllocError, Global};
use std::marker::Model;

/// A datagram that was put out.
#[derive(Drop)]
pub struct Datagram {
    octets: Vec<u8>,
    to: Address,
}

impl Model for Datagram {
    ghost use Rattle.sctp_bundling.specs.Settings.{address_of};
    ghost use Rattle.sctp_bundling.specs.Watching.{Sent};

    ghost Value = { Sent };

    ghost view = { λ datagram. record { octets = datagram.octets.items; to = address_of datagram.to } };
}

/// What the user was told.
#[derive(Drop)]
pub enum Entry {
    /// The association is there.
    Up,
    /// A message of the peer.
    Heard(Text),
    /// The association is over.
    Down(Loss),
    /// No association came to be.
    Failed(Loss),
}

/// What the user was told, as it is kept.
#[derive(Drop)]
pub struct Kept {
    what: Entry,
}

impl Kept {
    /// What it was.
    pub fn what(&self) -> &Entry
        ensures { told_by_entry result.now ≡ self.now }
    {
        &self.what
    }
}

impl Datagram {
    /// Its octets.
    pub fn octets(&self) -> &[u8]
        ensures { result.now ≡ self.now.octets }
    {
        self.octets.as_slice()
    }
}

impl Model for Kept {
    ghost use Rattle.sctp_rules.specs.State.{Told};
    ghost use Rattle.sctp_world.specs.Kept.{told_by_entry};

    ghost Value = { Told };

    ghost view = { λ kept. told_by_entry kept.what };
}

/// All datagrams that an endpoint ever put out, and all that its user was told, in order. Once memory ran out for one
/// of them, it is no longer whole.
#[derive(Drop)]
pub struct Log {
    alloc: Global,
    is_whole: bool,
    sent: Vec<Datagram>,
    told: Vec<Kept>,
}

impl Model for Log {
    ghost use Rattle.sctp_world.specs.Kept.{KeptLog};

    ghost Value = { KeptLog };

    ghost view = { λ log. record { sent = log.sent.items; told = log.told.items; is_whole = log.is_whole } };
}

impl Log {
    /// Nothing was put out, and nothing told.
    pub fn new(alloc: Global) -> Log
        ensures { result ≡ record { sent = []; told = []; is_whole = true } }
    {
        Log {
            alloc,
            is_whole: true,
            sent: Vec::new(alloc),
            told: Vec::new(alloc),
        }
    }

    /// All datagrams.
    pub fn sent(&self) -> &[Datagram]
        ensures { result.now ≡ self.now.sent }
    {
        self.sent.as_slice()
    }

    /// All that was told.
    pub fn told(&self) -> &[Kept]
        ensures { result.now ≡ self.now.told }
    {
        self.told.as_slice()
    }

    /// Memory for more.
    pub fn alloc(&self) -> Global {
        self.alloc
    }

    /// Whether all of it is there: memory never ran out.
    pub fn is_whole(&self) -> bool
        ensures { result ≡ self.now.is_whole }
    {
        self.is_whole
    }

    /// Memory ran out.
    pub fn lose(&mut self)
        ensures { self.new ≡ record self.old { is_whole = false } }
    {
        self.is_whole = false;
    }

    /// Keeps a datagram.
    fn keep(&mut self, octets: &[u8], to: &Address) -> Result<(), AllocError>
        ensures { OnOk result (self.new ≡ record self.old {
          sent = self.old.sent ++ record { octets = octets.now; to = address_of to.now } ∷ [];
        }) }
    {
        let mut copy = Vec::new(self.alloc);
        copy.extend_from_slice(octets)?;
        self.sent.push(Datagram {
            octets: copy,
            to: *to,
        })?;
        Ok(())
    }

    /// Keeps what is told.
    fn note(&mut self, event: &Event<'_>) -> Result<(), AllocError>
        ensures { OnOk result (self.new ≡ record self.old { told = self.old.told ++ told_of event.now ∷ [] }) }
    {
        let what = entry_of(self.alloc, event)?;
        self.told.push(Kept { what })?;
        Ok(())
    }
}

/// What is told, with octets of its own.
fn entry_of(alloc: Global, event: &Event<'_>) -> Result<Entry, AllocError>
    ensures { IfOk result (λ what. told_by_entry what ≡ told_of event.now) }
{
    match event {
        Event::Up => Ok(Entry::Up),
        Event::Heard(message) => {
            let text = Text::new(alloc, message.stream, message.protocol, message.octets)?;
            Ok(Entry::Heard(text))
        }
        Event::Down(why) => Ok(Entry::Down(*why)),
        Event::Failed(why) => Ok(Entry::Failed(*why)),
    }
}

impl Watch for Log {
    ghost has = { HasAll };

    fn send(&mut self, octets: &[u8], to: &Address) {
        if self.keep(octets, to).is_err() {
            self.lose();
        }
    }

    fn tell(&mut self, event: &Event<'_>) {
        if self.note(event).is_err() {
            self.lose();
        }
    }
}
