//! The line of the log for what was refused of a link: at most one a second.

ghost use Rattle.std.specs.Prelude.{◌≡◌};
ghost use Rattle.sctp_links.specs.Refusals.{after_line, first_refusals, is_due, with_refusal};

use served_link::Setback;
use std::net::SocketAddr;

/// The shortest time between two lines of a link, in milliseconds.
pub const LINE_MS: u64 = 1_000;

/// INITs and INIT ACKs of a link that were refused since its last line.
#[derive(Clone, Copy)]
pub struct Refusals {
    /// How many there are.
    pub count: u64,
    /// Where the last of them came from.
    pub source: SocketAddr,
    /// Why that was refused.
    pub why: Setback,
    /// From when on there may be a line, in milliseconds since the start.
    pub next: u64,
}

impl Refusals {
    /// There is none yet, of a peer at this address.
    pub fn new(address: SocketAddr) -> Refusals
        ensures { result ≡ first_refusals address }
    {
        Refusals {
            count: 0,
            source: address,
            why: Setback::Unwanted,
            next: 0,
        }
    }

    /// One more came from this address, and was refused.
    pub fn add(&mut self, source: SocketAddr, why: Setback)
        ensures { self.new ≡ with_refusal source why self.old }
    {
        self.count = self.count.saturating_add(1);
        self.source = source;
        self.why = why;
    }

    /// Whether their line is due: there are some, and the last line is a second old.
    pub fn is_due(&self, now: u64) -> bool
        ensures { result ≡ is_due now self.now }
    {
        self.count > 0 && self.next <= now
    }

    /// Their line is written.
    pub fn clear(&mut self, now: u64)
        ensures { self.new ≡ after_line now self.old }
    {
        self.count = 0;
        self.next = now.saturating_add(LINE_MS);
    }
}
