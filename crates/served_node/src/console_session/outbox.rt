//! What waits to be written to a client.

ghost use Rattle.std.specs.Prelude.{◌≡◌, ◌+◌, ◌<◌, ◌≤◌, [], drop, length, IsErr, OnOk, OnErr, Some};
ghost use Rattle.std.specs.Io.KnownBytes.{Appends};
ghost use Rattle.script.specs.Streams.{AppendsFirst, failures_after};

use script::{Sink, WriteFailed};
use std::alloc::Global;
use std::marker::Model;

/// Octets that wait for one client, at most. The longest answer, the settings of the largest node, fits in it: 65,535
/// translation rows of 243 octets, 4,096 destinations of 460, and less than a million octets besides.
pub const OUTBOX_OCTETS: usize = 20_971_520;

/// Octets that are to be written to a client. A write for which there is no room fails, and nothing of it is kept.
#[derive(Drop)]
pub struct Outbox {
    octets: Vec<u8>,
    failures: u64,
}

impl Model for Outbox {
    ghost use Rattle.std.specs.Prelude.{◌≤◌, length};
    ghost use Rattle.served_node.specs.Answers.{Waiting};
    ghost use Rattle.served_node.specs.declared.console_session.outbox.TheConstants.{OUTBOX_OCTETS};

    ghost Value = { Waiting };

    ghost view = { λ o. record { octets = o.octets.items; failures = o.failures } };

    ghost invariant = { λ o. length o.octets.items ≤ OUTBOX_OCTETS };
}

impl Outbox {
    /// An empty one.
    pub fn new(alloc: Global) -> Outbox
        ensures { result ≡ record { octets = []; failures = 0 } }
    {
        Outbox {
            octets: Vec::new(alloc),
            failures: 0,
        }
    }

    /// What waits, in the order in which it came.
    pub fn pending(&self) -> &[u8]
        ensures octets { result.now ≡ self.now.octets }
        ensures bounded { length result.now ≤ OUTBOX_OCTETS }
    {
        self.octets.as_slice()
    }

    /// The first `count` of them were written.
    pub fn written(&mut self, count: usize)
        requires { count ≤ length self.old.octets }
        ensures { self.new ≡ record self.old { octets = drop count self.old.octets } }
    {
        self.octets.drain(..count);
    }
}

impl Sink for Outbox {
    ghost output = { λ o. record { written = Some o.octets; failures = o.failures } };

    fn write(&mut self, octets: &[u8]) -> Result<(), WriteFailed>
        ensures all { OnOk result (Appends (Some self.old.octets) (Some self.new.octets) octets.now) }
        ensures first { OnErr result (AppendsFirst (Some self.old.octets) (Some self.new.octets) octets.now) }
        ensures counted { self.new.failures ≡ failures_after self.old.failures result }
        ensures none { OnErr result (self.new.octets ≡ self.old.octets) }
        ensures full { OUTBOX_OCTETS < length self.old.octets + length octets.now → IsErr result }
    {
        let is_full = self.octets.len().saturating_add(octets.len()) > OUTBOX_OCTETS;
        if is_full || self.octets.extend_from_slice(octets).is_err() {
            self.failures = self.failures.saturating_add(1);
            return Err(WriteFailed);
        }
        Ok(())
    }
}
