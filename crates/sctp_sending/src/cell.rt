//! A cell, which holds one message on its way.

ghost use Rattle.std.specs.Prelude.{◌≡◌, ◌≤◌, length};
ghost use Rattle.sctp_sending.specs.Outgoing.{
  new_outgoing,
  no_message,
  octets_of,
  under_way_of,
  newly_confirmed_of,
  gone_out,
  named_or_not,
  passed_over,
  timed_out,
};
ghost use Rattle.sctp_sending.specs.Cells.{given_as};

use crate::message::Message;
use std::marker::Model;

/// Octets of a message that is sent, at most.
pub const MESSAGE_OCTETS: usize = 290;

/// How often a message is passed over until it is lost.
const MOST_MISSING: u8 = 3;

/// A message on its way, in place.
#[derive(Drop)]
pub struct Cell {
    octets: [u8; MESSAGE_OCTETS],
    len: u16,
    stream: u16,
    sequence: u16,
    protocol: u32,
    again: bool,
    missing: u8,
    named: bool,
    lost: bool,
}

impl Model for Cell {
    ghost use Rattle.sctp_sending.specs.Outgoing.{Outgoing};

    ghost Value = { Outgoing };

    ghost use Rattle.sctp_sending.specs.InPlace.{outgoing_in, IsInPlace};

    ghost view = { outgoing_in };

    ghost invariant = { IsInPlace };
}

impl Cell {
    /// A cell without octets.
    pub fn empty() -> Cell
        ensures { result ≡ new_outgoing no_message 0 }
    {
        Cell {
            octets: [0; MESSAGE_OCTETS],
            len: 0,
            stream: 0,
            sequence: 0,
            protocol: 0,
            again: false,
            missing: 0,
            named: false,
            lost: false,
        }
    }

    /// Becomes a message that didn't go out yet, with this number on its stream.
    pub fn refill(&mut self, message: Message<'_>, sequence: u16)
        requires { length message.octets.now ≤ 290 }
        ensures { self.new ≡ new_outgoing (given_as message.entry) sequence }
    {
        let count = message.octets.len();
        self.octets[..count].copy_from_slice(message.octets);
        self.len = count as u16;
        self.stream = message.stream;
        self.sequence = sequence;
        self.protocol = message.protocol;
        self.again = false;
        self.missing = 0;
        self.named = false;
        self.lost = false;
    }

    /// The message.
    pub fn message(&self) -> Message<'_>
        ensures message { given_as result ≡ self.now.message }
        ensures most { length result.octets.now ≤ 290 }
    {
        Message {
            stream: self.stream,
            protocol: self.protocol,
            octets: &self.octets[..self.len as usize],
        }
    }

    /// The message's number on its stream.
    pub fn sequence(&self) -> u16
        ensures { result ≡ self.now.sequence }
    {
        self.sequence
    }

    /// How many octets the message has.
    pub fn octets(&self) -> u32
        ensures octets { result ≡ octets_of self.now }
        ensures most { octets_of self.now ≤ 290 }
    {
        u32::from(self.len)
    }

    /// Whether the peer's last SACK named it.
    pub fn is_named(&self) -> bool
        ensures { result ≡ self.now.named }
    {
        self.named
    }

    /// Whether it is to go out again.
    pub fn is_lost(&self) -> bool
        ensures { result ≡ self.now.lost }
    {
        self.lost
    }

    /// How many of its octets count as under way, if it went out.
    pub fn under_way(&self) -> u32
        ensures octets { result ≡ under_way_of self.now }
        ensures most { under_way_of self.now ≤ 290 }
    {
        if self.named || self.lost {
            0
        } else {
            u32::from(self.len)
        }
    }

    /// How many octets its confirmation adds.
    pub fn newly_confirmed(&self) -> u32
        ensures octets { result ≡ newly_confirmed_of self.now }
        ensures most { newly_confirmed_of self.now ≤ 290 }
    {
        if self.named { 0 } else { u32::from(self.len) }
    }

    /// It goes out, for the first time or again.
    pub fn go_out(&mut self, again: bool)
        ensures { self.new ≡ gone_out again self.old }
    {
        self.again = again;
        self.missing = 0;
        self.lost = false;
    }

    /// A SACK names it or doesn't.
    pub fn name(&mut self, named: bool)
        ensures { self.new ≡ named_or_not named self.old }
    {
        self.named = named;
        self.lost = self.lost && !named;
    }

    /// A message after it was named for the first time.
    pub fn pass_over(&mut self)
        ensures { self.new ≡ passed_over self.old }
    {
        if self.named || self.lost {
            return;
        }
        self.lost = self.missing + 1 >= MOST_MISSING && !self.again;
        self.missing = (self.missing + 1).min(MOST_MISSING);
    }

    /// T3 ran out.
    pub fn time_out(&mut self)
        ensures { self.new ≡ timed_out self.old }
    {
        self.lost = !self.named;
    }
}
