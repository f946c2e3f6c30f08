//! The counters of a node: of each of its links, and of its datagrams.

ghost use Rattle.std.specs.Prelude.{◌≡◌, IfOk, Some, slice_get};
ghost use Rattle.std.specs.Option.{option_copied};
ghost use Rattle.served_link.specs.Counting.{DatagramCame, DatagramWent, StrangerCame, counted_datagram};
ghost use Rattle.served_link.specs.Counting.{Failure, Retry, WasSetBack, WentAgain, came, counted_at, first_counters};
ghost use Rattle.served_link.specs.Counting.{frame_came, frame_went, went};
ghost use Rattle.served_link.specs.Messages.{heard_at, sent_at};
ghost use Rattle.signalling_types.specs.Message.{lent};
ghost use Rattle.trace.specs.Observed.{message_in};

use crate::datagrams::DatagramCounters;
use crate::frame::has_user_message;
use crate::messages::LinkMessages;
use crate::row::LinkCounters;
use crate::setback::Setback;
use signalling_types::{FailureReason, LinkId, MsuRef, Outcome};
use std::alloc::{AllocError, Global};
use std::marker::Model;
use trace::ObservedFrame;

/// The counters of a node since start: of each link, of its messages by kind, and of datagrams. What is counted for a link that isn't there is
/// ignored.
#[derive(Drop)]
pub struct Counters {
    rows: Vec<LinkCounters>,
    datagrams: DatagramCounters,
    messages: Vec<LinkMessages>,
}

impl Model for Counters {
    ghost use Rattle.served_link.specs.Counting.{NodeCounters};

    ghost Value = { NodeCounters };

    ghost view = { λ c. record {
      links = c.rows.items;
      datagrams = c.datagrams;
      messages = c.messages.items;
    } };
}

impl Counters {
    /// The counters of `links` links, all 0. The error means that memory ran out.
    pub fn new(alloc: Global, links: usize) -> Result<Counters, AllocError>
        ensures { IfOk result (λ counters. counters ≡ first_counters links) }
    {
        Ok(Counters {
            rows: vec![in alloc; LinkCounters::new(); links]?,
            datagrams: DatagramCounters::new(),
            messages: vec![in alloc; LinkMessages::new(); links]?,
        })
    }

    /// The counters of a link, if there is one.
    pub fn row(&self, link: LinkId) -> Option<&LinkCounters>
        ensures { option_copied result ≡ slice_get self.now.links link }
    {
        self.rows.get(link.index())
    }

    /// The messages of a link by kind, if there is such a link.
    pub fn messages(&self, link: LinkId) -> Option<&LinkMessages>
        ensures { option_copied result ≡ slice_get self.now.messages link }
    {
        self.messages.get(link.index())
    }

    /// A frame came in on a link, and was handed in with this outcome.
    pub fn count_in(&mut self, link: LinkId, frame: &ObservedFrame<'_>, outcome: &Outcome)
        ensures { self.new ≡ frame_came link frame.now outcome.now self.old }
    {
        self.count_arrival(link, frame, outcome);
        self.count_heard(link, frame);
    }

    /// The frame is counted.
    fn count_arrival(&mut self, link: LinkId, frame: &ObservedFrame<'_>, outcome: &Outcome)
        ensures { self.new ≡ counted_at link (came frame.now outcome.now) self.old }
    {
        if let Some(row) = self.rows.get_mut(link.index()) {
            row.count_in(frame.octets().len(), has_user_message(frame), outcome);
        }
    }

    /// Its message is counted, if it has one.
    fn count_heard(&mut self, link: LinkId, frame: &ObservedFrame<'_>)
        ensures { self.new ≡ record self.old { messages = heard_at link (message_in frame.now) self.old.messages } }
    {
        match frame.message() {
            Some(message) => self.count_message_in(link, message),
            None => {}
        }
    }

    /// A message came in on a link.
    fn count_message_in(&mut self, link: LinkId, message: MsuRef<'_>)
        ensures { self.new ≡ record self.old {
          messages = heard_at link (Some (lent message.entry)) self.old.messages;
        } }
    {
        if let Some(row) = self.messages.get_mut(link.index()) {
            row.heard.count(message);
        }
    }

    /// A frame of these octets went out on a link. They are read once more, for its message.
    pub fn count_out(&mut self, link: LinkId, frame: &[u8])
        ensures { self.new ≡ frame_went link frame.now self.old }
    {
        self.count_departure(link, frame);
        self.count_sent(link, &ObservedFrame::new(frame));
    }

    /// The frame is counted.
    fn count_departure(&mut self, link: LinkId, frame: &[u8])
        ensures { self.new ≡ counted_at link (went frame.now) self.old }
    {
        if let Some(row) = self.rows.get_mut(link.index()) {
            row.count_out(frame.len());
        }
    }

    /// Its message is counted, if it has one.
    fn count_sent(&mut self, link: LinkId, frame: &ObservedFrame<'_>)
        ensures { self.new ≡ record self.old { messages = sent_at link (message_in frame.now) self.old.messages } }
    {
        match frame.message() {
            Some(message) => self.count_message_out(link, message),
            None => {}
        }
    }

    /// A message went out on a link.
    fn count_message_out(&mut self, link: LinkId, message: MsuRef<'_>)
        ensures { self.new ≡ record self.old {
          messages = sent_at link (Some (lent message.entry)) self.old.messages;
        } }
    {
        if let Some(row) = self.messages.get_mut(link.index()) {
            row.sent.count(message);
        }
    }

    /// A link failed for this reason.
    pub fn count_failure(&mut self, link: LinkId, reason: FailureReason)
        ensures { self.new ≡ counted_at link (Failure reason) self.old }
    {
        if let Some(row) = self.rows.get_mut(link.index()) {
            row.count_failure(reason);
        }
    }

    /// The connection of a link was tried again.
    pub fn count_retry(&mut self, link: LinkId)
        ensures { self.new ≡ counted_at link Retry self.old }
    {
        if let Some(row) = self.rows.get_mut(link.index()) {
            row.count_retry();
        }
    }

    /// The association of a link over SCTP didn't open.
    pub fn count_setback(&mut self, link: LinkId, setback: Setback)
        ensures { self.new ≡ counted_at link (WasSetBack setback) self.old }
    {
        if let Some(row) = self.rows.get_mut(link.index()) {
            row.count_setback(setback);
        }
    }

    /// The association of a link over SCTP sent this many chunks again.
    pub fn count_retransmissions(&mut self, link: LinkId, chunks: u64)
        ensures { self.new ≡ counted_at link (WentAgain chunks) self.old }
    {
        if let Some(row) = self.rows.get_mut(link.index()) {
            row.count_retransmissions(chunks);
        }
    }

    /// The counters of datagrams.
    pub fn datagrams(&self) -> &DatagramCounters
        ensures { result.now ≡ self.now.datagrams }
    {
        &self.datagrams
    }

    /// A datagram of a link came.
    pub fn count_datagram_in(&mut self)
        ensures { self.new ≡ counted_datagram DatagramCame self.old }
    {
        self.datagrams.incoming = self.datagrams.incoming.saturating_add(1);
    }

    /// A datagram of a link went out.
    pub fn count_datagram_out(&mut self)
        ensures { self.new ≡ counted_datagram DatagramWent self.old }
    {
        self.datagrams.outgoing = self.datagrams.outgoing.saturating_add(1);
    }

    /// A datagram came that belongs to no link.
    pub fn count_stranger(&mut self)
        ensures { self.new ≡ counted_datagram StrangerCame self.old }
    {
        self.datagrams.strangers = self.datagrams.strangers.saturating_add(1);
    }
}
