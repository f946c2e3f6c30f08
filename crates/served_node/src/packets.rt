//! What passes on links over SCTP: the capture has their packets as they are on the wire.

ghost use Rattle.std.specs.Prelude.{◌≡◌};
ghost use Rattle.served_link.specs.Counting.{DatagramCame, DatagramWent, StrangerCame, counted_datagram};
ghost use Rattle.served_link.specs.Counting.{WasSetBack, WentAgain, counted_at, frame_came, frame_went};

use crate::observers::{Observers, make_room};
use served_link::Setback;
use settings::{LinkId, Outcome};
use trace::{Direction, ObservedFrame, RECORD_HEADER_OCTETS};

impl Observers {
    /// A datagram of a link came: it is counted, and the capture has it if it has the link.
    pub fn datagram_came(&mut self, link: LinkId, octets: &[u8])
        ensures { self.new.counters ≡ counted_datagram DatagramCame self.old.counters }
    {
        self.counters.count_datagram_in();
        self.capture_packet(link, octets);
    }

    /// A datagram of a link goes out: it is counted, and the capture has it if it has the link.
    pub fn datagram_went(&mut self, link: LinkId, octets: &[u8])
        ensures { self.new.counters ≡ counted_datagram DatagramWent self.old.counters }
    {
        self.counters.count_datagram_out();
        self.capture_packet(link, octets);
    }

    /// A datagram came that belongs to no link: it is counted.
    pub fn stranger_came(&mut self)
        ensures { self.new.counters ≡ counted_datagram StrangerCame self.old.counters }
    {
        self.counters.count_stranger();
    }

    /// The association of a link over SCTP didn't open: it is counted.
    pub fn was_set_back(&mut self, link: LinkId, setback: Setback)
        ensures { self.new.counters ≡ counted_at link (WasSetBack setback) self.old.counters }
    {
        self.counters.count_setback(link, setback);
    }

    /// The association of a link over SCTP sent this many chunks again: they are counted.
    pub fn went_again(&mut self, link: LinkId, chunks: u64)
        ensures { self.new.counters ≡ counted_at link (WentAgain chunks) self.old.counters }
    {
        self.counters.count_retransmissions(link, chunks);
    }

    /// A message came in as a frame and was handed in, with this outcome. It is counted, and the clients that asked for
    /// frames or messages are told.
    pub fn message_came_in(&mut self, link: LinkId, frame: &ObservedFrame<'_>, outcome: &Outcome)
        ensures { self.new.counters ≡ frame_came link frame.now outcome.now self.old.counters }
    {
        self.counters.count_in(link, frame, outcome);
        self.show_frame(link, Direction::In, frame);
        if *outcome == Outcome::Local {
            self.delivered(link, frame);
        }
    }

    /// A frame was taken to go out as a message: it is counted, and clients that watch frames are told.
    pub fn message_went_out(&mut self, link: LinkId, frame: &[u8])
        ensures { self.new.counters ≡ frame_went link frame.now self.old.counters }
    {
        self.counters.count_out(link, frame);
        if self.clients.asked.frames {
            self.show_frame(link, Direction::Out, &ObservedFrame::new(frame));
        }
    }

    /// The capture has a packet of a link that it has, if it has room for it. Otherwise the packet is counted as missed.
    fn capture_packet(&mut self, link: LinkId, octets: &[u8])
        ensures { self.new.counters ≡ self.old.counters }
    {
        let Some(capture) = &mut self.capture else {
            return;
        };
        if !self.captured.has(link) {
            return;
        }
        let needed = octets.len().saturating_add(RECORD_HEADER_OCTETS);
        make_room(capture, needed);
        if capture.output().writer().has_room(needed) {
            capture.write_packet(self.now, octets);
        } else {
            self.missed_frames = self.missed_frames.saturating_add(1);
        }
    }
}
