//! A capture of the frames and packets that pass, packet by packet.

ghost use Rattle.std.specs.Prelude.{◌≡◌, ◌<◌, ◌≤◌, ◌∷◌, ◌++◌, [], ℕ, List, Option, true, false, length, take};
ghost use Rattle.std.specs.Io.KnownBytes.{Appends, Keeps};
ghost use Rattle.trace.specs.Packets.{file_header};
ghost use Rattle.trace.specs.Captures.{AppendsPart, Captures, Passed, FramePassed, PacketPassed, packet_behind};
ghost use Rattle.trace.specs.Captures.{wire_packet};

use crate::capture::{PACKET_OCTETS, WIRE_OCTETS, file_header, packet, record_header};
use crate::capture_output::CaptureOutput;
use crate::direction::Direction;
use crate::observed_frame::ObservedFrame;
use crate::packet_numbers::PacketNumbers;
use signalling_types::{Limits, LinkId};
use std::marker::Model;
use std::time::Duration;

/// A capture of what passes on the links of a node: frames over TCP, each made into a packet of SCTP, and the packets
/// of SCTP as they are on the wire. A write that fails ends it.
#[derive(Drop)]
pub struct Capture<O> {
    output: O,
    started: Duration,
    numbers: PacketNumbers,
}

impl<O> Model for Capture<O> {
    ghost use Rattle.trace.specs.Captures.{CaptureOf};

    ghost Value = { CaptureOf O };

    ghost view = { λ c. record { output = c.output; started = c.started; numbers = c.numbers } };
}

impl<O: CaptureOutput> Capture<O> {
    /// A capture that goes to this output, after what it has. The node started this long after 1970.
    ///
    /// The header of the file is written and flushed. If that fails, the capture has failed.
    pub fn begin(mut output: O, started: Duration) -> Capture<O>
        ensures begun { O.failed result.output ≡ false → Captures O.written (O.written output) result [] }
        // Nothing but the header is written, or the first octets of it.
        ensures front { (count : ℕ) × Appends (O.written output) (O.written result.output) (take count file_header) }
        ensures started { result.started ≡ started }
    {
        output.write(&file_header());
        output.flush();
        Capture {
            output,
            started,
            numbers: PacketNumbers::new(),
        }
    }

    /// What it is written to, as it is now.
    pub fn output(&self) -> &O
        ensures { result.now ≡ self.now.output }
    {
        &self.output
    }

    /// What it is written to.
    pub fn into_output(self) -> O
        ensures { result ≡ self.output }
    {
        let Capture { output, .. } = self;
        output
    }

    /// Whether a write or a flush failed.
    pub fn has_failed(&self) -> bool
        ensures { result ≡ O.failed self.now.output }
    {
        self.output.has_failed()
    }

    /// Writes the packet of a frame that passed on a link this long after the node's start. If that fails, no more is
    /// written. A frame with more octets than any frame has is left out.
    #[inline(never)]
    pub fn write(
        &mut self,
        now: Duration,
        link: LinkId,
        direction: Direction,
        frame: &ObservedFrame<'_>,
    )
        ensures captured { (before : Option (List ℕ)) (passed : List Passed) → Captures O.written before self.old passed
            → length frame.now ≤ Limits.FRAME_OCTETS → O.failed self.new.output ≡ false
            → Captures O.written before self.new
            (passed ++ FramePassed (record {
              time = now;
              link = link;
              direction = direction;
              frame = frame.now;
            }) ∷ []) }
        // A write that fails writes the first octets of the packet, but not all.
        ensures part { (before : Option (List ℕ)) (passed : List Passed) → Captures O.written before self.old passed
            → O.failed self.old.output ≡ false → O.failed self.new.output ≡ true
            → AppendsPart (O.written self.old.output) (O.written self.new.output) (packet_behind self.old.started passed
            (record { time = now; link = link; direction = direction; frame = frame.now })) }
        ensures started { self.new.started ≡ self.old.started }
        ensures ended { O.failed self.old.output ≡ true → self.new ≡ self.old }
        ensures too_long { Limits.FRAME_OCTETS < length frame.now → self.new ≡ self.old }
    {
        if self.output.has_failed() || frame.octets().len() > Limits::FRAME_OCTETS {
            return;
        }
        let number = self.numbers.take(link, direction);
        let time = self.started.saturating_add(now);
        let mut buffer = [0; PACKET_OCTETS];
        let count = packet(&mut buffer, time, link, direction, number, frame);
        self.output.write(&buffer[..count]);
    }

    /// Writes a packet of SCTP that passed this long after the node's start, as it was on the wire. If that fails, no
    /// more is written. One of more than 65,535 octets is left out.
    #[inline(never)]
    pub fn write_packet(&mut self, now: Duration, packet: &[u8])
        ensures captured { (before : Option (List ℕ)) (passed : List Passed) → Captures O.written before self.old passed
            → length packet.now ≤ WIRE_OCTETS → O.failed self.new.output ≡ false
            → Captures O.written before self.new (passed ++ PacketPassed now packet.now ∷ []) }
        // A write that fails writes the first octets of the packet, but not all.
        ensures part { O.failed self.old.output ≡ false → O.failed self.new.output ≡ true
            → AppendsPart (O.written self.old.output) (O.written self.new.output)
            (wire_packet self.old.started now packet.now) }
        ensures started { self.new.started ≡ self.old.started }
        ensures ended { O.failed self.old.output ≡ true → self.new ≡ self.old }
        ensures too_long { WIRE_OCTETS < length packet.now → self.new ≡ self.old }
    {
        if self.output.has_failed() || packet.len() > WIRE_OCTETS {
            return;
        }
        let time = self.started.saturating_add(now);
        self.output.write(&record_header(time, packet.len() as u32));
        self.output.write(packet);
    }

    /// Flushes what was written. If that fails, the capture has failed.
    pub fn flush(&mut self)
        ensures octets { Keeps (O.written self.old.output) (O.written self.new.output) }
        ensures captured { (before : Option (List ℕ)) (passed : List Passed) → Captures O.written before self.old passed
            → Captures O.written before self.new passed }
        ensures started { self.new.started ≡ self.old.started }
        ensures ended { O.failed self.old.output ≡ true → self.new ≡ self.old }
    {
        self.output.flush();
    }
}
