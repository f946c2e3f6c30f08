//! Frames in words.

ghost use Rattle.std.specs.Prelude.{◌≡◌, ◌+◌, ◌*◌, ◌≤◌, ◌++◌, [], length, decimal};
ghost use Rattle.m2pa_codec.specs.Frames.{sif_of, read_frame};
ghost use Rattle.m2pa_codec.specs.Values.{value_of};
ghost use Rattle.settings.specs.Points.{point_text};
ghost use Rattle.signalling_types.specs.Message.{lent};
ghost use Rattle.trace.specs.Words.{frame_words, numbers_words, status_word, message_words, label_words, said_words, value_words, service_words, octets_words};

use crate::direction::Direction;
use crate::observed_frame::ObservedFrame;
use arrayvec::ArrayVec;
use itoa::Buffer;
use m2pa_codec::{Frame, LinkStatus};
use mtp3_codec::Label;
use settings::{PointFormat, point_text};
use signalling_types::{Limits, MsuRef, Number24, PointCode};
use std::marker::Model;

/// Octets of a frame in words, at most: two digits for each of its octets, and the words before them.
pub const WORDS_OCTETS: usize = 2 * Limits::FRAME_OCTETS + 208;

/// A frame in words, in place.
#[derive(Drop)]
pub struct FrameWords {
    octets: ArrayVec<u8, WORDS_OCTETS>,
}

impl Model for FrameWords {
    ghost use Rattle.std.specs.Prelude.{List, ℕ};

    ghost Value = { List ℕ };

    ghost view = { λ w. w.octets.items };
}

/// A frame that passed on the link of this name, in words, without a line feed: `e0 in fsn 5 bsn 9 opc 2 dpc 300 sls 5
/// si 5 aabb`.
///
/// A message is shown as the points and the selection of its label, its service indicator, and the octets after the
/// label; one without a whole label as `no label`, its service indicator and all its octets. Link Status ends in
/// `status` and its state, and User Data without a message in `ack`. Octets that are no frame are shown as `malformed`
/// and the octets.
pub fn frame_words(
    link: &str,
    direction: Direction,
    frame: &ObservedFrame<'_>,
    points: PointFormat,
) -> FrameWords
    requires name { length link.now ≤ Limits.NAME_OCTETS }
    requires octets { length frame.now ≤ Limits.FRAME_OCTETS }
    ensures { result ≡ frame_words link.now direction points frame.now }
{
    let mut words = FrameWords::new();
    words.push(link.as_bytes());
    words.push(b" ");
    words.push(direction.word().as_bytes());
    words.push_said(frame, points);
    words
}

impl FrameWords {
    /// The octets of the words, without a line feed.
    pub fn as_slice(&self) -> &[u8]
        ensures { result.now ≡ self.now }
    {
        self.octets.as_slice()
    }

    /// Nothing yet.
    fn new() -> FrameWords
        ensures { result ≡ [] }
    {
        FrameWords {
            octets: ArrayVec::new(),
        }
    }

    /// Appends octets.
    fn push(&mut self, octets: &[u8])
        requires { length self.old + length octets.now ≤ WORDS_OCTETS }
        ensures { self.new ≡ self.old ++ octets.now }
    {
        let _fits = self.octets.try_extend_from_slice(octets);
    }

    /// Appends a word and a number in decimal digits.
    fn push_number(&mut self, word: &[u8], number: u32)
        requires { length self.old + length word.now + 10 ≤ WORDS_OCTETS }
        ensures text { self.new ≡ self.old ++ word.now ++ decimal number }
        ensures short { length self.new ≤ length self.old + length word.now + 10 }
    {
        let mut buffer = Buffer::new();
        self.push(word);
        self.push(buffer.format(number).as_bytes());
    }

    /// Appends a word and a point.
    fn push_point(&mut self, word: &[u8], point: PointCode, points: PointFormat)
        requires { length self.old + length word.now + 7 ≤ WORDS_OCTETS }
        ensures text { self.new ≡ self.old ++ word.now ++ point_text points point }
        ensures short { length self.new ≤ length self.old + length word.now + 7 }
    {
        self.push(word);
        self.push(point_text(point, points).as_bytes());
    }

    /// Appends what octets say as a frame, or that they are none.
    fn push_said(&mut self, frame: &ObservedFrame<'_>, points: PointFormat)
        requires few { length frame.now ≤ Limits.FRAME_OCTETS }
        requires room { length self.old + 120 + 2 * length frame.now ≤ WORDS_OCTETS }
        ensures { self.new ≡ self.old ++ said_words points frame.now (read_frame frame.now) }
    {
        match &frame.said {
            Ok(said) => self.push_frame(said, points),
            Err(_) => {
                self.push(b" malformed");
                self.push_octets(frame.octets);
            }
        }
    }

    /// Appends what a frame says.
    fn push_frame(&mut self, frame: &Frame<'_>, points: PointFormat)
        requires few { length (sif_of (value_of frame.now)) ≤ Limits.FRAME_OCTETS }
        requires room { length self.old + 120 + 2 * length (sif_of (value_of frame.now)) ≤ WORDS_OCTETS }
        ensures { self.new ≡ self.old ++ value_words points (value_of frame.now) }
    {
        match frame {
            Frame::Empty { bsn, fsn } => {
                self.push_numbers(*fsn, *bsn);
                self.push(b" ack");
            }
            Frame::Message { bsn, fsn, sio, sif } => {
                self.push_numbers(*fsn, *bsn);
                self.push_message(MsuRef { sio: *sio, sif }, points);
            }
            Frame::Status { bsn, fsn, status } => {
                self.push_numbers(*fsn, *bsn);
                self.push(b" status ");
                self.push(status_word(*status).as_bytes());
            }
        }
    }

    /// Appends the numbers of a frame.
    fn push_numbers(&mut self, fsn: Number24, bsn: Number24)
        requires { length self.old + 30 ≤ WORDS_OCTETS }
        ensures text { self.new ≡ self.old ++ numbers_words fsn bsn }
        ensures short { length self.new ≤ length self.old + 30 }
    {
        self.push_number(b" fsn ", fsn.value());
        self.push_number(b" bsn ", bsn.value());
    }

    /// Appends a message.
    fn push_message(&mut self, message: MsuRef<'_>, points: PointFormat)
        requires few { length message.sif.now ≤ Limits.FRAME_OCTETS }
        requires room { length self.old + 80 + 2 * length message.sif.now ≤ WORDS_OCTETS }
        ensures { self.new ≡ self.old ++ message_words points (lent message.entry) }
    {
        match Label::read(message.sif) {
            Some(label) => {
                self.push_label(label, points);
                self.push_service(message);
                self.push_octets(&message.sif[4..]);
            }
            None => {
                self.push(b" no label");
                self.push_service(message);
                self.push_octets(message.sif);
            }
        }
    }

    /// Appends a routing label.
    fn push_label(&mut self, label: Label, points: PointFormat)
        requires { length self.old + 39 ≤ WORDS_OCTETS }
        ensures text { self.new ≡ self.old ++ label_words points label }
        ensures short { length self.new ≤ length self.old + 39 }
    {
        self.push_point(b" opc ", label.opc, points);
        self.push_point(b" dpc ", label.dpc, points);
        self.push_number(b" sls ", u32::from(label.sls.number()));
    }

    /// Appends the service indicator of a message.
    fn push_service(&mut self, message: MsuRef<'_>)
        requires { length self.old + 14 ≤ WORDS_OCTETS }
        ensures text { self.new ≡ self.old ++ service_words (lent message.entry) }
        ensures short { length self.new ≤ length self.old + 14 }
    {
        self.push_number(b" si ", u32::from(message.service_indicator()));
    }

    /// Appends octets in two hexadecimal digits each, after a space; nothing if there are none.
    fn push_octets(&mut self, octets: &[u8])
        requires few { length octets.now ≤ Limits.FRAME_OCTETS }
        requires room { length self.old + 1 + 2 * length octets.now ≤ WORDS_OCTETS }
        ensures { self.new ≡ self.old ++ octets_words octets.now }
    {
        if octets.is_empty() {
            return;
        }
        let mut digits = [0; 2 * Limits::FRAME_OCTETS];
        let digits = &mut digits[..2 * octets.len()];
        let _fits = hex::encode_to_slice(octets, digits);
        self.push(b" ");
        self.push(digits);
    }
}

/// The word of a link's state (RFC 4165 §2.3.2).
fn status_word(status: LinkStatus) -> &'static str
    ensures word { result.now ≡ status_word status }
    ensures short { length result.now ≤ 19 }
{
    match status {
        LinkStatus::Alignment => "alignment",
        LinkStatus::ProvingNormal => "proving-normal",
        LinkStatus::ProvingEmergency => "proving-emergency",
        LinkStatus::Ready => "ready",
        LinkStatus::ProcessorOutage => "processor-outage",
        LinkStatus::ProcessorRecovered => "processor-recovered",
        LinkStatus::Busy => "busy",
        LinkStatus::BusyEnded => "busy-ended",
        LinkStatus::OutOfService => "out-of-service",
    }
}
