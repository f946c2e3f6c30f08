//! DATA that comes (RFC 9260 §6.2, §6.5, §6.9).

ghost use Rattle.std.specs.Prelude.{◌≡◌, ◌<◌, ◌^◌, ◌-◌, ℕ, List, [], ◌∷◌, ◌++◌};
ghost use Rattle.sctp_codec.specs.Values.{data_of};
ghost use Rattle.sctp_receiving.specs.Reading.{lent, told_by};
ghost use Rattle.sctp_receiving.specs.Pieces as pieces;
ghost use Rattle.sctp_receiving.specs.Receiver.{received, is_violation};
ghost use Rattle.sctp_rules.specs.Data.{takes_data, piece_of, no_stream, violated, after_data, heard_data};
ghost use Rattle.sctp_rules.specs.Ending.{answered};
ghost use Rattle.sctp_rules.specs.State.{Heard};
ghost use Rattle.sctp_endpoint.specs.Endpoints.{Does};
ghost use Rattle.sctp_bundling.specs.Watching.{Tells};
ghost use Rattle.sctp_endpoint.specs.Draining.{answered_by, messages_of, told_next, told_held, heard_piece};

use crate::endpoint::Endpoint;
use sctp_bundling::{Event, Reply, Watch};
use sctp_codec::{Cause, Data};
use sctp_receiving::limits::{CHUNKS, MESSAGE_OCTETS};
use sctp_receiving::{Piece, Told, Violation};
use sctp_rules::limits::CONTROL_OCTETS;
use sctp_rules::{Loss, Phase};
use sctp_sending::Message;

/// Octets of an ERROR that says that there is no such stream.
const NO_STREAM_OCTETS: usize = 12;

/// The octets of a message that is put together.
type MessageBuffer = [u8; MESSAGE_OCTETS];

/// Of a chunk that was held no message is lent: it is in the buffer.
const NO_PIECE: Piece<'static> = Piece {
    stream: 0,
    sequence: 0,
    protocol: 0,
    begins: false,
    ends: false,
    unordered: false,
    octets: &[],
};

impl Endpoint {
    /// DATA came: in the states in which it counts, it is acknowledged in this round, and what it ends is told. One
    /// without data is a violation of its own kind.
    #[inline(always)]
    pub(super) fn hear_data<W: Watch>(&mut self, carried: &Data<'_>, watch: &mut W)
        requires { self.old.state.generation < 2 ^ 64 - 1 }
        ensures { Does W.has watch.old watch.new self.old self.new
            (heard_data self.old.settings (data_of carried.now) self.old.state) }
    {
        if !takes_data(self.phase) {
            return;
        }
        if carried.octets.is_empty() {
            self.end_with(
                Loss::Protocol,
                Some(&Reply::Abort(Cause::NoUserData(carried.tsn))),
                watch,
            );
        } else {
            self.take_data(carried, watch);
        }
    }

    /// DATA is taken: what it tells goes to the user, and then what the chunks tell that were held after it.
    #[inline(always)]
    fn take_data<W: Watch>(&mut self, carried: &Data<'_>, watch: &mut W)
        requires { self.old.state.generation < 2 ^ 64 - 1 }
        ensures { Does W.has watch.old watch.new self.old self.new
            (after_data self.old.settings
            (received self.old.state.association.receiver carried.now.tsn (piece_of (data_of carried.now)))
            self.old.state) }
    {
        self.is_sack_due = true;
        if self.take_piece(carried, watch) {
            self.take_held(watch);
        }
    }

    /// A chunk goes to the receiver, and what it tells to the user; returns whether the association goes on.
    #[inline(always)]
    fn take_piece<W: Watch>(&mut self, carried: &Data<'_>, watch: &mut W) -> bool
        requires { self.old.state.generation < 2 ^ 64 - 1 }
        ensures does { Does W.has watch.old watch.new self.old self.new
            (heard_piece self.old.settings carried.now.tsn (piece_of (data_of carried.now)) self.old.state).does }
        ensures goes_on { result
            ≡ (heard_piece self.old.settings carried.now.tsn (piece_of (data_of carried.now)) self.old.state).goes_on }
    {
        let piece = Piece {
            stream: carried.stream,
            sequence: carried.sequence,
            protocol: carried.protocol,
            begins: carried.begins,
            ends: carried.ends,
            unordered: carried.unordered,
            octets: carried.octets,
        };
        let told = self.receiver.hear(carried.tsn, piece, &mut self.message);
        tell_user(told, piece, &self.message, watch);
        self.answer(told, watch);
        !is_violation(told)
    }

    /// The chunks that were held after one that was consumed are consumed, and what they tell goes to the user.
    #[inline(always)]
    fn take_held<W: Watch>(&mut self, watch: &mut W)
        requires { self.old.state.generation < 2 ^ 64 - 1 }
        ensures { Does W.has watch.old watch.new self.old self.new
            (told_held self.old.settings CHUNKS self.old.state) }
    {
        'each_chunk: for _ in 0..CHUNKS {
            if !self.take_next(watch) {
                return;
            }
        }
    }

    /// The next chunk is consumed, if it is held, and what it tells goes to the user; returns whether there may be
    /// another.
    #[inline(always)]
    fn take_next<W: Watch>(&mut self, watch: &mut W) -> bool
        requires { self.old.state.generation < 2 ^ 64 - 1 }
        ensures does { Does W.has watch.old watch.new self.old self.new
            (told_next self.old.settings self.old.state).does }
        ensures goes_on { result ≡ (told_next self.old.settings self.old.state).goes_on }
    {
        match self.receiver.take_next(&mut self.message) {
            Some(told) => {
                tell_user(told, NO_PIECE, &self.message, watch);
                self.answer(told, watch);
                !is_violation(told)
            }
            None => false,
        }
    }

    /// What a chunk tells that isn't for the user: a stream that doesn't exist, to the peer; a violation is the end.
    #[inline(always)]
    fn answer<W: Watch>(&mut self, told: Told, watch: &mut W)
        requires { self.old.state.generation < 2 ^ 64 - 1 }
        ensures { (p : pieces.Piece) (buffer : List ℕ) → Does W.has watch.old watch.new self.old self.new
            (answered_by self.old.settings (told_by p buffer told) self.old.state) }
    {
        match told {
            Told::Nothing => {}
            Told::Whole => {}
            Told::Message(_, _, _) => {}
            Told::NoStream(stream) => self.answer_no_stream(stream),
            Told::Violates(violation) => self.end_for(violation, watch),
        }
    }

    /// The peer is told, with the next packet, that there is no such stream.
    #[inline(never)]
    fn answer_no_stream(&mut self, stream: u16)
        ensures { self.new ≡ record self.old { state = answered (no_stream stream) self.old.state } }
    {
        if self.control.size() + NO_STREAM_OCTETS <= CONTROL_OCTETS {
            self.control.add(&Reply::Error(Cause::NoStream(stream)));
        }
    }

    /// It is over, by ABORT; of a fragment of no stream the peer is told the stream, too.
    #[inline(never)]
    fn end_for<W: Watch>(&mut self, violation: Violation, watch: &mut W)
        requires { self.old.state.generation < 2 ^ 64 - 1 }
        ensures { Does W.has watch.old watch.new self.old self.new
            (violated self.old.settings violation self.old.state) }
    {
        if let Violation::FragmentOfNoStream(stream) = violation {
            self.answer_no_stream(stream);
        }
        self.abort_violation(watch);
    }
}

/// A message that a chunk tells goes to the user: the chunk's own octets, or those in the buffer.
fn tell_user<W: Watch>(told: Told, piece: Piece<'_>, buffer: &MessageBuffer, watch: &mut W)
    ensures { Tells W.has watch.old watch.new (messages_of (told_by (lent piece.entry) buffer.now told)) }
{
    match told {
        Told::Nothing => {}
        Told::Whole => tell_message(piece.stream, piece.protocol, piece.octets, watch),
        Told::Message(stream, protocol, count) => {
            let end = count.min(MESSAGE_OCTETS);
            tell_message(stream, protocol, &buffer[..end], watch);
        }
        Told::NoStream(_) => {}
        Told::Violates(_) => {}
    }
}

/// A message of the peer goes to the user.
fn tell_message<W: Watch>(stream: u16, protocol: u32, octets: &[u8], watch: &mut W)
    ensures { Tells W.has watch.old watch.new
        (Heard (record { stream = stream; protocol = protocol; octets = octets.now }) ∷ []) }
{
    watch.tell(&Event::Heard(Message {
        stream,
        protocol,
        octets,
    }));
}

/// Whether a chunk tells of a violation.
fn is_violation(told: Told) -> bool
    ensures { (p : pieces.Piece) (buffer : List ℕ) → result ≡ is_violation (told_by p buffer told) }
{
    matches!(told, Told::Violates(_))
}

/// Whether DATA counts in a state, and is acknowledged.
pub(super) fn takes_data(phase: Phase) -> bool
    ensures { result ≡ takes_data phase }
{
    matches!(
        phase,
        Phase::Established | Phase::ShutdownPending | Phase::ShutdownSent
    )
}
