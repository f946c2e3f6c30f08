//! A message that is put together.

ghost use Rattle.std.specs.Prelude.{◌≡◌, ◌≤◌, ◌<◌, ◌++◌, ◌+◌, ℕ, List, true, vec_capacity, IfOk, None};
ghost use Rattle.std.specs.Prelude.{Some, ◌&&◌, nat_eq, length, take};
ghost use Rattle.sctp_receiving.specs.Consuming.{consume, begin, begun, go_on, is_same, of_no_stream};
ghost use Rattle.sctp_receiving.specs.Reading.{lent, told_by};
ghost use Rattle.sctp_receiving.specs.Receiver.{partial_octets};

use crate::limits::MESSAGE_OCTETS;
use crate::piece::Piece;
use crate::told::Told;
use crate::violation::Violation;
use std::alloc::{AllocError, Global};
use std::marker::Model;

/// What a fragment must have that goes on with a message.
#[derive(Clone, Copy)]
struct Head {
    protocol: u32,
    stream: u16,
    sequence: u16,
    unordered: bool,
}

impl Head {
    // What the first fragment of a message says of it.
    fn of(piece: Piece<'_>) -> Head
        ensures stream { result.stream ≡ piece.entry.stream }
        ensures sequence { result.sequence ≡ piece.entry.sequence }
        ensures protocol { result.protocol ≡ piece.entry.protocol }
        ensures unordered { result.unordered ≡ piece.entry.unordered }
    {
        Head {
            protocol: piece.protocol,
            stream: piece.stream,
            sequence: piece.sequence,
            unordered: piece.unordered,
        }
    }

    // Whether a fragment is of the message.
    fn has(self, piece: Piece<'_>) -> bool
        ensures { result ≡ (nat_eq self.stream piece.entry.stream && nat_eq self.sequence piece.entry.sequence
            && is_same self.unordered piece.entry.unordered) }
    {
        self.stream == piece.stream
            && self.sequence == piece.sequence
            && self.unordered == piece.unordered
    }
}

/// A message that is put together of fragments, one after another.
#[derive(Drop)]
pub(crate) struct Assembly {
    octets: Vec<u8>,
    head: Head,
    is_open: bool,
}

impl Model for Assembly {
    ghost use Rattle.std.specs.Prelude.{Option};
    ghost use Rattle.sctp_receiving.specs.Pieces.{Partial};

    ghost Value = { Option Partial };

    ghost use Rattle.sctp_receiving.specs.Room.{partial_in, HasRoom};

    ghost view = { partial_in };

    ghost invariant = { HasRoom };
}

impl Assembly {
    /// No message has begun; there is room for the longest.
    pub(crate) fn new(alloc: Global) -> Result<Assembly, AllocError>
        ensures { IfOk result (λ a. a ≡ None) }
    {
        Ok(Assembly {
            octets: Vec::with_capacity(alloc, MESSAGE_OCTETS)?,
            head: Head {
                protocol: 0,
                stream: 0,
                sequence: 0,
                unordered: false,
            },
            is_open: false,
        })
    }

    /// Forgets what has come of a message.
    pub(crate) fn empty(&mut self)
        ensures { self.new ≡ None }
    {
        self.is_open = false;
    }

    /// How many octets of a message there are.
    pub(crate) fn octets(&self) -> usize
        ensures count { result ≡ partial_octets self.now }
        ensures fits { result ≤ MESSAGE_OCTETS }
    {
        if self.is_open { self.octets.len() } else { 0 }
    }

    /// Consumes the chunk that is next: it begins a message, goes on with one, or ends it. A message that is put
    /// together is written to the buffer when it ends.
    #[inline(always)]
    pub(crate) fn consume(
        &mut self,
        streams: u16,
        piece: Piece<'_>,
        buffer: &mut [u8; MESSAGE_OCTETS],
    ) -> Told
        ensures told { told_by (lent piece.entry) buffer.new result
            ≡ (consume streams (lent piece.entry) self.old).told }
        ensures left { self.new ≡ (consume streams (lent piece.entry) self.old).left }
    {
        if piece.begins {
            self.begin(streams, piece)
        } else {
            self.go_on(piece, buffer)
        }
    }

    // A message begins.
    #[inline(always)]
    fn begin(&mut self, streams: u16, piece: Piece<'_>) -> Told
        requires { piece.begins ≡ true }
        ensures told { (buffer : List ℕ) → told_by (lent piece.entry) buffer result
            ≡ (begin streams (lent piece.entry) self.old).told }
        ensures left { self.new ≡ (begin streams (lent piece.entry) self.old).left }
    {
        if self.is_open {
            return Told::Violates(Violation::Misplaced);
        }
        if piece.stream >= streams {
            return of_no_stream(piece);
        }
        if piece.octets.len() > MESSAGE_OCTETS {
            return Told::Violates(Violation::TooLong);
        }
        if piece.ends {
            return Told::Whole;
        }
        self.open(piece);
        Told::Nothing
    }

    // The first fragment of a message is kept.
    #[inline(never)]
    fn open(&mut self, piece: Piece<'_>)
        requires { length piece.octets.now ≤ MESSAGE_OCTETS }
        ensures { self.new ≡ Some (begun (lent piece.entry)) }
    {
        self.octets.clear();
        append(&mut self.octets, piece.octets);
        self.head = Head::of(piece);
        self.is_open = true;
    }

    // A fragment comes that doesn't begin a message.
    #[inline(never)]
    fn go_on(&mut self, piece: Piece<'_>, buffer: &mut [u8; MESSAGE_OCTETS]) -> Told
        ensures told { told_by (lent piece.entry) buffer.new result ≡ (go_on (lent piece.entry) self.old).told }
        ensures left { self.new ≡ (go_on (lent piece.entry) self.old).left }
    {
        if !self.is_open {
            return Told::Violates(Violation::Misplaced);
        }
        if !self.head.has(piece) {
            return Told::Violates(Violation::Differs);
        }
        if piece.octets.len() > MESSAGE_OCTETS - self.octets.len() {
            return Told::Violates(Violation::TooLong);
        }
        append(&mut self.octets, piece.octets);
        if !piece.ends {
            return Told::Nothing;
        }
        self.is_open = false;
        let count = write(buffer, &self.octets);
        Told::Message(self.head.stream, self.head.protocol, count)
    }
}

/// Writes octets to the front of a buffer; returns how many.
fn write(buffer: &mut [u8; MESSAGE_OCTETS], octets: &[u8]) -> usize
    requires { length octets.now ≤ MESSAGE_OCTETS }
    ensures { take result buffer.new ≡ octets.now }
{
    buffer[..octets.len()].copy_from_slice(octets);
    octets.len()
}

/// What a chunk of a stream that doesn't exist tells.
fn of_no_stream(piece: Piece<'_>) -> Told
    ensures { (buffer : List ℕ) → told_by (lent piece.entry) buffer result ≡ (of_no_stream (lent piece.entry)).told }
{
    if piece.ends {
        Told::NoStream(piece.stream)
    } else {
        Told::Violates(Violation::FragmentOfNoStream(piece.stream))
    }
}

/// Puts octets after others, if there is room.
fn append(octets: &mut Vec<u8>, more: &[u8])
    requires { length octets.old.items + length more.now ≤ vec_capacity octets.old }
    ensures items { octets.new.items ≡ octets.old.items ++ more.now }
    ensures room { vec_capacity octets.old ≤ vec_capacity octets.new }
{
    let appended = octets.extend_from_slice(more);
    prove!(appended.is_ok());
}
