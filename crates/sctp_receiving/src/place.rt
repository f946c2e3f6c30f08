//! A place for a chunk.

ghost use Rattle.std.specs.Prelude.{◌≡◌, ◌≤◌, IsTrue, None, Some, is_some, length};
ghost use Rattle.sctp_receiving.specs.Reading.{lent};
ghost use Rattle.sctp_receiving.specs.Receiver.{held_octets};

use crate::limits::CHUNK_OCTETS;
use crate::piece::Piece;
use std::marker::Model;

/// A place for a chunk that came out of turn.
#[derive(Drop)]
pub(crate) struct Place {
    octets: [u8; CHUNK_OCTETS],
    count: usize,
    protocol: u32,
    stream: u16,
    sequence: u16,
    begins: bool,
    ends: bool,
    unordered: bool,
    is_full: bool,
}

impl Model for Place {
    ghost use Rattle.std.specs.Prelude.{Option};
    ghost use Rattle.sctp_receiving.specs.Pieces.{Piece};

    ghost Value = { Option Piece };

    ghost use Rattle.sctp_receiving.specs.Room.{piece_in, IsPlace};

    ghost view = { piece_in };

    ghost invariant = { IsPlace };
}

impl Place {
    /// A place without a chunk.
    pub(crate) fn empty() -> Place
        ensures { result ≡ None }
    {
        Place {
            octets: [0; CHUNK_OCTETS],
            count: 0,
            protocol: 0,
            stream: 0,
            sequence: 0,
            begins: false,
            ends: false,
            unordered: false,
            is_full: false,
        }
    }

    /// Whether it has a chunk.
    pub(crate) fn is_full(&self) -> bool
        ensures { result ≡ is_some self.now }
    {
        self.is_full
    }

    /// Takes a copy of a chunk.
    pub(crate) fn fill(&mut self, piece: Piece<'_>)
        requires { length piece.octets.now ≤ CHUNK_OCTETS }
        ensures { self.new ≡ Some (lent piece.entry) }
    {
        self.octets[..piece.octets.len()].copy_from_slice(piece.octets);
        self.count = piece.octets.len();
        self.protocol = piece.protocol;
        self.stream = piece.stream;
        self.sequence = piece.sequence;
        self.begins = piece.begins;
        self.ends = piece.ends;
        self.unordered = piece.unordered;
        self.is_full = true;
    }

    /// The chunk, lent.
    pub(crate) fn piece(&self) -> Piece<'_>
        requires { IsTrue (is_some self.now) }
        ensures piece { Some (lent result) ≡ self.now }
        ensures fits { length result.octets.now ≤ CHUNK_OCTETS }
    {
        Piece {
            stream: self.stream,
            sequence: self.sequence,
            protocol: self.protocol,
            begins: self.begins,
            ends: self.ends,
            unordered: self.unordered,
            octets: &self.octets[..self.count],
        }
    }

    /// Has no chunk from now on.
    pub(crate) fn clear(&mut self)
        ensures { self.new ≡ None }
    {
        self.is_full = false;
    }
}
