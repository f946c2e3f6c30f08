//! The receiving half of an association.

ghost use Rattle.std.specs.Prelude.{◌≡◌, ◌==◌, ℕ, ◌+◌, ◌-◌, ◌%◌, ◌<◌, ◌≤◌, ◌^◌, ◌++◌, ◌∷◌, [], length, IsTrue, IfOk};
ghost use Rattle.std.specs.Prelude.{Some, None, true, ◌&&◌, not, take, is_some, if◌then◌else◌, replicate, slice_index_or};
ghost use Rattle.std.specs.Prelude.{slice_set, sum_by};
ghost use Rattle.std.specs.Option.{option_map};
ghost use Rattle.sctp_receiving.specs.Tsn.{next_tsn, steps_between};
ghost use Rattle.sctp_receiving.specs.Pieces as pieces;
ghost use Rattle.sctp_receiving.specs.Consuming.{consume};
ghost use Rattle.sctp_receiving.specs.Reading.{lent, told_by};
ghost use Rattle.sctp_receiving.specs.Receiver.{
  first_receiver,
  with_piece,
  piece_at,
  ahead,
  is_held,
  window,
  fits,
  standing,
  repeated,
  taken,
  hear,
  next_held,
  take_next,
};
ghost use Rattle.sctp_receiving.specs.Room.{held_count};
ghost use Rattle.sctp_receiving.specs.Sack.{blocks, block_from, is_held_ahead, reported};

use crate::assembly::Assembly;
use crate::block::Block;
use crate::limits::{BLOCKS, CHUNK_OCTETS, CHUNKS, DUPLICATES, MESSAGE_OCTETS, WINDOW};
use crate::piece::Piece;
use crate::place::Place;
use crate::standing::Standing;
use crate::told::Told;
use arrayvec::ArrayVec;
use std::alloc::{AllocError, Global};
use std::marker::Model;

/// The receiving half of an association: the cumulative TSN, the chunks that are held after it, and a message that is
/// put together.
#[derive(Drop)]
pub struct Receiver {
    held: Vec<Place>,
    assembly: Assembly,
    duplicates: ArrayVec<u32, DUPLICATES>,
    count: usize,
    octets: usize,
    cumulative: u32,
    streams: u16,
}

impl Model for Receiver {
    ghost use Rattle.sctp_receiving.specs.Receiver.{Receiver};

    ghost Value = { Receiver };

    ghost use Rattle.sctp_receiving.specs.Room.{receiver_in, HasPlaces};

    ghost view = { receiver_in };

    ghost invariant = { HasPlaces };
}

/// The half of all TSNs.
const HALF: u32 = 1 << 31;

/// The place of a chunk.
fn place_of(tsn: u32) -> usize
    ensures place { result ≡ tsn % CHUNKS }
    ensures within { result < CHUNKS }
{
    tsn as usize % CHUNKS
}

/// Places without chunks.
fn empty_places(alloc: Global) -> Result<Vec<Place>, AllocError>
    ensures { IfOk result (λ places. places.items ≡ replicate CHUNKS None) }
{
    let mut places = Vec::with_capacity(alloc, CHUNKS)?;
    for _ in 0..CHUNKS {
        places.push_reserved(Place::empty());
    }
    Ok(places)
}

/// Places without chunks, as many as there were.
fn clear_all(places: &mut Vec<Place>)
    ensures { places.new.items ≡ replicate (length places.old.items) None }
{
    for i in 0..places.len() {
        places[i].clear();
    }
}

impl Receiver {
    /// A receiver of this many streams, whose peer begins with this TSN. It makes all its room here.
    pub fn new(alloc: Global, streams: u16, first: u32) -> Result<Receiver, AllocError>
        ensures { IfOk result (λ r. r ≡ first_receiver streams first) }
    {
        Ok(Receiver {
            held: empty_places(alloc)?,
            assembly: Assembly::new(alloc)?,
            duplicates: ArrayVec::new(),
            count: 0,
            octets: 0,
            cumulative: first.wrapping_sub(1),
            streams,
        })
    }

    /// Begins again: nothing came of a peer that begins with this TSN.
    pub fn begin(&mut self, streams: u16, first: u32)
        ensures { self.new ≡ first_receiver streams first }
    {
        clear_all(&mut self.held);
        self.assembly.empty();
        self.duplicates.clear();
        self.count = 0;
        self.octets = 0;
        self.cumulative = first.wrapping_sub(1);
        self.streams = streams;
    }

    /// The cumulative TSN: that of the last chunk that was consumed.
    pub fn cumulative(&self) -> u32
        ensures { result ≡ self.now.cumulative }
    {
        self.cumulative
    }

    /// The window that the peer is told, in octets.
    pub fn window(&self) -> usize
        ensures value { result ≡ window self.now }
        ensures fits { result ≤ WINDOW }
    {
        WINDOW
            .saturating_sub(self.octets)
            .saturating_sub(self.assembly.octets())
    }

    /// The TSNs that came again since the last report, 20 at most.
    pub fn duplicates(&self) -> &[u32]
        ensures numbers { result.now ≡ self.now.duplicates }
        ensures most { length result.now ≤ DUPLICATES }
    {
        &self.duplicates
    }

    /// The gap blocks of a SACK, 100 at most: which chunks are held.
    pub fn blocks(&self) -> ArrayVec<Block, BLOCKS>
        ensures { result.items ≡ blocks self.now }
    {
        if self.count == 0 {
            return ArrayVec::new();
        }
        self.blocks_held()
    }

    /// Whether no chunk is held. Then a SACK has no gap blocks.
    pub fn holds_none(&self) -> bool
        ensures held { result ≡ (sum_by held_count self.now.held == 0) }
        ensures gaps { result ≡ true → blocks self.now ≡ [] }
    {
        self.count == 0
    }

    // The gap blocks of a SACK.
    fn blocks_held(&self) -> ArrayVec<Block, BLOCKS>
        ensures { result.items ≡ blocks self.now }
    {
        let mut blocks = ArrayVec::new();
        let mut is_before_held = false;
        for ahead in 2..CHUNKS + 1 {
            self.add_block(&mut blocks, ahead, is_before_held);
            is_before_held = self.is_held_ahead(ahead);
        }
        blocks
    }

    // Adds the block that begins this far ahead, if one does, and there is a place.
    fn add_block(&self, blocks: &mut ArrayVec<Block, BLOCKS>, ahead: usize, is_before_held: bool)
        requires { ahead ≤ CHUNKS }
        ensures { blocks.new.items ≡ take BLOCKS (blocks.old.items
            ++ (if is_held_ahead self.now ahead && not is_before_held
            then block_from self.now ahead (CHUNKS - ahead) ∷ []
            else [])) }
    {
        let is_full = blocks.is_full();
        if !self.begins_at(ahead, is_before_held) {
            return;
        }
        if is_full {
            return;
        }
        blocks.push(self.block_from(ahead));
    }

    // Whether a block begins this far ahead.
    fn begins_at(&self, ahead: usize, is_before_held: bool) -> bool
        requires { ahead ≤ CHUNKS }
        ensures { result ≡ (is_held_ahead self.now ahead && not is_before_held) }
    {
        self.is_held_ahead(ahead) && !is_before_held
    }

    // The block that begins this far ahead.
    fn block_from(&self, start: usize) -> Block
        requires { start ≤ CHUNKS }
        ensures { result ≡ block_from self.now start (CHUNKS - start) }
    {
        let mut end = start;
        while end < CHUNKS && self.is_held_ahead(end + 1) {
            end += 1;
        }
        Block {
            start: start as u16,
            end: end as u16,
        }
    }

    // Whether the chunk that is this far ahead is held.
    fn is_held_ahead(&self, ahead: usize) -> bool
        requires { ahead ≤ CHUNKS }
        ensures { result ≡ is_held_ahead self.now ahead }
    {
        self.is_full(self.cumulative.wrapping_add(ahead as u32))
    }

    /// What came again was reported.
    pub fn report(&mut self)
        ensures { self.new ≡ reported self.old }
    {
        self.duplicates.clear();
    }

    /// A chunk comes. The next one in the order of TSNs is consumed, and the answer is what it tells; a message that it
    /// ends is the chunk's own octets, or is in the buffer. Any other chunk is held, noted as come again, or dropped.
    ///
    /// After one that was consumed `take_next` must be called until it gives none.
    #[inline(always)]
    pub fn hear(&mut self, tsn: u32, piece: Piece<'_>, buffer: &mut [u8; MESSAGE_OCTETS]) -> Told
        ensures told { told_by (lent piece.entry) buffer.new result ≡ (hear self.old tsn (lent piece.entry)).told }
        ensures left { self.new ≡ (hear self.old tsn (lent piece.entry)).left }
    {
        match self.standing(tsn, piece) {
            Standing::Next => self.take(piece, buffer),
            Standing::Early => {
                self.hold(tsn, piece);
                Told::Nothing
            }
            Standing::Again => {
                self.repeat(tsn);
                Told::Nothing
            }
            Standing::Beyond => Told::Nothing,
        }
    }

    /// Consumes the next chunk in the order of TSNs, if it is held; returns what it tells. A message that it ends is in
    /// the buffer.
    #[inline(always)]
    pub fn take_next(&mut self, buffer: &mut [u8; MESSAGE_OCTETS]) -> Option<Told>
        ensures told { (p : pieces.Piece) → option_map (told_by p buffer.new) result
            ≡ (if is_some (next_held self.old) then Some (take_next self.old).told else None) }
        ensures left { self.new ≡ (take_next self.old).left }
    {
        let next = self.cumulative.wrapping_add(1);
        if !self.is_full(next) {
            return None;
        }
        let told = self.consume_held(next, buffer);
        self.clear(next);
        self.cumulative = next;
        Some(told)
    }

    // Where a chunk stands.
    fn standing(&self, tsn: u32, piece: Piece<'_>) -> Standing
        ensures { result ≡ standing self.now tsn (lent piece.entry) }
    {
        let ahead = tsn.wrapping_sub(self.cumulative);
        if ahead == 0 || ahead >= HALF || self.is_held(tsn) {
            Standing::Again
        } else if ahead == 1 {
            Standing::Next
        } else if ahead as usize <= CHUNKS && self.fits(piece) {
            Standing::Early
        } else {
            Standing::Beyond
        }
    }

    // Whether the chunk of a TSN is held.
    fn is_held(&self, tsn: u32) -> bool
        ensures { result ≡ is_held self.now tsn }
    {
        tsn.wrapping_sub(self.cumulative) as usize <= CHUNKS && self.is_full(tsn)
    }

    // Whether there is a chunk in the place of a TSN. Usually there is none at all.
    fn is_full(&self, tsn: u32) -> bool
        ensures { result ≡ is_some (piece_at self.now tsn) }
    {
        if self.count == 0 {
            return false;
        }
        self.held[place_of(tsn)].is_full()
    }

    // Whether there is room for a chunk out of turn.
    fn fits(&self, piece: Piece<'_>) -> bool
        ensures { result ≡ fits self.now (lent piece.entry) }
    {
        piece.octets.len() <= CHUNK_OCTETS && piece.octets.len() <= self.window()
    }

    // Consumes the next chunk.
    #[inline(always)]
    fn take(&mut self, piece: Piece<'_>, buffer: &mut [u8; MESSAGE_OCTETS]) -> Told
        ensures told { told_by (lent piece.entry) buffer.new result ≡ (taken self.old (lent piece.entry)).told }
        ensures left { self.new ≡ (taken self.old (lent piece.entry)).left }
    {
        self.cumulative = self.cumulative.wrapping_add(1);
        self.assembly.consume(self.streams, piece, buffer)
    }

    // Holds a chunk.
    #[inline(never)]
    fn hold(&mut self, tsn: u32, piece: Piece<'_>)
        requires free { piece_at self.old tsn ≡ None }
        requires fits { IsTrue (fits self.old (lent piece)) }
        ensures { self.new ≡ with_piece self.old tsn (Some (lent piece.entry)) }
    {
        self.held[place_of(tsn)].fill(piece);
        self.count += 1;
        self.octets += piece.octets.len();
    }

    // Frees the place of a chunk that is held.
    fn clear(&mut self, tsn: u32)
        requires { IsTrue (is_some (piece_at self.old tsn)) }
        ensures { self.new ≡ with_piece self.old tsn None }
    {
        let place = &mut self.held[place_of(tsn)];
        let octets = place.piece().octets.len();
        place.clear();
        self.count -= 1;
        self.octets -= octets;
    }

    // Consumes a chunk that is held; its place stays, and so does the cumulative TSN.
    #[inline(never)]
    fn consume_held(&mut self, tsn: u32, buffer: &mut [u8; MESSAGE_OCTETS]) -> Told
        requires { IsTrue (is_some (piece_at self.old tsn)) }
        ensures told { (q : pieces.Piece) (p : pieces.Piece) → piece_at self.old tsn ≡ Some p →
            told_by q buffer.new result ≡ (consume self.old.streams p self.old.partial).told }
        ensures left { (p : pieces.Piece) → piece_at self.old tsn ≡ Some p →
            self.new ≡ record self.old { partial = (consume self.old.streams p self.old.partial).left } }
        ensures held { self.new.held ≡ self.old.held }
    {
        let piece = self.held[place_of(tsn)].piece();
        let told = self.assembly.consume(self.streams, piece, buffer);
        written(told, piece, buffer)
    }

    // Notes a TSN that came again, if there is a place.
    fn repeat(&mut self, tsn: u32)
        ensures { self.new ≡ repeated self.old tsn }
    {
        if !self.duplicates.is_full() {
            self.duplicates.push(tsn);
        }
    }
}

/// The same, with the octets of a message in the buffer even if it is a chunk by itself.
fn written(told: Told, piece: Piece<'_>, buffer: &mut [u8; MESSAGE_OCTETS]) -> Told
    requires { length piece.octets.now ≤ MESSAGE_OCTETS }
    ensures { (q : pieces.Piece) → told_by q buffer.new result ≡ told_by (lent piece.entry) buffer.old told }
{
    match told {
        Told::Whole => {
            buffer[..piece.octets.len()].copy_from_slice(piece.octets);
            Told::Message(piece.stream, piece.protocol, piece.octets.len())
        }
        other => other,
    }
}
