//! A packet that is written.

ghost use Rattle.std.specs.Prelude.{◌≡◌, ◌+◌, ◌*◌, ◌/◌, ◌≤◌, [], ◌∷◌, List, length, map};
ghost use Rattle.sctp_codec.specs.Packets.{ChunkValue, DataChunk, ShutdownChunk};
ghost use Rattle.sctp_codec.specs.Values.{data_of};
ghost use Rattle.sctp_sending.specs.Cells.{given_as};
ghost use Rattle.sctp_receiving.specs.Sack.{blocks};
ghost use Rattle.sctp_rules.specs.Data.{sack_of};
ghost use Rattle.sctp_rules.specs.Sending.{closed};
ghost use Rattle.sctp_bundling.specs.Bundling.{Adds, HasMadeRoom, carried_as, draft_of};
ghost use Rattle.sctp_bundling.specs.Replies.{size_of};
ghost use Rattle.sctp_bundling.specs.Watching.{Puts};
ghost use Rattle.sctp_bundling.specs.Ways.{way_of, packet_on};

use crate::chunks::Chunks;
use crate::gaps::{NO_BLOCK, window_of, write_gaps};
use crate::packets::{blank, write_at};
use crate::watch::Watch;
use crate::way::Way;
use sctp_codec::{
    Data, Header, PacketBuffer, begin, finish_behind, write_data, write_sack, write_shutdown,
};
use sctp_receiving::Receiver;
use sctp_receiving::limits::BLOCKS;
use sctp_rules::limits::{HEADER_OCTETS, PACKET_OCTETS};
use std::marker::Model;

/// Octets of the header and the fields of a DATA chunk (RFC 9260 §3.3.1).
const DATA_HEADER_OCTETS: usize = 16;

/// Octets of a SACK chunk without gap blocks and duplicates.
const SACK_OCTETS: usize = 16;

/// Octets of a gap block, and of a duplicate.
const NUMBER_OCTETS: usize = 4;

/// Octets of a SHUTDOWN chunk.
const SHUTDOWN_OCTETS: usize = 8;

/// A packet being written. Chunks are bundled into it (RFC 9260 §6.10). If the next one doesn't fit after those that
/// wait in it, it goes out, and another one begins.
#[derive(Drop)]
pub struct Draft {
    out: PacketBuffer,
    end: usize,
    way: Way,
    /// That of the last packet.
    header: Header,
}

impl Model for Draft {
    ghost use Rattle.sctp_bundling.specs.Bundling.{Draft};

    ghost Value = { Draft };

    ghost use Rattle.sctp_bundling.specs.Drafts.{draft_in, IsDraft};

    ghost view = { draft_in };

    ghost invariant = { IsDraft };
}

impl Draft {
    /// A packet that hasn't begun: `begin_with` must be called first. It is made in its place, and not moved.
    #[inline(never)]
    pub fn new(way: Way) -> Draft
        ensures { result.way ≡ way_of way }
    {
        Draft {
            out: blank(),
            end: HEADER_OCTETS,
            way,
            header: Header::zeros(),
        }
    }

    /// It goes another way from now on: `begin_with` must be called next.
    pub fn turn(&mut self, way: Way)
        ensures { self.new.way ≡ way_of way }
    {
        self.way = way;
    }

    /// A packet begins with these chunks. What it had before is dropped.
    pub fn begin_with(&mut self, chunks: &Chunks)
        ensures way { self.new.way ≡ self.old.way }
        ensures text { self.new.text ≡ draft_of self.old.way chunks.now }
    {
        let at = begin(
            &mut self.out,
            self.way.source,
            self.way.destination,
            self.way.tag,
        );
        let end = write_at(&mut self.out, at, chunks.octets());
        self.end = end;
    }

    /// A message goes out after what waits, as DATA.
    pub fn add_message<W: Watch>(&mut self, carried: &sctp_sending::Data<'_>, watch: &mut W)
        requires { length carried.now.message.octets.now ≤ 290 }
        ensures { Adds W.has watch.old watch.new self.old self.new
            (DataChunk (carried_as carried.now.tsn carried.now.sequence (given_as carried.now.message)) ∷ []) }
    {
        let chunk = Data {
            immediate: false,
            unordered: false,
            begins: true,
            ends: true,
            tsn: carried.tsn,
            stream: carried.message.stream,
            sequence: carried.sequence,
            protocol: carried.message.protocol,
            octets: carried.message.octets,
        };
        self.make_room(octets_of_data(&chunk), watch);
        self.end = write_data(&mut self.out, self.end, &chunk);
    }

    /// SACK goes out after what waits: what a receiver has.
    pub fn add_sack<W: Watch>(&mut self, receiver: &Receiver, watch: &mut W)
        ensures { Adds W.has watch.old watch.new self.old self.new (sack_of receiver.now ∷ []) }
    {
        if receiver.holds_none() {
            self.add_sack_without_gaps(receiver, watch);
        } else {
            self.add_sack_with_gaps(receiver, watch);
        }
    }

    /// The same if no chunk is held.
    fn add_sack_without_gaps<W: Watch>(&mut self, receiver: &Receiver, watch: &mut W)
        requires { blocks receiver.now ≡ [] }
        ensures { Adds W.has watch.old watch.new self.old self.new (sack_of receiver.now ∷ []) }
    {
        let duplicates = receiver.duplicates();
        self.make_room(SACK_OCTETS + NUMBER_OCTETS * duplicates.len(), watch);
        self.end = write_sack(
            &mut self.out,
            self.end,
            receiver.cumulative(),
            window_of(receiver),
            &[],
            duplicates,
        );
    }

    /// The same with the chunks that are held.
    fn add_sack_with_gaps<W: Watch>(&mut self, receiver: &Receiver, watch: &mut W)
        ensures { Adds W.has watch.old watch.new self.old self.new (sack_of receiver.now ∷ []) }
    {
        let mut blocks = [NO_BLOCK; BLOCKS];
        let count = write_gaps(&mut blocks, receiver);
        let duplicates = receiver.duplicates();
        let octets = SACK_OCTETS + NUMBER_OCTETS * count + NUMBER_OCTETS * duplicates.len();
        self.make_room(octets, watch);
        self.end = write_sack(
            &mut self.out,
            self.end,
            receiver.cumulative(),
            window_of(receiver),
            &blocks[..count],
            duplicates,
        );
    }

    /// SHUTDOWN goes out after what waits.
    pub fn add_shutdown<W: Watch>(&mut self, cumulative: u32, watch: &mut W)
        ensures { Adds W.has watch.old watch.new self.old self.new (ShutdownChunk cumulative ∷ []) }
    {
        self.make_room(SHUTDOWN_OCTETS, watch);
        self.end = write_shutdown(&mut self.out, self.end, cumulative);
    }

    /// The packet goes out, if it has a chunk.
    pub fn put_rest<W: Watch>(&mut self, watch: &mut W)
        ensures { (waiting : List ChunkValue) → self.old.text ≡ draft_of self.old.way waiting
            → Puts W.has watch.old watch.new (map (packet_on self.old.way) (closed waiting)) }
    {
        if HEADER_OCTETS < self.end {
            self.put(watch);
        }
    }

    /// The packet goes out.
    #[inline(always)]
    fn put<W: Watch>(&mut self, watch: &mut W)
        ensures way { self.new.way ≡ self.old.way }
        ensures put { (waiting : List ChunkValue) → self.old.text ≡ draft_of self.old.way waiting
            → Puts W.has watch.old watch.new (packet_on self.old.way waiting ∷ []) }
    {
        finish_behind(&mut self.out, self.end, &mut self.header);
        watch.send(&self.out[..self.end], &self.way.to);
    }

    /// Another packet begins, without chunks.
    fn begin_anew(&mut self)
        ensures { self.new ≡ record { way = self.old.way; text = draft_of self.old.way []; end = 12 } }
    {
        self.end = begin(
            &mut self.out,
            self.way.source,
            self.way.destination,
            self.way.tag,
        );
    }

    /// If this many octets more don't fit, the packet goes out, and another one begins.
    fn make_room<W: Watch>(&mut self, octets: usize, watch: &mut W)
        requires { octets ≤ 1188 }
        ensures way { self.new.way ≡ self.old.way }
        ensures room { self.new.end + octets ≤ 1200 }
        ensures made { HasMadeRoom W.has self.old.way watch.old watch.new self.old.text self.new.text octets }
    {
        if self.end + octets <= PACKET_OCTETS {
            return;
        }
        self.put_full(watch);
    }

    /// The packet goes out, and another one begins, without chunks.
    #[inline(never)]
    fn put_full<W: Watch>(&mut self, watch: &mut W)
        ensures way { self.new.way ≡ self.old.way }
        ensures text { self.new.text ≡ draft_of self.old.way [] }
        ensures end { self.new.end ≡ 12 }
        ensures put { (waiting : List ChunkValue) → self.old.text ≡ draft_of self.old.way waiting
            → Puts W.has watch.old watch.new (packet_on self.old.way waiting ∷ []) }
    {
        self.put(watch);
        self.begin_anew();
    }
}

/// Octets of a DATA chunk, padded.
fn octets_of_data(carried: &Data<'_>) -> usize
    ensures value { result ≡ size_of (DataChunk (data_of carried.now)) }
    ensures long { result ≡ 16 + (length carried.now.octets.now + 3) / 4 * 4 }
{
    DATA_HEADER_OCTETS + (carried.octets.len() + 3) / 4 * 4
}
