//! Packets, read from their octets.

ghost use Rattle.std.specs.Prelude.{◌≡◌, ◌==◌, ◌||◌, ◌<◌, ◌≤◌, length, take, drop, slice_index};
ghost use Rattle.sctp_codec.specs.Items.{read_items};
ghost use Rattle.sctp_codec.specs.Reading.{read_packet, chunk_in, checksum_of, checksum_field};
ghost use Rattle.sctp_codec.specs.Reading.{is_bundled_well, has_type, type_of};
ghost use Rattle.sctp_codec.specs.Packets.{lone, data_alone, sack_alone};
ghost use Rattle.sctp_codec.specs.Values.{item_of, items_of, data_of, sack_of, chunk_value, chunks_of, packet_of, Gives};

use crate::body::Body;
use crate::chunk::{Chunk, Data, Sack, Tag, number16_at, number32_at, read_data, read_sack};
use crate::header::Header;
use crate::item::Item;
use crate::items::Items;
use crate::layout::{DATA, HEADER_OCTETS, INIT, INIT_ACK, ITEM_HEADER_OCTETS, SACK};
use crc32c::remainder;

/// A packet (RFC 9260 §3.1). Its chunks are slices of its octets.
#[derive(Clone, Copy)]
pub struct Packet<'a> {
    /// The port that it comes from.
    pub source: u16,
    /// The port that it goes to.
    pub destination: u16,
    /// The verification tag.
    pub tag: Tag,
    body: Body<'a>,
}

impl<'a> Packet<'a> {
    /// The packet that the octets are. None, as if the network had lost it, unless it has at least 16 octets, the right
    /// checksum, and whole chunks to its end, with or without the padding of the last one. INIT and INIT ACK must stand
    /// alone, and INIT must have the tag 0 (RFC 9260 §3, §6.8, §6.10, §8.5.1).
    pub fn read(octets: &'a [u8]) -> Option<Packet<'a>>
        ensures { Gives packet_of result (read_packet octets.now) }
    {
        Packet::read_behind(octets, &mut Header::zeros())
    }

    /// The same, for which the last header is kept.
    #[inline(always)]
    pub fn read_behind(octets: &'a [u8], header: &mut Header) -> Option<Packet<'a>>
        ensures { Gives packet_of result (read_packet octets.now) }
    {
        if octets.len() < HEADER_OCTETS + ITEM_HEADER_OCTETS
            || !has_right_checksum(octets, header)
        {
            return None;
        }
        let body = Body::of(Items::read(&octets[HEADER_OCTETS..])?);
        let tag = number32_at(octets, 4);
        if !is_bundled_well(tag, body) {
            return None;
        }
        Some(Packet {
            source: number16_at(octets, 0),
            destination: number16_at(octets, 2),
            tag,
            body,
        })
    }

    /// The DATA that it is by itself. None if it is another chunk, or several.
    #[inline(always)]
    #[tactic(auto, unfolding(crate::specs::Reading::chunk_of))]
    pub fn lone_data(&self) -> Option<Data<'a>>
        ensures { Gives data_of result (data_alone (lone (packet_of self.now).chunks)) }
    {
        let item = self.body.alone?;
        let [kind, flags] = item.kind.to_be_bytes();
        if kind != DATA {
            return None;
        }
        as_data(read_data(flags, item.value))
    }

    /// The SACK that it is by itself. None if it is another chunk, or several.
    #[inline(always)]
    #[tactic(auto, unfolding(crate::specs::Reading::chunk_of))]
    pub fn lone_sack(&self) -> Option<Sack<'a>>
        ensures { Gives sack_of result (sack_alone (lone (packet_of self.now).chunks)) }
    {
        let item = self.body.alone?;
        if type_of(item) != SACK {
            return None;
        }
        as_sack(read_sack(item.value))
    }

    /// Its chunks, in their order: one at least.
    pub fn chunks(&self) -> Chunks<'a>
        ensures { chunks_of result ≡ (packet_of self.now).chunks }
    {
        Chunks {
            items: self.body.items,
        }
    }
}

/// Chunks of a packet, one after another.
#[derive(Clone, Copy)]
pub struct Chunks<'a> {
    items: Items<'a>,
}

impl<'a> Iterator for Chunks<'a> {
    type Item = Chunk<'a>;

    ghost use Rattle.std.specs.Iterator.{YieldsFirstBy, item_count};

    ghost next_gives = { YieldsFirstBy chunk_value chunks_of };

    ghost remaining = { item_count chunks_of };

    #[inline(always)]
    fn next(&mut self) -> Option<Chunk<'a>> {
        let item = self.items.next()?;
        Some(Chunk::read(item))
    }
}

/// What a chunk is as DATA. None if it is another one.
#[inline(always)]
fn as_data(chunk: Chunk<'_>) -> Option<Data<'_>>
    ensures { Gives data_of result (data_alone (Some (chunk_value chunk.entry))) }
{
    match chunk {
        Chunk::Data(carried) => Some(carried),
        _ => None,
    }
}

/// What a chunk is as SACK. None if it is another one.
#[inline(always)]
fn as_sack(chunk: Chunk<'_>) -> Option<Sack<'_>>
    ensures { Gives sack_of result (sack_alone (Some (chunk_value chunk.entry))) }
{
    match chunk {
        Chunk::Sack(sack) => Some(sack),
        _ => None,
    }
}

/// Whether the checksum in the header is that of the packet.
#[inline(always)]
fn has_right_checksum(octets: &[u8], header: &mut Header) -> bool
    requires { 12 ≤ length octets.now }
    ensures { result ≡ (checksum_field octets.now == checksum_of octets.now) }
{
    let field = u32::from_le_bytes([octets[8], octets[9], octets[10], octets[11]]);
    field == checksum(octets, header)
}

/// The checksum of a packet, with zeros in the checksum's place (RFC 9260 §6.8).
#[inline(always)]
pub(crate) fn checksum(octets: &[u8], header: &mut Header) -> u32
    requires { 12 ≤ length octets.now }
    ensures { result ≡ checksum_of octets.now }
{
    let Some((front, _)) = octets.split_first_chunk::<8>() else {
        unreachable!()
    };
    header.turn(front);
    !remainder(header.remainder(), &octets[HEADER_OCTETS..])
}

/// Whether INIT and INIT ACK stand alone, and a packet with INIT has the tag 0. Most packets have one chunk.
fn is_bundled_well(tag: Tag, body: Body<'_>) -> bool
    ensures { result ≡ is_bundled_well tag (items_of body.entry.items) }
{
    match body.alone {
        Some(item) => tag == 0 || type_of(item) != INIT,
        None => !has_beginning(body.items),
    }
}

/// Whether one of the chunks is INIT or INIT ACK.
fn has_beginning(items: Items<'_>) -> bool
    ensures { result ≡ (has_type INIT (items_of items.entry) || has_type INIT_ACK (items_of items.entry)) }
{
    'each_item: for item in items {
        let kind = type_of(item);
        if kind == INIT || kind == INIT_ACK {
            return true;
        }
    }
    false
}

/// The type of a chunk.
#[inline(always)]
fn type_of(item: Item<'_>) -> u8
    ensures { result ≡ type_of (item_of item.entry) }
{
    let [kind, _] = item.kind.to_be_bytes();
    kind
}
