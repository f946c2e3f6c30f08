//! Packets written into a buffer: the header, chunk by chunk, and last the checksum.

ghost use Rattle.std.specs.Prelude.{◌≡◌, ℕ, ◌+◌, ◌-◌, ◌*◌, ◌<◌, ◌≤◌, ◌^◌, List, [], ◌∷◌, ◌++◌, length, take};
ghost use Rattle.std.specs.Prelude.{map, replicate};
ghost use Rattle.std.specs.Int.{w16, w32, to_be_bytes};
ghost use Rattle.sctp_codec.specs.Items.{ItemValue, padding_behind, item_octets, padded_item};
ghost use Rattle.sctp_codec.specs.Packets as value;
ghost use Rattle.std.specs.Prelude.{false, true};
ghost use Rattle.std.specs.List.{flat_map};
ghost use Rattle.sctp_codec.specs.Writing.{header_octets, headed, chunk_octets, bit, data_octets};
ghost use Rattle.sctp_codec.specs.Writing.{block_octets};
ghost use Rattle.sctp_codec.specs.Parameters.{cause_item};
ghost use Rattle.sctp_codec.specs.Values.{data_of, block_of};
ghost use Rattle.sctp_codec.specs.Causes.{cause_of};

use crate::cause::{Cause, CauseParts};
use crate::chunk::{Block, Data, Tag, Tsn};
use crate::header::Header;
use crate::item::{numbered, padding_behind};
use crate::layout::{
    ABORT, BEGINNING_BIT, BLOCK_OCTETS, CHECKSUM_AT, COOKIE_ACK, COOKIE_ECHO, DATA, DATA_OCTETS,
    ENDING_BIT, ERROR, HEADER_OCTETS, HEARTBEAT, HEARTBEAT_ACK, IMMEDIATE_BIT, ITEM_HEADER_OCTETS,
    REFLECTED_BIT, SACK, SACK_OCTETS, SHUTDOWN, SHUTDOWN_ACK, SHUTDOWN_COMPLETE, UNORDERED_BIT,
    WORD_OCTETS,
};
use crate::packet::checksum;
use crc32c::crc32c;

/// Octets of the longest packet that is written.
pub const PACKET_OCTETS: usize = 1200;

/// A packet that is being written, from its front on. What is after it may be anything.
pub type PacketBuffer = [u8; PACKET_OCTETS];

/// Writes the header of a packet, with no checksum yet, and returns the offset after it (RFC 9260 §3.1).
pub fn begin(out: &mut PacketBuffer, source: u16, destination: u16, tag: Tag) -> usize
    ensures count { result ≡ 12 }
    ensures text { take result out.new ≡ header_octets source destination tag 0 }
{
    let at = write_at(out, 0, &source.to_be_bytes());
    let at = write_at(out, at, &destination.to_be_bytes());
    let at = write_at(out, at, &tag.to_be_bytes());
    write_at(out, at, &[0; 4])
}

/// Writes the checksum of a packet that ends at this offset, into its header (RFC 9260 §6.8).
pub fn finish(out: &mut PacketBuffer, end: usize)
    requires front { 12 ≤ end }
    requires room { end ≤ 1200 }
    ensures { (source destination tag : ℕ) (chunks : List ℕ)
        → take end out.old ≡ header_octets source destination tag 0 ++ chunks
        → take end out.new ≡ headed source destination tag chunks }
{
    let checksum = crc32c(&out[..end]);
    out[CHECKSUM_AT..HEADER_OCTETS].copy_from_slice(&checksum.to_le_bytes());
}

/// The same, for which the last header is kept.
#[inline(always)]
pub fn finish_behind(out: &mut PacketBuffer, end: usize, header: &mut Header)
    requires front { 12 ≤ end }
    requires room { end ≤ 1200 }
    ensures { (source destination tag : ℕ) (chunks : List ℕ)
        → take end out.old ≡ header_octets source destination tag 0 ++ chunks
        → take end out.new ≡ headed source destination tag chunks }
{
    let checksum = checksum(&out[..end], header);
    out[CHECKSUM_AT..HEADER_OCTETS].copy_from_slice(&checksum.to_le_bytes());
}

/// Writes a DATA chunk at an offset, and returns the offset after it (RFC 9260 §3.3.1).
pub fn write_data(out: &mut PacketBuffer, at: usize, carried: &Data<'_>) -> usize
    requires { at + length (chunk_octets (value.DataChunk (data_of carried.now))) ≤ 1200 }
    ensures count { result ≡ at + length (chunk_octets (value.DataChunk (data_of carried.now))) }
    ensures text { take result out.new ≡ take at out.old ++ chunk_octets (value.DataChunk (data_of carried.now)) }
{
    let flags = bit(carried.ends, ENDING_BIT)
        + bit(carried.begins, BEGINNING_BIT)
        + bit(carried.unordered, UNORDERED_BIT)
        + bit(carried.immediate, IMMEDIATE_BIT);
    let octets = octets_of_data(carried);
    let at = write_front(out, at, numbered(DATA, flags), octets);
    let at = write_data_value(out, at, carried);
    write_padding(out, at, octets)
}

/// How many octets the value of a DATA chunk has.
#[inline(always)]
fn octets_of_data(carried: &Data<'_>) -> usize
    ensures { result ≡ length (data_octets (data_of carried.now)) }
{
    DATA_OCTETS + carried.octets.len()
}

/// Writes the value of a DATA chunk at an offset, and returns the offset after it.
#[inline(always)]
fn write_data_value(out: &mut PacketBuffer, at: usize, carried: &Data<'_>) -> usize
    requires { at + length (data_octets (data_of carried.now)) ≤ 1200 }
    ensures count { result ≡ at + length (data_octets (data_of carried.now)) }
    ensures text { take result out.new ≡ take at out.old ++ data_octets (data_of carried.now) }
{
    let at = write_at(out, at, &carried.tsn.to_be_bytes());
    let at = write_at(out, at, &carried.stream.to_be_bytes());
    let at = write_at(out, at, &carried.sequence.to_be_bytes());
    let at = write_at(out, at, &carried.protocol.to_be_bytes());
    write_at(out, at, carried.octets)
}

/// Writes a SACK chunk with these gap blocks and duplicates at an offset, and returns the offset after it (RFC 9260
/// §3.3.4).
pub fn write_sack(
    out: &mut PacketBuffer,
    at: usize,
    cumulative: Tsn,
    window: u32,
    blocks: &[Block],
    duplicates: &[Tsn],
) -> usize
    requires { at + 16 + 4 * length blocks.now + 4 * length duplicates.now ≤ 1200 }
    ensures count { result ≡ at + 16 + 4 * length blocks.now + 4 * length duplicates.now }
    ensures text { take result out.new ≡ take at out.old ++ chunk_octets (value.SackChunk (record {
      cumulative = cumulative;
      window = window;
      blocks = map block_of blocks.now;
      duplicates = duplicates.now;
    })) }
{
    let octets = SACK_OCTETS + BLOCK_OCTETS * blocks.len() + BLOCK_OCTETS * duplicates.len();
    let at = write_front(out, at, numbered(SACK, 0), octets);
    let at = write_at(out, at, &cumulative.to_be_bytes());
    let at = write_at(out, at, &window.to_be_bytes());
    let at = write_at(out, at, &(blocks.len() as u16).to_be_bytes());
    let at = write_at(out, at, &(duplicates.len() as u16).to_be_bytes());
    let at = write_blocks(out, at, blocks);
    write_numbers(out, at, duplicates)
}

/// Writes gap blocks at an offset, and returns the offset after them.
fn write_blocks(out: &mut PacketBuffer, at: usize, blocks: &[Block]) -> usize
    requires { at + 4 * length blocks.now ≤ 1200 }
    ensures count { result ≡ at + 4 * length blocks.now }
    ensures text { take result out.new ≡ take at out.old ++ flat_map block_octets (map block_of blocks.now) }
{
    let mut end = at;
    'each_block: for block in blocks {
        end = write_block(out, end, *block);
    }
    end
}

/// Writes a gap block at an offset, and returns the offset after it.
#[inline(always)]
fn write_block(out: &mut PacketBuffer, at: usize, block: Block) -> usize
    requires { at + 4 ≤ 1200 }
    ensures count { result ≡ at + 4 }
    ensures text { take result out.new ≡ take at out.old ++ block_octets (block_of block) }
{
    let at = write_at(out, at, &block.start.to_be_bytes());
    write_at(out, at, &block.end.to_be_bytes())
}

/// Writes 32-bit numbers at an offset, and returns the offset after them.
fn write_numbers(out: &mut PacketBuffer, at: usize, numbers: &[u32]) -> usize
    requires { at + 4 * length numbers.now ≤ 1200 }
    ensures count { result ≡ at + 4 * length numbers.now }
    ensures text { take result out.new ≡ take at out.old ++ flat_map (to_be_bytes w32) numbers.now }
{
    let mut end = at;
    'each_number: for number in numbers {
        end = write_number(out, end, *number);
    }
    end
}

/// Writes a 32-bit number at an offset, and returns the offset after it.
#[inline(always)]
fn write_number(out: &mut PacketBuffer, at: usize, number: u32) -> usize
    requires { at + 4 ≤ 1200 }
    ensures count { result ≡ at + 4 }
    ensures text { take result out.new ≡ take at out.old ++ to_be_bytes w32 number }
{
    write_at(out, at, &number.to_be_bytes())
}

/// Writes an ABORT chunk with this cause at an offset, and returns the offset after it (RFC 9260 §3.3.7).
pub fn write_abort(out: &mut PacketBuffer, at: usize, cause: &Cause<'_>) -> usize
    requires { at + length (chunk_octets (value.AbortChunk false (item_octets (cause_item (cause_of cause.now)))))
        ≤ 1200 }
    ensures count { result
        ≡ at + length (chunk_octets (value.AbortChunk false (item_octets (cause_item (cause_of cause.now))))) }
    ensures text { take result out.new
        ≡ take at out.old ++ chunk_octets (value.AbortChunk false (item_octets (cause_item (cause_of cause.now)))) }
{
    write_cause(out, at, numbered(ABORT, 0), cause)
}

/// Writes an ABORT chunk without a cause, whose tag is reflected, at an offset, and returns the offset after it (RFC
/// 9260 §3.3.7, §8.4).
pub fn write_reflected_abort(out: &mut PacketBuffer, at: usize) -> usize
    requires { at + 4 ≤ 1200 }
    ensures count { result ≡ at + 4 }
    ensures text { take result out.new ≡ take at out.old ++ chunk_octets (value.AbortChunk true []) }
{
    write_item(out, at, numbered(ABORT, bit(true, REFLECTED_BIT)), &[])
}

/// Writes an ERROR chunk with this cause at an offset, and returns the offset after it (RFC 9260 §3.3.10).
pub fn write_error(out: &mut PacketBuffer, at: usize, cause: &Cause<'_>) -> usize
    requires { at + length (chunk_octets (value.ErrorChunk (cause_item (cause_of cause.now) ∷ []))) ≤ 1200 }
    ensures count { result ≡ at + length (chunk_octets (value.ErrorChunk (cause_item (cause_of cause.now) ∷ []))) }
    ensures text { take result out.new
        ≡ take at out.old ++ chunk_octets (value.ErrorChunk (cause_item (cause_of cause.now) ∷ [])) }
{
    write_cause(out, at, numbered(ERROR, 0), cause)
}

/// Writes a chunk of this number whose value is this cause, and returns the offset after it.
fn write_cause(out: &mut PacketBuffer, at: usize, kind: u16, cause: &Cause<'_>) -> usize
    requires { at + length (padded_item (record { kind = kind; value = item_octets (cause_item (cause_of cause.now)) }))
        ≤ 1200 }
    ensures count { result
        ≡ at + length (padded_item (record { kind = kind; value = item_octets (cause_item (cause_of cause.now)) })) }
    ensures text { take result out.new
        ≡ take at out.old
        ++ padded_item (record { kind = kind; value = item_octets (cause_item (cause_of cause.now)) }) }
{
    let CauseParts {
        code,
        front,
        behind,
    } = cause.parts();
    let front: &[u8] = match &front {
        Some(octets) => octets,
        None => &[],
    };
    let octets = front.len() + behind.len();
    let at = write_front(out, at, kind, ITEM_HEADER_OCTETS + octets);
    let at = write_front(out, at, code, octets);
    let at = write_at(out, at, front);
    let at = write_at(out, at, behind);
    write_padding(out, at, octets)
}

/// Writes a SHUTDOWN chunk at an offset, and returns the offset after it (RFC 9260 §3.3.8).
pub fn write_shutdown(out: &mut PacketBuffer, at: usize, cumulative: Tsn) -> usize
    requires { at + 8 ≤ 1200 }
    ensures count { result ≡ at + 8 }
    ensures text { take result out.new ≡ take at out.old ++ chunk_octets (value.ShutdownChunk cumulative) }
{
    write_item(out, at, numbered(SHUTDOWN, 0), &cumulative.to_be_bytes())
}

/// Writes a SHUTDOWN ACK chunk at an offset, and returns the offset after it (RFC 9260 §3.3.9).
pub fn write_shutdown_ack(out: &mut PacketBuffer, at: usize) -> usize
    requires { at + 4 ≤ 1200 }
    ensures count { result ≡ at + 4 }
    ensures text { take result out.new ≡ take at out.old ++ chunk_octets value.ShutdownAckChunk }
{
    write_item(out, at, numbered(SHUTDOWN_ACK, 0), &[])
}

/// Writes a SHUTDOWN COMPLETE chunk at an offset, and returns the offset after it (RFC 9260 §3.3.13).
pub fn write_shutdown_complete(out: &mut PacketBuffer, at: usize, is_reflected: bool) -> usize
    requires { at + 4 ≤ 1200 }
    ensures count { result ≡ at + 4 }
    ensures text { take result out.new ≡ take at out.old ++ chunk_octets (value.ShutdownCompleteChunk is_reflected) }
{
    write_item(
        out,
        at,
        numbered(SHUTDOWN_COMPLETE, bit(is_reflected, REFLECTED_BIT)),
        &[],
    )
}

/// Writes a COOKIE ECHO chunk at an offset, and returns the offset after it (RFC 9260 §3.3.11).
pub fn write_cookie_echo(out: &mut PacketBuffer, at: usize, cookie: &[u8]) -> usize
    requires { at + length (chunk_octets (value.CookieEchoChunk cookie.now)) ≤ 1200 }
    ensures count { result ≡ at + length (chunk_octets (value.CookieEchoChunk cookie.now)) }
    ensures text { take result out.new ≡ take at out.old ++ chunk_octets (value.CookieEchoChunk cookie.now) }
{
    write_item(out, at, numbered(COOKIE_ECHO, 0), cookie)
}

/// Writes a COOKIE ACK chunk at an offset, and returns the offset after it (RFC 9260 §3.3.12).
pub fn write_cookie_ack(out: &mut PacketBuffer, at: usize) -> usize
    requires { at + 4 ≤ 1200 }
    ensures count { result ≡ at + 4 }
    ensures text { take result out.new ≡ take at out.old ++ chunk_octets value.CookieAckChunk }
{
    write_item(out, at, numbered(COOKIE_ACK, 0), &[])
}

/// Writes a HEARTBEAT chunk at an offset, and returns the offset after it (RFC 9260 §3.3.5).
pub fn write_heartbeat(out: &mut PacketBuffer, at: usize, information: &[u8]) -> usize
    requires { at + length (chunk_octets (value.HeartbeatChunk information.now)) ≤ 1200 }
    ensures count { result ≡ at + length (chunk_octets (value.HeartbeatChunk information.now)) }
    ensures text { take result out.new ≡ take at out.old ++ chunk_octets (value.HeartbeatChunk information.now) }
{
    write_item(out, at, numbered(HEARTBEAT, 0), information)
}

/// Writes a HEARTBEAT ACK chunk at an offset, and returns the offset after it (RFC 9260 §3.3.6).
pub fn write_heartbeat_ack(out: &mut PacketBuffer, at: usize, information: &[u8]) -> usize
    requires { at + length (chunk_octets (value.HeartbeatAckChunk information.now)) ≤ 1200 }
    ensures count { result ≡ at + length (chunk_octets (value.HeartbeatAckChunk information.now)) }
    ensures text { take result out.new ≡ take at out.old ++ chunk_octets (value.HeartbeatAckChunk information.now) }
{
    write_item(out, at, numbered(HEARTBEAT_ACK, 0), information)
}

/// An octet with this bit, if it is set, and no other.
#[inline(always)]
fn bit(set: bool, number: u32) -> u8
    requires { number < 4 }
    ensures value { result ≡ bit set number }
    ensures small { result ≤ 2 ^ number }
{
    if set { 1 << number } else { 0 }
}

/// Writes an item with this number and value, padded, at an offset, and returns the offset after it.
#[inline(always)]
pub(crate) fn write_item(out: &mut PacketBuffer, at: usize, kind: u16, value: &[u8]) -> usize
    requires { at + 4 + length value.now + padding_behind (length value.now) ≤ 1200 }
    ensures count { result ≡ at + 4 + length value.now + padding_behind (length value.now) }
    ensures text { take result out.new ≡ take at out.old ++ padded_item (record { kind = kind; value = value.now }) }
{
    let at = write_front(out, at, kind, value.len());
    let at = write_at(out, at, value);
    write_padding(out, at, value.len())
}

/// Writes the number of an item and its length, for a value of this many octets, and returns the offset after them.
#[inline(always)]
pub(crate) fn write_front(out: &mut PacketBuffer, at: usize, kind: u16, octets: usize) -> usize
    requires { at + 4 + octets ≤ 1200 }
    ensures count { result ≡ at + 4 }
    ensures text { take result out.new ≡ take at out.old ++ (to_be_bytes w16 kind ++ to_be_bytes w16 (4 + octets)) }
{
    let length = (ITEM_HEADER_OCTETS + octets) as u16;
    let at = write_at(out, at, &kind.to_be_bytes());
    write_at(out, at, &length.to_be_bytes())
}

/// Writes the zeros after a value of this many octets, and returns the offset after them.
#[inline(always)]
fn write_padding(out: &mut PacketBuffer, at: usize, octets: usize) -> usize
    requires { at + padding_behind octets ≤ 1200 }
    ensures count { result ≡ at + padding_behind octets }
    ensures text { take result out.new ≡ take at out.old ++ replicate (padding_behind octets) 0 }
{
    write_zeros(out, at, padding_behind(octets))
}

/// Writes fewer than four zeros, and returns the offset after them.
#[inline(always)]
pub(crate) fn write_zeros(out: &mut PacketBuffer, at: usize, count: usize) -> usize
    requires few { count < 4 }
    requires room { at + count ≤ 1200 }
    ensures count { result ≡ at + count }
    ensures text { take result out.new ≡ take at out.old ++ replicate count 0 }
{
    let zeros = [0; WORD_OCTETS];
    if at + WORD_OCTETS <= PACKET_OCTETS {
        // One store takes less than a copy of this many octets, and what is after them may be anything.
        write_at(out, at, &zeros);
        at + count
    } else {
        write_at(out, at, &zeros[..count])
    }
}

/// Writes the octets at an offset, and returns the offset after them.
#[inline(always)]
pub(crate) fn write_at(out: &mut PacketBuffer, at: usize, octets: &[u8]) -> usize
    requires { at + length octets.now ≤ 1200 }
    ensures count { result ≡ at + length octets.now }
    ensures text { take result out.new ≡ take at out.old ++ octets.now }
{
    let end = at + octets.len();
    out[at..end].copy_from_slice(octets);
    end
}
