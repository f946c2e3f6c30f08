//! Chunks, read from their items.

ghost use Rattle.std.specs.Prelude.{◌≡◌, ◌+◌, ◌*◌, ◌<◌, ◌≤◌, ◌==◌, length};
ghost use Rattle.sctp_codec.specs.Items.{number16_at, number32_at};
ghost use Rattle.sctp_codec.specs.Packets as value;
ghost use Rattle.sctp_codec.specs.Reading.{is_set, data_in, init_in, sack_in, shutdown_in, chunk_of, chunk_in};
ghost use Rattle.sctp_codec.specs.Reading.{chunk_or_malformed};
ghost use Rattle.sctp_codec.specs.Reading.{blocks_in, numbers_in};
ghost use Rattle.sctp_codec.specs.Values.{item_of, init_of, block_of, blocks_of, numbers_of, chunk_value, Gives};

use crate::item::Item;
use crate::items::Items;
use crate::layout::{
    ABORT, BEGINNING_BIT, BLOCK_OCTETS, COOKIE_ACK, COOKIE_ECHO, DATA, DATA_OCTETS, ENDING_BIT,
    ERROR, HEARTBEAT, HEARTBEAT_ACK, IMMEDIATE_BIT, INIT, INIT_ACK, INIT_OCTETS, REFLECTED_BIT,
    SACK, SACK_OCTETS, SHUTDOWN, SHUTDOWN_ACK, SHUTDOWN_COMPLETE, UNORDERED_BIT,
};

/// The tag that the packets to an end of an association have (RFC 9260 §1.3). 0 is none.
pub type Tag = u32;

/// The number of a DATA chunk, after the highest of which comes 0 (RFC 9260 §1.3, §1.6).
pub type Tsn = u32;

/// The number of a stream, from 0 on (RFC 9260 §1.3).
pub type StreamId = u16;

/// A DATA chunk (RFC 9260 §3.3.1).
#[derive(Clone, Copy)]
pub struct Data<'a> {
    /// Whether an acknowledgement is wanted at once.
    pub immediate: bool,
    /// Whether the message is unordered.
    pub unordered: bool,
    /// Whether the message begins in this chunk.
    pub begins: bool,
    /// Whether the message ends in this chunk.
    pub ends: bool,
    /// The number of the chunk.
    pub tsn: Tsn,
    /// The stream of the message.
    pub stream: StreamId,
    /// The number of the message in its stream.
    pub sequence: u16,
    /// The payload protocol identifier.
    pub protocol: u32,
    /// The user data: the message, or a part of it.
    pub octets: &'a [u8],
}

/// What an end offers in an INIT or an INIT ACK chunk (RFC 9260 §3.3.2, §3.3.3).
#[derive(Clone, Copy)]
pub struct Offer {
    /// The tag that it wants in each packet to it.
    pub tag: Tag,
    /// The advertised window, in octets.
    pub window: u32,
    /// How many streams it wants to send on.
    pub outgoing: u16,
    /// How many streams it takes at most.
    pub incoming: u16,
    /// The number of the first DATA chunk that it will send.
    pub first_tsn: Tsn,
}

/// An INIT or an INIT ACK chunk (RFC 9260 §3.3.2, §3.3.3).
#[derive(Clone, Copy)]
pub struct Init<'a> {
    /// What its sender offers.
    pub offer: Offer,
    /// The parameters, whole each.
    pub parameters: Items<'a>,
}

/// A SACK chunk (RFC 9260 §3.3.4).
#[derive(Clone, Copy)]
pub struct Sack<'a> {
    /// The last number before the first gap.
    pub cumulative: Tsn,
    /// The advertised window, in octets.
    pub window: u32,
    /// The DATA chunks that came out of turn.
    pub blocks: Blocks<'a>,
    /// The numbers of DATA chunks that came more than once.
    pub duplicates: Numbers<'a>,
}

/// DATA chunks one after another that came out of turn: the first and the last of them, counted from the
/// cumulative TSN (RFC 9260 §3.3.4).
#[derive(Clone, Copy)]
pub struct Block {
    /// The first.
    pub start: u16,
    /// The last.
    pub end: u16,
}

/// Gap blocks, one after another.
#[derive(Clone, Copy)]
pub struct Blocks<'a> {
    octets: &'a [u8],
}

impl Iterator for Blocks<'_> {
    type Item = Block;

    ghost use Rattle.std.specs.Iterator.{YieldsFirstBy, item_count};

    ghost next_gives = { YieldsFirstBy block_of blocks_of };

    ghost remaining = { item_count blocks_of };

    fn next(&mut self) -> Option<Block> {
        let [a, b, c, d, behind @ ..] = self.octets else {
            return None;
        };
        let block = Block {
            start: u16::from_be_bytes([*a, *b]),
            end: u16::from_be_bytes([*c, *d]),
        };
        self.octets = behind;
        Some(block)
    }
}

/// Numbers of DATA chunks, one after another.
#[derive(Clone, Copy)]
pub struct Numbers<'a> {
    octets: &'a [u8],
}

impl Iterator for Numbers<'_> {
    type Item = Tsn;

    ghost use Rattle.std.specs.Iterator.{YieldsFirst, item_count};

    ghost next_gives = { YieldsFirst numbers_of };

    ghost remaining = { item_count numbers_of };

    fn next(&mut self) -> Option<Tsn> {
        let [a, b, c, d, behind @ ..] = self.octets else {
            return None;
        };
        let number = u32::from_be_bytes([*a, *b, *c, *d]);
        self.octets = behind;
        Some(number)
    }
}

/// A chunk. Its octets are slices of the packet.
#[derive(Clone, Copy)]
pub enum Chunk<'a> {
    /// User data.
    Data(Data<'a>),
    /// The first chunk of a handshake.
    Init(Init<'a>),
    /// Its answer.
    InitAck(Init<'a>),
    /// What came.
    Sack(Sack<'a>),
    /// The heartbeat information, to be sent back (RFC 9260 §3.3.5).
    Heartbeat(&'a [u8]),
    /// The heartbeat information that was sent (RFC 9260 §3.3.6).
    HeartbeatAck(&'a [u8]),
    /// The end of the association (RFC 9260 §3.3.7).
    Abort {
        /// Whether the packet's tag is that of its receiver's peer, sent back.
        is_reflected: bool,
        /// The causes, which may be anything.
        causes: &'a [u8],
    },
    /// The sender has nothing more to send (RFC 9260 §3.3.8).
    Shutdown {
        /// The last number before the first gap.
        cumulative: Tsn,
    },
    /// Its answer (RFC 9260 §3.3.9).
    ShutdownAck,
    /// The causes of an error, whole each (RFC 9260 §3.3.10).
    Error(Items<'a>),
    /// The state cookie, sent back (RFC 9260 §3.3.11).
    CookieEcho(&'a [u8]),
    /// Its answer (RFC 9260 §3.3.12).
    CookieAck,
    /// The last chunk of a shutdown (RFC 9260 §3.3.13).
    ShutdownComplete {
        /// Whether the packet's tag is that of its receiver's peer, sent back.
        is_reflected: bool,
    },
    /// A chunk of a type that isn't known (RFC 9260 §3.2).
    Unknown {
        /// Its type.
        kind: u8,
        /// Its flags.
        flags: u8,
        /// Its value.
        value: &'a [u8],
    },
    /// A chunk of a known type whose value is too short for its fields, or whose parameters or causes aren't whole.
    Malformed {
        /// Its type.
        kind: u8,
    },
}

impl<'a> Chunk<'a> {
    /// What the item says as a chunk. Most are DATA or SACK, and these are read in their place.
    #[inline(always)]
    #[tactic(auto, unfolding(crate::specs::Reading::chunk_of))]
    pub(crate) fn read(item: Item<'a>) -> Chunk<'a>
        ensures { chunk_value result ≡ chunk_in (item_of item.entry) }
    {
        let [kind, flags] = item.kind.to_be_bytes();
        match kind {
            DATA => read_data(flags, item.value),
            SACK => read_sack(item.value),
            _ => Chunk::read_any(item),
        }
    }

    /// The same, by a call.
    #[inline(never)]
    #[tactic(auto, unfolding(crate::specs::Reading::chunk_of))]
    fn read_any(item: Item<'a>) -> Chunk<'a>
        ensures { chunk_value result ≡ chunk_in (item_of item.entry) }
    {
        let [kind, flags] = item.kind.to_be_bytes();
        let value = item.value;
        match kind {
            DATA => read_data(flags, value),
            INIT => read_init(value).map_or(Chunk::Malformed { kind }, Chunk::Init),
            INIT_ACK => read_init(value).map_or(Chunk::Malformed { kind }, Chunk::InitAck),
            SACK => read_sack(value),
            HEARTBEAT => Chunk::Heartbeat(value),
            HEARTBEAT_ACK => Chunk::HeartbeatAck(value),
            ABORT => Chunk::Abort {
                is_reflected: is_set(flags, REFLECTED_BIT),
                causes: value,
            },
            SHUTDOWN => read_shutdown(value),
            SHUTDOWN_ACK => Chunk::ShutdownAck,
            ERROR => Items::read(value).map_or(Chunk::Malformed { kind }, Chunk::Error),
            COOKIE_ECHO => Chunk::CookieEcho(value),
            COOKIE_ACK => Chunk::CookieAck,
            SHUTDOWN_COMPLETE => Chunk::ShutdownComplete {
                is_reflected: is_set(flags, REFLECTED_BIT),
            },
            _ => Chunk::Unknown { kind, flags, value },
        }
    }
}

#[inline(always)]
pub(crate) fn read_data(flags: u8, value: &[u8]) -> Chunk<'_>
    ensures { chunk_value result ≡ data_in flags value.now }
{
    if value.len() < DATA_OCTETS {
        return Chunk::Malformed { kind: DATA };
    }
    Chunk::Data(Data {
        immediate: is_set(flags, IMMEDIATE_BIT),
        unordered: is_set(flags, UNORDERED_BIT),
        begins: is_set(flags, BEGINNING_BIT),
        ends: is_set(flags, ENDING_BIT),
        tsn: number32_at(value, 0),
        stream: number16_at(value, 4),
        sequence: number16_at(value, 6),
        protocol: number32_at(value, 8),
        octets: &value[DATA_OCTETS..],
    })
}

/// What an INIT or INIT ACK chunk of this value says. None if it is too short, or its parameters aren't whole.
fn read_init(value: &[u8]) -> Option<Init<'_>>
    ensures { Gives init_of result (init_in value.now) }
{
    if value.len() < INIT_OCTETS {
        return None;
    }
    let parameters = Items::read(&value[INIT_OCTETS..])?;
    let offer = Offer {
        tag: number32_at(value, 0),
        window: number32_at(value, 4),
        outgoing: number16_at(value, 8),
        incoming: number16_at(value, 10),
        first_tsn: number32_at(value, 12),
    };
    Some(Init { offer, parameters })
}

#[inline(always)]
pub(crate) fn read_sack(value: &[u8]) -> Chunk<'_>
    ensures { chunk_value result ≡ sack_in value.now }
{
    let malformed = Chunk::Malformed { kind: SACK };
    if value.len() < SACK_OCTETS {
        return malformed;
    }
    let blocks_end = SACK_OCTETS + BLOCK_OCTETS * usize::from(number16_at(value, 8));
    let end = blocks_end + BLOCK_OCTETS * usize::from(number16_at(value, 10));
    if value.len() < end {
        return malformed;
    }
    Chunk::Sack(Sack {
        cumulative: number32_at(value, 0),
        window: number32_at(value, 4),
        blocks: Blocks {
            octets: &value[SACK_OCTETS..blocks_end],
        },
        duplicates: Numbers {
            octets: &value[blocks_end..end],
        },
    })
}

fn read_shutdown(value: &[u8]) -> Chunk<'_>
    ensures { chunk_value result ≡ shutdown_in value.now }
{
    match value {
        [a, b, c, d, ..] => Chunk::Shutdown {
            cumulative: u32::from_be_bytes([*a, *b, *c, *d]),
        },
        _ => Chunk::Malformed { kind: SHUTDOWN },
    }
}

/// Whether a bit of an octet is set, the lowest being bit 0.
#[inline(always)]
fn is_set(octet: u8, bit: u32) -> bool
    requires { bit < 8 }
    ensures { result ≡ is_set octet bit }
{
    (octet >> bit) % 2 == 1
}

/// The 16-bit number at an offset.
#[inline(always)]
pub(crate) fn number16_at(octets: &[u8], at: usize) -> u16
    requires { at + 2 ≤ length octets.now }
    ensures { result ≡ number16_at octets.now at }
{
    u16::from_be_bytes([octets[at], octets[at + 1]])
}

/// The 32-bit number at an offset.
#[inline(always)]
pub(crate) fn number32_at(octets: &[u8], at: usize) -> u32
    requires { at + 4 ≤ length octets.now }
    ensures { result ≡ number32_at octets.now at }
{
    u32::from_be_bytes([octets[at], octets[at + 1], octets[at + 2], octets[at + 3]])
}
