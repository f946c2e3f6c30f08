//! Frames as the packets of a capture file, which tools such as Wireshark open.

ghost use Rattle.std.specs.Prelude.{◌≡◌, ◌+◌, ◌≤◌, ◌<◌, ◌++◌, length, take, replicate};
ghost use Rattle.std.specs.Duration.{as_nanos};
ghost use Rattle.trace.specs.Packets.{file_header, record_header, common_header, chunk_header, padding, packet_octets};
ghost use Rattle.trace.specs.Packets.{packet_length, chunk_front, chunk_stream};

use crate::direction::Direction;
use crate::observed_frame::ObservedFrame;
use crate::writing::write_at;
use signalling_types::{Limits, LinkId};
use std::time::Duration;

/// Octets of the header of a capture file.
pub const FILE_HEADER_OCTETS: usize = 24;

/// Octets of the header of a packet in a capture file.
pub const RECORD_HEADER_OCTETS: usize = 16;

/// Octets of the common header of SCTP (RFC 9260 §3.1).
const COMMON_HEADER_OCTETS: usize = 12;

/// Octets of the header of a DATA chunk (RFC 9260 §3.3.1).
const CHUNK_HEADER_OCTETS: usize = 16;

/// Octets of a packet with its header, at most.
pub const PACKET_OCTETS: usize = RECORD_HEADER_OCTETS
    + COMMON_HEADER_OCTETS
    + CHUNK_HEADER_OCTETS
    + Limits::FRAME_OCTETS;

/// Octets of a packet of SCTP that passed, at most: those that a datagram of UDP may have.
pub const WIRE_OCTETS: usize = 65_535;

/// The port of this node: that of M2PA (RFC 4165 §7.1).
const NODE_PORT: u16 = 3565;

/// The port of the far end of link 0; each next link's is one more.
const FAR_PORT: u16 = 4000;

/// The type of a DATA chunk (RFC 9260 §3.3.1).
const DATA: u8 = 0;

/// The flags of a DATA chunk that has the beginning and the end of its message (RFC 9260 §3.3.1).
const WHOLE: u8 = 3;

/// The payload protocol identifier of M2PA (RFC 4165 §7.1).
const M2PA: u32 = 5;

/// A chunk is padded to a multiple of this many octets (RFC 9260 §3.2).
const ALIGNMENT: usize = 4;

/// The header of a capture file: pcap 2.4, low octet first, of SCTP packets.
pub fn file_header() -> [u8; FILE_HEADER_OCTETS]
    ensures { result ≡ file_header }
{
    [
        // Low octet first, with times in microseconds.
        0xd4, 0xc3, 0xb2, 0xa1,
        // Version 2.4.
        2, 0, 4, 0,
        // No correction of the times, and no claim about their accuracy.
        0, 0, 0, 0, 0, 0, 0, 0,
        // Packets of 65,535 octets at most.
        0xff, 0xff, 0, 0,
        // Packets begin with the common header of SCTP (link type 248).
        248, 0, 0, 0,
    ]
}

/// Writes a frame that passed on a link as one packet of a capture file at the front of the buffer, and returns how
/// many octets it has. The buffer after it may hold anything afterwards.
///
/// `time` is since 1970. `number` is the packet's transmission sequence number: one more with each packet
/// of the link and the direction. The packet is one SCTP packet with one DATA chunk of payload protocol 5,
/// without addresses and without a checksum. This node's port is 3565, and that of the far end 4000 and the
/// link's number.
pub fn packet(
    buffer: &mut [u8; PACKET_OCTETS],
    time: Duration,
    link: LinkId,
    direction: Direction,
    number: u32,
    frame: &ObservedFrame<'_>,
) -> usize
    requires { length frame.now ≤ Limits.FRAME_OCTETS }
    ensures count { result ≡ length (packet_octets (as_nanos time) link direction number frame.now) }
    ensures text { take result buffer.new ≡ packet_octets (as_nanos time) link direction number frame.now }
{
    let octets = frame.octets();
    let at = write_at(buffer, 0, &record_header(time, packet_length(octets.len())));
    let at = write_common_header(buffer, at, link, direction);
    let at = write_chunk_header(buffer, at, number, frame);
    let at = write_at(buffer, at, octets);
    write_padding(buffer, at, padding(octets.len()))
}

/// How many octets of padding follow a frame of this many.
fn padding(octets: usize) -> usize
    requires { octets ≤ Limits.FRAME_OCTETS }
    ensures padding { result ≡ padding octets }
    ensures few { result < 4 }
    ensures room { octets + result ≤ Limits.FRAME_OCTETS }
{
    (ALIGNMENT - octets % ALIGNMENT) % ALIGNMENT
}

/// Octets of the packet of a frame of this many, without the record header.
fn packet_length(octets: usize) -> u32
    requires { octets ≤ Limits.FRAME_OCTETS }
    ensures { result ≡ packet_length octets }
{
    (COMMON_HEADER_OCTETS + CHUNK_HEADER_OCTETS + octets + padding(octets)) as u32
}

/// The header of a packet of this many octets, which passed this long after 1970.
pub(crate) fn record_header(time: Duration, octets: u32) -> [u8; RECORD_HEADER_OCTETS]
    ensures { result ≡ record_header (as_nanos time) octets }
{
    let mut header = [0; RECORD_HEADER_OCTETS];
    let at = write_at(
        &mut header,
        0,
        &((time.as_secs() % (1 << 32)) as u32).to_le_bytes(),
    );
    let at = write_at(&mut header, at, &time.subsec_micros().to_le_bytes());
    let at = write_at(&mut header, at, &octets.to_le_bytes());
    let _end = write_at(&mut header, at, &octets.to_le_bytes());
    header
}

/// Writes the common header of SCTP, and returns the offset after it.
fn write_common_header(
    out: &mut [u8; PACKET_OCTETS],
    at: usize,
    link: LinkId,
    direction: Direction,
) -> usize
    requires { at ≡ 16 }
    ensures count { result ≡ at + 12 }
    ensures text { take result out.new ≡ take at out.old ++ common_header link direction }
{
    let far = FAR_PORT + link.index() as u16;
    let (source, destination) = match direction {
        Direction::In => (far, NODE_PORT),
        Direction::Out => (NODE_PORT, far),
    };
    let at = write_at(out, at, &source.to_be_bytes());
    let at = write_at(out, at, &destination.to_be_bytes());
    let at = write_at(out, at, &u32::from(far).to_be_bytes());
    write_at(out, at, &[0; 4])
}

/// Writes the header of the DATA chunk of a frame, and returns the offset after it.
fn write_chunk_header(
    out: &mut [u8; PACKET_OCTETS],
    at: usize,
    number: u32,
    frame: &ObservedFrame<'_>,
) -> usize
    requires place { at ≡ 28 }
    requires few { length frame.now ≤ Limits.FRAME_OCTETS }
    ensures count { result ≡ at + 16 }
    ensures text { take result out.new ≡ take at out.old ++ chunk_header number frame.now }
{
    let length = (CHUNK_HEADER_OCTETS + frame.octets().len()) as u16;
    let at = write_chunk_front(out, at, length, number);
    write_chunk_stream(out, at, frame.stream(), (number % (1 << 16)) as u16)
}

/// Writes the front of the header of a DATA chunk, and returns the offset after it.
fn write_chunk_front(out: &mut [u8; PACKET_OCTETS], at: usize, length: u16, number: u32) -> usize
    requires { at ≡ 28 }
    ensures count { result ≡ at + 8 }
    ensures text { take result out.new ≡ take at out.old ++ chunk_front length number }
{
    let at = write_at(out, at, &[DATA, WHOLE]);
    let at = write_at(out, at, &length.to_be_bytes());
    write_at(out, at, &number.to_be_bytes())
}

/// Writes what the header of a DATA chunk says of its stream, and returns the offset after it.
fn write_chunk_stream(out: &mut [u8; PACKET_OCTETS], at: usize, stream: u16, number: u16) -> usize
    requires { at ≡ 36 }
    ensures count { result ≡ at + 8 }
    ensures text { take result out.new ≡ take at out.old ++ chunk_stream stream number }
{
    let at = write_at(out, at, &stream.to_be_bytes());
    let at = write_at(out, at, &number.to_be_bytes());
    write_at(out, at, &M2PA.to_be_bytes())
}

/// Writes this many octets of padding at an offset, and returns the offset after them.
fn write_padding(out: &mut [u8; PACKET_OCTETS], at: usize, count: usize) -> usize
    requires few { count < 4 }
    requires room { at + count ≤ PACKET_OCTETS }
    ensures count { result ≡ at + count }
    ensures text { take result out.new ≡ take at out.old ++ replicate count 0 }
{
    write_at(out, at, &[0; ALIGNMENT][..count])
}
