//! Frames written into a buffer.

ghost use Rattle.std.specs.Prelude.{◌≡◌, ◌+◌, ◌<◌, ◌≤◌, ◌^◌, ◌++◌, length, take, Ok};
ghost use Rattle.m2pa_codec.specs.Frames.{common_header, number_header, bsn_of, fsn_of, sif_of, spelled, IsFrame, read_frame};
ghost use Rattle.m2pa_codec.specs.Values.{value_of};

use crate::frame::{BUFFER_OCTETS, Frame};
use crate::layout::{
    CLASS, HEADER_OCTETS, LINK_STATUS, MESSAGE_HEADER_OCTETS, SPARE, STATUS_OCTETS, USER_DATA,
    VERSION,
};
use signalling_types::{Limits, Number24};

/// Writes the frame at the front of the buffer, and returns how many octets it has: 16; 18 and those of the message's
/// field; or 20 for a link status. Spare, unused and priority octets are 0, and no filler is written. The buffer after
/// the frame may hold anything afterwards (RFC 4165 §2).
#[inline(always)]
pub fn encode(frame: &Frame<'_>, out: &mut [u8; BUFFER_OCTETS]) -> usize
    requires { length (sif_of (value_of frame.now)) ≤ Limits.SIF_OCTETS }
    ensures count { result ≡ length (spelled (value_of frame.now)) }
    ensures text { take result out.new ≡ spelled (value_of frame.now) }
    ensures room { result ≤ 18 + Limits.SIF_OCTETS }
    ensures frame { IsFrame (take result out.new) (value_of frame.now) }
    ensures back { read_frame (take result out.new) ≡ Ok (value_of frame.now) }
{
    write(frame, out)
}

/// Writes the frame at the front of the buffer.
#[inline(always)]
fn write(frame: &Frame<'_>, out: &mut [u8; BUFFER_OCTETS]) -> usize
    requires { length (sif_of (value_of frame.now)) ≤ Limits.SIF_OCTETS }
    ensures count { result ≡ length (spelled (value_of frame.now)) }
    ensures text { take result out.new ≡ spelled (value_of frame.now) }
    ensures room { result ≤ 18 + Limits.SIF_OCTETS }
    ensures bsn { bsn_of (value_of frame.now) < 2 ^ 24 }
    ensures fsn { fsn_of (value_of frame.now) < 2 ^ 24 }
{
    match *frame {
        Frame::Empty { bsn, fsn } => {
            write_header(out, USER_DATA, HEADER_OCTETS as u32, bsn, fsn)
        }
        Frame::Message { bsn, fsn, sio, sif } => {
            let octets = (MESSAGE_HEADER_OCTETS + sif.len()) as u32;
            let at = write_header(out, USER_DATA, octets, bsn, fsn);
            let at = write_at(out, at, &[SPARE, sio]);
            write_at(out, at, sif)
        }
        Frame::Status { bsn, fsn, status } => {
            let at = write_header(out, LINK_STATUS, STATUS_OCTETS as u32, bsn, fsn);
            write_at(out, at, &status.number().to_be_bytes())
        }
    }
}

/// Writes both headers of a frame of this message type, of this many octets in all, and returns the offset after them.
#[inline(always)]
fn write_header(
    out: &mut [u8; BUFFER_OCTETS],
    kind: u8,
    octets: u32,
    bsn: Number24,
    fsn: Number24,
) -> usize
    ensures count { result ≡ 16 }
    ensures text { take result out.new ≡ common_header 0 kind octets ++ number_header 0 bsn 0 fsn }
    ensures bsn { bsn < 2 ^ 24 }
    ensures fsn { fsn < 2 ^ 24 }
{
    let at = write_at(out, 0, &[VERSION, SPARE, CLASS, kind]);
    let at = write_at(out, at, &octets.to_be_bytes());
    let at = write_at(out, at, &bsn.to_four_octets());
    write_at(out, at, &fsn.to_four_octets())
}

/// Writes the octets at an offset, and returns the offset after them.
#[inline(always)]
fn write_at(out: &mut [u8; BUFFER_OCTETS], at: usize, octets: &[u8]) -> usize
    requires { at + length octets.now ≤ 300 }
    ensures count { result ≡ at + length octets.now }
    ensures text { take result out.new ≡ take at out.old ++ octets.now }
{
    let end = at + octets.len();
    out[at..end].copy_from_slice(octets);
    end
}
