//! Frames read from their octets.

ghost use Rattle.std.specs.Prelude.{◌≡◌, ℕ, ◌+◌, ◌≤◌, ◌<◌, ◌^◌, List, length, slice_index, IfOk, IfErr, IsOkAnd, OnOk, Some, None};
ghost use Rattle.m2pa_codec.specs.Frames.{FrameValue, IsFrame, bsn_of, fsn_of, sif_of, number_field, header_fault, read_frame, fault_of};
ghost use Rattle.m2pa_codec.specs.Values.{value_of, Answers};
ghost use Rattle.m2pa_codec.specs.Types.{type_number};

use crate::frame::Frame;
use crate::layout::{BSN_AT, CLASS, FSN_AT, HEADER_OCTETS, LINK_STATUS, USER_DATA, VERSION};
use crate::status::LinkStatus;
use signalling_types::{FrameFault, Number24};

/// The frame that the octets are, all of them, or their first fault (RFC 4165 §2).
///
/// Faults in this order: Short under 8 octets; Length if the length field isn't the number of octets; Version if the
/// version isn't 1; Unknown if the class isn't 11 or the message type is neither 1 nor 2; Short under 16 octets, for
/// User Data with a single octet after these, and for Link Status under 20 octets; Unknown if its state isn't 1 to 9.
/// Spare, unused and priority octets and the filler of a link status may be any, and a message's field may have any
/// length.
pub fn decode(octets: &[u8]) -> Result<Frame<'_>, FrameFault>
    // What reading gives.
    ensures exact { Answers result (read_frame octets.now) }
    // What is read is a frame.
    ensures value { IfOk result (λ frame. IsFrame octets.now (value_of frame)) }
    // What is a frame is read.
    ensures only { (v : FrameValue) → IsFrame octets.now v
        → IsOkAnd result (λ frame. value_of frame ≡ v) }
    // An error is the first fault.
    ensures fault { IfErr result (λ fault. fault_of octets.now ≡ Some fault) }
    ensures bsn { IfOk result (λ frame. bsn_of (value_of frame) < 2 ^ 24) }
    ensures fsn { IfOk result (λ frame. fsn_of (value_of frame) < 2 ^ 24) }
    ensures field { IfOk result (λ frame. length (sif_of (value_of frame)) ≤ length octets.now) }
{
    read(octets)
}

/// The frame, or the first fault.
fn read(octets: &[u8]) -> Result<Frame<'_>, FrameFault>
    ensures { Answers result (read_frame octets.now) }
{
    let kind = read_header(octets)?;
    if octets.len() < HEADER_OCTETS {
        return Err(FrameFault::Short);
    }
    let bsn = number_at(octets, BSN_AT);
    let fsn = number_at(octets, FSN_AT);
    let body = &octets[HEADER_OCTETS..];
    match kind {
        MessageType::UserData => match body {
            [] => Ok(Frame::Empty { bsn, fsn }),
            [_] => Err(FrameFault::Short),
            [_, sio, sif @ ..] => Ok(Frame::Message {
                bsn,
                fsn,
                sio: *sio,
                sif,
            }),
        },
        MessageType::LinkStatus => {
            let [s3, s2, s1, s0, ..] = *body else {
                return Err(FrameFault::Short);
            };
            match LinkStatus::from_number(u32::from_be_bytes([s3, s2, s1, s0])) {
                Some(status) => Ok(Frame::Status { bsn, fsn, status }),
                None => Err(FrameFault::Unknown),
            }
        }
    }
}

/// The number in the three octets at an offset.
fn number_at(octets: &[u8], at: usize) -> Number24
    requires before { 1 ≤ at }
    requires fits { at + 3 ≤ length octets.now }
    ensures { result ≡ number_field octets.now at }
{
    let Some(four) = octets[at - 1..].first_chunk::<4>() else {
        unreachable!()
    };
    Number24::from_four_octets(*four)
}

/// The message types of M2PA (RFC 4165 §2.1.4).
#[derive(Clone, Copy)]
enum MessageType {
    UserData,
    LinkStatus,
}

/// The message type that the common header names, or its first fault (RFC 4165 §2.1).
fn read_header(octets: &[u8]) -> Result<MessageType, FrameFault>
    ensures ok { OnOk result (header_fault octets.now ≡ None) }
    ensures kind { IfOk result (λ kind. slice_index octets.now 3 ≡ type_number kind) }
    ensures fault { IfErr result (λ fault. header_fault octets.now ≡ Some fault) }
{
    let [version, _, class, kind, l3, l2, l1, l0, ..] = *octets else {
        return Err(FrameFault::Short);
    };
    if u32::from_be_bytes([l3, l2, l1, l0]) as usize != octets.len() {
        return Err(FrameFault::Length);
    }
    if version != VERSION {
        return Err(FrameFault::Version);
    }
    if class != CLASS {
        return Err(FrameFault::Unknown);
    }
    match kind {
        USER_DATA => Ok(MessageType::UserData),
        LINK_STATUS => Ok(MessageType::LinkStatus),
        _ => Err(FrameFault::Unknown),
    }
}
