//! Frames of User Data that come in: made once, and numbered in place.

ghost use Rattle.std.specs.Prelude.{◌≤◌, length};
ghost use Rattle.m2pa_codec.specs.declared.frame.TheConstants.{BUFFER_OCTETS};
ghost use Rattle.m2pa_codec.specs.Frames.{sif_of};
ghost use Rattle.m2pa_codec.specs.Values.{value_of};

use crate::draft::{INTERNATIONAL, adjacent, own};
use exchange::BUFFER_OCTETS;
use m2pa_codec::{Frame, encode};
use mtp3_codec::{MANAGEMENT_OCTETS, Management};
use settings::Limits;
use signalling_types::Number24;

/// Where the last octet of a frame's length is (RFC 4165 §2.1).
pub(crate) const LENGTH_AT: usize = 7;

/// Octets of a frame without a message (RFC 4165 §2.3.1).
pub(crate) const EMPTY_OCTETS: u8 = 16;

/// Where the backward sequence number is (RFC 4165 §2.2).
const BSN_AT: usize = 9;

/// Where the forward sequence number is (RFC 4165 §2.2).
const FSN_AT: usize = 13;

/// Octets of a sequence number.
const NUMBER_OCTETS: usize = 3;

/// A frame of User Data.
#[derive(Clone, Copy)]
pub(crate) struct Incoming {
    octets: [u8; BUFFER_OCTETS],
    count: usize,
    ghost fits: { count ≤ BUFFER_OCTETS },
}

impl Incoming {
    /// A frame with a message.
    pub(crate) fn with_message(sio: u8, sif: &[u8]) -> Incoming
        requires { length sif.now ≤ Limits.SIF_OCTETS }
    {
        let zero = Number24::zero();
        spelled(&Frame::Message {
            bsn: zero,
            fsn: zero,
            sio,
            sif,
        })
    }

    /// A frame with a management message of the adjacent point of the first set.
    pub(crate) fn with_management(management: Management) -> Incoming {
        let mut octets = [0; MANAGEMENT_OCTETS];
        let count = management.write(own(), adjacent(), &mut octets);
        Incoming::with_message(INTERNATIONAL << 6, &octets[..count])
    }

    /// A frame without a message.
    pub(crate) fn empty() -> Incoming {
        let zero = Number24::zero();
        spelled(&Frame::Empty {
            bsn: zero,
            fsn: zero,
        })
    }

    /// How many octets it has.
    pub(crate) fn count(&self) -> usize
        ensures { result ≤ BUFFER_OCTETS }
    {
        self.count
    }

    /// Takes these numbers, and gives the octets of the frame.
    pub(crate) fn numbered(&mut self, bsn: Number24, fsn: Number24) -> &[u8] {
        self.octets[BSN_AT..BSN_AT + NUMBER_OCTETS].copy_from_slice(&bsn.to_be_bytes());
        self.octets[FSN_AT..FSN_AT + NUMBER_OCTETS].copy_from_slice(&fsn.to_be_bytes());
        &self.octets[..self.count]
    }
}

/// The octets of a frame, in their buffer.
fn spelled(frame: &Frame<'_>) -> Incoming
    requires { length (sif_of (value_of frame.now)) ≤ Limits.SIF_OCTETS }
{
    let mut octets = [0; BUFFER_OCTETS];
    let count = encode(frame, &mut octets);
    Incoming { octets, count }
}
