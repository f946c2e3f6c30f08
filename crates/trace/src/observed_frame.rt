//! A frame that passed, read once.

ghost use Rattle.std.specs.Prelude.{◌≡◌};
ghost use Rattle.std.specs.Option.{option_map};
ghost use Rattle.signalling_types.specs.Message.{lent};
ghost use Rattle.trace.specs.Observed.{message_in};
ghost use Rattle.trace.specs.Packets.{stream_of};

use m2pa_codec::{Frame, decode};
use signalling_types::{FrameFault, MsuRef};
use std::marker::Model;

/// The stream of Link Status (RFC 4165 §4.1.2).
const STATUS_STREAM: u16 = 0;

/// The stream of User Data (RFC 4165 §4.1.2).
const DATA_STREAM: u16 = 1;

/// The octets of a frame that passed on a link, and what they say: read once, for all who are told of it.
#[derive(Drop)]
pub struct ObservedFrame<'a> {
    pub(crate) octets: &'a [u8],
    pub(crate) said: Result<Frame<'a>, FrameFault>,
}

impl<'a> Model for ObservedFrame<'a> {
    ghost use Rattle.std.specs.Prelude.{List, ℕ};
    ghost use Rattle.trace.specs.Observed.{Says};

    ghost Value = { List ℕ };

    ghost view = { λ f. f.octets.now };

    ghost invariant = { λ f. Says f.octets.now f.said };
}

impl<'a> ObservedFrame<'a> {
    /// The frame of these octets, which are read here.
    #[inline(always)]
    pub fn new(octets: &'a [u8]) -> ObservedFrame<'a>
        ensures { result ≡ octets.now }
    {
        ObservedFrame {
            octets,
            said: decode(octets),
        }
    }

    /// Its octets.
    #[inline(always)]
    pub fn octets(&self) -> &'a [u8]
        ensures { result.now ≡ self.now }
    {
        self.octets
    }

    /// Its message, if it has one.
    #[inline(always)]
    pub fn message(&self) -> Option<MsuRef<'a>>
        ensures { option_map lent result ≡ message_in self.now }
    {
        match self.said {
            Ok(Frame::Message { sio, sif, .. }) => Some(MsuRef { sio, sif }),
            Ok(_) | Err(_) => None,
        }
    }

    /// The stream that carries it: Link Status has one, and all else the other.
    pub(crate) fn stream(&self) -> u16
        ensures { result ≡ stream_of self.now }
    {
        match self.said {
            Ok(Frame::Status { .. }) => STATUS_STREAM,
            Ok(_) | Err(_) => DATA_STREAM,
        }
    }
}
