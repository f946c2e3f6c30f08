//! Frames of M2PA, and streams of them.

ghost use Rattle.std.specs.Prelude.{◌≤◌, IsTrue, length};
ghost use Rattle.signalling_types.specs.declared.limits.TheConstants.Limits;
ghost use Rattle.m2pa_codec.specs.Frames.{sif_of};
ghost use Rattle.m2pa_codec.specs.Values.{value_of};

use crate::said::Said;
use crate::words::{OCTETS, last, octets};
use m2pa_codec::{BUFFER_OCTETS, Frame, Framer, Next, decode, encode};
use signalling_types::Limits;

/// Whether the field of a frame is short enough to be written.
fn is_writable(frame: &Frame<'_>) -> bool
    ensures { IsTrue result → length (sif_of (value_of frame.now)) ≤ Limits.SIF_OCTETS }
{
    match frame {
        Frame::Message { sif, .. } => sif.len() <= Limits::SIF_OCTETS,
        Frame::Empty { .. } | Frame::Status { .. } => true,
    }
}

/// Says whether octets are the same when written again as a frame, or their fault.
pub(crate) fn write_again(said: &mut Said, text: &[u8]) {
    match decode(text) {
        Ok(frame) if is_writable(&frame) => {
            let mut out = [0xee; BUFFER_OCTETS];
            let count = encode(&frame, &mut out);
            said.again(&out[..count], text);
        }
        Ok(_) => said.say("too long to be written"),
        Err(fault) => said.fault(fault.number(), &fault),
    }
}

/// Says of each piece of a stream how much of it a framer takes, and what it gives then.
pub(crate) fn pieces(said: &mut Said, row: &str) {
    let mut framer = Framer::new();
    let mut buffer = [0; OCTETS];
    for piece in last(row).split('|') {
        let count = framer.feed(octets(piece, &mut buffer));
        said.say(format_args!("took {count}"));
        say_next(said, &mut framer);
    }
}

fn say_next(said: &mut Said, framer: &mut Framer) {
    let mut text = [0; Limits::FRAME_OCTETS];
    let next = framer.next(&mut text);
    said.show(&next);
    if let Next::Whole(count) = next {
        write_again(said, text.get(..count).unwrap_or(&[]));
    }
}
