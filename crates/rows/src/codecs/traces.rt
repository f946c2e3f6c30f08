//! Frames in words and in a capture file, and points that are read.

use crate::said::Said;
use crate::words::{last, number, word};
use settings::{PointFormat, parse_point};
use signalling_types::{Limits, LinkId};
use std::time::Duration;
use trace::{Capture, Direction, ObservedFrame, UntilFailure, frame_words};

/// The format in which point 4237 is written like this.
fn format(word: &str) -> PointFormat {
    match word {
        "2-017-5" => PointFormat::ThreeEightThree,
        _ => PointFormat::Plain,
    }
}

fn direction(row: &str) -> Direction {
    match word(row, 1) {
        "out" => Direction::Out,
        _ => Direction::In,
    }
}

/// Says a frame that passed on the link e0, in words.
pub(crate) fn say_words(said: &mut Said, row: &str, frame: &[u8]) {
    if frame.len() <= Limits::FRAME_OCTETS {
        let frame = ObservedFrame::new(frame);
        let words = frame_words("e0", direction(row), &frame, format(word(row, 2)));
        said.say(str::from_utf8(words.as_slice()).unwrap_or("no text"));
    }
}

/// Says the point of a text.
pub(crate) fn point(said: &mut Said, row: &str) {
    said.show(&parse_point(last(row).as_bytes(), format(word(row, 1))));
}

/// Says whether a capture file of this size takes a frame this many times, and the octets of the room then.
pub(crate) fn capture(said: &mut Said, row: &str, frame: &[u8]) {
    let mut room = [0; 200];
    let count = number(row, 2);
    let Some(front) = room.get_mut(..count) else {
        return;
    };
    let frame = ObservedFrame::new(frame);
    let since_1970 = Duration::from_secs(number(row, 4));
    let mut capture = Capture::begin(UntilFailure::new(front), since_1970);
    for _ in 0..number::<u8>(row, 3) {
        let link = LinkId::new(number(row, 5));
        capture.write(Duration::from_nanos(6_789), link, direction(row), &frame);
    }
    said.say(format_args!("failed {}", capture.has_failed()));
    said.octets(room.get(..count).unwrap_or(&[]));
}
