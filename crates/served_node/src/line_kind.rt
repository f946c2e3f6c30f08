//! Which lines of a log are of one kind: those that begin with the same words behind their time.

ghost use Rattle.std.specs.Prelude.{◌<◌};

use crate::line_limits::KINDS;

/// The first value and the factor of the hash FNV-1a in 32 bits.
const OFFSET_BASIS: u32 = 0x811c_9dc5;

const PRIME: u32 = 0x0100_0193;

/// The number of a line's kind. Few kinds share one.
pub(crate) fn kind_of(line: &[u8]) -> usize
    ensures { result < KINDS }
{
    let mut hash = OFFSET_BASIS;
    for octet in kind_words(without_time(line)) {
        hash = (hash ^ u32::from(*octet)).wrapping_mul(PRIME);
    }
    hash as usize % KINDS
}

/// The time at the beginning of a line.
pub(crate) fn time_of(line: &[u8]) -> &[u8] {
    words(line, 1)
}

/// What is behind the time, without the line feed.
pub(crate) fn text_of(line: &[u8]) -> &[u8] {
    let text = without_time(line);
    text.strip_suffix(b"\n".as_slice()).unwrap_or(text)
}

/// What is behind the time.
fn without_time(line: &[u8]) -> &[u8] {
    let time = time_of(line).len();
    line.get(time.saturating_add(1)..).unwrap_or(&[])
}

/// The words that tell the kind: the first and the link, if there is one; of a notice also what it tells of, and why;
/// of an alarm what it is about, but for the destination; of an order who gave it, and its first word.
fn kind_words(text: &[u8]) -> &[u8] {
    match words(text, 1) {
        b"notice" => words(text, 5),
        b"caller" | b"missed" | b"destination" => words(text, 1),
        b"order" if words(text, 2) == b"order local".as_slice() => words(text, 4),
        b"order" => words(text, 3),
        b"alarm" | b"clear" if !is_of_destination(words(text, 2)) => words(text, 3),
        _ => words(text, 2),
    }
}

/// Whether these two words are of an alarm of a destination.
fn is_of_destination(front: &[u8]) -> bool {
    front == b"alarm destination".as_slice() || front == b"clear destination".as_slice()
}

/// The first so many words of a text.
fn words(text: &[u8], count: usize) -> &[u8] {
    let mut blanks: usize = 0;
    for (k, octet) in text.iter().enumerate() {
        if *octet == b' ' {
            blanks = blanks.saturating_add(1);
            if blanks == count {
                return &text[..k];
            }
        }
    }
    text
}
