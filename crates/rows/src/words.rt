//! The words of a row.

use std::str::FromStr;

/// Octets of a row, at most.
pub const OCTETS: usize = 4_200;

/// The word of a row at an index; nothing if it has fewer.
pub fn word(row: &str, place: usize) -> &str {
    row.split(' ').nth(place).unwrap_or("")
}

/// The last word of a row.
pub fn last(row: &str) -> &str {
    row.split(' ').last().unwrap_or("")
}

/// The number of a word of a row, if it is one.
pub fn number_of<T: FromStr + Drop>(row: &str, place: usize) -> Option<T>
where
    T::Err: Drop,
{
    word(row, place).parse().ok()
}

/// The number of a word of a row; 0 if it is none.
pub fn number<T: FromStr + Default + Drop>(row: &str, place: usize) -> T
where
    T::Err: Drop,
{
    word(row, place).parse().unwrap_or_default()
}

/// The octets of a word, in a buffer. What is none, or finds no room, is left out, so that the row fails.
pub fn octets<'a>(word: &str, buffer: &'a mut [u8; OCTETS]) -> &'a [u8] {
    let mut count = 0;
    for piece in word.split(',') {
        let (text, times) = piece.split_once('*').unwrap_or((piece, "1"));
        for _ in 0..times.parse().unwrap_or(0u32) {
            count = put(text, buffer, count);
        }
    }
    buffer.get(..count).unwrap_or(&[])
}

/// Puts the octets of a text into the buffer at an index, and returns the index after them.
fn put(text: &str, buffer: &mut [u8; OCTETS], at: usize) -> usize {
    let end = at.saturating_add(text.len() / 2);
    let Some(room) = buffer.get_mut(at..end) else {
        return at;
    };
    match hex::decode_to_slice(text, room) {
        Ok(()) => end,
        Err(_) => at,
    }
}

/// The digits of a word, in a buffer; `-` is none. A character that isn't a digit gives 255.
pub fn digits<'a>(word: &str, buffer: &'a mut [u8; 64]) -> &'a [u8] {
    let word = if word == "-" { "" } else { word };
    for (place, digit) in buffer.iter_mut().zip(word.chars()) {
        *place = digit.to_digit(16).unwrap_or(255) as u8;
    }
    buffer.get(..word.len()).unwrap_or(&[])
}
