//! The words of a row.

use std::str::FromStr;

/// Octets of a row, at most.
pub const OCTETS: usize = 1_500;

/// The word of a row at an index; nothing if it has fewer.
pub fn word(row: &str, place: usize) -> &str {
    row.split(' ').nth(place).unwrap_or("")
}

/// The number of a word of the row.
pub fn number<T: FromStr + Default + Drop>(row: &str, place: usize) -> T
where
    T::Err: Drop,
{
    word(row, place).parse().unwrap_or_default()
}

/// The hexadecimal number of a word of the row.
pub fn hexadecimal(row: &str, place: usize) -> u32 {
    u32::from_str_radix(word(row, place), 16).unwrap_or(0)
}

/// The octets of a word of the row, in a buffer: none if they find no room, so that the session goes wrong.
pub fn octets<'a>(row: &str, place: usize, buffer: &'a mut [u8; OCTETS]) -> &'a mut [u8] {
    let text = word(row, place);
    let Some(room) = buffer.get_mut(..text.len() / 2) else {
        return &mut [];
    };
    match hex::decode_to_slice(text, room) {
        Ok(()) => room,
        Err(_) => &mut [],
    }
}
