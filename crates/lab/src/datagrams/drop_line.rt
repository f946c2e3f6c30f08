//! The lines that only a lab over datagrams has.

use crate::line::End;
use console::words::cut;

/// What `drop END LINK` asks for: what there is goes out at that end, and is lost.
#[derive(Clone, Copy)]
pub(crate) struct DropLine<'a> {
    /// Which end.
    pub(crate) end: End,
    /// The link's name; no link need have it.
    pub(crate) link: &'a [u8],
}

/// What a line asks to be lost; None if it is another line.
pub(crate) fn parse_drop(line: &[u8]) -> Option<DropLine<'_>> {
    let (word, rest) = cut(line);
    if word != b"drop".as_slice() {
        return None;
    }
    let (end, rest) = cut(rest?);
    let end = End::numbered(end)?;
    match cut(rest?) {
        (link, None) if !link.is_empty() => Some(DropLine { end, link }),
        _ => None,
    }
}
