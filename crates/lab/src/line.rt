//! The lines of a lab script.

use console::Command;
use console::words::cut;
use script::{Line, Malformed, is_skipped, line_with_one_word};
use settings::PointFormat;

/// An end of a link. In a lab of two nodes it is one of them.
#[derive(Clone, Copy, PartialEq, Eq)]
pub(crate) enum End {
    /// That of the settings that were named first; in a lab of two nodes `1`.
    Near,
    /// That of the settings that were named second; in a lab of two nodes `2`.
    Far,
}

impl End {
    /// The end of this number.
    pub(crate) fn numbered(word: &[u8]) -> Option<End> {
        match word {
            b"1" => Some(End::Near),
            b"2" => Some(End::Far),
            _ => None,
        }
    }

    /// The other end.
    pub(crate) fn other(self) -> End {
        match self {
            End::Near => End::Far,
            End::Far => End::Near,
        }
    }

    /// The place of the end's node: 0 or 1.
    pub(crate) fn place(self) -> usize {
        match self {
            End::Near => 0,
            End::Far => 1,
        }
    }

    /// The end whose node is in this place.
    pub(crate) fn in_place(place: usize) -> Option<End> {
        match place {
            0 => Some(End::Near),
            1 => Some(End::Far),
            _ => None,
        }
    }
}

/// What a line of a lab script asks for. END is a word for a node: `1` or `2`, or its point.
#[derive(Drop)]
pub(crate) enum LabLine<'a> {
    /// `open LINK` or `open END LINK`: the link's ends are joined.
    Open {
        /// The place of the node that has the link.
        place: usize,
        /// The link's name; no link need have it.
        link: &'a [u8],
    },
    /// `move END LINK`: the next frame of the link goes from this node to the other end.
    Move {
        /// The place of the node that the frame comes from.
        place: usize,
        /// The link's name; no link need have it.
        link: &'a [u8],
    },
    /// `lose END LINK`: this node loses the link's association, and its stream is closed.
    Lose {
        /// The place of the node.
        place: usize,
        /// The link's name; no link need have it.
        link: &'a [u8],
    },
    /// `take-count END LINK`: how many messages wait on the link.
    TakeCount {
        /// The place of the node.
        place: usize,
        /// The link's name; no link need have it.
        link: &'a [u8],
    },
    /// `submit END HEX`, `tick END N` or `show END WHAT`: what the line of a script without the END asks for.
    AtNode {
        /// The place of the node.
        place: usize,
        /// The line without the END.
        line: Line<'a>,
    },
}

/// What a line without its end asks for in a lab of two nodes: nothing if it is empty or begins with `#`.
pub(crate) fn parse_lab_line(line: &[u8]) -> Result<Option<LabLine<'_>>, Malformed> {
    if is_skipped(line) {
        return Ok(None);
    }
    match asked(line) {
        Some(line) => Ok(Some(line)),
        None => Err(Malformed),
    }
}

/// What the words of a line ask for.
fn asked(line: &[u8]) -> Option<LabLine<'_>> {
    let (word, rest) = cut(line);
    let (first, rest) = cut(rest?);
    if word == b"open".as_slice() {
        return asked_to_open(first, rest);
    }
    let end = End::numbered(first)?;
    match cut(rest?) {
        (second, None) => asked_at(word, end.place(), second),
        (_, Some(_)) => None,
    }
}

/// What `open` with these words behind it asks for.
fn asked_to_open<'a>(link: &'a [u8], rest: Option<&'a [u8]>) -> Option<LabLine<'a>> {
    if rest.is_some() || link.is_empty() {
        return None;
    }
    let place = End::Near.place();
    Some(LabLine::Open { place, link })
}

/// What a command at the node in a place asks for, by the last word of its line.
pub(crate) fn asked_at<'a>(command: &[u8], place: usize, last: &'a [u8]) -> Option<LabLine<'a>> {
    match command {
        b"move" if !last.is_empty() => Some(LabLine::Move { place, link: last }),
        b"lose" if !last.is_empty() => Some(LabLine::Lose { place, link: last }),
        b"take-count" if !last.is_empty() => Some(LabLine::TakeCount { place, link: last }),
        _ => asked_of_node(command, place, last),
    }
}

/// What a command that scripts have too asks the node in a place for.
fn asked_of_node<'a>(command: &[u8], place: usize, last: &'a [u8]) -> Option<LabLine<'a>> {
    match Command::named(command)? {
        command @ (Command::Submit | Command::Tick | Command::Show) => {
            let line = line_with_one_word(command, last, PointFormat::Plain)?;
            Some(LabLine::AtNode { place, line })
        }
        _ => None,
    }
}
