//! The lines of clients without the spaces that part nothing.

ghost use Rattle.std.specs.Prelude.{◌≡◌, ◌<◌, ◌≤◌, ◌&&◌, ◌==◌, length, drop, slice_index};
ghost use Rattle.console.specs.Trimming.{begins_no_word, single_blanks, trimmed, without_blank};

use arrayvec::ArrayVec;
use std::marker::Model;

/// Octets of a line of a client, at most, without what ends it: as many as in a script.
pub const CLIENT_LINE_OCTETS: usize = 8300;

/// What parts the words of a line.
const SPACE: u8 = b' ';

/// A line with one space where another one had several in a row, and none behind it.
#[derive(Drop)]
pub struct SpacedLine {
    octets: ArrayVec<u8, CLIENT_LINE_OCTETS>,
}

impl Model for SpacedLine {
    ghost use Rattle.std.specs.Prelude.{List, ℕ};

    ghost Value = { List ℕ };

    ghost view = { λ l. l.octets.items };
}

impl SpacedLine {
    /// The line of these octets.
    pub fn of(line: &[u8]) -> SpacedLine
        requires { length line.now ≤ CLIENT_LINE_OCTETS }
        ensures { result ≡ single_blanks line.now }
    {
        let mut octets = ArrayVec::new();
        for (k, octet) in line.iter().enumerate() {
            if *octet != SPACE || !begins_no_word(&line[k + 1..]) {
                octets.push(*octet);
            }
        }
        SpacedLine { octets }
    }

    /// It without the space before it, if there is one.
    pub fn trimmed(&self) -> &[u8]
        ensures { result.now ≡ without_blank self.now }
    {
        match self.octets.as_slice() {
            [SPACE, rest @ ..] => rest,
            line => line,
        }
    }
}

/// Whether a space is next, or the end.
fn begins_no_word(rest: &[u8]) -> bool
    ensures { result ≡ begins_no_word rest.now }
{
    match rest {
        [] | [SPACE, ..] => true,
        _ => false,
    }
}
