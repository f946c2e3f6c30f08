//! How many lines of one kind a log has of a second, so that nobody fills the disk with lines that are all the same.

ghost use Rattle.std.specs.Prelude.{◌≡◌, ◌<◌, if◌then◌else◌};
ghost use Rattle.served_node.specs.LineLimits.{may_tell, no_lines, told};

use std::marker::Model;

/// Lines of one kind that the log has of a second, at most.
pub const LINES_A_SECOND: u8 = 20;

/// Kinds of lines that are told apart.
pub const KINDS: usize = 4096;

/// How many lines of each kind the log has of this second.
#[derive(Drop)]
pub struct LineLimits {
    lines: [u8; KINDS],
}

impl Model for LineLimits {
    ghost use Rattle.std.specs.Prelude.{◌≡◌, ℕ, List, length};
    ghost use Rattle.served_node.specs.declared.line_limits.TheConstants.{KINDS};

    ghost Value = { List ℕ };

    ghost view = { λ l. l.lines };

    ghost invariant = { λ l. length l.lines ≡ KINDS };
}

impl LineLimits {
    /// No line yet.
    pub fn new() -> LineLimits
        ensures { result ≡ no_lines }
    {
        LineLimits { lines: [0; KINDS] }
    }

    /// A second begins: there is no line of it yet.
    pub fn begin_second(&mut self)
        ensures { self.new ≡ no_lines }
    {
        self.lines = [0; KINDS];
    }

    /// Whether the log may have one more line of this kind, which is counted then.
    pub fn admits(&mut self, kind: usize) -> bool
        requires { kind < KINDS }
        ensures answer { result ≡ may_tell kind self.old }
        ensures counted { self.new ≡ (if may_tell kind self.old then told kind self.old else self.old) }
    {
        let may_tell = self.lines[kind] < LINES_A_SECOND;
        if may_tell {
            self.lines[kind] += 1;
        }
        may_tell
    }
}
