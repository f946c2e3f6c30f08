//! Whole nodes: calls that no script makes, settings that no file has, and streams that fail.
//!
//! - `nodes.rows`: `calls`, calls in a row about link 0, and their answers; `absent LINK`, what a node with one link
//!   and one destination does and shows about a link, and a row, that it doesn't have; `without set|link|destination`
//!   and `titles COUNT`, the fault of settings without such a row, or with this many translation rows; `plays`, lines
//!   and scripts on a node whose links e0 and e1 lead to point 2, in order: what isn't done, and at each `doubts`
//!   whether messages may be lost, and whether they may be late.
//! - `streams.rows`: `prints`, `pieces`, `reads`, `writes`, `rooms` and `endless`, each of a script, done on a node or
//!   in a lab over streams that give little, fail, or never end; `joins` and `replays`, a script in a lab whose links
//!   fail (`runs`).
//!
//! In both `script NAME LINE; LINE ..` is a script of this name.

mod calls;
mod drafts;
mod node;
mod runs;
mod streams;

use crate::said::Said;
use crate::words::word;
use crate::{Rows, print_rows};
use std::alloc::{AllocError, Global};
use std::io;

/// The rows of a file, which has scripts.
#[derive(Drop)]
struct Nodes<'a> {
    alloc: Global,
    text: &'a str,
}

/// Prints the rows of a file, each with what it says.
pub(crate) fn print<R: Print + AllocGlobal>(rt: &R, text: &str) -> io::Result<()> {
    let alloc = rt.alloc();
    print_rows(rt, &mut Nodes { alloc, text }, text)
}

impl Rows for Nodes<'_> {
    const PARTING: &'static str = "\n";

    fn say(&mut self, said: &mut Said, row: &str) {
        let (alloc, text) = (self.alloc, self.text);
        match word(row, 0) {
            "script" => {}
            "calls" => calls::calls(said, alloc, row),
            "absent" => calls::absent(said, alloc, row),
            "plays" => calls::plays(said, alloc, text, row),
            "without" | "titles" => drafts::check(said, alloc, row),
            _ => runs::say(said, alloc, text, row),
        }
    }
}

/// What is after this many words of a row.
fn after_words(row: &str, count: usize) -> &str {
    row.splitn(count.saturating_add(1), ' ')
        .nth(count)
        .unwrap_or("")
}

/// The lines of a script of the file, parted by `; `; if there is none of this name, the name itself, as a line.
fn script_of<'a>(text: &'a str, name: &'a str) -> &'a str {
    for row in text.lines() {
        if word(row, 0) == "script" && word(row, 1) == name {
            return after_words(row, 2);
        }
    }
    name
}

/// The text of a script, whose lines are parted by `; `.
fn text_of(alloc: Global, script: &str) -> Result<String, AllocError> {
    let mut text = String::new(alloc);
    for line in script.split("; ") {
        text.push_str(line)?;
        text.push_str("\n")?;
    }
    Ok(text)
}
