//! Reads rows that were written by hand, and prints below each what came of it. The output to expect, `stdout`, was
//! written by hand too, so a row that fails is the one above the first line that differs.
//!
//! It is given the names of files in `data/`. A line that begins with `#` names the standard of the next rows, or what
//! they are about. Octets are hexadecimal: `-` is none, `00*272` the same 272 times, and commas part pieces.
//!
//! Rows of what octets say (`codecs`). Below each is what they say, or their first fault by number and name, and
//! whether they are the same when written again:
//!
//! - `frames.rows`: `frame WAY POINTS OCTETS` on link e0 (POINTS: how point 4237 is written); `pieces`, a stream that a
//!   framer is fed; `point POINTS TEXT`; `capture WAY ROOM TIMES SECONDS LINK OCTETS`, the same frame this many times,
//!   at 6,789 ns after this many seconds of 1970, into a capture file of this size.
//! - `mtp3.rows`: `label`; `route NETWORK OCTETS`, what point 1 does about a SIO and SIF; `management` and `test`, SIFs
//!   of these kinds; `number`, calls with the numbers of messages.
//! - `sccp.rows`: `address` with its title, `unitdata`.
//! - `titles.rows`, `full_table.rows`, `relaying.rows`: `title`, calls of a table of translation rows (a row that
//!   changes titles ends in PLAN NATURE REMOVED ADDED, and one that `title backup` adds in its backup); `links POINT
//!   POINT`, the points that links lead to from then on, 0 for none; `relay`, a SIF that comes to point 1, which has
//!   subsystem 8, by that table; `extended`, the same where that point relays extended messages and answers tests of
//!   its subsystem.
//! - `tries.rows`: `trie`, calls of a trie of digits.
//! - `sctp.rows`: `packet`.
//! - `cookies.rows`: `mac KEY MESSAGE`, the code of a message; `tags KEY TIMES`, the first tags under a key; `sign KEY
//!   NUMBER..`, the octets of a cookie with these fields, in the order of their places; `open KEY OCTETS`, the cookie
//!   of these octets.
//!
//! Rows of a part of a node at its limits (`parts`) are calls of it, parted by `; `; below each is what the calls say,
//! in order: `timers.rows`, `flows.rows`, `routes.rows`, `stores.rows`, `windows.rows`.
//!
//! Rows of whole nodes (`nodes`): `nodes.rows`, `streams.rows`.
#![tactic(auto)]

mod codecs;
mod nodes;
mod parts;
mod said;
mod words;

use said::Said;
use std::rt::Files;
use std::{env, fs, io};

fn main(rt: HostRuntime) -> io::Result<()> {
    let names: Vec<String> = env::args(&rt)?.skip(1).collect(rt.alloc())?;
    for name in &names {
        print_file(&rt, name.as_str())?;
    }
    Ok(())
}

/// Prints the rows of a file, each with what it says.
fn print_file<R: Files + Print + AllocGlobal>(rt: &R, name: &str) -> io::Result<()> {
    let text = fs::read_to_string(rt, name)?;
    print_text(rt, name, text.as_str())
}

/// Prints the rows of a text, which are of the kind that a file of this name has.
fn print_text<R: Print + AllocGlobal>(rt: &R, name: &str, text: &str) -> io::Result<()> {
    match name {
        "timers.rows" => parts::timer_rows::print(rt, text),
        "flows.rows" => parts::flow_rows::print(rt, text),
        "routes.rows" => parts::route_rows::print(rt, text),
        "stores.rows" => parts::store_rows::print(rt, text, parts::store_rows::FEW),
        "windows.rows" => parts::store_rows::print(rt, text, parts::store_rows::MANY),
        "nodes.rows" | "streams.rows" => nodes::print(rt, text),
        _ => codecs::print(rt, text),
    }
}

/// What rows are about.
trait Rows {
    /// What parts the calls of a row; nothing that is in a row, if a row is a call.
    const PARTING: &'static str;

    /// Says what comes of a call.
    fn say(&mut self, said: &mut Said, call: &str);
}

/// Prints rows, each with what it says.
fn print_rows<R: Print + AllocGlobal, T: Rows>(rt: &R, rows: &mut T, text: &str) -> io::Result<()> {
    for row in text.lines() {
        println!(rt; "{row}")?;
        if !row.is_empty() && !row.starts_with('#') {
            print_said(rt, rows, row)?;
        }
    }
    Ok(())
}

/// Prints what a row says.
fn print_said<R: Print + AllocGlobal, T: Rows>(rt: &R, rows: &mut T, row: &str) -> io::Result<()> {
    let mut said = Said::new(rt.alloc());
    for call in row.split(T::PARTING) {
        rows.say(&mut said, call);
    }
    let text = said.text.as_str();
    println!(rt; " {text}")
}
