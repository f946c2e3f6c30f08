//! What octets say, and what is written: frames, labels, management, unitdata, packets of SCTP and cookies; and the
//! tables by which messages are relayed.

mod cookies;
mod frames;
mod mtp3;
mod sccp;
mod sctp;
mod tables;
mod traces;

use crate::said::Said;
use crate::words::{OCTETS, last, number, octets, word};
use crate::{Rows, print_rows};
use sccp_relay::{Titles, Trie};
use std::io;

/// What the rows of a file change.
#[derive(Drop)]
struct Codecs {
    titles: Titles,
    points: [u16; 2],
    trie: Trie,
}

/// Prints the rows of a file, each with what it says.
pub(crate) fn print<R: Print + AllocGlobal>(rt: &R, text: &str) -> io::Result<()> {
    let mut codecs = Codecs {
        titles: Titles::of_rows(rt.alloc(), &[])?,
        points: [0; 2],
        trie: Trie::new(rt.alloc()),
    };
    print_rows(rt, &mut codecs, text)
}

impl Rows for Codecs {
    const PARTING: &'static str = "\n";

    fn say(&mut self, said: &mut Said, row: &str) {
        let mut buffer = [0; OCTETS];
        let octets = octets(last(row), &mut buffer);
        match word(row, 0) {
            "title" => tables::titles(said, &mut self.titles, row),
            "links" => self.points = [number(row, 1), number(row, 2)],
            "relay" => tables::relayed(said, &self.titles, &self.points, octets, false),
            "extended" => tables::relayed(said, &self.titles, &self.points, octets, true),
            "trie" => tables::digits_of(said, &mut self.trie, row),
            kind => say_octets(said, kind, row, octets),
        }
    }
}

/// Says what the octets of a row are, by its kind.
fn say_octets(said: &mut Said, kind: &str, row: &str, octets: &[u8]) {
    match kind {
        "frame" => {
            traces::say_words(said, row, octets);
            frames::write_again(said, octets);
        }
        "pieces" => frames::pieces(said, row),
        "point" => traces::point(said, row),
        "capture" => traces::capture(said, row, octets),
        "label" => mtp3::label(said, octets),
        "route" => mtp3::route(said, row, octets),
        "management" => mtp3::management(said, octets),
        "test" => mtp3::test(said, octets),
        "number" => mtp3::numbers(said, row),
        "address" => sccp::address(said, octets),
        "unitdata" => sccp::unitdata(said, octets),
        "packet" => sctp::packet(said, octets),
        "mac" => cookies::mac(said, row, octets),
        "tags" => cookies::tags(said, row),
        "sign" => cookies::sign(said, row),
        "open" => cookies::open(said, row, octets),
        _ => said.say("no kind"),
    }
}
