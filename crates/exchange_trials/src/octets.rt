//! Hostile octets: frames and streams of frames that are harmed or made up at random.
//!
//! They are handed in to point 1, with two links each to points 2 and 3, point 300 behind both (by `west`, then
//! `east`), point 400 behind point 2, and three translation rows. Its window is three messages and its pool four, and
//! both fill.
//!
//! - 12,000 frames on links in service: one that is down is brought up first. At random a tick passes before a frame,
//!   and what the link has to send is taken and acknowledged after it.
//! - 12,000 frames on links that align, or are in any state. At random a tick passes before, the association is lost,
//!   or a link that is down opens. Half of the frames are good ones that lead the link on.
//! - 2,000 streams of one to seven frames with numbers one after another, on links in service, and 2,000 on links that
//!   align. Each goes through a `Framer` in pieces of up to 40 or 4,096 octets, and again in other pieces, and its
//!   frames are handed in. After a stream that breaks, the association is lost.
//!
//! A good frame has the numbers that its link awaits: User Data with a message of a user part, management (each
//! heading, and two that don't exist), a link test, or a UDT or UDTS with global titles, subsystems or addresses that
//! can't be read; User Data without a message; or a Link Status. A harmed one has up to eight bits flipped; another
//! length; its end or a piece cut off, or octets or another frame joined to it, with the length mended or not; a field
//! set to its least or greatest value, or next to it; other octets after good headers; or other octets altogether. Five
//! of eighteen are left as they are. All of it follows from four seeds.
//!
//! It is looked at from outside: what a frame ought to do is said by the contracts of `exchange`, and not worked out a
//! second time. Each frame returns, and all six kinds of outcome come. A frame that is refused or ignored changes no
//! link's state, no route and no flag, and, unless it has a message that can be read, no queue and no number either. In
//! other pieces a stream comes to the same frames, each the next octets of it, and to the same end. At the end of each
//! group all links lose their associations and come into service again, and a good message of each selection comes on
//! each: all 64 go out octet for octet.

mod buffer;
mod cutting;
mod found;
mod good;
mod groups;
mod harm;
mod messages;
mod shown;
mod target;

use crate::dice::Dice;
use found::KINDS;
use groups::{ALIGNING, IN_SERVICE, Links, try_frames, try_streams};
use std::io;
use target::Target;

/// How many frames are tried on links in service, and on links that align.
const FRAMES: u64 = 12_000;

/// How many streams are tried on links in service, and on links that align.
const STREAMS: u64 = 2_000;

/// What is handed in.
#[derive(Clone, Copy)]
enum Kind {
    Frames,
    Streams,
}

/// Each group, and its seed.
const GROUPS: [(u64, Kind, Links); 4] = [
    (1, Kind::Frames, IN_SERVICE),
    (2, Kind::Frames, ALIGNING),
    (3, Kind::Streams, IN_SERVICE),
    (4, Kind::Streams, ALIGNING),
];

/// Tries each group of frames and streams, and prints what became of it.
pub(crate) fn run(rt: &HostRuntime) -> io::Result<()> {
    for (seed, kind, links) in GROUPS {
        try_group(rt, kind, links, seed)?;
    }
    Ok(())
}

/// Tries a group of frames or streams on a node of its own. Nodes are dropped only here: the states of a body that does
/// it are many.
fn try_group(rt: &HostRuntime, kind: Kind, links: Links, seed: u64) -> io::Result<()> {
    match Target::new(rt.alloc()) {
        Some(mut target) => report_group(rt, &mut target, kind, links, seed),
        None => println!(rt; "memory ran out"),
    }
}

/// Tries a group, and prints what became of it, what its frames changed that they may not, and how many good messages
/// go through at its end.
fn report_group(
    rt: &HostRuntime,
    target: &mut Target,
    kind: Kind,
    links: Links,
    seed: u64,
) -> io::Result<()> {
    let mut dice = Dice::new(seed);
    let name = links.name;
    match kind {
        Kind::Frames => {
            try_frames(target, &mut dice, links, FRAMES);
            let (returned, kinds) = (target.found.returned, target.found.kinds());
            print!(rt; "frames on links {name}: {returned} of {FRAMES} returned, ")?;
            print!(rt; "{kinds} kinds of outcome of {KINDS}")?;
        }
        Kind::Streams => {
            let alike = try_streams(target, &mut dice, links, STREAMS);
            print!(rt; "streams on links {name}: {alike} of {STREAMS} the same in other pieces")?;
        }
    }
    let through = target.count_through();
    let changed = target.found.changed;
    println!(rt; "; {changed} changed what they may not; {through} of 64 messages through")
}
