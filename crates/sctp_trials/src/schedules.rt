//! Two endpoints of SCTP (`World` of `sctp_world`) under random schedules: datagrams are lost, doubled, delayed and
//! reordered, those of former associations come too, and users open, end and shut down associations.
//!
//! A schedule is 4,000 steps, each at one of the ends. Of 64 steps 16 send a message, 12 flush, 6 tick, 2 open, and
//! most others let a datagram come that the other end put out: mostly one of the latest twelve, else any that ever was.
//! Each message has a number of its own, so it is seen whether it is the next one of its association, and whether
//! associations are told once each, and in order. `World::told` promises that, so `out of place` is 0; all other
//! numbers follow from the dice, and are from a run.

mod counts;
mod judging;
mod octets;
mod schedule;

use counts::Counts;
use schedule::play;
use std::io;

/// Plays this many schedules, and prints what came of them.
pub fn print_schedules<R: Print + AllocGlobal>(rt: &R, schedules: u32) -> io::Result<()> {
    let mut counts = Counts::new();
    for seed in 0..schedules {
        play(rt.alloc(), seed, &mut counts)?;
    }
    println!(rt; "schedules {schedules}, whole {}", counts.whole)?;
    println!(rt;
        "opened first {}, second {}, after the first fell {}",
        counts.firsts, counts.seconds, counts.late_seconds
    )?;
    println!(rt; "stale cookies {}", counts.stale)?;
    println!(rt; "numbers behind the last {}", counts.wraps)?;
    println!(rt; "datagrams of former associations {}", counts.former)?;
    println!(rt; "messages given {}, told {}", counts.given, counts.told)?;
    println!(rt; "out of place {}", counts.misplaced)
}
