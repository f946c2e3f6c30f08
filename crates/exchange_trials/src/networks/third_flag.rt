//! What the flags of third nodes are for: messages come twice between two neighbours to which several sets lead, and
//! neither of the two has a flag.
//!
//! Four nodes, each joined to each by one link; orders to change over go by any route. At node 3 alone T2 and the bar
//! are short. Nodes 1 and 2 do nothing wrong, and messages go from 1 to 2 alone:
//!
//! - The link between 2 and 3 fails at node 3, whose order goes by node 4, and waits there. At node 3 T2 runs out, and
//!   then the bar: it has `broken`. The link fails at node 2, too, whose order is answered by way of node 1, and opens
//!   again, while the former order still waits at node 4.
//! - Two messages go from 1 to 2, and that link fails at node 1. Its order comes to 2 by way of 3, and the answer comes
//!   back that way: nothing is lost. But node 3 doesn't confirm that it took the answer from 2.
//! - The link opens again, and 14 messages more go from 1 to 2. It fails once more at node 1, and node 2 sees that.
//!   Now the former order comes from node 4 to node 2: nothing had come on the link between 2 and 3 when it was made.
//!   So node 2 sends again what it had sent there, and among this the former answer about the link to node 1. There it
//!   is taken for the answer that is awaited, and most of the 14 messages go out again.
//!
//! Its line says how many messages were accepted at node 1, how many came to node 2, and how many of them twice; then
//! at how many nodes `lost_any` is set, and it isn't known what the other end of a link has; and whether these are node
//! 3 alone.

use super::judge::{Promise, judge};
use super::total::Total;
use super::world::World;
use crate::harness::{Deed, Link};
use crate::rounds::{Each, deliver, do_each};
use crate::shape::Shape;
use std::alloc::Global;
use std::io;

/// The node whose T2 and bar are short.
const THIRD: u16 = 3;

/// So many frames at most a link carries at once.
const MOST_FRAMES: u8 = 20;

/// So many rounds at most carry what is left.
const ROUNDS: u8 = 12;

/// So many ticks end each hold, and so many rounds bring a link into service.
const ENDING_TICKS: u8 = 6;

/// What is done. Links go from the first of two points to the second.
#[derive(Clone, Copy)]
enum Cue {
    /// All that is to be sent on the link is, and comes.
    Go(u16, u16),
    /// The next message on the link comes.
    Next(u16, u16),
    /// The link is lost at its first point.
    Lose(u16, u16),
    /// It opens at its first point, and then at the other, and comes into service.
    Open(u16, u16),
    /// All comes, and ticks pass.
    Rest,
    /// All comes but what goes out between nodes 2 and 3, and what node 4 has for node 2.
    RestElsewhere,
    /// So many ticks pass at a node.
    Tick(u16, u8),
    /// Node 1 submits so many messages for node 2.
    Submit(u8),
}

/// The run, once all links are in service.
const CUES: [Cue; 42] = [
    // a link that has come back has carried little
    Cue::Lose(1, 2),
    Cue::Lose(2, 1),
    Cue::Rest,
    Cue::Open(1, 2),
    Cue::Rest,
    Cue::Lose(3, 2),
    Cue::Lose(2, 3),
    Cue::Rest,
    Cue::Open(3, 2),
    Cue::Rest,
    // the order waits at node 4, and node 3 doesn't wait for its answer any more
    Cue::Lose(3, 2),
    Cue::Go(3, 4),
    Cue::Tick(3, 7),
    Cue::Lose(3, 4),
    Cue::Lose(4, 3),
    Cue::Lose(2, 3),
    Cue::Go(2, 1),
    Cue::Go(1, 3),
    Cue::Go(3, 1),
    Cue::Go(1, 2),
    Cue::Open(3, 2),
    Cue::RestElsewhere,
    // the answer is taken, and not confirmed
    Cue::Submit(2),
    Cue::Go(1, 2),
    Cue::Lose(1, 2),
    Cue::Go(1, 3),
    Cue::Go(3, 2),
    Cue::Go(2, 3),
    Cue::Go(3, 1),
    Cue::Lose(2, 1),
    Cue::Open(1, 2),
    Cue::Submit(14),
    Cue::Tick(1, 2),
    Cue::Go(1, 2),
    // the order comes, and so does the answer once more
    Cue::Lose(1, 2),
    Cue::Lose(2, 1),
    Cue::Next(4, 2),
    Cue::Go(2, 4),
    Cue::Go(4, 1),
    Cue::Lose(3, 2),
    Cue::Rest,
    Cue::Rest,
];

/// Plays it, and prints what came of it.
pub(super) fn run(rt: &HostRuntime) -> io::Result<()> {
    match played(rt.alloc()) {
        Some(found) => found.print(rt),
        None => println!(rt; "third flag: memory ran out"),
    }
}

/// What came of it.
#[derive(Clone, Copy)]
struct Found {
    total: Total,
    /// At how many nodes a message may be lost,
    lost: u64,
    /// and it isn't known what the other end of a link has.
    broken: u64,
    /// Whether it is node 3 alone of which either is said.
    third_alone: bool,
}

impl Found {
    fn print(&self, rt: &HostRuntime) -> io::Result<()> {
        let total = &self.total;
        print!(rt;
            "third flag: {} accepted, {} received, {} doubled; ",
            total.accepted, total.received, total.doubled
        )?;
        println!(rt;
            "lost_any at {} node, broken at {}; at node 3 alone: {}",
            self.lost, self.broken, self.third_alone
        )
    }
}

/// Plays it. None where memory ran out.
fn played(alloc: Global) -> Option<Found> {
    let mut world = World::new(alloc, Shape::Mesh, 0)?;
    do_each(&mut world.network, Each::Open);
    rest(&mut world);
    for cue in CUES {
        play(&mut world, cue);
    }
    look_back(&world)
}

/// What came of it, judged as if all were promised. None where memory ran out.
fn look_back(world: &World) -> Option<Found> {
    let mut found = Found {
        total: Total::default(),
        lost: 0,
        broken: 0,
        third_alone: true,
    };
    judge(world, Promise::WHOLE, &mut found.total)?;
    for (point, site) in world
        .network
        .shape
        .points()
        .iter()
        .zip(world.network.sites.as_slice())
    {
        found.lost = found.lost.wrapping_add(site.seen.lost_any as u64);
        found.broken = found.broken.wrapping_add(site.seen.broken_any as u64);
        let is_flagged = site.seen.lost_any || site.seen.broken_any;
        found.third_alone &= is_flagged == (*point == THIRD);
    }
    Some(found)
}

/// Does one thing.
fn play(world: &mut World, cue: Cue) {
    match cue {
        Cue::Go(from, to) => go(world, from, to, MOST_FRAMES),
        Cue::Next(from, to) => go(world, from, to, 1),
        Cue::Lose(from, to) => {
            world.network.act(link(from, to).here, Deed::Lose);
        }
        Cue::Open(from, to) => open(world, link(from, to)),
        Cue::Rest => rest(world),
        Cue::RestElsewhere => rest_elsewhere(world),
        Cue::Tick(point, count) => world.network.tick(point, count),
        Cue::Submit(count) => {
            for _ in 0..count {
                world.submit(1, 2, 0);
            }
        }
    }
}

/// The link between two points.
fn link(from: u16, to: u16) -> Link {
    Shape::Mesh.link_between(from, to, 0)
}

/// So many frames at most go out on a link, and all that is in flight comes.
fn go(world: &mut World, from: u16, to: u16, frames: u8) {
    let Link { here, there } = link(from, to);
    for _ in 0..frames {
        world.network.act(here, Deed::Take);
    }
    for _ in 0..frames {
        deliver(&mut world.network, there);
    }
}

/// A link opens at both ends, and comes into service by link statuses alone.
fn open(world: &mut World, link: Link) {
    let network = &mut world.network;
    network.act(link.here, Deed::OpenFirst);
    network.act(link.there, Deed::OpenSecond);
    for _ in 0..ENDING_TICKS {
        if network.serves(link) {
            return;
        }
        network.act(link.here, Deed::Take);
        network.act(link.there, Deed::Take);
        network.act(link.here, Deed::DeliverStatus);
        network.act(link.there, Deed::DeliverStatus);
        if network.is_proving(link) {
            network.tick(link.here.point, 1);
            network.tick(link.there.point, 1);
        }
    }
}

/// All comes, ticks pass at each node, and all comes after each.
fn rest(world: &mut World) {
    for _ in 0..ENDING_TICKS {
        for _ in 0..ROUNDS {
            do_each(&mut world.network, Each::Carry);
        }
        for point in Shape::Mesh.points() {
            world.network.tick(*point, 1);
        }
    }
}

/// All comes but what goes out between nodes 2 and 3, and from node 4 to node 2.
fn rest_elsewhere(world: &mut World) {
    for _ in 0..ROUNDS {
        for (from, to) in [
            (1, 2),
            (2, 1),
            (2, 4),
            (1, 3),
            (3, 1),
            (3, 4),
            (4, 3),
            (1, 4),
            (4, 1),
        ] {
            go(world, from, to, MOST_FRAMES);
        }
    }
}
