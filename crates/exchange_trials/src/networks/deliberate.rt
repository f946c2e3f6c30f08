//! A run in which the books are made wrong, so that the judge has something to find.

use super::book::{Entry, message_of};
use super::rest::{bring_up, come_to_rest};
use super::total::{Ending, Totals};
use super::world::World;
use crate::shape::Shape;
use std::alloc::Global;

/// The point of a node on the way, which starts again.
const MIDDLE: u16 = 2;

/// What the book has of a message from one end of the line to the other.
const ENTRY: Entry = Entry {
    from: 1,
    to: 4,
    flow: 0,
    accepted: true,
};

/// One run in the line, without a failure, in which the books are made wrong. Then a node starts again, all falls to
/// rest, and once the books have begun anew the same is done, and a message is submitted with a mark of before.
pub(super) fn make_wrong(alloc: Global) -> Totals {
    let mut totals = Totals::default();
    match World::new(alloc, Shape::Line, 0) {
        Some(mut world) => pass_wrongly(&mut world, &mut totals),
        None => totals.first.starved = true,
    }
    totals
}

/// The run.
fn pass_wrongly(world: &mut World, totals: &mut Totals) {
    bring_up(&mut world.network);
    world.network.count_anew();
    let former = world.book.next_mark();
    let ending = submit_wrongly(world);
    totals.first.add(world, ending);
    world.network.restart(MIDDLE);
    if totals.begin_anew(world, 1) {
        bring_up(&mut world.network);
        world.network.count_anew();
        world
            .network
            .submit(3, message_of(Entry { from: 3, ..ENTRY }, former));
        let ending = submit_wrongly(world);
        totals.anew.add(world, ending);
    }
}

/// All that is wrong in one book: a message is in it that was never submitted, one is submitted twice, and two are
/// submitted the other way round than the book has them. Then frames come to rest.
fn submit_wrongly(world: &mut World) -> Ending {
    world.book.add(ENTRY);
    note_and_hand_over(world, Entry { flow: 1, ..ENTRY }, 1, &[0, 0]);
    note_and_hand_over(world, Entry { flow: 2, ..ENTRY }, 2, &[1, 0]);
    let ended = come_to_rest(&mut world.network);
    Ending {
        steps: world.network.steps,
        failures: world.network.failures(),
        ended,
    }
}

/// So many messages are noted, and those at these places among them are submitted, one after another.
fn note_and_hand_over(world: &mut World, entry: Entry, count: usize, places: &[u32]) {
    let mark = world.book.next_mark();
    for _ in 0..count {
        world.book.add(entry);
    }
    for place in places {
        let message = message_of(entry, mark.wrapping_add(*place));
        world.network.submit(entry.from, message);
    }
}
