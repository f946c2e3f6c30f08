//! What was accepted, compared with what came and with what was refused on its way, by the marks alone.

use super::book::{Entry, is_marked};
use super::total::Total;
use super::world::World;
use crate::harness::{Site, count, place_of};
use crate::shape::{Shape, UNKNOWN};
use exchange::{Limits, Msu};
use std::alloc::Global;
use std::marker::Model;

/// Points of nodes are below this.
const POINTS: usize = 8;

/// Destinations are below this.
const DESTINATIONS: usize = UNKNOWN as usize + 1;

/// So many flows there are from a point to another.
const FLOWS: usize = Limits::SELECTIONS as usize;

/// What is promised of a run since the books began.
#[derive(Clone, Copy)]
pub(super) struct Promise {
    /// Whether no node counted since that a message may be lost; where orders go by any route, whether each knew what
    /// the other end of each link had.
    pub whole: bool,
    /// Whether none comes twice.
    pub single: bool,
    /// Whether besides no node counted that one may be late, and no first set of a destination changed.
    pub steady: bool,
}

impl Promise {
    /// That each message comes once.
    pub(super) const WHOLE: Promise = Promise {
        whole: true,
        single: true,
        steady: false,
    };

    /// What is promised of a network.
    pub(super) fn of(world: &World) -> Promise {
        let mut whole = true;
        let mut steady = true;
        let names_losses = world.network.shape.orders_by_any_route();
        for site in world.network.sites.as_slice() {
            whole &= if names_losses {
                !site.seen.broken_any
            } else {
                !site.seen.lost_any
            };
            steady &= !site.seen.late_any && site.seen.reroutings == 0;
        }
        Promise {
            whole,
            single: whole || !names_losses,
            steady: steady && whole,
        }
    }

    /// Whether the message of this number that came to its destination is promised to be in order: where its points are
    /// adjacent, and so joined by one set alone, if the first node hadn't counted that one may be late; in the line, if
    /// the run is steady.
    fn is_in_order(self, world: &World, entry: Entry, number: usize) -> bool {
        let Some(site) = world.network.site(entry.from) else {
            return false;
        };
        let shape = world.network.shape;
        let is_in_time = number < site.seen.came(place_of(entry.to)).in_time;
        self.whole && is_in_time && shape.leads_alone(entry.from, entry.to)
            || self.steady && shape == Shape::Line
    }
}

/// What became of a message.
#[derive(Clone, Copy, Default)]
struct Fate {
    /// So often it came to its destination.
    came: u8,
    /// So often another node refused it on its way.
    refused: u8,
}

/// What became of each message of a run; of each flow the last that came; and of each destination and selection how
/// many were named as lost that aren't yet taken for one of those that are missing.
#[derive(Drop)]
struct Fates {
    fates: Vec<Fate>,
    last: Vec<usize>,
    named: Vec<u64>,
}

impl Model for Fates {
    ghost Value = { Unit {0} };

    ghost view = { λ _. tt };
}

/// Adds what became of the messages of a run. None where memory ran out.
pub(super) fn judge(world: &World, promise: Promise, total: &mut Total) -> Option<()> {
    let entries = world.book.entries.as_slice();
    let mut fates = Fates::new(world.network.alloc, entries.len())?;
    for (point, site) in world
        .network
        .shape
        .points()
        .iter()
        .zip(world.network.sites.as_slice())
    {
        fates.read_arrived(world, promise, *point, site, total);
        fates.read_refused(world, site);
        fates.read_named(site);
    }
    for (place, entry) in entries.iter().enumerate() {
        fates.add(place, *entry, promise, total);
    }
    Some(())
}

impl Fates {
    /// Before the books of the nodes are read. None where memory ran out.
    fn new(alloc: Global, messages: usize) -> Option<Fates> {
        let fates = vec![in alloc; Fate::default(); messages].ok()?;
        let last = vec![in alloc; 0; POINTS * POINTS * FLOWS].ok()?;
        let named = vec![in alloc; 0; DESTINATIONS * FLOWS].ok()?;
        Some(Fates { fates, last, named })
    }

    /// Adds what became of a message, in a run in which none may be lost unless it is named, or some may.
    fn add(&mut self, place: usize, entry: Entry, promise: Promise, total: &mut Total) {
        let Fate { came, refused } = self.fates.get(place).copied().unwrap_or_default();
        let judged = entry.accepted && promise.whole;
        let missing = came == 0 && refused == 0;
        let named = judged && missing && self.take_name(entry);
        let lost = missing && !named || came == 1 && refused != 0;
        let doubled = came > 1 || refused > 1;
        count(&mut total.submitted, 1);
        count(&mut total.accepted, entry.accepted as u64);
        count(&mut total.received, (came != 0) as u64);
        count(&mut total.refused, (refused != 0) as u64);
        count(&mut total.named, named as u64);
        count(&mut total.judged, judged as u64);
        count(&mut total.lost, (judged && lost) as u64);
        count(&mut total.doubled, (promise.single && doubled) as u64);
    }

    /// Takes one of those that were named as lost for this message. Says whether there was one.
    fn take_name(&mut self, entry: Entry) -> bool {
        match self.named.get_mut(place_of_loss(entry.to, entry.flow)) {
            Some(named) if *named != 0 => {
                *named = named.wrapping_sub(1);
                true
            }
            _ => false,
        }
    }

    /// Reads what a node named as lost.
    fn read_named(&mut self, site: &Site) {
        for loss in site.named.as_slice() {
            if let Some(named) = self.named.get_mut(place_of_loss(loss.to, loss.flow)) {
                count(named, 1);
            }
        }
    }

    /// Reads what came to the node at a point.
    fn read_arrived(
        &mut self,
        world: &World,
        promise: Promise,
        point: u16,
        site: &Site,
        total: &mut Total,
    ) {
        for (number, arrival) in site.arrived.iter().enumerate() {
            match world.book.find(&arrival.message) {
                Some((place, entry)) if entry.to == point => {
                    self.come(place);
                    count(&mut total.made_up, !entry.accepted as u64);
                    if promise.is_in_order(world, entry, number) {
                        count(&mut total.in_order, 1);
                        count(&mut total.out_of_order, self.is_turned(place, entry) as u64);
                    }
                }
                Some(_) => (),
                None => count(&mut total.made_up, is_marked(&arrival.message) as u64),
            }
        }
    }

    /// The message at a place in the book came to its destination.
    fn come(&mut self, place: usize) {
        if let Some(fate) = self.fates.get_mut(place) {
            fate.came = fate.came.saturating_add(1);
        }
    }

    /// Whether one of its flow had come that was submitted later.
    fn is_turned(&mut self, place: usize, entry: Entry) -> bool {
        let Some(last) = self.last.get_mut(place_of_flow(entry)) else {
            return false;
        };
        let turned = place < *last;
        *last = place.max(*last);
        turned
    }

    /// Reads what a node refused on its way.
    fn read_refused(&mut self, world: &World, site: &Site) {
        for message in site.refused.as_slice() {
            if let Some(fate) = self.fate_of(world, message) {
                fate.refused = fate.refused.saturating_add(1);
            }
        }
    }

    /// What became of a message, where it is in the book.
    fn fate_of(&mut self, world: &World, message: &Msu) -> Option<&mut Fate> {
        let (place, _) = world.book.find(message)?;
        self.fates.get_mut(place)
    }
}

/// The place of a flow among those from any point to any other.
fn place_of_flow(entry: Entry) -> usize {
    let pair = entry.from as usize % POINTS * POINTS + entry.to as usize % POINTS;
    pair * FLOWS + entry.flow as usize % FLOWS
}

/// The place of a destination and a selection among all.
fn place_of_loss(to: u16, flow: u8) -> usize {
    to as usize % DESTINATIONS * FLOWS + flow as usize % FLOWS
}
