//! The settings of the exchange.

use crate::titles::{Table, title_drafts};
use settings::{
    DestinationDraft, Draft, Limits, LinkDraft, LinkId, PointCode, SetDraft, TimersDraft,
};
use std::alloc::{AllocError, Global};

/// The node's own point.
pub(crate) const OWN: u16 = 1;

/// The point at the other end of the first links; further destinations have the numbers after it.
const ADJACENT: u16 = 2;

/// The node's own point.
pub(crate) fn own() -> PointCode {
    PointCode::of_low_bits(u32::from(OWN))
}

/// The point at the other end of the first links.
pub(crate) fn adjacent() -> PointCode {
    PointCode::of_low_bits(u32::from(ADJACENT))
}

/// The network indicator of the international network (Q.704 §14.2.2).
pub(crate) const INTERNATIONAL: u8 = 2;

/// The service indicator of the ISDN user part (Q.704 §14.2.1).
pub(crate) const ISUP: u8 = 5;

/// Links of a set of two.
pub(crate) const PAIR: u8 = 2;

/// How links make link sets.
#[derive(Clone, Copy)]
pub(crate) enum Sets {
    /// As many links in each set as may be.
    Full,
    /// Two links in each set.
    Pairs,
    /// One link in each set.
    Single,
}

/// How destinations lie behind link sets. The adjacent point of each set lies behind that set first.
#[derive(Clone, Copy)]
pub(crate) enum Routes {
    /// One set leads to each destination: to all that aren't adjacent points the first one.
    One,
    /// As many sets as may be lead to each destination: those from one on, and after the last the first again. That is
    /// the first set for the last destination, the second for the one before, and so on.
    Most,
}

/// What settings are made of.
#[derive(Clone, Copy)]
pub(crate) struct Shape {
    pub destinations: u16,
    pub links: u8,
    pub sets: Sets,
    pub routes: Routes,
    /// How many messages may be unconfirmed.
    pub window: u16,
    pub table: Table,
}

impl Shape {
    /// How many links a set has.
    fn links_of_set(&self) -> u8 {
        match self.sets {
            Sets::Full => Limits::LINKS_PER_SET as u8,
            Sets::Pairs => PAIR,
            Sets::Single => 1,
        }
    }

    /// How many sets there are.
    pub(crate) fn set_count(&self) -> u16 {
        u16::from(self.links.div_ceil(self.links_of_set().max(1)))
    }

    /// The set of a link.
    fn set_of(&self, link: u8) -> u16 {
        u16::from(link / self.links_of_set().max(1))
    }

    /// The last link of the first set.
    pub(crate) fn last_of_first_set(&self) -> LinkId {
        LinkId::new(self.links.min(self.links_of_set()).saturating_sub(1))
    }

    /// The point of the last destination.
    pub(crate) fn last_point(&self) -> PointCode {
        PointCode::of_low_bits(u32::from(OWN) + u32::from(self.destinations))
    }
}

/// The settings of a node of this shape. The adjacent point of each link set is a destination, before the others. The
/// translation rows lead to the last destination.
pub(crate) fn draft_with(alloc: Global, shape: &Shape) -> Result<Draft, AllocError> {
    let last = i64::from(OWN) + i64::from(shape.destinations);
    Ok(Draft {
        own: i64::from(OWN),
        network: i64::from(INTERNATIONAL),
        window: i64::from(shape.window),
        pool: Limits::POOL as i64,
        users: vec![in alloc; i64::from(ISUP)]?,
        subsystems: Vec::new(alloc),
        extended_unitdata: false,
        subsystem_tests: false,
        user_part_unavailable: false,
        processor_outage: false,
        out_of_service: false,
        changeover_by_any_route: false,
        timers: TIMERS,
        sets: set_drafts(alloc, shape.set_count())?,
        links: link_drafts(alloc, shape)?,
        destinations: destination_drafts(alloc, shape)?,
        titles: title_drafts(alloc, shape.table, last)?,
    })
}

/// Ticks that a timer runs: how many doesn't matter here.
const TICKS: i64 = 10;

/// How many ticks each timer runs.
const TIMERS: TimersDraft = TimersDraft {
    l1: TICKS,
    l2: TICKS,
    l3: TICKS,
    l4: TICKS,
    l6: TICKS,
    l7: TICKS,
    t1: TICKS,
    t2: TICKS,
    t3: TICKS,
    t4: TICKS,
    t6: TICKS,
    t8: TICKS,
    t10: TICKS,
    link_tests: None,
    l4e: None,
    sst: None,
    t2_bar: None,
};

/// The name of the link set of this number.
fn set_name(alloc: Global, set: u16) -> Result<String, AllocError> {
    format!(in alloc; "s{set}")
}

/// This many link sets.
fn set_drafts(alloc: Global, count: u16) -> Result<Vec<SetDraft>, AllocError> {
    let mut sets = Vec::new(alloc);
    for set in 0..count {
        sets.push(SetDraft {
            name: set_name(alloc, set)?,
            adjacent: i64::from(ADJACENT) + i64::from(set),
        })?;
    }
    Ok(sets)
}

/// The links, in their sets.
fn link_drafts(alloc: Global, shape: &Shape) -> Result<Vec<LinkDraft>, AllocError> {
    let mut links = Vec::new(alloc);
    for link in 0..shape.links {
        links.push(LinkDraft {
            name: format!(in alloc; "l{link}")?,
            set: set_name(alloc, shape.set_of(link))?,
            slc: i64::from(link % Limits::LINKS_PER_SET as u8),
            share: None,
        })?;
    }
    Ok(links)
}

/// The destinations, the adjacent point of each set before the others.
fn destination_drafts(alloc: Global, shape: &Shape) -> Result<Vec<DestinationDraft>, AllocError> {
    let mut destinations = Vec::new(alloc);
    for index in 0..shape.destinations {
        destinations.push(DestinationDraft {
            point: i64::from(ADJACENT) + i64::from(index),
            sets: set_names(alloc, shape, index)?,
            joined: false,
        })?;
    }
    Ok(destinations)
}

/// The names of the sets to the destination of an index: of those from one on, and after the last of all sets from the
/// first again.
fn set_names(alloc: Global, shape: &Shape, index: u16) -> Result<Vec<String>, AllocError> {
    let sets = shape.set_count().max(1);
    let behind = shape.destinations.saturating_sub(index).saturating_sub(1);
    let (beyond, count) = match shape.routes {
        Routes::One => (0, 1),
        Routes::Most => (behind % sets, sets.min(Limits::SETS_PER_DESTINATION as u16)),
    };
    let first = if index < sets { index } else { beyond };
    let mut names = Vec::new(alloc);
    for step in 0..count {
        names.push(set_name(alloc, first.saturating_add(step) % sets)?)?;
    }
    Ok(names)
}
