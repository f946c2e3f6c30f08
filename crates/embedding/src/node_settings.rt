//! The settings of the node: point 1, with a link to each of points 2 and 3, and point 300 behind point 3.

use exchange::{DestinationDraft, Draft, LinkDraft, SetDraft, TimersDraft};
use std::alloc::{AllocError, Global};

/// The links by their names, and the set and the point of each.
pub(crate) const LINKS: [(&str, &str, i64); 2] = [("e0", "east", 2), ("w0", "west", 3)];

/// The settings, as they would be written.
pub(crate) fn draft(alloc: Global) -> Result<Draft, AllocError> {
    let mut sets = Vec::new(alloc);
    let mut links = Vec::new(alloc);
    let mut destinations = Vec::new(alloc);
    for (link, set, point) in LINKS {
        sets.push(SetDraft {
            name: String::from_str(alloc, set)?,
            adjacent: point,
        })?;
        links.push(LinkDraft {
            name: String::from_str(alloc, link)?,
            set: String::from_str(alloc, set)?,
            slc: 0,
            share: None,
        })?;
        destinations.push(destination(alloc, point, set)?)?;
    }
    destinations.push(destination(alloc, 300, "west")?)?;
    Ok(Draft {
        own: 1,
        network: 2,
        window: 128,
        pool: 1000,
        users: Vec::from_slice(alloc, &[5])?,
        subsystems: Vec::new(alloc),
        extended_unitdata: false,
        subsystem_tests: false,
        user_part_unavailable: false,
        processor_outage: false,
        out_of_service: false,
        changeover_by_any_route: false,
        timers: timers(),
        sets,
        links,
        destinations,
        titles: Vec::new(alloc),
    })
}

fn destination(alloc: Global, point: i64, set: &str) -> Result<DestinationDraft, AllocError> {
    let mut sets = Vec::new(alloc);
    sets.push(String::from_str(alloc, set)?)?;
    Ok(DestinationDraft {
        point,
        sets,
        joined: false,
    })
}

/// The timers, in ticks of 200 ms (docs/MANUAL.md has the usual values). L4, the time of proving, is short here, so
/// that the run is.
fn timers() -> TimersDraft {
    TimersDraft {
        l1: 225,
        l2: 100,
        l3: 8,
        l4: 3,
        l6: 20,
        l7: 5,
        t1: 4,
        t2: 6,
        t3: 4,
        t4: 4,
        t6: 4,
        t8: 5,
        t10: 150,
        link_tests: None,
        l4e: None,
        sst: None,
        t2_bar: None,
    }
}
