//! The built-in settings, for a node that is given none.

ghost use Rattle.std.specs.Prelude.{◌≡◌, ◌∷◌, [], IfOk};
ghost use Rattle.script.specs.BuiltIn.{IsBuiltIn, built_in_ticks, IsSets, IsLinks, IsDestination, IsDestinations};

use settings::{DestinationDraft, Draft, LinkDraft, SetDraft, TimersDraft};
use std::alloc::{AllocError, Global};

/// The name of the one link set.
const SET: &str = "east";

/// The name of the one link.
const LINK: &str = "e0";

/// The settings of point 1 with one link, `e0`, to the adjacent point 2, and a destination 300 behind it.
///
/// Returns `AllocError` if memory ran out.
pub fn built_in(alloc: Global) -> Result<Draft, AllocError>
    ensures { IfOk result IsBuiltIn }
{
    Ok(Draft {
        own: 1,
        network: 2,
        window: 128,
        pool: 1000,
        users: one(alloc, 5)?,
        subsystems: one(alloc, 8)?,
        extended_unitdata: false,
        subsystem_tests: false,
        user_part_unavailable: false,
        processor_outage: false,
        out_of_service: false,
        changeover_by_any_route: false,
        timers: timers(),
        sets: sets(alloc)?,
        links: links(alloc)?,
        destinations: destinations(alloc)?,
        titles: Vec::new(alloc),
    })
}

fn one(alloc: Global, number: i64) -> Result<Vec<i64>, AllocError>
    ensures { IfOk result (λ numbers. numbers.items ≡ number ∷ []) }
{
    let mut numbers = Vec::new(alloc);
    numbers.push(number)?;
    Ok(numbers)
}

/// How many ticks each timer runs.
fn timers() -> TimersDraft
    ensures { result ≡ built_in_ticks }
{
    TimersDraft {
        l1: 10,
        l2: 10,
        l3: 10,
        l4: 3,
        l6: 20,
        l7: 5,
        t1: 4,
        t2: 6,
        t3: 4,
        t4: 4,
        t6: 4,
        t8: 3,
        t10: 8,
        link_tests: None,
        l4e: None,
        sst: None,
        t2_bar: None,
    }
}

/// The one link set.
fn sets(alloc: Global) -> Result<Vec<SetDraft>, AllocError>
    ensures { IfOk result (λ sets. IsSets sets.items) }
{
    let name = String::from_str(alloc, SET)?;
    let mut sets = Vec::new(alloc);
    sets.push(SetDraft { name, adjacent: 2 })?;
    Ok(sets)
}

fn links(alloc: Global) -> Result<Vec<LinkDraft>, AllocError>
    ensures { IfOk result (λ links. IsLinks links.items) }
{
    let name = String::from_str(alloc, LINK)?;
    let set = String::from_str(alloc, SET)?;
    let mut links = Vec::new(alloc);
    links.push(LinkDraft {
        name,
        set,
        slc: 0,
        share: None,
    })?;
    Ok(links)
}

/// The adjacent point, and the point behind it.
fn destinations(alloc: Global) -> Result<Vec<DestinationDraft>, AllocError>
    ensures { IfOk result (λ destinations. IsDestinations destinations.items) }
{
    let mut destinations = Vec::new(alloc);
    destinations.push(destination(alloc, 2)?)?;
    destinations.push(destination(alloc, 300)?)?;
    Ok(destinations)
}

/// A destination by the one link set.
fn destination(alloc: Global, point: i64) -> Result<DestinationDraft, AllocError>
    ensures { IfOk result (IsDestination point) }
{
    let mut sets = Vec::new(alloc);
    sets.push(String::from_str(alloc, SET)?)?;
    Ok(DestinationDraft {
        point,
        sets,
        joined: false,
    })
}
