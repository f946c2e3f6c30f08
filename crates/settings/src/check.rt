//! The check of settings: from what was written to rows of checked settings, or to the first fault.

ghost use Rattle.std.specs.Prelude.{◌≡◌, ◌<◌, ◌≤◌, ◌⊎◌, None, Some, length, map, IfOk, OnOk, IfErr};
ghost use Rattle.settings.specs.Checked.{configuration_in, services_in};
ghost use Rattle.settings.specs.Checks.{natural};
ghost use Rattle.settings.specs.Meaning.{settings_of, set_of, link_of, destination_of, title_of};
ghost use Rattle.settings.specs.FirstFault.{scalars_fault, tables_fault, arrays_fault, first_fault};

use crate::destinations::checked_destinations;
use crate::links::checked_links;
use crate::numbers::{distinct_numbers, number, point};
use crate::points::PointIndex;
use crate::sets::{all_reached, checked_sets};
use crate::timers::timer_ticks;
use crate::titles::checked_titles;
use crate::{DestinationRow, Draft, DraftFault, Key, LinkRow, SetRow, TimerTicks, TitleRow};
use signalling_types::{Limits, PointCode};
use std::alloc::Global;

/// The largest network indicator (Q.704 §14.2.2).
const LAST_NETWORK: u16 = 3;

/// The service indicators of user parts (Q.704 §14.2.1).
const FIRST_USER: u8 = 4;

const LAST_USER: u8 = 15;

/// What settings without a fault say: their numbers, what they ask for, and the rows of their arrays.
#[derive(Drop)]
pub struct Checked {
    /// The numbers that they begin with.
    pub scalars: Scalars,
    /// Service indicators of the user parts.
    pub users: Vec<u8>,
    /// Numbers of the subsystems.
    pub subsystems: Vec<u8>,
    /// What they ask for.
    pub services: Services,
    /// How long each timer runs.
    pub timers: TimerTicks,
    /// The rows of their arrays.
    pub arrays: Arrays,
}

/// Checks settings as they were written.
///
/// Returns what they say, or the first fault: the keys in order, the entries of each array from the first, and last a
/// set whose adjacent point isn't a destination that it leads to first. If an allocation was refused, `NoMemory` may be
/// returned instead.
pub fn check_draft(alloc: Global, draft: &Draft) -> Result<Checked, DraftFault>
    ensures settings { IfOk result (λ c. configuration_in c ≡ settings_of draft.now) }
    ensures points { IfOk result (λ c.
        c.arrays.tables.points ≡ map (λ d. d.point) c.arrays.tables.destinations.items) }
    ensures well { OnOk result (first_fault draft.now ≡ None) }
    ensures fault { IfErr result (λ fault.
        (fault ≡ DraftFault.NoMemory) ⊎ (first_fault draft.now ≡ Some fault)) }
{
    let scalars = checked_scalars(draft)?;
    let users = distinct_numbers(alloc, &draft.users, FIRST_USER, LAST_USER, Key::Users)?;
    let subsystems = distinct_numbers(alloc, &draft.subsystems, 1, u8::MAX, Key::Subsystems)?;
    let timers = timer_ticks(&draft.timers)?;
    let arrays = checked_arrays(alloc, scalars.own, draft)?;
    Ok(Checked {
        scalars,
        users,
        subsystems,
        services: Services::asked(draft),
        timers,
        arrays,
    })
}

/// The numbers that settings begin with.
#[derive(Clone, Copy)]
pub struct Scalars {
    /// The node's own point code.
    pub own: PointCode,
    /// The network indicator.
    pub network: u8,
    /// Messages that may be sent on a link before one is confirmed.
    pub window: u16,
    /// User messages that the node may keep.
    pub pool: u16,
}

/// The numbers that settings begin with.
#[tactic(auto, unfolding(crate::specs::FirstFault::scalars_fault))]
fn checked_scalars(draft: &Draft) -> Result<Scalars, DraftFault>
    ensures own { IfOk result (λ s. s.own ≡ natural draft.now.own) }
    ensures network { IfOk result (λ s. s.network ≡ natural draft.now.network) }
    ensures range { IfOk result (λ s. s.network < 4) }
    ensures window { IfOk result (λ s. s.window ≡ natural draft.now.window) }
    ensures pool { IfOk result (λ s. s.pool ≡ natural draft.now.pool) }
    ensures well { OnOk result (scalars_fault draft.now ≡ None) }
    ensures fault { IfErr result (λ fault. scalars_fault draft.now ≡ Some fault) }
{
    Ok(Scalars {
        own: point(draft.own, Key::Own)?,
        network: number(draft.network, 0, LAST_NETWORK, Key::Network)? as u8,
        window: number(draft.window, 1, Limits::WINDOW as u16, Key::Window)?,
        pool: number(draft.pool, 1, Limits::POOL as u16, Key::Pool)?,
    })
}

/// What settings ask for about subsystems, user parts, processors and changeovers.
#[derive(Clone, Copy)]
pub struct Services {
    /// Whether extended unitdata (XUDT, XUDTS) are relayed.
    pub extended_unitdata: bool,
    /// Whether a test of a subsystem on this node (SST) is answered.
    pub subsystem_tests: bool,
    /// Whether the sender of a message for a user part that isn't on this node is told so (UPU).
    pub user_part_unavailable: bool,
    /// Whether a link stays in service while its peer's processor is out (Q.703 §8).
    pub processor_outage: bool,
    /// Whether a link sends Out of Service before Alignment as its association comes up (RFC 4165 §5.1).
    pub out_of_service: bool,
    /// Whether an order to change over goes out by any way to the adjacent point (Q.704 §5, Q.2210).
    pub changeover_by_any_route: bool,
}

impl Services {
    /// What these settings ask for: none of it can be wrong.
    fn asked(draft: &Draft) -> Services
        ensures { result ≡ services_in draft.now }
    {
        Services {
            extended_unitdata: draft.extended_unitdata,
            subsystem_tests: draft.subsystem_tests,
            user_part_unavailable: draft.user_part_unavailable,
            processor_outage: draft.processor_outage,
            out_of_service: draft.out_of_service,
            changeover_by_any_route: draft.changeover_by_any_route,
        }
    }
}

/// The destinations of settings, their points, and the translation rows.
#[derive(Drop)]
pub struct Tables {
    /// The destinations.
    pub destinations: Vec<DestinationRow>,
    /// The point codes of the destinations, in their order.
    pub points: PointIndex,
    /// The translation rows.
    pub titles: Vec<TitleRow>,
}

/// The destinations and the translation rows of settings.
#[tactic(auto, unfolding(crate::specs::FirstFault::tables_fault))]
fn checked_tables(alloc: Global, own: PointCode, draft: &Draft) -> Result<Tables, DraftFault>
    requires own { own ≡ natural draft.now.own }
    requires sets { length draft.now.sets.items ≤ Limits.SETS }
    ensures destinations { IfOk result (λ t.
        t.destinations.items ≡ map (destination_of draft.now.sets.items) draft.now.destinations.items) }
    ensures points { IfOk result (λ t. t.points ≡ map (λ d. d.point) t.destinations.items) }
    ensures titles { IfOk result (λ t. t.titles.items ≡ map title_of draft.now.titles.items) }
    ensures well { OnOk result (tables_fault draft.now ≡ None) }
    ensures fault { IfErr result (λ fault.
        (fault ≡ DraftFault.NoMemory) ⊎ (tables_fault draft.now ≡ Some fault)) }
{
    let (destinations, points) = checked_destinations(
        alloc,
        own,
        &draft.sets,
        &draft.destinations,
    )?;
    let titles = checked_titles(alloc, &draft.titles)?;
    all_reached(&draft.destinations, &draft.sets)?;
    Ok(Tables {
        destinations,
        points,
        titles,
    })
}

/// The arrays of settings.
#[derive(Drop)]
pub struct Arrays {
    /// The link sets.
    pub sets: Vec<SetRow>,
    /// The links.
    pub links: Vec<LinkRow>,
    /// The destinations and the translation rows.
    pub tables: Tables,
}

/// The arrays of settings.
#[tactic(auto, unfolding(crate::specs::FirstFault::arrays_fault))]
fn checked_arrays(alloc: Global, own: PointCode, draft: &Draft) -> Result<Arrays, DraftFault>
    requires { own ≡ natural draft.now.own }
    ensures sets { IfOk result (λ a. a.sets.items ≡ map set_of draft.now.sets.items) }
    ensures links { IfOk result (λ a.
        a.links.items ≡ map (link_of draft.now.sets.items) draft.now.links.items) }
    ensures destinations { IfOk result (λ a.
        a.tables.destinations.items ≡ map (destination_of draft.now.sets.items) draft.now.destinations.items) }
    ensures points { IfOk result (λ a.
        a.tables.points ≡ map (λ d. d.point) a.tables.destinations.items) }
    ensures titles { IfOk result (λ a. a.tables.titles.items ≡ map title_of draft.now.titles.items) }
    ensures well { OnOk result (arrays_fault draft.now ≡ None) }
    ensures fault { IfErr result (λ fault.
        (fault ≡ DraftFault.NoMemory) ⊎ (arrays_fault draft.now ≡ Some fault)) }
{
    let sets = checked_sets(alloc, own, &draft.sets)?;
    let links = checked_links(alloc, &draft.sets, &draft.links)?;
    let tables = checked_tables(alloc, own, draft)?;
    Ok(Arrays {
        sets,
        links,
        tables,
    })
}
