//! All faults of settings as they were written.

ghost use Rattle.std.specs.Prelude.{◌≡◌, ◌↔◌, [], None, IfOk, OnOk};
ghost use Rattle.settings.specs.Checks.{natural};
ghost use Rattle.settings.specs.FirstFault.{first_fault, scalars_checks};
ghost use Rattle.settings.specs.AllFaults.{own_point, lists_checks, arrays_checks, all_checks, all_faults, first_in};
ghost use Rattle.settings.specs.Told.{tell_all};
ghost use Rattle.settings.specs.declared.draft.Draft.{Draft};

mod destinations;
mod links;
mod numbers;
mod points;
mod sets;
mod timers;
mod titles;
mod told;

use crate::faults::destinations::tell_destinations;
use crate::faults::links::tell_links;
use crate::faults::numbers::{distinct_check, own_point, range_check};
use crate::faults::sets::{tell_sets, tell_unreached};
use crate::faults::timers::tell_timers;
use crate::faults::titles::tell_titles;
use crate::faults::told::tell;
use crate::{Draft, DraftFault, Key};
use signalling_types::Limits;
use std::alloc::{AllocError, Global};

/// All faults of settings as they were written: of each key its first one, the keys in the order in which
/// `Settings::check` looks at them. What only follows from another fault isn't told. They are 3 for each destination at
/// most, and 12 for each translation row.
///
/// `AllocError` if memory ran out.
pub fn all_faults(alloc: Global, draft: &Draft) -> Result<Vec<DraftFault>, AllocError>
    ensures { IfOk result (λ faults. faults.items ≡ all_faults draft.now) }
{
    let mut told = Vec::new(alloc);
    tell_all(alloc, &mut told, draft)?;
    Ok(told)
}

/// The law that the first of all faults is the one that `Settings::check` returns, and that there is one exactly if
/// there is a first one. The call does nothing.
pub fn all_faults_begin()
    ensures first { (d : Draft) → first_in (all_faults d) ≡ first_fault d }
    ensures none { (d : Draft) → (all_faults d ≡ []) ↔ (first_fault d ≡ None) }
{}

/// Tells all faults of settings.
#[tactic(auto, unfolding(crate::specs::AllFaults::all_checks))]
fn tell_all(alloc: Global, told: &mut Vec<DraftFault>, draft: &Draft) -> Result<(), AllocError>
    ensures { OnOk result (told.new.items ≡ tell_all told.old.items (all_checks draft.now)) }
{
    tell_scalars(told, draft)?;
    tell_lists(alloc, told, draft)?;
    tell_timers(told, &draft.timers)?;
    tell_arrays(alloc, told, own_point(draft.own), draft)?;
    Ok(())
}

/// Tells the faults of the numbers that settings begin with.
fn tell_scalars(told: &mut Vec<DraftFault>, draft: &Draft) -> Result<(), AllocError>
    ensures { OnOk result (told.new.items ≡ tell_all told.old.items (scalars_checks draft.now)) }
{
    tell(told, range_check(draft.own, 0, 16_383, Key::Own))?;
    tell(told, range_check(draft.network, 0, 3, Key::Network))?;
    tell(
        told,
        range_check(draft.window, 1, Limits::WINDOW as u16, Key::Window),
    )?;
    tell(
        told,
        range_check(draft.pool, 1, Limits::POOL as u16, Key::Pool),
    )?;
    Ok(())
}

/// Tells the faults of the numbers of user parts and subsystems.
fn tell_lists(alloc: Global, told: &mut Vec<DraftFault>, draft: &Draft) -> Result<(), AllocError>
    ensures { OnOk result (told.new.items ≡ tell_all told.old.items (lists_checks draft.now)) }
{
    tell(
        told,
        distinct_check(alloc, &draft.users, 4, 15, Key::Users)?,
    )?;
    tell(
        told,
        distinct_check(alloc, &draft.subsystems, 1, u8::MAX, Key::Subsystems)?,
    )?;
    Ok(())
}

/// Tells the faults of the arrays, whose points must differ from the node's own.
#[tactic(auto, unfolding(crate::specs::AllFaults::arrays_checks))]
fn tell_arrays(
    alloc: Global,
    told: &mut Vec<DraftFault>,
    own: u16,
    draft: &Draft,
) -> Result<(), AllocError>
    ensures { OnOk result (told.new.items ≡ tell_all told.old.items (arrays_checks own draft.now)) }
{
    let first = told.len();
    tell_sets(told, own, &draft.sets)?;
    let after_sets = told.len();
    tell_links(told, &draft.sets, &draft.links)?;
    let after_links = told.len();
    tell_destinations(alloc, told, own, &draft.sets, &draft.destinations)?;
    let after_destinations = told.len();
    tell_titles(alloc, told, &draft.titles)?;
    if after_sets == first && after_destinations == after_links {
        tell_unreached(told, &draft.destinations, &draft.sets)?;
    }
    Ok(())
}
