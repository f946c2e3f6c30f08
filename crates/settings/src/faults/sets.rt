//! The faults of link sets.

ghost use Rattle.std.specs.Prelude.{◌≡◌, ◌≤◌, [], None, length, IsTrue, OnOk};
ghost use Rattle.settings.specs.Checks.{first_of, entries_checks};
ghost use Rattle.settings.specs.FirstFault.{set_name_fault, set_adjacent_fault, set_checks};
ghost use Rattle.settings.specs.AllFaults.{set_count_fault, sets_checks, reached_checks, unreached_checks};
ghost use Rattle.settings.specs.Told.{tell_all};

use crate::faults::numbers::{count_check, ensure_check, far_point_check, first};
use crate::faults::told::tell;
use crate::names::ensure_name;
use crate::sets::{has_adjacent, has_set_named, is_reached};
use crate::{DestinationDraft, DraftFault, FaultKind, Key, SetDraft};
use signalling_types::Limits;
use std::alloc::AllocError;

/// The name of a set, after the sets before it.
fn name_check(earlier: &[SetDraft], set: &SetDraft) -> Option<DraftFault>
    ensures { result ≡ set_name_fault earlier.now set.now }
{
    let is_repeat = has_set_named(earlier, set.name.as_str());
    ensure_name(set.name.as_str(), is_repeat, Key::SetName(earlier.len())).err()
}

/// The adjacent point of a set, after the sets before it.
fn adjacent_check(own: u16, earlier: &[SetDraft], set: &SetDraft) -> Option<DraftFault>
    ensures { result ≡ set_adjacent_fault own earlier.now set.now }
{
    let key = Key::SetAdjacent(earlier.len());
    let is_repeat = has_adjacent(earlier, set.adjacent);
    first(
        far_point_check(set.adjacent, own, key),
        ensure_check(!is_repeat, FaultKind::Duplicate, key),
    )
}

/// Tells the faults of a set, after the sets before it.
fn tell_set(
    told: &mut Vec<DraftFault>,
    own: u16,
    earlier: &[SetDraft],
    set: &SetDraft,
) -> Result<(), AllocError>
    ensures { OnOk result (told.new.items ≡ tell_all told.old.items (set_checks own earlier.now set.now)) }
{
    tell(told, name_check(earlier, set))?;
    tell(told, adjacent_check(own, earlier, set))?;
    Ok(())
}

/// Tells the faults of each set.
fn tell_each(told: &mut Vec<DraftFault>, own: u16, sets: &[SetDraft]) -> Result<(), AllocError>
    ensures { OnOk result (told.new.items ≡ tell_all told.old.items (entries_checks (set_checks own) [] sets.now)) }
{
    for i in 0..sets.len() {
        tell_set(told, own, &sets[..i], &sets[i])?;
    }
    Ok(())
}

/// The number of the sets.
pub(crate) fn set_count_check(sets: &[SetDraft]) -> Option<DraftFault>
    ensures { result ≡ set_count_fault sets.now }
{
    count_check(sets.len(), Limits::SETS, Key::Set)
}

/// Tells the faults of the link sets.
#[tactic(auto, unfolding(crate::specs::AllFaults::sets_checks))]
pub(crate) fn tell_sets(
    told: &mut Vec<DraftFault>,
    own: u16,
    sets: &[SetDraft],
) -> Result<(), AllocError>
    ensures { OnOk result (told.new.items ≡ tell_all told.old.items (sets_checks own sets.now)) }
{
    let count = set_count_check(sets);
    tell(told, count)?;
    if count.is_none() {
        tell_each(told, own, sets)?;
    }
    Ok(())
}

/// Tells that a set isn't reached, after the sets before it.
fn tell_unreached_set(
    told: &mut Vec<DraftFault>,
    destinations: &[DestinationDraft],
    earlier: &[SetDraft],
    set: &SetDraft,
) -> Result<(), AllocError>
    ensures { OnOk result (told.new.items ≡ tell_all told.old.items (reached_checks destinations.now earlier.now set.now)) }
{
    let is_reached = is_reached(destinations, set);
    let key = Key::SetAdjacent(earlier.len());
    tell(told, ensure_check(is_reached, FaultKind::UnknownName, key))?;
    Ok(())
}

/// Tells which sets aren't reached.
pub(crate) fn tell_unreached(
    told: &mut Vec<DraftFault>,
    destinations: &[DestinationDraft],
    sets: &[SetDraft],
) -> Result<(), AllocError>
    ensures { OnOk result (told.new.items ≡ tell_all told.old.items (entries_checks (reached_checks destinations.now) [] sets.now)) }
{
    for i in 0..sets.len() {
        tell_unreached_set(told, destinations, &sets[..i], &sets[i])?;
    }
    Ok(())
}
