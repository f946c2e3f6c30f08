//! Link sets of settings.

ghost use Rattle.std.specs.Prelude.{◌≡◌, ◌≤◌, ◌⊎◌, [], None, Some, length, map, IfOk, OnOk, IfErr};
ghost use Rattle.settings.specs.Checks.{natural, entries_fault};
ghost use Rattle.settings.specs.Meaning.{set_of, set_place};
ghost use Rattle.settings.specs.FirstFault.{set_fault, is_first_name, is_reached, unreached_fault, sets_fault};
ghost use Rattle.settings.specs.FirstFault.{has_set_named, has_adjacent, set_adjacent_fault};

use crate::names::ensure_name;
use crate::numbers::{count, ensure, far_point};
use crate::{DestinationDraft, DraftFault, FaultKind, Key, SetDraft, SetRow};
use signalling_types::{Limits, PointCode};
use std::alloc::Global;

/// The index of the set of this name.
pub(crate) fn set_place(sets: &[SetDraft], name: &str) -> Option<usize>
    ensures { result ≡ set_place sets.now name.now }
{
    sets.iter().position(|set| set.name.as_str() == name)
}

/// Whether a set of this name is among these.
pub(crate) fn has_set_named(sets: &[SetDraft], name: &str) -> bool
    ensures { result ≡ has_set_named sets.now name.now }
{
    set_place(sets, name).is_some()
}

/// Whether a set with this adjacent point is among these.
pub(crate) fn has_adjacent(sets: &[SetDraft], adjacent: i64) -> bool
    ensures { result ≡ has_adjacent sets.now adjacent }
{
    sets.iter().any(|set| set.adjacent == adjacent)
}

/// The adjacent point of a set, after the sets before it.
fn set_adjacent(
    own: PointCode,
    earlier: &[SetDraft],
    set: &SetDraft,
) -> Result<PointCode, DraftFault>
    ensures value { IfOk result (λ point. point ≡ natural set.now.adjacent) }
    ensures well { OnOk result (set_adjacent_fault own earlier.now set.now ≡ None) }
    ensures fault { IfErr result (λ fault.
        set_adjacent_fault own earlier.now set.now ≡ Some fault) }
{
    let key = Key::SetAdjacent(earlier.len());
    let adjacent = far_point(set.adjacent, own, key)?;
    let is_repeat = has_adjacent(earlier, set.adjacent);
    ensure(!is_repeat, FaultKind::Duplicate, key)?;
    Ok(adjacent)
}

/// A link set, after those before it.
fn set_row(own: PointCode, earlier: &[SetDraft], set: &SetDraft) -> Result<SetRow, DraftFault>
    ensures value { IfOk result (λ row. row ≡ set_of set.now) }
    ensures well { OnOk result (set_fault own earlier.now set.now ≡ None) }
    ensures fault { IfErr result (λ fault. set_fault own earlier.now set.now ≡ Some fault) }
{
    let is_repeat = has_set_named(earlier, set.name.as_str());
    ensure_name(set.name.as_str(), is_repeat, Key::SetName(earlier.len()))?;
    let adjacent = set_adjacent(own, earlier, set)?;
    Ok(SetRow::new(set.name.as_str(), adjacent))
}

/// The rows of the link sets.
fn set_rows(alloc: Global, own: PointCode, sets: &[SetDraft]) -> Result<Vec<SetRow>, DraftFault>
    ensures value { IfOk result (λ rows. rows.items ≡ map set_of sets.now) }
    ensures well { OnOk result (entries_fault (set_fault own) [] sets.now ≡ None) }
    ensures fault { IfErr result (λ fault.
        (fault ≡ DraftFault.NoMemory) ⊎ (entries_fault (set_fault own) [] sets.now ≡ Some fault)) }
{
    let mut rows = Vec::with_capacity(alloc, sets.len())?;
    for i in 0..sets.len() {
        let row = set_row(own, &sets[..i], &sets[i])?;
        rows.push_reserved(row);
    }
    Ok(rows)
}

/// The link sets, as many as there may be.
#[tactic(auto, unfolding(crate::specs::FirstFault::sets_fault))]
pub(crate) fn checked_sets(
    alloc: Global,
    own: PointCode,
    sets: &[SetDraft],
) -> Result<Vec<SetRow>, DraftFault>
    ensures value { IfOk result (λ rows. rows.items ≡ map set_of sets.now) }
    ensures fits { OnOk result (length sets.now ≤ Limits.SETS) }
    ensures well { OnOk result (sets_fault own sets.now ≡ None) }
    ensures fault { IfErr result (λ fault.
        (fault ≡ DraftFault.NoMemory) ⊎ (sets_fault own sets.now ≡ Some fault)) }
{
    count(sets.len(), Limits::SETS, Key::Set)?;
    set_rows(alloc, own, sets)
}

fn is_first_name(name: &str, names: &[String]) -> bool
    ensures { result ≡ is_first_name name.now names.now }
{
    match names.first() {
        Some(first) => first.as_str() == name,
        None => false,
    }
}

/// Whether a set's adjacent point is a destination whose first set it is.
pub(crate) fn is_reached(destinations: &[DestinationDraft], set: &SetDraft) -> bool
    ensures { result ≡ is_reached destinations.now set.now }
{
    destinations.iter().any(|destination| {
        destination.point == set.adjacent && is_first_name(set.name.as_str(), &destination.sets)
    })
}

/// Checks that each set leads to its adjacent point.
#[tactic(auto, unfolding(crate::specs::FirstFault::unreached_fault))]
pub(crate) fn all_reached(
    destinations: &[DestinationDraft],
    sets: &[SetDraft],
) -> Result<(), DraftFault>
    ensures well { OnOk result (unreached_fault destinations.now sets.now ≡ None) }
    ensures fault { IfErr result (λ fault. unreached_fault destinations.now sets.now ≡ Some fault) }
{
    for i in 0..sets.len() {
        let is_reached = is_reached(destinations, &sets[i]);
        ensure(is_reached, FaultKind::UnknownName, Key::SetAdjacent(i))?;
    }
    Ok(())
}
