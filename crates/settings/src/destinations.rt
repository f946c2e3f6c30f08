//! Destinations of settings.

ghost use Rattle.std.specs.Prelude.{◌≡◌, ◌∷◌, ◌++◌, ◌<◌, ◌≤◌, ◌⊎◌, [], None, Some, string_eq, length, map};
ghost use Rattle.std.specs.Prelude.{IfOk, OnOk, IfErr, string_bytes};
ghost use Rattle.std.specs.List.{list_all};
ghost use Rattle.settings.specs.Names.{is_name};
ghost use Rattle.settings.specs.Checks.{natural, fault_unless, has_repeat, entries_fault};
ghost use Rattle.settings.specs.Meaning.{set_number, destination_of, points_of};
ghost use Rattle.settings.specs.FirstFault.{destination_point_fault, is_set_name, set_list_fault};
ghost use Rattle.settings.specs.FirstFault.{joined_fault, destination_fault, destinations_fault};

use crate::names::is_name;
use crate::numbers::{count, ensure, far_point};
use crate::points::PointIndex;
use crate::sets::set_place;
use crate::{DestinationDraft, DestinationRow, DraftFault, FaultKind, Key, SetDraft};
use arrayvec::ArrayVec;
use signalling_types::{Limits, PointCode, SetId};
use std::alloc::Global;

/// The point of a destination, after the destinations before it, whose points are `points`.
fn destination_point(
    own: PointCode,
    points: &mut PointIndex,
    earlier: &[DestinationDraft],
    destination: &DestinationDraft,
) -> Result<PointCode, DraftFault>
    requires fits { length earlier.now < Limits.DESTINATIONS }
    requires points { points.old ≡ points_of earlier.now }
    ensures value { IfOk result (λ point. point ≡ natural destination.now.point) }
    ensures points { OnOk result
        (points.new ≡ points.old ++ natural destination.now.point ∷ []) }
    ensures well { OnOk result (destination_point_fault own earlier.now destination.now ≡ None) }
    ensures fault { IfErr result (λ fault.
        (fault ≡ DraftFault.NoMemory)
        ⊎ (destination_point_fault own earlier.now destination.now ≡ Some fault)) }
{
    let key = Key::DestinationPoint(earlier.len());
    let point = far_point(destination.point, own, key)?;
    let is_new = points.insert(point)?;
    ensure(is_new, FaultKind::Duplicate, key)?;
    Ok(point)
}

/// Whether some name occurs twice.
#[tactic(auto, using(std::proofs::lemmas::Grind::common_steps))]
pub(crate) fn has_name_twice(names: &[String]) -> bool
    ensures { result ≡ has_repeat string_eq names.now }
{
    for i in 0..names.len() {
        if names[i + 1..].contains(&names[i]) {
            return true;
        }
    }
    false
}

/// Whether each text is a name.
pub(crate) fn are_names(names: &[String]) -> bool
    ensures { result ≡ list_all (λ name. is_name (string_bytes name)) names.now }
{
    names.iter().all(|name| is_name(name.as_str()))
}

/// The sets of these names.
#[tactic(auto, using(std::proofs::lemmas::Grind::common_steps))]
fn set_ids(
    sets: &[SetDraft],
    names: &[String],
    key: Key,
) -> Result<ArrayVec<SetId, { Limits::SETS_PER_DESTINATION }>, DraftFault>
    requires sets { length sets.now ≤ Limits.SETS }
    requires names { length names.now ≤ Limits.SETS_PER_DESTINATION }
    ensures value { IfOk result (λ ids.
        ids.items ≡ map (λ name. set_number sets.now (string_bytes name)) names.now) }
    ensures well { OnOk result
        (fault_unless (list_all (is_set_name sets.now) names.now) FaultKind.UnknownName key ≡ None) }
    ensures fault { IfErr result (λ fault.
        fault_unless (list_all (is_set_name sets.now) names.now) FaultKind.UnknownName key ≡ Some fault) }
{
    let mut ids = ArrayVec::new();
    for name in names {
        match set_place(sets, name.as_str()) {
            Some(place) => ids.push(SetId::new(place as u8)),
            None => return Err(DraftFault::At(FaultKind::UnknownName, key)),
        }
    }
    Ok(ids)
}

/// The sets that lead to a destination.
fn set_list(
    sets: &[SetDraft],
    names: &[String],
    key: Key,
) -> Result<ArrayVec<SetId, { Limits::SETS_PER_DESTINATION }>, DraftFault>
    requires { length sets.now ≤ Limits.SETS }
    ensures value { IfOk result (λ ids.
        ids.items ≡ map (λ name. set_number sets.now (string_bytes name)) names.now) }
    ensures well { OnOk result (set_list_fault sets.now key names.now ≡ None) }
    ensures fault { IfErr result (λ fault. set_list_fault sets.now key names.now ≡ Some fault) }
{
    count(names.len(), Limits::SETS_PER_DESTINATION, key)?;
    ensure(are_names(names), FaultKind::Range, key)?;
    ensure(!has_name_twice(names), FaultKind::Duplicate, key)?;
    set_ids(sets, names, key)
}

/// Whether the first two sets of a destination are joined, after the destinations before it.
pub(crate) fn joined(
    earlier: &[DestinationDraft],
    destination: &DestinationDraft,
) -> Result<bool, DraftFault>
    ensures value { IfOk result (λ joined. joined ≡ destination.now.joined) }
    ensures well { OnOk result (joined_fault earlier.now destination.now ≡ None) }
    ensures fault { IfErr result (λ fault. joined_fault earlier.now destination.now ≡ Some fault) }
{
    let joined = destination.joined;
    let key = Key::DestinationJoined(earlier.len());
    ensure(
        !joined || destination.sets.len() >= 2,
        FaultKind::Range,
        key,
    )?;
    Ok(joined)
}

/// A destination, after those before it, whose points are `points`.
fn destination_row(
    own: PointCode,
    sets: &[SetDraft],
    points: &mut PointIndex,
    earlier: &[DestinationDraft],
    destination: &DestinationDraft,
) -> Result<DestinationRow, DraftFault>
    requires sets { length sets.now ≤ Limits.SETS }
    requires fits { length earlier.now < Limits.DESTINATIONS }
    requires points { points.old ≡ points_of earlier.now }
    ensures value { IfOk result (λ row. row ≡ destination_of sets.now destination.now) }
    ensures points { OnOk result
        (points.new ≡ points.old ++ natural destination.now.point ∷ []) }
    ensures well { OnOk result (destination_fault own sets.now earlier.now destination.now ≡ None) }
    ensures fault { IfErr result (λ fault.
        (fault ≡ DraftFault.NoMemory)
        ⊎ (destination_fault own sets.now earlier.now destination.now ≡ Some fault)) }
{
    let key = Key::DestinationSets(earlier.len());
    let point = destination_point(own, points, earlier, destination)?;
    let sets = set_list(sets, &destination.sets, key)?;
    let joined = joined(earlier, destination)?;
    Ok(DestinationRow::new(point, sets, joined))
}

/// The rows of the destinations, and their points.
fn destination_rows(
    alloc: Global,
    own: PointCode,
    sets: &[SetDraft],
    destinations: &[DestinationDraft],
) -> Result<(Vec<DestinationRow>, PointIndex), DraftFault>
    requires sets { length sets.now ≤ Limits.SETS }
    requires fits { length destinations.now ≤ Limits.DESTINATIONS }
    ensures value { IfOk result (λ r. r.0.items ≡ map (destination_of sets.now) destinations.now) }
    ensures points { IfOk result (λ r. r.1 ≡ map (λ d. d.point) r.0.items) }
    ensures well { OnOk result
        (entries_fault (destination_fault own sets.now) [] destinations.now ≡ None) }
    ensures fault { IfErr result (λ fault.
        (fault ≡ DraftFault.NoMemory)
        ⊎ (entries_fault (destination_fault own sets.now) [] destinations.now ≡ Some fault)) }
{
    let mut rows = Vec::with_capacity(alloc, destinations.len())?;
    let mut points = PointIndex::with_capacity(alloc, destinations.len())?;
    for i in 0..destinations.len() {
        let row = destination_row(own, sets, &mut points, &destinations[..i], &destinations[i])?;
        rows.push_reserved(row);
    }
    Ok((rows, points))
}

/// The destinations, as many as there may be, and their points.
#[tactic(auto, unfolding(crate::specs::FirstFault::destinations_fault))]
pub(crate) fn checked_destinations(
    alloc: Global,
    own: PointCode,
    sets: &[SetDraft],
    destinations: &[DestinationDraft],
) -> Result<(Vec<DestinationRow>, PointIndex), DraftFault>
    requires { length sets.now ≤ Limits.SETS }
    ensures value { IfOk result (λ r. r.0.items ≡ map (destination_of sets.now) destinations.now) }
    ensures points { IfOk result (λ r. r.1 ≡ map (λ d. d.point) r.0.items) }
    ensures well { OnOk result (destinations_fault own sets.now destinations.now ≡ None) }
    ensures fault { IfErr result (λ fault.
        (fault ≡ DraftFault.NoMemory)
        ⊎ (destinations_fault own sets.now destinations.now ≡ Some fault)) }
{
    count(destinations.len(), Limits::DESTINATIONS, Key::Destination)?;
    destination_rows(alloc, own, sets, destinations)
}
