//! The faults of destinations.

ghost use Rattle.std.specs.Prelude.{◌≡◌, [], OnOk};
ghost use Rattle.settings.specs.Checks.{entries_checks};
ghost use Rattle.settings.specs.FirstFault.{joined_fault, is_set_name};
ghost use Rattle.settings.specs.AllFaults.{destination_point_check, known_check, set_list_check};
ghost use Rattle.settings.specs.AllFaults.{destination_checks, destinations_checks};
ghost use Rattle.settings.specs.SeenPoints.{AreSeen, seen_with};
ghost use Rattle.settings.specs.Told.{tell_all};
ghost use Rattle.std.specs.List.{list_all};

use crate::destinations::{are_names, has_name_twice, joined};
use crate::faults::numbers::{behind, count_check, ensure_check, far_point_check, first};
use crate::faults::points::SeenPoints;
use crate::faults::sets::set_count_check;
use crate::faults::told::tell;
use crate::sets::set_place;
use crate::{DestinationDraft, DraftFault, FaultKind, Key, SetDraft};
use signalling_types::Limits;
use std::alloc::{AllocError, Global};

/// The point of a destination, after the destinations before it, whose points were seen.
fn point_check(
    own: u16,
    seen: &mut SeenPoints,
    earlier: &[DestinationDraft],
    destination: &DestinationDraft,
) -> Option<DraftFault>
    requires { AreSeen seen.old earlier.now }
    ensures value { result ≡ destination_point_check own earlier.now destination.now }
    ensures seen { seen.new ≡ seen_with seen.old destination.now.point }
{
    let key = Key::DestinationPoint(earlier.len());
    let is_repeat = seen.see(destination.point);
    first(
        far_point_check(destination.point, own, key),
        ensure_check(!is_repeat, FaultKind::Duplicate, key),
    )
}

/// Whether each name is that of a set.
fn are_set_names(sets: &[SetDraft], names: &[String]) -> bool
    ensures { result ≡ list_all (is_set_name sets.now) names.now }
{
    names
        .iter()
        .all(|name| set_place(sets, name.as_str()).is_some())
}

/// That the names are those of sets, if there are as many sets as there may be.
fn known_check(sets: &[SetDraft], names: &[String], key: Key) -> Option<DraftFault>
    ensures { result ≡ known_check sets.now key names.now }
{
    if set_count_check(sets).is_some() {
        return None;
    }
    ensure_check(are_set_names(sets, names), FaultKind::UnknownName, key)
}

/// The sets that lead to a destination.
fn set_list_check(sets: &[SetDraft], names: &[String], key: Key) -> Option<DraftFault>
    ensures { result ≡ set_list_check sets.now key names.now }
{
    let count = count_check(names.len(), Limits::SETS_PER_DESTINATION, key);
    if count.is_some() {
        return count;
    }
    if !are_names(names) {
        return Some(DraftFault::At(FaultKind::Range, key));
    }
    if has_name_twice(names) {
        return Some(DraftFault::At(FaultKind::Duplicate, key));
    }
    known_check(sets, names, key)
}

/// Whether the first two sets of a destination are joined, after the destinations before it.
fn joined_check(earlier: &[DestinationDraft], destination: &DestinationDraft) -> Option<DraftFault>
    ensures { result ≡ joined_fault earlier.now destination.now }
{
    joined(earlier, destination).err()
}

/// Tells the faults of a destination, after the destinations before it, whose points were seen.
fn tell_destination(
    told: &mut Vec<DraftFault>,
    own: u16,
    sets: &[SetDraft],
    seen: &mut SeenPoints,
    earlier: &[DestinationDraft],
    destination: &DestinationDraft,
) -> Result<(), AllocError>
    requires { AreSeen seen.old earlier.now }
    ensures told { OnOk result (told.new.items
        ≡ tell_all told.old.items (destination_checks own sets.now earlier.now destination.now)) }
    ensures seen { seen.new ≡ seen_with seen.old destination.now.point }
{
    let key = Key::DestinationSets(earlier.len());
    let point = point_check(own, seen, earlier, destination);
    let names = set_list_check(sets, &destination.sets, key);
    let joined = joined_check(earlier, destination);
    tell(told, point)?;
    tell(told, names)?;
    tell(told, behind(names, joined))?;
    Ok(())
}

/// Tells the faults of each destination.
fn tell_each(
    alloc: Global,
    told: &mut Vec<DraftFault>,
    own: u16,
    sets: &[SetDraft],
    destinations: &[DestinationDraft],
) -> Result<(), AllocError>
    ensures { OnOk result (told.new.items
        ≡ tell_all told.old.items (entries_checks (destination_checks own sets.now) [] destinations.now)) }
{
    let mut seen = SeenPoints::none(alloc)?;
    for i in 0..destinations.len() {
        tell_destination(
            told,
            own,
            sets,
            &mut seen,
            &destinations[..i],
            &destinations[i],
        )?;
    }
    Ok(())
}

/// Tells the faults of the destinations.
#[tactic(auto, unfolding(crate::specs::AllFaults::destinations_checks))]
pub(crate) fn tell_destinations(
    alloc: Global,
    told: &mut Vec<DraftFault>,
    own: u16,
    sets: &[SetDraft],
    destinations: &[DestinationDraft],
) -> Result<(), AllocError>
    ensures { OnOk result
        (told.new.items ≡ tell_all told.old.items (destinations_checks own sets.now destinations.now)) }
{
    let count = count_check(destinations.len(), Limits::DESTINATIONS, Key::Destination);
    tell(told, count)?;
    if count.is_some() {
        return Ok(());
    }
    tell_each(alloc, told, own, sets, destinations)
}
