//! What the sets, links and destinations of a node are called, by their numbers, and what leads where.

ghost use Rattle.std.specs.Prelude.{◌≡◌, ◌≤◌, length};
ghost use Rattle.console.specs.Names.{set_name_in};
ghost use Rattle.status_page.specs.Places.{adjacent_text, adjacent_text_of, destination_text, is_of_set, set_name_of, sets_to};

use arrayvec::ArrayString;
use settings::{POINT_OCTETS, PointFormat, Settings, point_text};
use signalling_types::{Limits, LinkId, SetId};

/// The name of a set; nothing if no set has this number.
pub(crate) fn set_name(settings: &Settings, set: SetId) -> &str
    ensures name { result.now ≡ set_name_in settings.now set }
    ensures fits { length result.now ≤ Limits.NAME_OCTETS }
{
    match settings.sets().get(set.index()) {
        Some(row) => row.name(),
        None => "",
    }
}

/// The point that a set leads to, as a text; nothing if no set has this number.
pub(crate) fn adjacent_text(
    settings: &Settings,
    set: SetId,
    points: PointFormat,
) -> ArrayString<POINT_OCTETS>
    ensures { result.bytes ≡ adjacent_text points settings.now set }
{
    match settings.sets().get(set.index()) {
        Some(row) => point_text(row.adjacent(), points),
        None => ArrayString::new(),
    }
}

/// The name of a link's set; nothing if there is no such link.
pub(crate) fn set_name_of(settings: &Settings, link: LinkId) -> &str
    ensures name { result.now ≡ set_name_of settings.now link }
    ensures fits { length result.now ≤ Limits.NAME_OCTETS }
{
    match settings.links().get(link.index()) {
        Some(row) => set_name(settings, row.set()),
        None => "",
    }
}

/// The point that a link leads to, as a text; nothing if there is no such link.
pub(crate) fn adjacent_text_of(
    settings: &Settings,
    link: LinkId,
    points: PointFormat,
) -> ArrayString<POINT_OCTETS>
    ensures { result.bytes ≡ adjacent_text_of points settings.now link }
{
    match settings.links().get(link.index()) {
        Some(row) => adjacent_text(settings, row.set(), points),
        None => ArrayString::new(),
    }
}

/// Whether a link is of a set.
pub(crate) fn is_of_set(settings: &Settings, link: LinkId, set: SetId) -> bool
    ensures { result ≡ is_of_set settings.now link set }
{
    match settings.links().get(link.index()) {
        Some(row) => row.set().index() == set.index(),
        None => false,
    }
}

/// The point code of a destination, as a text; nothing if no destination has this number.
pub(crate) fn destination_text(
    settings: &Settings,
    destination: usize,
    points: PointFormat,
) -> ArrayString<POINT_OCTETS>
    ensures { result.bytes ≡ destination_text points settings.now destination }
{
    match settings.destinations().get(destination) {
        Some(row) => point_text(row.point(), points),
        None => ArrayString::new(),
    }
}

/// The sets that lead to a destination, the preferred one first; none if no destination has this number.
pub(crate) fn sets_to(settings: &Settings, destination: usize) -> &[SetId]
    ensures { result.now ≡ sets_to settings.now destination }
{
    match settings.destinations().get(destination) {
        Some(row) => row.sets(),
        None => &[],
    }
}
