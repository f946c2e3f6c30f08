//! The names of links and sets, by their numbers.

ghost use Rattle.std.specs.Prelude.{◌≡◌, ◌≤◌, length};
ghost use Rattle.console.specs.Names.{name_in, set_name_in};

use settings::{Limits, LinkId, SetId, Settings};

/// The name of a link; nothing if no link has this number.
pub fn link_name(settings: &Settings, link: LinkId) -> &str
    ensures name { result.now ≡ name_in settings.now link }
    ensures fits { length result.now ≤ Limits.NAME_OCTETS }
{
    match settings.link_name(link) {
        Some(name) => name,
        None => "",
    }
}

/// The name of a set; nothing if no set has this number.
pub fn set_name(settings: &Settings, set: SetId) -> &str
    ensures name { result.now ≡ set_name_in settings.now set }
    ensures fits { length result.now ≤ Limits.NAME_OCTETS }
{
    match settings.sets().get(set.index()) {
        Some(row) => row.name(),
        None => "",
    }
}
