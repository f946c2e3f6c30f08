//! Faults of settings that only follow from others of their file.

ghost use Rattle.std.specs.Prelude.{◌≡◌, ◌||◌};
ghost use Rattle.std.specs.List.{list_any};
ghost use Rattle.settings_file.specs.Following.{is_hiding_names, hides_names, check_hides_names, is_hiding_routes};
ghost use Rattle.settings_file.specs.Following.{hides_routes, is_hidden};

use crate::fault::SettingsFault;
use crate::key_rows::{key_front, key_name};
use crate::sentences::key_of;
use settings::{DraftFault, FaultKind, Key};

/// What faults leave open.
#[derive(Clone, Copy)]
pub(crate) struct Hidden {
    /// Whether they leave open which names sets have.
    names: bool,
    /// Whether they leave open which sets lead to destinations.
    routes: bool,
}

/// Whether a fault at this key leaves open which names sets have.
fn is_hiding_names(key: Key) -> bool
    ensures { result ≡ is_hiding_names key }
{
    key_front(key) == "set" && key_name(key) != "adjacent"
}

fn hides_names(fault: SettingsFault) -> bool
    ensures { result ≡ hides_names fault }
{
    match key_of(fault) {
        Some(key) => is_hiding_names(key),
        None => false,
    }
}

fn check_hides_names(fault: DraftFault) -> bool
    ensures { result ≡ check_hides_names fault }
{
    hides_names(SettingsFault::Draft(fault))
}

/// Whether a fault at this key leaves open which sets lead to destinations.
fn is_hiding_routes(key: Key) -> bool
    ensures { result ≡ is_hiding_routes key }
{
    key_front(key) == "set" || key_front(key) == "destination"
}

fn hides_routes(fault: SettingsFault) -> bool
    ensures { result ≡ hides_routes fault }
{
    match key_of(fault) {
        Some(key) => is_hiding_routes(key),
        None => false,
    }
}

/// What the faults of reading and of checking leave open.
pub(crate) fn hidden_by(reading: &[SettingsFault], checked: &[DraftFault]) -> Hidden
    ensures names { result.names
        ≡ (list_any hides_names reading.now || list_any check_hides_names checked.now) }
    ensures routes { result.routes ≡ list_any hides_routes reading.now }
{
    Hidden {
        names: any_hides_names(reading) || any_check_hides_names(checked),
        routes: reading.iter().any(|fault| hides_routes(*fault)),
    }
}

fn any_hides_names(faults: &[SettingsFault]) -> bool
    ensures { result ≡ list_any hides_names faults.now }
{
    faults.iter().any(|fault| hides_names(*fault))
}

fn any_check_hides_names(faults: &[DraftFault]) -> bool
    ensures { result ≡ list_any check_hides_names faults.now }
{
    faults.iter().any(|fault| check_hides_names(*fault))
}

impl Hidden {
    /// Whether a fault may be one only because of what is left open.
    pub(crate) fn has(self, fault: DraftFault) -> bool
        ensures { result ≡ is_hidden self.names self.routes fault }
    {
        match fault {
            DraftFault::At(FaultKind::UnknownName, key) => {
                if key_name(key) == "adjacent" {
                    self.routes
                } else {
                    self.names
                }
            }
            _ => false,
        }
    }
}
