//! All faults of a settings file at once.

ghost use Rattle.std.specs.Prelude.{◌≡◌, ◌↔◌, ◌∷◌, [], ℕ, List, Some, true, IfOk};
ghost use Rattle.toml.specs.Data.{Members};
ghost use Rattle.toml.specs.Parse.{parse_document};
ghost use Rattle.toml.specs.View.{table_view};
ghost use Rattle.settings.specs.Configuration.{Configuration};
ghost use Rattle.settings_file.specs.AllFaults.{told_faults, reading_checks, reading_faults, AreOfFourth, AreAllFaults};
ghost use Rattle.settings_file.specs.FirstOfAll.{checked_by, document_mended, HasNoFault, IsFirstOfAll};
ghost use Rattle.settings_file.specs.KnownKeys.{has_fourth};
ghost use Rattle.settings_file.specs.Reading.{reading_in, IsReadAs, IsFirstFault};
ghost use Rattle.settings_file.specs.declared.fault.SettingsFault.{SettingsFault};
ghost use Rattle.settings_file.specs.declared.serve.fault.ServeFault.{ServeFault};

mod arrays;
mod entries;
mod following;
mod lone;
mod mended;
pub(crate) mod noting;
mod owned;
pub mod telling;

use crate::fault::SettingsFault;
use crate::faults::arrays::note_arrays;
use crate::faults::following::hidden_by;
use crate::faults::lone::{note_leading, note_services, note_timers};
use crate::faults::mended::mended;
use crate::faults::telling::{tell_checked, tell_read, tell_served};
use crate::known_keys::has_fourth;
use crate::serve::ServeFault;
use crate::serve::faults::server_faults;
use settings::DraftFault;
use std::alloc::{AllocError, Global};
use toml::Table;

/// All faults of a settings file, as its document has them; 100 at most. `first` is the one that `read_document` returns;
/// if it returns none, the one of `read_server`.
///
/// A file of version 4 has those of reading, `Missing` and `Kind`, in the order of its keys; behind them those of the
/// settings that were read, in the same order; and those of its server. A key has one. Where a value can't be read, no
/// other fault is told that only follows. A file of another version, or of none, has its first fault alone. `AllocError`
/// if memory ran out.
pub fn all_faults(
    alloc: Global,
    document: &Table,
    first: ServeFault,
) -> Result<Vec<ServeFault>, AllocError>
    ensures { IfOk result (λ faults. AreAllFaults (table_view document.now) first faults.items) }
{
    if has_fourth(document) {
        faults_of_fourth(alloc, document, first)
    } else {
        alone(alloc, first)
    }
}

/// The law that all faults of a document begin with its first one. The call does nothing.
pub fn all_faults_begin()
    ensures { (t : Members) (first : ServeFault) (faults : List ServeFault) → AreAllFaults t first faults
        → (rest : List ServeFault) × (faults ≡ first ∷ rest) }
{}

/// The law that what is read of a document of version 4 is what the checks of reading leave of it: the first fault that
/// one of them finds; if none does, the settings that it counts as. The call does nothing.
pub fn reading_is_checked()
    ensures { (t : Members) → has_fourth t ≡ true → reading_in t ≡ checked_by (reading_checks t) (document_mended t) }
{}

/// The law that a file of version 4 is read without a fault exactly if none is among all faults of its settings, and
/// that its first fault is the first of them. The call does nothing.
pub fn first_of_all_is_read()
    ensures none { (text : List ℕ) (t : Members) → parse_document text ≡ Some t → has_fourth t ≡ true
        → ((c : Configuration) × IsReadAs text c) ↔ HasNoFault t }
    ensures first { (text : List ℕ) (t : Members) (fault : SettingsFault) → parse_document text ≡ Some t
        → has_fourth t ≡ true → IsFirstFault text fault ↔ IsFirstOfAll t fault }
{}

/// One fault alone.
pub(crate) fn alone(alloc: Global, first: ServeFault) -> Result<Vec<ServeFault>, AllocError>
    ensures { IfOk result (λ faults. faults.items ≡ first ∷ []) }
{
    let mut faults = Vec::with_capacity(alloc, 1)?;
    faults.push(first)?;
    Ok(faults)
}

/// All faults of a document of version 4.
fn faults_of_fourth(
    alloc: Global,
    document: &Table,
    first: ServeFault,
) -> Result<Vec<ServeFault>, AllocError>
    ensures { IfOk result (λ faults. AreOfFourth (table_view document.now) first faults.items) }
{
    let reading = faults_of_reading(alloc, document)?;
    let draft = mended(alloc, document)?;
    let checked = settings::all_faults(alloc, &draft)?;
    drop(draft);
    let server = server_faults(alloc, document)?;
    told_faults(alloc, first, &reading, &checked, &server)
}

/// The first fault, and behind it those of reading, those of settings that don't only follow from others, and those of
/// the server.
fn told_faults(
    alloc: Global,
    first: ServeFault,
    reading: &[SettingsFault],
    checked: &[DraftFault],
    server: &[ServeFault],
) -> Result<Vec<ServeFault>, AllocError>
    ensures { IfOk result (λ faults.
        faults.items ≡ told_faults first reading.now checked.now server.now) }
{
    let hidden = hidden_by(reading, checked);
    let mut told = alone(alloc, first)?;
    tell_read(&mut told, reading)?;
    tell_checked(&mut told, hidden, checked)?;
    tell_served(&mut told, server)?;
    Ok(told)
}

/// The faults of reading a document of version 4.
#[tactic(auto, unfolding(crate::specs::AllFaults::reading_checks, crate::specs::AllFaults::reading_faults))]
fn faults_of_reading(alloc: Global, document: &Table) -> Result<Vec<SettingsFault>, AllocError>
    ensures { IfOk result (λ faults. faults.items ≡ reading_faults (table_view document.now)) }
{
    let mut faults = Vec::new(alloc);
    note_leading(alloc, &mut faults, document)?;
    note_services(&mut faults, document)?;
    note_timers(&mut faults, document)?;
    note_arrays(alloc, &mut faults, document)?;
    Ok(faults)
}
