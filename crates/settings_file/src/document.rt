//! Reading a settings file.

ghost use Rattle.std.specs.Prelude.{◌≡◌, ◌⊎◌, ℕ, ℤ, List, None, Some, Ok, Err, IfOk, OnOk, IfErr};
ghost use Rattle.toml.specs.Parse.{parse_document};
ghost use Rattle.toml.specs.View.{table_view};
ghost use Rattle.settings.specs.Meaning.{settings_of};
ghost use Rattle.settings_file.specs.Faults.{AnswersOrNoMemory, no_memory};
ghost use Rattle.settings_file.specs.Written.{written};
ghost use Rattle.settings_file.specs.Versions.{has_joined, has_extensions, has_additions, is_known_version};
ghost use Rattle.settings_file.specs.Document.{numbers_at, services_at, document};
ghost use Rattle.settings_file.specs.Reading.{reading_in, limits_fault, settings_fault, IsReadAs, IsFirstFault};

use crate::arrays::{destinations, links, sets, titles};
use crate::documents::parse;
use crate::fault::SettingsFault;
use crate::limits::FirstLimits;
use crate::node_keys::{integer, integers_if_any, point, truth};
use crate::ticks::clock_of;
use crate::timers::timers;
use crate::versions::{
    has_additions, has_extensions, has_joined, is_first_version, is_known_version,
};
use settings::{Draft, DraftFault, FaultKind, Key, Settings};
use std::alloc::Global;
use toml::Table;

/// The numbers that a file begins with.
#[derive(Clone, Copy)]
pub(crate) struct Numbers {
    /// The version of the format.
    pub version: i64,
    /// The node's own point code.
    pub own: i64,
    /// The network indicator.
    pub network: i64,
    /// How many messages of a link may be sent and not confirmed.
    pub window: i64,
    /// How many messages the node holds at most.
    pub pool: i64,
}

impl Numbers {
    /// Whether the destinations of the file may be joined.
    fn has_joined(self) -> bool
        ensures { result ≡ has_joined self.version }
    {
        has_joined(self.version)
    }

    /// Whether the file has the keys that version 3 brought.
    fn has_extensions(self) -> bool
        ensures { result ≡ has_extensions self.version }
    {
        has_extensions(self.version)
    }

    /// Whether the file has the keys that version 4 brought.
    fn has_additions(self) -> bool
        ensures { result ≡ has_additions self.version }
    {
        has_additions(self.version)
    }
}

/// What a file asks for about subsystems, user parts, processors and changeovers.
#[derive(Clone, Copy)]
pub(crate) struct Services {
    /// Whether extended unitdata (XUDT, XUDTS) are relayed.
    pub extended_unitdata: bool,
    /// Whether a test of a subsystem on this node (SST) is answered.
    pub subsystem_tests: bool,
    /// Whether the sender of a message for a user part that isn't on this node is told so (UPU).
    pub user_part_unavailable: bool,
    /// Whether a link stays in service while its peer's processor is out.
    pub processor_outage: bool,
    /// Whether a link sends Out of Service before Alignment as its association comes up (RFC 4165 §5.1).
    pub out_of_service: bool,
    /// Whether an order to change over goes out by any way to the adjacent point.
    pub changeover_by_any_route: bool,
}

/// What a document says: the version of its format, and settings.
#[derive(Drop)]
pub(crate) struct Document {
    /// The version of its format.
    pub version: i64,
    /// The settings, not checked yet.
    pub draft: Draft,
}

impl Document {
    /// Whether the document is of a version of the format.
    fn is_of_known_version(&self) -> bool
        ensures { result ≡ is_known_version self.now.version }
    {
        is_known_version(self.version)
    }
}

/// The numbers that a file begins with.
#[tactic(auto, unfolding(crate::specs::Document::numbers_at))]
fn leading_numbers(table: &Table) -> Result<Numbers, SettingsFault>
    ensures { result ≡ numbers_at (table_view table.now) }
{
    let version = integer(table, Key::Version)?;
    Ok(Numbers {
        version,
        own: point(has_additions(version), table, Key::Own)?,
        network: integer(table, Key::Network)?,
        window: integer(table, Key::Window)?,
        pool: integer(table, Key::Pool)?,
    })
}

/// What a file asks for about subsystems, user parts, processors and changeovers, as far as its version has these keys.
#[tactic(auto, unfolding(crate::specs::Document::services_at))]
fn asked_services(
    extensions: bool,
    additions: bool,
    table: &Table,
) -> Result<Services, SettingsFault>
    ensures { result ≡ services_at extensions additions (table_view table.now) }
{
    Ok(Services {
        extended_unitdata: truth(extensions, table, Key::ExtendedUnitdata)?,
        subsystem_tests: truth(extensions, table, Key::SubsystemTests)?,
        user_part_unavailable: truth(extensions, table, Key::UserPartUnavailable)?,
        processor_outage: truth(extensions, table, Key::ProcessorOutage)?,
        out_of_service: truth(extensions, table, Key::OutOfService)?,
        changeover_by_any_route: truth(additions, table, Key::ChangeoverByAnyRoute)?,
    })
}

/// What a document says.
#[tactic(auto, unfolding(crate::specs::Document::document))]
fn contents(alloc: Global, table: &Table) -> Result<Document, SettingsFault>
    ensures { AnswersOrNoMemory (λ d. record { version = d.version; settings = written d.draft })
        (document (table_view table.now)) result }
{
    let numbers = leading_numbers(table)?;
    let additions = numbers.has_additions();
    let users = integers_if_any(alloc, additions, table, Key::Users)?;
    let subsystems = integers_if_any(alloc, additions, table, Key::Subsystems)?;
    let services = asked_services(numbers.has_extensions(), additions, table)?;
    let clock = clock_of(additions, table);
    let timers = timers(numbers.has_extensions(), clock, table)?;
    let sets = sets(alloc, additions, table)?;
    let links = links(alloc, numbers.has_extensions(), additions, table)?;
    let destinations = destinations(alloc, numbers.has_joined(), additions, table)?;
    let titles = titles(alloc, numbers.has_extensions(), additions, table)?;
    Ok(Document {
        version: numbers.version,
        draft: Draft {
            own: numbers.own,
            network: numbers.network,
            window: numbers.window,
            pool: numbers.pool,
            users,
            subsystems,
            extended_unitdata: services.extended_unitdata,
            subsystem_tests: services.subsystem_tests,
            user_part_unavailable: services.user_part_unavailable,
            processor_outage: services.processor_outage,
            out_of_service: services.out_of_service,
            changeover_by_any_route: services.changeover_by_any_route,
            timers,
            sets,
            links,
            destinations,
            titles,
        },
    })
}

/// What a document says, if it is of a known version.
#[tactic(auto, unfolding(crate::specs::Reading::reading_in))]
fn known_contents(alloc: Global, table: &Table) -> Result<Document, SettingsFault>
    ensures { AnswersOrNoMemory (λ d. record { version = d.version; settings = written d.draft })
        (reading_in (table_view table.now)) result }
{
    let document = contents(alloc, table)?;
    if !document.is_of_known_version() {
        return Err(SettingsFault::Version);
    }
    Ok(document)
}

/// Whether settings keep to the limits of a file's version.
fn keep_limits(version: i64, settings: &Settings) -> Result<(), DraftFault>
    ensures well { OnOk result (limits_fault version settings.now ≡ None) }
    ensures fault { IfErr result (λ fault. limits_fault version settings.now ≡ Some fault) }
{
    if !is_first_version(version) {
        return Ok(());
    }
    if settings.window() > FirstLimits::WINDOW {
        return Err(DraftFault::At(FaultKind::Range, Key::Window));
    }
    if settings.destinations().len() > FirstLimits::DESTINATIONS {
        return Err(DraftFault::At(FaultKind::TooMany, Key::Destination));
    }
    Ok(())
}

/// The settings of a file of this version, checked.
#[tactic(auto, unfolding(crate::specs::Reading::settings_fault))]
fn checked(alloc: Global, version: i64, draft: Draft) -> Result<Settings, DraftFault>
    ensures settings { IfOk result (λ settings. settings ≡ settings_of draft) }
    ensures well { OnOk result (settings_fault version draft ≡ None) }
    ensures fault { IfErr result (λ fault.
        (fault ≡ DraftFault.NoMemory) ⊎ (settings_fault version draft ≡ Some fault)) }
{
    let settings = Settings::check(alloc, draft)?;
    keep_limits(version, &settings)?;
    Ok(settings)
}

/// Reads settings from the text of a file, and checks them.
///
/// Returns the settings, or the first fault. First `Text` if the text isn't TOML; then `Missing` and `Kind` over all
/// keys in order, the entries of each array from the first; then `Version`; then what `Settings::check` finds; and
/// last, in a file of the first version, a window and then destinations beyond the `FirstLimits`. If memory runs out,
/// that may be returned instead. Keys of other names are ignored.
pub fn read(alloc: Global, text: &str) -> Result<Settings, SettingsFault>
    ensures settings { IfOk result (IsReadAs text.now) }
    ensures fault { IfErr result (λ fault. (fault ≡ no_memory) ⊎ IsFirstFault text.now fault) }
{
    let document = parse(alloc, text)?;
    read_document(alloc, &document)
}

/// Reads settings from the document that a settings file is, and checks them.
///
/// Returns what `read` answers of each text that was parsed to this document.
pub fn read_document(alloc: Global, document: &Table) -> Result<Settings, SettingsFault>
    ensures settings { (text : List ℕ) → parse_document text ≡ Some (table_view document.now)
        → IfOk result (IsReadAs text) }
    ensures fault { (text : List ℕ) → parse_document text ≡ Some (table_view document.now)
        → IfErr result (λ fault. (fault ≡ no_memory) ⊎ IsFirstFault text fault) }
{
    let Document { version, draft } = known_contents(alloc, document)?;
    match checked(alloc, version, draft) {
        Ok(settings) => Ok(settings),
        Err(fault) => Err(SettingsFault::Draft(fault)),
    }
}
