//! The checked settings of a node.

ghost use Rattle.std.specs.Str.{bytes_eq};
ghost use Rattle.std.specs.List.{list_any, IsDistinct};
ghost use Rattle.std.specs.Option.{option_copied, option_map};
ghost use Rattle.std.specs.Prelude.{All, IfOk, IfSome, OnOk, IfErr, ◌⊎◌, Some, None, ◌≡◌, position, ◌<◌, ◌≤◌, length};
ghost use Rattle.std.specs.Prelude.{nat_eq, slice_get};
ghost use Rattle.settings.specs.Meaning.{settings_of};
ghost use Rattle.settings.specs.FirstFault.{first_fault};
ghost use Rattle.settings.specs.Readings.{link_place, destination_place, first_to, set_place};
ghost use Rattle.settings.specs.Well.{IsWell, IsWithin, IsSet, IsLink, IsDestination, IsTitle, all_ticks};
ghost use Rattle.settings.specs.Well.{is_same_row};

use crate::check::{Checked, check_draft};
use crate::{DestinationRow, Draft, DraftFault, LinkRow, SetRow, TimerTicks, TitleRow};
use signalling_types::{Limits, LinkId, PointCode, SetId};
use std::alloc::Global;
use std::marker::Model;

/// The checked settings of a node: every name is known, every number is within its limit.
pub struct Settings {
    checked: Checked,
}

// By hand, so that no proof above has what settings own.
impl Drop for Settings {
    fn drop(self) {
        let Settings { checked: _ } = self;
    }
}

impl Model for Settings {
    ghost use Rattle.settings.specs.Configuration.{Configuration};

    ghost Value = { Configuration };

    ghost use Rattle.settings.specs.Kept.{configuration_of, IsKept};

    ghost view = { configuration_of };

    ghost invariant = { IsKept };
}

impl Settings {
    /// Checks settings as they were written.
    ///
    /// Returns the settings, or the first fault: the keys in order, the entries of each array from the first, and last
    /// a set whose adjacent point isn't a destination that it leads to first. If an allocation was refused, it returns
    /// `NoMemory` instead.
    pub fn check(alloc: Global, draft: Draft) -> Result<Settings, DraftFault>
        ensures settings { IfOk result (λ settings. settings ≡ settings_of draft) }
        ensures well { OnOk result (first_fault draft ≡ None) }
        ensures fault { IfErr result (λ fault.
            (fault ≡ DraftFault.NoMemory) ⊎ (first_fault draft ≡ Some fault)) }
    {
        let checked = check_draft(alloc, &draft)?;
        Ok(Settings { checked })
    }

    /// The law that all checked settings keep every limit and name. The call does nothing.
    pub fn are_well(&self)
        ensures { IsWell self.now }
    {
        let _ = &self.checked;
    }

    /// The node's own point code.
    pub fn own(&self) -> PointCode
        ensures { result ≡ self.now.own }
    {
        self.checked.scalars.own
    }

    /// The network indicator of the node's messages, 0 to 3 (Q.704 §14.2.2).
    pub fn network(&self) -> u8
        ensures value { result ≡ self.now.network }
        ensures fits { self.now.network < 4 }
    {
        self.checked.scalars.network
    }

    /// How many messages may be sent on a link without being confirmed.
    pub fn window(&self) -> usize
        ensures value { result ≡ self.now.window }
        ensures above { 1 ≤ self.now.window }
        ensures fits { self.now.window ≤ Limits.WINDOW }
    {
        self.checked.scalars.window as usize
    }

    /// How many user messages the node may keep.
    pub fn pool(&self) -> usize
        ensures value { result ≡ self.now.pool }
        ensures above { 1 ≤ self.now.pool }
        ensures fits { self.now.pool ≤ Limits.POOL }
    {
        self.checked.scalars.pool as usize
    }

    /// Whether this node has a user part with this service indicator.
    pub fn is_user(&self, service_indicator: u8) -> bool
        ensures { result ≡ list_any (λ user. nat_eq user service_indicator) self.now.users }
    {
        self.checked.users.contains(&service_indicator)
    }

    /// The numbers of this node's subsystems.
    pub fn subsystems(&self) -> &[u8]
        ensures value { result.now ≡ self.now.subsystems }
        ensures numbers { All (IsWithin 1 255) self.now.subsystems }
    {
        &self.checked.subsystems
    }

    /// Whether this node relays extended unitdata (XUDT, XUDTS).
    pub fn extended_unitdata(&self) -> bool
        ensures { result ≡ self.now.extended_unitdata }
    {
        self.checked.services.extended_unitdata
    }

    /// Whether this node answers a test of a subsystem that it has (SST).
    pub fn subsystem_tests(&self) -> bool
        ensures { result ≡ self.now.subsystem_tests }
    {
        self.checked.services.subsystem_tests
    }

    /// Whether this node tells the sender of a message for a user part that it doesn't have so (UPU, Q.704 §11.2.7).
    pub fn user_part_unavailable(&self) -> bool
        ensures { result ≡ self.now.user_part_unavailable }
    {
        self.checked.services.user_part_unavailable
    }

    /// Whether a link stays in service while its peer's processor is out (Q.703 §8), or fails by that status.
    pub fn processor_outage(&self) -> bool
        ensures { result ≡ self.now.processor_outage }
    {
        self.checked.services.processor_outage
    }

    /// Whether a link sends Out of Service before Alignment as its association comes up (RFC 4165 §5.1).
    pub fn out_of_service(&self) -> bool
        ensures { result ≡ self.now.out_of_service }
    {
        self.checked.services.out_of_service
    }

    /// Whether an order to change over goes out wherever there is a way to the adjacent point, or only by another link
    /// of the same set (Q.704 §5, Q.2210).
    pub fn changeover_by_any_route(&self) -> bool
        ensures { result ≡ self.now.changeover_by_any_route }
    {
        self.checked.services.changeover_by_any_route
    }

    /// How many ticks each timer runs: 1 to 65,535. A timer that is left out has none.
    pub fn timers(&self) -> TimerTicks
        ensures value { result ≡ self.now.timers }
        ensures ticks { All (IsWithin 1 Limits.TICKS) (all_ticks self.now.timers) }
    {
        self.checked.timers
    }

    /// The link sets, in the order of the settings.
    pub fn sets(&self) -> &[SetRow]
        ensures rows { result.now ≡ self.now.sets }
        ensures above { 1 ≤ length self.now.sets }
        ensures fits { length self.now.sets ≤ Limits.SETS }
        ensures well { All (IsSet self.now.own) self.now.sets }
    {
        &self.checked.arrays.sets
    }

    /// The links, in the order of the settings.
    pub fn links(&self) -> &[LinkRow]
        ensures rows { result.now ≡ self.now.links }
        ensures above { 1 ≤ length self.now.links }
        ensures fits { length self.now.links ≤ Limits.LINKS }
        ensures well { All (IsLink (length self.now.sets)) self.now.links }
    {
        &self.checked.arrays.links
    }

    /// The destinations, in the order of the settings.
    pub fn destinations(&self) -> &[DestinationRow]
        ensures rows { result.now ≡ self.now.destinations }
        ensures above { 1 ≤ length self.now.destinations }
        ensures fits { length self.now.destinations ≤ Limits.DESTINATIONS }
        ensures well { All (IsDestination self.now.own (length self.now.sets)) self.now.destinations }
    {
        &self.checked.arrays.tables.destinations
    }

    /// The translation rows, in the order of the settings.
    pub fn titles(&self) -> &[TitleRow]
        ensures rows { result.now ≡ self.now.titles }
        ensures fits { length self.now.titles ≤ Limits.TITLES }
        ensures well { All IsTitle self.now.titles }
        ensures differ { IsDistinct is_same_row self.now.titles }
    {
        &self.checked.arrays.tables.titles
    }

    /// How many links there are.
    pub fn link_count(&self) -> usize
        ensures value { result ≡ length self.now.links }
        ensures fits { length self.now.links ≤ Limits.LINKS }
    {
        self.checked.arrays.links.len()
    }

    /// The name of a link, or `None` if no link has this number.
    pub fn link_name(&self, link: LinkId) -> Option<&str>
        ensures name { option_copied result ≡ option_map (λ row. row.name) (slice_get self.now.links link) }
        ensures fits { IfSome result (λ name. length name.now ≤ Limits.NAME_OCTETS) }
    {
        let row = self.checked.arrays.links.get(link.index())?;
        Some(row.name())
    }

    /// The link of this name. It looks through all links.
    pub fn link_named(&self, name: &[u8]) -> Option<LinkId>
        ensures { result ≡ link_place self.now name.now }
    {
        let place = link_position(&self.checked.arrays.links, name)?;
        Some(LinkId::new(place as u8))
    }

    /// The number of the destination of this point code. It costs one look-up, however many destinations there are.
    pub fn destination(&self, point: PointCode) -> Option<usize>
        ensures { result ≡ destination_place self.now point }
    {
        self.checked.arrays.tables.points.place(point)
    }

    /// The set whose links lead to this point. It costs the same however many sets there are.
    pub fn set_to(&self, point: PointCode) -> Option<SetId>
        ensures { result ≡ set_place self.now point }
    {
        let arrays = &self.checked.arrays;
        let place = self.destination(point)?;
        let destination = &arrays.tables.destinations[place];
        first_to(&arrays.sets, destination.sets(), point)
    }
}

/// The first of these sets, if its links lead to this point.
fn first_to(sets: &[SetRow], ids: &[SetId], point: PointCode) -> Option<SetId>
    ensures { result ≡ first_to sets.now ids.now point }
{
    let first = *ids.first()?;
    let row = sets.get(first.index())?;
    (row.adjacent() == point).then_some(first)
}

/// The number of the link of this name.
fn link_position(links: &[LinkRow], name: &[u8]) -> Option<usize>
    ensures { result ≡ position (λ l. bytes_eq l.name name.now) links.now }
{
    links.iter().position(|row| row.name().as_bytes() == name)
}
