//! Links of settings.

ghost use Rattle.std.specs.Prelude.{◌≡◌, ◌≤◌, ◌<◌, ◌^◌, ◌⊎◌, [], None, Some, length, map, IfOk, OnOk, IfErr};
ghost use Rattle.std.specs.Prelude.{string_bytes};
ghost use Rattle.settings.specs.Checks.{natural, entries_fault};
ghost use Rattle.settings.specs.Meaning.{link_of, set_number};
ghost use Rattle.settings.specs.FirstFault.{link_fault, link_set_fault, link_slc_fault};
ghost use Rattle.settings.specs.FirstFault.{has_link_named, has_link_code, links_fault};

use crate::names::{ensure_name, is_name};
use crate::numbers::{count, ensure, number, optional_number};
use crate::sets::set_place;
use crate::{DraftFault, FaultKind, Key, LinkDraft, LinkRow, SetDraft};
use signalling_types::{Limits, SetId};
use std::alloc::Global;

/// The largest signalling link code.
const LAST_LINK_CODE: u16 = 15;

/// Whether a link of this name is among these.
pub(crate) fn has_link_named(links: &[LinkDraft], name: &str) -> bool
    ensures { result ≡ has_link_named links.now name.now }
{
    links.iter().any(|link| link.name.as_str() == name)
}

/// Whether a link of this set with this signalling link code is among these.
pub(crate) fn has_link_code(links: &[LinkDraft], set: &str, slc: i64) -> bool
    ensures { result ≡ has_link_code links.now set.now slc }
{
    links
        .iter()
        .any(|link| link.slc == slc && link.set.as_str() == set)
}

/// The set of a link, after the links before it.
fn link_set(sets: &[SetDraft], earlier: &[LinkDraft], link: &LinkDraft) -> Result<SetId, DraftFault>
    requires { length sets.now ≤ Limits.SETS }
    ensures value { IfOk result (λ set. set ≡ set_number sets.now (string_bytes link.now.set)) }
    ensures well { OnOk result (link_set_fault sets.now earlier.now link.now ≡ None) }
    ensures fault { IfErr result (λ fault.
        link_set_fault sets.now earlier.now link.now ≡ Some fault) }
{
    let key = Key::LinkSet(earlier.len());
    ensure(is_name(link.set.as_str()), FaultKind::Range, key)?;
    match set_place(sets, link.set.as_str()) {
        Some(place) => Ok(SetId::new(place as u8)),
        None => Err(DraftFault::At(FaultKind::UnknownName, key)),
    }
}

/// The signalling link code of a link, after the links before it.
fn link_slc(earlier: &[LinkDraft], link: &LinkDraft) -> Result<u8, DraftFault>
    ensures value { IfOk result (λ slc. slc ≡ natural link.now.slc) }
    ensures fits { IfOk result (λ slc. slc < 2 ^ 4) }
    ensures well { OnOk result (link_slc_fault earlier.now link.now ≡ None) }
    ensures fault { IfErr result (λ fault. link_slc_fault earlier.now link.now ≡ Some fault) }
{
    let key = Key::LinkSlc(earlier.len());
    let slc = number(link.slc, 0, LAST_LINK_CODE, key)?;
    let is_repeat = has_link_code(earlier, link.set.as_str(), link.slc);
    ensure(!is_repeat, FaultKind::Duplicate, key)?;
    Ok(slc as u8)
}

/// A link, after those before it.
fn link_row(
    sets: &[SetDraft],
    earlier: &[LinkDraft],
    link: &LinkDraft,
) -> Result<LinkRow, DraftFault>
    requires { length sets.now ≤ Limits.SETS }
    ensures value { IfOk result (λ row. row ≡ link_of sets.now link.now) }
    ensures well { OnOk result (link_fault sets.now earlier.now link.now ≡ None) }
    ensures fault { IfErr result (λ fault. link_fault sets.now earlier.now link.now ≡ Some fault) }
{
    let is_repeat = has_link_named(earlier, link.name.as_str());
    ensure_name(link.name.as_str(), is_repeat, Key::LinkName(earlier.len()))?;
    let set = link_set(sets, earlier, link)?;
    let slc = link_slc(earlier, link)?;
    let share_key = Key::LinkShare(earlier.len());
    let share = optional_number(link.share, 1, Limits::POOL as u16, share_key)?;
    Ok(LinkRow::new(link.name.as_str(), set, slc, share))
}

fn link_rows(
    alloc: Global,
    sets: &[SetDraft],
    links: &[LinkDraft],
) -> Result<Vec<LinkRow>, DraftFault>
    requires { length sets.now ≤ Limits.SETS }
    ensures value { IfOk result (λ rows. rows.items ≡ map (link_of sets.now) links.now) }
    ensures well { OnOk result (entries_fault (link_fault sets.now) [] links.now ≡ None) }
    ensures fault { IfErr result (λ fault.
        (fault ≡ DraftFault.NoMemory)
        ⊎ (entries_fault (link_fault sets.now) [] links.now ≡ Some fault)) }
{
    let mut rows = Vec::with_capacity(alloc, links.len())?;
    for i in 0..links.len() {
        let row = link_row(sets, &links[..i], &links[i])?;
        rows.push_reserved(row);
    }
    Ok(rows)
}

/// The links, as many as there may be.
#[tactic(auto, unfolding(crate::specs::FirstFault::links_fault))]
pub(crate) fn checked_links(
    alloc: Global,
    sets: &[SetDraft],
    links: &[LinkDraft],
) -> Result<Vec<LinkRow>, DraftFault>
    requires { length sets.now ≤ Limits.SETS }
    ensures value { IfOk result (λ rows. rows.items ≡ map (link_of sets.now) links.now) }
    ensures well { OnOk result (links_fault sets.now links.now ≡ None) }
    ensures fault { IfErr result (λ fault.
        (fault ≡ DraftFault.NoMemory) ⊎ (links_fault sets.now links.now ≡ Some fault)) }
{
    count(links.len(), Limits::LINKS, Key::Link)?;
    link_rows(alloc, sets, links)
}
