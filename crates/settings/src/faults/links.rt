//! The faults of links.

ghost use Rattle.std.specs.Prelude.{◌≡◌, ◌≤◌, [], None, length, OnOk};
ghost use Rattle.settings.specs.Checks.{entries_checks};
ghost use Rattle.settings.specs.FirstFault.{link_name_fault};
ghost use Rattle.settings.specs.AllFaults.{set_count_fault, link_set_check, link_slc_check, link_checks, link_count_fault, links_checks};
ghost use Rattle.settings.specs.Told.{tell_all};

use crate::faults::numbers::{
    behind, count_check, ensure_check, first, optional_check, range_check,
};
use crate::faults::sets::set_count_check;
use crate::faults::told::tell;
use crate::links::{has_link_code, has_link_named};
use crate::names::{ensure_name, is_name};
use crate::sets::set_place;
use crate::{DraftFault, FaultKind, Key, LinkDraft, SetDraft};
use signalling_types::Limits;
use std::alloc::AllocError;

/// The name of a link, after the links before it.
fn name_check(earlier: &[LinkDraft], link: &LinkDraft) -> Option<DraftFault>
    ensures { result ≡ link_name_fault earlier.now link.now }
{
    let is_repeat = has_link_named(earlier, link.name.as_str());
    ensure_name(link.name.as_str(), is_repeat, Key::LinkName(earlier.len())).err()
}

/// The set of a link, after the links before it.
fn set_check(sets: &[SetDraft], earlier: &[LinkDraft], link: &LinkDraft) -> Option<DraftFault>
    ensures { result ≡ link_set_check sets.now earlier.now link.now }
{
    let key = Key::LinkSet(earlier.len());
    let is_known = set_place(sets, link.set.as_str()).is_some();
    first(
        ensure_check(is_name(link.set.as_str()), FaultKind::Range, key),
        behind(
            set_count_check(sets),
            ensure_check(is_known, FaultKind::UnknownName, key),
        ),
    )
}

/// The signalling link code of a link, after the links before it.
fn slc_check(sets: &[SetDraft], earlier: &[LinkDraft], link: &LinkDraft) -> Option<DraftFault>
    ensures { result ≡ link_slc_check sets.now earlier.now link.now }
{
    let key = Key::LinkSlc(earlier.len());
    let is_repeat = has_link_code(earlier, link.set.as_str(), link.slc);
    first(
        range_check(link.slc, 0, 15, key),
        behind(
            set_check(sets, earlier, link),
            ensure_check(!is_repeat, FaultKind::Duplicate, key),
        ),
    )
}

/// Tells the faults of a link, after the links before it.
fn tell_link(
    told: &mut Vec<DraftFault>,
    sets: &[SetDraft],
    earlier: &[LinkDraft],
    link: &LinkDraft,
) -> Result<(), AllocError>
    ensures { OnOk result (told.new.items ≡ tell_all told.old.items (link_checks sets.now earlier.now link.now)) }
{
    let share = Key::LinkShare(earlier.len());
    tell(told, name_check(earlier, link))?;
    tell(told, set_check(sets, earlier, link))?;
    tell(told, slc_check(sets, earlier, link))?;
    tell(
        told,
        optional_check(link.share, 1, Limits::POOL as u16, share),
    )?;
    Ok(())
}

/// Tells the faults of each link.
fn tell_each(
    told: &mut Vec<DraftFault>,
    sets: &[SetDraft],
    links: &[LinkDraft],
) -> Result<(), AllocError>
    ensures { OnOk result (told.new.items ≡ tell_all told.old.items (entries_checks (link_checks sets.now) [] links.now)) }
{
    for i in 0..links.len() {
        tell_link(told, sets, &links[..i], &links[i])?;
    }
    Ok(())
}

/// Tells the faults of the links.
#[tactic(auto, unfolding(crate::specs::AllFaults::links_checks))]
pub(crate) fn tell_links(
    told: &mut Vec<DraftFault>,
    sets: &[SetDraft],
    links: &[LinkDraft],
) -> Result<(), AllocError>
    ensures { OnOk result (told.new.items ≡ tell_all told.old.items (links_checks sets.now links.now)) }
{
    let count = count_check(links.len(), Limits::LINKS, Key::Link);
    tell(told, count)?;
    if count.is_none() {
        tell_each(told, sets, links)?;
    }
    Ok(())
}
