//! What a client is answered that names a link that isn't there.

ghost use Rattle.std.specs.Prelude.{◌≡◌, ◌+◌, ◌/◌, ◌≤◌, ◌++◌, Bool, IfOk, IfSome, None, length, max};
ghost use Rattle.std.specs.Option.{option_map};
ghost use Rattle.console.specs.NearestLinks.{near_link, near_link_text, nearest_link, nearest_link_from, no_link_text};

use crate::nearest_word::{OCTETS_PER_EDIT, edits, is_shown};
use arrayvec::ArrayString;
use settings::{Limits, LinkRow, Settings};
use std::alloc::{AllocError, Global};

/// Octets of an answer, at most.
pub const NO_LINK_OCTETS: usize = 96;

/// The answer to a client that names a link that isn't there: `refused 22 NoSuchName`, and a line with the nearest name,
/// if one is near. Without memory it names none.
pub fn no_link_answer(
    alloc: Global,
    settings: &Settings,
    name: &[u8],
) -> ArrayString<NO_LINK_OCTETS>
    ensures { (lacks_memory : Bool) × (result.bytes ≡ no_link_text lacks_memory settings.now name.now) }
{
    let mut answer = ArrayString::new();
    answer.push_str("refused 22 NoSuchName\n");
    push_near(&mut answer, near_link(alloc, settings, name));
    answer
}

/// Appends the line of the nearest name, if there is one.
fn push_near(answer: &mut ArrayString<NO_LINK_OCTETS>, near: Option<&str>)
    requires room { length answer.old.bytes + 64 ≤ NO_LINK_OCTETS }
    requires short { IfSome near (λ name. length name.now ≤ Limits.NAME_OCTETS) }
    ensures { answer.new.bytes ≡ answer.old.bytes ++ near_link_text (option_map (λ name. name.now) near.entry) }
{
    if let Some(name) = near {
        answer.push_str("the nearest link is ");
        answer.push_str(name);
        answer.push_str("\n");
    }
}

/// The nearest name of a link, if one is near, and if there is memory to look for it.
fn near_link<'a>(alloc: Global, settings: &'a Settings, name: &[u8]) -> Option<&'a str>
    ensures near { (lacks_memory : Bool)
        × (option_map (λ near. near.now) result ≡ near_link lacks_memory settings.now.links name.now) }
    ensures short { IfSome result (λ near. length near.now ≤ Limits.NAME_OCTETS) }
{
    match nearest_link(alloc, settings.links(), name) {
        Ok(near) => near,
        Err(_) => None,
    }
}

/// The nearest name of these links, if one is near. `AllocError` if memory ran out.
fn nearest_link<'a>(
    alloc: Global,
    links: &'a [LinkRow],
    name: &[u8],
) -> Result<Option<&'a str>, AllocError>
    ensures near { IfOk result (λ near. option_map (λ near. near.now) near ≡ nearest_link links.now name.now) }
    ensures short { IfOk result (λ near. IfSome near (λ near. length near.now ≤ Limits.NAME_OCTETS)) }
{
    if !is_shown(name) {
        return Ok(None);
    }
    match str::from_utf8(name) {
        Ok(text) => nearest_to(alloc, text, links),
        Err(_) => Ok(None),
    }
}

/// The name of these links that a text is nearest to, if one is near.
#[tactic(auto, unfolding(crate::specs::NearestLinks::nearest_link_from))]
fn nearest_to<'a>(
    alloc: Global,
    text: &str,
    links: &'a [LinkRow],
) -> Result<Option<&'a str>, AllocError>
    ensures near { IfOk result (λ near. option_map (λ near. near.now) near
        ≡ nearest_link_from text.now links.now None (1 + max (length text.now / 3) 1)) }
    ensures short { IfOk result (λ near. IfSome near (λ near. length near.now ≤ Limits.NAME_OCTETS)) }
{
    let mut nearest = None;
    let mut too_many = 1 + (text.len() / OCTETS_PER_EDIT).max(1);
    for link in links {
        let edits = edits(alloc, text, link.name())?;
        if edits < too_many {
            too_many = edits;
            nearest = Some(link.name());
        }
    }
    Ok(nearest)
}
