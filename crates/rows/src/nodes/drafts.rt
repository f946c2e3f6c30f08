//! Settings that no file has: a draft without a row, more translation rows than a file can hold, and those of the nodes
//! of other rows.

use crate::said::Said;
use crate::words::{number, word};
use exchange::{ChangeDraft, Draft, Settings, TitleDraft};
use script::built_in;
use settings::LinkDraft;
use std::alloc::{AllocError, Global};

/// Says the fault of the settings of a row, or that they are well.
pub(crate) fn check(said: &mut Said, alloc: Global, row: &str) {
    match drafted(alloc, row) {
        Ok(draft) => match Settings::check(alloc, draft).err() {
            None => said.say("well"),
            Some(fault) => said.say(fault),
        },
        Err(AllocError) => said.say("no memory"),
    }
}

/// The built-in settings without what a row names, or with as many translation rows.
fn drafted(alloc: Global, row: &str) -> Result<Draft, AllocError> {
    let mut draft = built_in(alloc)?;
    match word(row, 1) {
        "set" => draft.sets.clear(),
        "link" => draft.links.clear(),
        "destination" => draft.destinations.clear(),
        _ => add_titles(alloc, &mut draft.titles, number(row, 1))?,
    }
    Ok(draft)
}

/// Adds this many translation rows, each of its own digits.
fn add_titles(alloc: Global, titles: &mut Vec<TitleDraft>, count: u32) -> Result<(), AllocError> {
    for number in 0..count {
        titles.push(title(alloc, number)?)?;
    }
    Ok(())
}

/// A translation row of its own for each number.
fn title(alloc: Global, number: u32) -> Result<TitleDraft, AllocError> {
    Ok(TitleDraft {
        translation: 0,
        plan: 1,
        nature: 4,
        digits: format!(in alloc; "{number}")?,
        point: 2,
        backup: None,
        route: String::from_str(alloc, "title")?,
        ssn: None,
        change: ChangeDraft::none(alloc),
    })
}

/// The built-in settings, and a second link to point 2.
pub(crate) fn with_two_links(alloc: Global) -> Result<Draft, AllocError> {
    let second = LinkDraft {
        name: String::from_str(alloc, "e1")?,
        set: String::from_str(alloc, "east")?,
        slc: 1,
        share: None,
    };
    let mut draft = built_in(alloc)?;
    draft.links.push(second)?;
    Ok(draft)
}

/// The built-in settings at a point that leads only to another.
pub(crate) fn facing(alloc: Global, own: i64, other: i64) -> Result<Draft, AllocError> {
    let mut draft = built_in(alloc)?;
    draft.own = own;
    draft.destinations.truncate(1);
    if let Some(set) = draft.sets.first_mut() {
        set.adjacent = other;
    }
    if let Some(destination) = draft.destinations.first_mut() {
        destination.point = other;
    }
    Ok(draft)
}
