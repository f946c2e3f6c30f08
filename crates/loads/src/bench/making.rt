//! Nodes that are only made, before the first event.

use super::total::Total;
use crate::draft::{Shape, draft_with};
use exchange::Exchange;
use settings::Settings;
use std::alloc::Global;

/// How far a node is made.
#[derive(Clone, Copy)]
pub(crate) enum Making {
    /// Its settings are drafted.
    Draft,
    /// Then they are checked.
    Check,
    /// Then an exchange begins with them.
    Boot,
}

/// Nodes of this shape are made this many times, one after another, each only so far. None if memory ran out.
pub(crate) fn make(alloc: Global, making: Making, shape: &Shape, count: u32) -> Option<Total> {
    for _ in 0..count {
        if !is_made(alloc, making, shape) {
            return None;
        }
    }
    Some(Total::NOTHING)
}

/// Whether a node of this shape is made so far: it isn't if memory ran out.
fn is_made(alloc: Global, making: Making, shape: &Shape) -> bool {
    match making {
        Making::Draft => draft_with(alloc, shape).is_ok(),
        Making::Check => checked(alloc, shape).is_some(),
        Making::Boot => booted(alloc, shape).is_some(),
    }
}

/// The checked settings of this shape. None if memory ran out.
fn checked(alloc: Global, shape: &Shape) -> Option<Settings> {
    let draft = draft_with(alloc, shape).ok()?;
    Settings::check(alloc, draft).ok()
}

/// The exchange with settings of this shape, before its first event. None if memory ran out.
pub(crate) fn booted(alloc: Global, shape: &Shape) -> Option<Exchange> {
    Exchange::boot(alloc, checked(alloc, shape)?).ok()
}
