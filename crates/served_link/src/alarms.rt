//! Which alarms are raised.

ghost use Rattle.std.specs.Prelude.{◌≡◌, length, IfOk, None, slice_get, slice_index_or};
ghost use Rattle.served_link.specs.Alarms.{after_look, none_raised, noted, place_of, since_of, change_at, change_of};

use crate::alarm::{Alarm, NEAR_ALARMS};
use std::alloc::{AllocError, Global};
use std::marker::Model;

/// What becomes of an alarm.
#[derive(Clone, Copy, PartialEq, Eq)]
pub enum AlarmChange {
    /// It is raised.
    Raised,
    /// It is cleared. It was raised so many milliseconds after the start.
    Cleared(u64),
}

/// Which alarms are raised, and since when, in milliseconds after the start.
#[derive(Drop)]
pub struct Alarms {
    since_ms: Vec<Option<u64>>,
}

impl Model for Alarms {
    ghost use Rattle.std.specs.Prelude.{ℕ, List, Option};

    ghost Value = { List (Option ℕ) };

    ghost view = { λ a. a.since_ms.items };
}

impl Alarms {
    /// No alarm is raised. There is a place for each link, each set and so many destinations. The error means that
    /// memory ran out.
    pub fn new(alloc: Global, destinations: u16) -> Result<Alarms, AllocError>
        ensures { IfOk result (λ alarms. alarms ≡ none_raised destinations) }
    {
        let places = NEAR_ALARMS + destinations as usize;
        Ok(Alarms {
            since_ms: vec![in alloc; None; places]?,
        })
    }

    /// Since when an alarm is raised, in milliseconds after the start; None if it isn't.
    pub fn since(&self, alarm: Alarm) -> Option<u64>
        ensures { result ≡ since_of alarm self.now }
    {
        match self.since_ms.get(alarm.place()) {
            Some(since) => *since,
            None => None,
        }
    }

    /// Since when the alarm at a place is raised, in milliseconds after the start; None if it isn't, or if there is none.
    pub fn since_at(&self, place: usize) -> Option<u64>
        ensures { result ≡ slice_index_or self.now place None }
    {
        match self.since_ms.get(place) {
            Some(since) => *since,
            None => None,
        }
    }

    /// How many places there are: `Alarm::at` says which alarm has each of them.
    pub fn places(&self) -> usize
        ensures { result ≡ length self.now }
    {
        self.since_ms.len()
    }

    /// What an alarm is about was looked at, so many milliseconds after the start: is it to be raised? Returns what
    /// becomes of it, if anything does. One that has no place is never raised.
    pub fn note(&mut self, alarm: &Alarm, is_on: bool, now_ms: u64) -> Option<AlarmChange>
        ensures change { result ≡ change_at is_on (slice_get self.old (place_of alarm.now)) }
        ensures noted { self.new ≡ noted alarm.now is_on now_ms self.old }
    {
        let row = self.since_ms.get_mut(alarm.place())?;
        let change = change_of(is_on, *row);
        *row = after_look(is_on, now_ms, *row);
        change
    }
}

/// What becomes of an alarm that is raised since then, or isn't.
fn change_of(is_on: bool, since: Option<u64>) -> Option<AlarmChange>
    ensures { result ≡ change_of is_on since }
{
    match since {
        None if is_on => Some(AlarmChange::Raised),
        Some(since) if !is_on => Some(AlarmChange::Cleared(since)),
        _ => None,
    }
}

/// Since when an alarm is raised after a look.
fn after_look(is_on: bool, now_ms: u64, since: Option<u64>) -> Option<u64>
    ensures { result ≡ after_look is_on now_ms since }
{
    match since {
        None if is_on => Some(now_ms),
        Some(since) if is_on => Some(since),
        _ => None,
    }
}
