//! How a translation row changes titles.

ghost use Rattle.std.specs.Prelude.{◌≡◌, ◌^◌, ◌<◌, ◌≤◌, ◌↔◌, All, IsTrue, IsSome, IfSome, length};
ghost use Rattle.settings.specs.Configuration.{unchanged};
ghost use Rattle.settings.specs.TitleRanges.{HasChangeRanges};

use crate::title_digits::{are_digits, padded};
use crate::title_row::{LAST_NATURE, LAST_PLAN};
use signalling_types::Limits;
use std::marker::Model;

/// How a translation row changes the title of a called address: an address of E.214 becomes one of E.212, for one
/// (Q.714 §2.4).
#[derive(Clone, Copy)]
pub struct TitleChange {
    plan: Option<u8>,
    nature: Option<u8>,
    removed: u8,
    added: [u8; Limits::TITLE_DIGITS],
    len: u8,
}

impl Model for TitleChange {
    ghost use Rattle.settings.specs.Configuration.{ChangeEntry};

    ghost Value = { ChangeEntry };

    ghost use Rattle.settings.specs.TitleRoom.{change_in, IsChangeInPlace, put_change};
    ghost use Rattle.settings.specs.TitleInPlace.{put_change-change_in};

    ghost view = { change_in };

    ghost invariant = { IsChangeInPlace };

    ghost inverse = { put_change };

    ghost inverse_ok = { put_change-change_in };
}

impl TitleChange {
    /// The change to this numbering plan (0 to 15) and this nature of address (0 to 127), if any, that takes off this
    /// many of a title's first digits (0 to 32) and then puts these on in front (0 to 32 of them, 0 to 15 each), or
    /// `None` exactly when one of these is out of range.
    pub fn new(
        plan: Option<u8>,
        nature: Option<u8>,
        removed: u8,
        added: &[u8],
    ) -> Option<TitleChange>
        ensures fits { IsSome result ↔ HasChangeRanges (record {
          plan = plan;
          nature = nature;
          removed = removed;
          added = added.now;
        }) }
        ensures value { IfSome result (λ change. change ≡ record {
          plan = plan;
          nature = nature;
          removed = removed;
          added = added.now;
        }) }
    {
        if !is_within(plan, LAST_PLAN) || !is_within(nature, LAST_NATURE) {
            return None;
        }
        if removed as usize > Limits::TITLE_DIGITS
            || added.len() > Limits::TITLE_DIGITS
            || !are_digits(added)
        {
            return None;
        }
        Some(TitleChange {
            plan,
            nature,
            removed,
            added: padded(added),
            len: added.len() as u8,
        })
    }

    /// No change: the title goes on as it came.
    pub fn none() -> TitleChange
        ensures { result ≡ unchanged }
    {
        TitleChange {
            plan: None,
            nature: None,
            removed: 0,
            added: [0; Limits::TITLE_DIGITS],
            len: 0,
        }
    }

    /// The numbering plan that a title gets, 0 to 15; `None` if it keeps its own.
    pub fn plan(&self) -> Option<u8>
        ensures value { result ≡ self.now.plan }
        ensures fits { IfSome self.now.plan (λ plan. plan < 2 ^ 4) }
    {
        self.plan
    }

    /// The nature of address that a title gets, 0 to 127; `None` if it keeps its own.
    pub fn nature(&self) -> Option<u8>
        ensures value { result ≡ self.now.nature }
        ensures fits { IfSome self.now.nature (λ nature. nature < 2 ^ 7) }
    {
        self.nature
    }

    /// How many of a title's first digits are taken off, 0 to 32.
    pub fn removed(&self) -> usize
        ensures value { result ≡ self.now.removed }
        ensures fits { self.now.removed ≤ Limits.TITLE_DIGITS }
    {
        self.removed as usize
    }

    /// The digits that are then put on in front: 0 to 32 of them, 0 to 15 each.
    pub fn added(&self) -> &[u8]
        ensures digits { result.now ≡ self.now.added }
        ensures fits { length self.now.added ≤ Limits.TITLE_DIGITS }
        ensures values { All (λ digit. digit < 2 ^ 4) self.now.added }
    {
        &self.added[..self.len as usize]
    }
}

/// Whether a number, if there is one, is no larger than this.
fn is_within(number: Option<u8>, last: u8) -> bool
    ensures { IsTrue result ↔ IfSome number (λ n. n ≤ last) }
{
    match number {
        Some(number) => number <= last,
        None => true,
    }
}
