//! A translation row.

ghost use Rattle.std.specs.Prelude.{◌≡◌, ◌^◌, ◌<◌, ◌≤◌, ◌↔◌, All, IsSome, IfSome, None, Some, length};
ghost use Rattle.settings.specs.Configuration.{unchanged};
ghost use Rattle.settings.specs.TitleRanges.{HasTitleRanges};

use crate::title_change::TitleChange;
use crate::title_digits::{are_digits, padded};
use signalling_types::{Limits, PointCode, Ssn};
use std::marker::Model;

/// The largest numbering plan: four bits.
pub(crate) const LAST_PLAN: u8 = 15;

/// The largest nature of address: seven bits.
pub(crate) const LAST_NATURE: u8 = 127;

/// How an address is routed at the point that it is translated to (Q.714 §2.4).
#[derive(Clone, Copy)]
pub enum TitleRoute {
    /// By its title, with this subsystem number, if any.
    Title(Option<Ssn>),
    /// By this subsystem number.
    Ssn(Ssn),
}

/// A translation row: addresses of this translation type, numbering plan and nature, and what they
/// begin with, where they lead, the point that they lead to while that one can't be reached, if
/// any, and how their titles change (Q.714 §2.4).
#[derive(Clone, Copy)]
pub struct TitleRow {
    translation: u8,
    plan: u8,
    nature: u8,
    digits: [u8; Limits::TITLE_DIGITS],
    len: u8,
    point: PointCode,
    backup: Option<PointCode>,
    route: TitleRoute,
    change: TitleChange,
}

impl Model for TitleRow {
    ghost use Rattle.settings.specs.Configuration.{TitleEntry};

    ghost Value = { TitleEntry };

    ghost use Rattle.settings.specs.TitleRoom.{title_in, IsTitleInPlace, put_title};
    ghost use Rattle.settings.specs.TitleInPlace.{put_title-title_in};

    ghost view = { title_in };

    ghost invariant = { IsTitleInPlace };

    ghost inverse = { put_title };

    ghost inverse_ok = { put_title-title_in };
}

impl TitleRow {
    /// The row of this translation type (an octet), numbering plan (0 to 15), nature of address (0 to 127) and digits
    /// (1 to 32 of them, 0 to 15 each), or `None` exactly when one of these is out of range. Addresses lead to this
    /// point, with no backup, and are routed there in this way. Their titles don't change.
    pub fn new(
        translation: u8,
        plan: u8,
        nature: u8,
        digits: &[u8],
        point: PointCode,
        route: TitleRoute,
    ) -> Option<TitleRow>
        ensures fits { IsSome result ↔ HasTitleRanges plan nature digits.now }
        ensures value { IfSome result (λ row. row ≡ record {
          translation = translation;
          plan = plan;
          nature = nature;
          digits = digits.now;
          point = point;
          backup = None;
          route = route;
          change = unchanged;
        }) }
    {
        if plan > LAST_PLAN || nature > LAST_NATURE {
            return None;
        }
        if digits.is_empty() || digits.len() > Limits::TITLE_DIGITS || !are_digits(digits) {
            return None;
        }
        Some(TitleRow {
            translation,
            plan,
            nature,
            digits: padded(digits),
            len: digits.len() as u8,
            point,
            backup: None,
            route,
            change: TitleChange::none(),
        })
    }

    /// The same row, with this point as its backup.
    pub fn with_backup(self, point: PointCode) -> TitleRow
        ensures { result ≡ record self { backup = Some point } }
    {
        TitleRow {
            backup: Some(point),
            ..self
        }
    }

    /// The same row, with this change of titles in place of its own.
    pub fn with_change(self, change: TitleChange) -> TitleRow
        ensures { result ≡ record self { change = change } }
    {
        TitleRow { change, ..self }
    }

    /// The translation type.
    pub fn translation(&self) -> u8
        ensures { result ≡ self.now.translation }
    {
        self.translation
    }

    /// The numbering plan, 0 to 15.
    pub fn plan(&self) -> u8
        ensures value { result ≡ self.now.plan }
        ensures fits { self.now.plan < 2 ^ 4 }
    {
        self.plan
    }

    /// The nature of address, 0 to 127.
    pub fn nature(&self) -> u8
        ensures value { result ≡ self.now.nature }
        ensures fits { self.now.nature < 2 ^ 7 }
    {
        self.nature
    }

    /// The digits that an address begins with: 1 to 32 of them, 0 to 15 each.
    pub fn digits(&self) -> &[u8]
        ensures digits { result.now ≡ self.now.digits }
        ensures some { 1 ≤ length self.now.digits }
        ensures fits { length self.now.digits ≤ Limits.TITLE_DIGITS }
        ensures values { All (λ digit. digit < 2 ^ 4) self.now.digits }
    {
        &self.digits[..self.len as usize]
    }

    /// The point that such an address leads to.
    pub fn point(&self) -> PointCode
        ensures { result ≡ self.now.point }
    {
        self.point
    }

    /// The point that it leads to while that one can't be reached; `None` if there is no such point.
    pub fn backup(&self) -> Option<PointCode>
        ensures { result ≡ self.now.backup }
    {
        self.backup
    }

    /// How it is routed there.
    pub fn route(&self) -> TitleRoute
        ensures { result ≡ self.now.route }
    {
        self.route
    }

    /// How the title of such an address changes.
    pub fn change(&self) -> &TitleChange
        ensures { result.now ≡ self.now.change }
    {
        &self.change
    }
}
