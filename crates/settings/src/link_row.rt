//! A link of checked settings.

ghost use Rattle.std.specs.Prelude.{◌≡◌, ◌<◌, ◌≤◌, ◌^◌, IsTrue, length};
ghost use Rattle.settings.specs.Names.{is_name};

use crate::kept_name::kept_name;
use arrayvec::ArrayString;
use signalling_types::{Limits, SetId};
use std::marker::Model;

/// A link of checked settings.
#[derive(Drop)]
pub struct LinkRow {
    name: ArrayString<{ Limits::NAME_OCTETS }>,
    set: SetId,
    slc: u8,
    share: Option<u16>,
}

impl Model for LinkRow {
    ghost use Rattle.std.specs.Prelude.{◌<◌, ◌^◌, IsTrue};
    ghost use Rattle.settings.specs.Names.{is_name};
    ghost use Rattle.settings.specs.Configuration.{LinkEntry};

    ghost Value = { LinkEntry };

    ghost view = { λ l. record { name = l.name.bytes; set = l.set; slc = l.slc; share = l.share } };

    ghost invariant = { λ l. IsTrue (is_name l.name.bytes) × (l.slc < 2 ^ 4) };
}

impl LinkRow {
    /// The link of this name and this set, with this signalling link code there and this share of the pool.
    pub fn new(name: &str, set: SetId, slc: u8, share: Option<u16>) -> LinkRow
        requires name { IsTrue (is_name name.now) }
        requires slc { slc < 2 ^ 4 }
        ensures { result ≡ record { name = name.now; set = set; slc = slc; share = share } }
    {
        LinkRow {
            name: kept_name(name),
            set,
            slc,
            share,
        }
    }

    /// The link's name: 1 to 32 letters, digits, dashes, low lines and dots.
    pub fn name(&self) -> &str
        ensures value { result.now ≡ self.now.name }
        ensures form { IsTrue (is_name self.now.name) }
        ensures fits { length self.now.name ≤ Limits.NAME_OCTETS }
    {
        self.name.as_str()
    }

    /// The link's set.
    pub fn set(&self) -> SetId
        ensures { result ≡ self.now.set }
    {
        self.set
    }

    /// The link's signalling link code, 0 to 15 (Q.704 §15.2).
    pub fn slc(&self) -> u8
        ensures value { result ≡ self.now.slc }
        ensures fits { self.now.slc < 2 ^ 4 }
    {
        self.slc
    }

    /// How many messages the link may keep before more are refused; `None` if as many as the pool has room for.
    pub fn share(&self) -> Option<u16>
        ensures { result ≡ self.now.share }
    {
        self.share
    }
}
