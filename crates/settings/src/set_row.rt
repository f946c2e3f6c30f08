//! A link set of checked settings.

ghost use Rattle.std.specs.Prelude.{◌≡◌, ◌≤◌, IsTrue, length};
ghost use Rattle.settings.specs.Names.{is_name};

use crate::kept_name::kept_name;
use arrayvec::ArrayString;
use signalling_types::{Limits, PointCode};
use std::marker::Model;

/// A link set of checked settings.
#[derive(Drop)]
pub struct SetRow {
    name: ArrayString<{ Limits::NAME_OCTETS }>,
    adjacent: PointCode,
}

impl Model for SetRow {
    ghost use Rattle.std.specs.Prelude.{IsTrue};
    ghost use Rattle.settings.specs.Names.{is_name};
    ghost use Rattle.settings.specs.Configuration.{SetEntry};

    ghost Value = { SetEntry };

    ghost view = { λ s. record { name = s.name.bytes; adjacent = s.adjacent } };

    ghost invariant = { λ s. IsTrue (is_name s.name.bytes) };
}

impl SetRow {
    /// The set of this name whose links lead to this point.
    pub fn new(name: &str, adjacent: PointCode) -> SetRow
        requires { IsTrue (is_name name.now) }
        ensures { result ≡ record { name = name.now; adjacent = adjacent } }
    {
        SetRow {
            name: kept_name(name),
            adjacent,
        }
    }

    /// The set's name: 1 to 32 letters, digits, dashes, low lines and dots.
    pub fn name(&self) -> &str
        ensures value { result.now ≡ self.now.name }
        ensures form { IsTrue (is_name self.now.name) }
        ensures fits { length self.now.name ≤ Limits.NAME_OCTETS }
    {
        self.name.as_str()
    }

    /// The point that the set's links lead to.
    pub fn adjacent(&self) -> PointCode
        ensures { result ≡ self.now.adjacent }
    {
        self.adjacent
    }
}
