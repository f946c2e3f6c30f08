//! A destination of checked settings.

ghost use Rattle.std.specs.Prelude.{◌≡◌, ◌≤◌, length};

use arrayvec::ArrayVec;
use signalling_types::{Limits, PointCode, SetId};
use std::marker::Model;

/// A destination of checked settings.
#[derive(Drop)]
pub struct DestinationRow {
    point: PointCode,
    sets: ArrayVec<SetId, { Limits::SETS_PER_DESTINATION }>,
    joined: bool,
}

impl Model for DestinationRow {
    ghost use Rattle.settings.specs.Configuration.{DestinationEntry};

    ghost Value = { DestinationEntry };

    ghost view = { λ d. record { point = d.point; sets = d.sets.items; joined = d.joined } };
}

impl DestinationRow {
    /// The destination of this point code, with the sets that lead there, the preferred one first,
    /// and whether the first two of them are joined.
    pub fn new(
        point: PointCode,
        sets: ArrayVec<SetId, { Limits::SETS_PER_DESTINATION }>,
        joined: bool,
    ) -> DestinationRow
        ensures { result ≡ record { point = point; sets = sets.items; joined = joined } }
    {
        DestinationRow {
            point,
            sets,
            joined,
        }
    }

    /// The destination's point code.
    pub fn point(&self) -> PointCode
        ensures { result ≡ self.now.point }
    {
        self.point
    }

    /// The sets that lead there, the preferred one first.
    pub fn sets(&self) -> &[SetId]
        ensures rows { result.now ≡ self.now.sets }
        ensures fits { length self.now.sets ≤ Limits.SETS_PER_DESTINATION }
    {
        self.sets.as_slice()
    }

    /// Whether the first two sets are joined: they are preferred alike, and share the messages.
    pub fn joined(&self) -> bool
        ensures { result ≡ self.now.joined }
    {
        self.joined
    }
}
