//! The points of destinations, found by their codes.

ghost use Rattle.std.specs.Prelude.{◌≡◌, ◌<◌, ◌^◌, ◌∷◌, ◌++◌, [], None, nat_eq, not, position, length, replicate};
ghost use Rattle.std.specs.Prelude.{IfOk, if◌then◌else◌};
ghost use Rattle.std.specs.List.{list_any};

use signalling_types::PointCode;
use std::alloc::{AllocError, Global};
use std::marker::Model;

/// How many point codes there are: they have 14 bits (Q.704 §2.2.3).
const POINT_CODES: usize = 1 << 14;

/// Distinct points, in the order in which they were put in.
///
/// A table of all point codes says at which index each point is, so a look-up costs the same however many points there
/// are. The table takes 64 KB.
#[derive(Drop)]
pub struct PointIndex {
    points: Vec<PointCode>,
    places: Vec<Option<u16>>,
}

impl Model for PointIndex {
    ghost use Rattle.std.specs.Prelude.{ℕ, List};

    ghost Value = { List ℕ };

    ghost use Rattle.settings.specs.Indexed.{points_in, IsIndexed};

    ghost view = { points_in };

    ghost invariant = { IsIndexed };
}

impl PointIndex {
    /// No points, with room for this many. The error means that memory ran out.
    pub(crate) fn with_capacity(alloc: Global, points: usize) -> Result<PointIndex, AllocError>
        ensures { IfOk result (λ index. index ≡ []) }
    {
        Ok(PointIndex {
            points: Vec::with_capacity(alloc, points)?,
            places: no_places(alloc, POINT_CODES)?,
        })
    }

    /// The index of a point: one look-up.
    pub fn place(&self, point: PointCode) -> Option<usize>
        ensures { result ≡ position (nat_eq point) self.now }
    {
        let place = self.places[point.code() as usize]?;
        Some(place as usize)
    }

    /// Adds a point after the others, unless it is among them; returns whether it is new. The error means that memory
    /// ran out.
    pub(crate) fn insert(&mut self, point: PointCode) -> Result<bool, AllocError>
        requires { length self.old < 2 ^ 16 }
        ensures new { IfOk result (λ is_new. is_new ≡ not (list_any (nat_eq point) self.old)) }
        ensures points { IfOk result (λ is_new.
            self.new ≡ (if is_new then self.old ++ point ∷ [] else self.old)) }
    {
        if self.place(point).is_some() {
            return Ok(false);
        }
        let place = self.points.len() as u16;
        self.points.push(point)?;
        self.places[point.code() as usize] = Some(place);
        Ok(true)
    }
}

/// This many point codes, none with a point.
fn no_places(alloc: Global, codes: usize) -> Result<Vec<Option<u16>>, AllocError>
    ensures { IfOk result (λ places. places.items ≡ replicate codes None) }
{
    let mut places = Vec::with_capacity(alloc, codes)?;
    for code in 0..codes {
        places.push(None)?;
    }
    Ok(places)
}
