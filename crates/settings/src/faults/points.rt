//! The points of destinations that were looked at.

ghost use Rattle.std.specs.Prelude.{◌≡◌, [], false, replicate, IfOk};
ghost use Rattle.settings.specs.SeenPoints.{seen_at, seen_with, AreSeen};

use std::alloc::{AllocError, Global};
use std::marker::Model;

/// How many point codes there are: they have 14 bits (Q.704 §2.2.3).
const POINT_CODES: usize = 1 << 14;

/// Which points were seen. It takes 16 KB.
#[derive(Drop)]
pub(crate) struct SeenPoints {
    seen: Vec<bool>,
}

impl Model for SeenPoints {
    ghost use Rattle.std.specs.Prelude.{List, Bool};

    ghost Value = { List Bool };

    ghost view = { λ points. points.seen.items };

    ghost use Rattle.settings.specs.SeenPoints.{HasAllPoints};

    ghost invariant = { HasAllPoints };
}

impl SeenPoints {
    /// None was seen. The error means that memory ran out.
    pub(crate) fn none(alloc: Global) -> Result<SeenPoints, AllocError>
        ensures { IfOk result (λ points. AreSeen points []) }
    {
        let seen = unseen(alloc, POINT_CODES)?;
        Ok(SeenPoints { seen })
    }

    /// Whether this number is a point that was seen before. It was from now on, if it is one.
    pub(crate) fn see(&mut self, point: i64) -> bool
        ensures value { result ≡ seen_at self.old point }
        ensures points { self.new ≡ seen_with self.old point }
    {
        match usize::try_from(point) {
            Ok(code) if code < POINT_CODES => {
                let was_seen = self.seen[code];
                self.seen[code] = true;
                was_seen
            }
            _ => false,
        }
    }
}

/// This many point codes, none of which was seen.
fn unseen(alloc: Global, codes: usize) -> Result<Vec<bool>, AllocError>
    ensures { IfOk result (λ seen. seen.items ≡ replicate codes false) }
{
    let mut seen = Vec::with_capacity(alloc, codes)?;
    for code in 0..codes {
        seen.push(false)?;
    }
    Ok(seen)
}
