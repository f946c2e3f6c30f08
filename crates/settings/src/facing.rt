//! Whether two nodes face each other.

ghost use Rattle.std.specs.Prelude.{◌≡◌, ◌↔◌, IsTrue, map};
ghost use Rattle.settings.specs.Facing.{IsFacing, LeadsOnlyTo};

use crate::settings::Settings;
use crate::{DestinationRow, LinkRow, SetRow};
use signalling_types::PointCode;

impl Settings {
    /// Whether the nodes of these settings face each other (Q.704 §2.2, §15.2): each has one link set, which leads to
    /// the other's point, and no other destination. Both are of the same network, and their links have the same
    /// signalling link codes in the same order.
    pub fn faces(&self, other: &Settings) -> bool
        ensures { IsTrue result ↔ IsFacing self.now other.now }
    {
        leads_only_to(self, other.own())
            && leads_only_to(other, self.own())
            && self.network() == other.network()
            && have_same_codes(self.links(), other.links())
    }
}

/// Whether the node has one link set and one destination, and both are this point.
fn leads_only_to(settings: &Settings, point: PointCode) -> bool
    ensures { IsTrue result ↔ LeadsOnlyTo settings.now point }
{
    let ([set], [destination]) = (settings.sets(), settings.destinations()) else {
        return false;
    };
    set.adjacent() == point && destination.point() == point
}

/// Whether the links have the same signalling link codes in the same order.
fn have_same_codes(near: &[LinkRow], far: &[LinkRow]) -> bool
    ensures { IsTrue result ↔ (map (λ l. l.slc) near.now ≡ map (λ l. l.slc) far.now) }
{
    let near_codes = near.iter().map(|row| row.slc());
    let far_codes = far.iter().map(|row| row.slc());
    near.len() == far.len() && near_codes.zip(far_codes).all(|(near, far)| near == far)
}
