//! Whether two nodes name their links alike.

ghost use Rattle.std.specs.Prelude.{◌≡◌, ◌↔◌, IsTrue, map};
ghost use Rattle.settings.specs.Naming.{link_names};

use crate::LinkRow;
use crate::settings::Settings;

impl Settings {
    /// Whether both nodes have as many links, and each link of one has the name of the other's link of the same number.
    pub fn named_alike(&self, other: &Settings) -> bool
        ensures { IsTrue result ↔ (link_names self.now ≡ link_names other.now) }
    {
        have_same_names(self.links(), other.links())
    }
}

/// Whether the links have the same names in the same order.
fn have_same_names(near: &[LinkRow], far: &[LinkRow]) -> bool
    ensures { IsTrue result ↔ (map (λ l. l.name) near.now ≡ map (λ l. l.name) far.now) }
{
    if near.len() != far.len() {
        return false;
    }
    for i in 0..near.len() {
        if near[i].name() != far[i].name() {
            return false;
        }
    }
    true
}
