//! Whether two nodes share a link set.

ghost use Rattle.std.specs.Prelude.{◌≡◌, ◌↔◌, ◌||◌, IfSome, IfNone, IsTrue, not, nat_eq, ℕ};
ghost use Rattle.std.specs.List.{list_all};
ghost use Rattle.settings.specs.Sharing.{LeadsAlone, SharesSet, has_link_of};

use crate::settings::Settings;
use crate::{DestinationRow, LinkRow};
use signalling_types::{PointCode, SetId};

impl Settings {
    /// Whether these two nodes share a link set (Q.704 §2.2, §15.2): each has one whose links lead to the other's
    /// point, and no other set leads there. Both are of the same network, and the links of the two sets have the same
    /// signalling link codes. It doesn't matter what other sets, links and destinations they have.
    pub fn shares_set_with(&self, other: &Settings) -> bool
        ensures { IsTrue result ↔ SharesSet self.now other.now }
    {
        let Some(near) = set_alone_to(self, other.own()) else {
            return false;
        };
        let Some(far) = set_alone_to(other, self.own()) else {
            return false;
        };
        self.network() == other.network() && have_same_codes(self.links(), near, other.links(), far)
    }
}

/// The set whose links lead to this point, if no other set leads there.
fn set_alone_to(settings: &Settings, point: PointCode) -> Option<SetId>
    ensures found { IfSome result (LeadsAlone settings.now point) }
    ensures none { IfNone result ((set : ℕ) → ¬ (LeadsAlone settings.now point set)) }
{
    let set = settings.set_to(point)?;
    let place = settings.destination(point)?;
    let [only] = settings.destinations()[place].sets() else {
        return None;
    };
    (*only == set).then_some(set)
}

/// Whether the links of two sets, each among these links, have the same signalling link codes.
fn have_same_codes(near: &[LinkRow], near_set: SetId, far: &[LinkRow], far_set: SetId) -> bool
    ensures { IsTrue result ↔ ((slc : ℕ) → has_link_of near_set slc near.now ≡ has_link_of far_set slc far.now) }
{
    has_codes_of(near, near_set, far, far_set) && has_codes_of(far, far_set, near, near_set)
}

/// Whether a set of these links has the signalling link code of each link of another set.
fn has_codes_of(links: &[LinkRow], set: SetId, others: &[LinkRow], other: SetId) -> bool
    ensures { result ≡ list_all (λ l. not (nat_eq l.set other) || has_link_of set l.slc links.now) others.now }
{
    others.iter().all(|row| row.set() != other || has_link(links, set, row.slc()))
}

/// Whether a set of these links has one with this signalling link code.
fn has_link(links: &[LinkRow], set: SetId, slc: u8) -> bool
    ensures { result ≡ has_link_of set slc links.now }
{
    links.iter().any(|row| row.set() == set && row.slc() == slc)
}
