//! Where links lead.

ghost use Rattle.std.specs.Prelude.{◌≡◌, ◌<◌, ◌&&◌, nat_eq, length, position, IfSome};
ghost use Rattle.exchange_rules.specs.Messages.{link_with_code};
ghost use Rattle.exchange_rules.specs.Routing.{adjacent_of};

use settings::{LinkId, LinkRow, PointCode, SetId, Settings};

/// The point that a link leads to. Requires that its set is there.
pub(crate) fn adjacent_of(settings: &Settings, row: &LinkRow) -> PointCode
    requires { row.now.set < length settings.now.sets }
    ensures { result ≡ adjacent_of settings.now row.now.set }
{
    settings.sets()[row.set().index()].adjacent()
}

/// The link of a signalling link code in the set that leads to a point. It looks through the links.
pub(crate) fn link_with_code(settings: &Settings, point: PointCode, slc: u8) -> Option<LinkId>
    ensures { result ≡ link_with_code settings.now point slc }
{
    let set = settings.set_to(point)?;
    let place = place_in_set(settings.links(), slc, set)?;
    Some(LinkId::new(place as u8))
}

/// The place of the link of a signalling link code in a set.
fn place_in_set(links: &[LinkRow], slc: u8, set: SetId) -> Option<usize>
    ensures place { result ≡ position (λ l. nat_eq l.set set && nat_eq l.slc slc) links.now }
    ensures fits { IfSome result (λ place. place < length links.now) }
{
    links
        .iter()
        .position(|row| row.set() == set && row.slc() == slc)
}
