//! Which links and messages are between two nodes.

ghost use Rattle.std.specs.Prelude.{◌≡◌, ◌<◌, ◌&&◌, nat_eq, length, slice_get, position, IfSome};
ghost use Rattle.signalling_types.specs.Message.{dpc_of};
ghost use Rattle.exchange_rules.specs.Routing.{adjacent_of};
ghost use Rattle.neighbour_rules.specs.Neighbours.{end_there};

use mtp3_codec::Label;
use settings::{LinkId, LinkRow, Msu, PointCode, SetId, Settings};

/// The far end of a link, where it leads to the far point: the link there with its signalling link code. It looks
/// through the far end's links.
pub(crate) fn far_end(near: &Settings, far: &Settings, link: LinkId) -> Option<LinkId>
    ensures { result ≡ end_there near.now far.now (slice_get near.now.links link) }
{
    let row = near.links().get(link.index())?;
    if adjacent_of(near, row) != far.own() {
        return None;
    }
    let set = far.set_to(near.own())?;
    let place = place_in_set(far.links(), row.slc(), set)?;
    Some(LinkId::new(place as u8))
}

/// The place of the link of a signalling link code in a set.
fn place_in_set(links: &[LinkRow], slc: u8, set: SetId) -> Option<usize>
    ensures place { result ≡ position (λ l. nat_eq l.set set && nat_eq l.slc slc) links.now }
    ensures fits { IfSome result (λ place. place < length links.now) }
{
    links
        .iter()
        .position(|row| row.set() == set && row.slc() == slc)
}

/// The point that a link leads to. Requires that its set is there.
pub(crate) fn adjacent_of(settings: &Settings, row: &LinkRow) -> PointCode
    requires { row.now.set < length settings.now.sets }
    ensures { result ≡ adjacent_of settings.now row.now.set }
{
    settings.sets()[row.set().index()].adjacent()
}

/// Whether a message is for a point.
pub(crate) fn goes_to(point: PointCode, message: &Msu) -> bool
    ensures { result ≡ nat_eq (dpc_of message.now) point }
{
    Label::at(message.sif()).dpc == point
}
