//! A node of a network that starts again, or gives up following the other end of a link; whether all are quiet; and
//! books that begin anew.

ghost use Rattle.std.specs.Prelude.{◌≡◌, ◌↔◌, IsTrue, IfOk, OnOk, OnErr};
ghost use Rattle.network_world.specs.KeptAnew.{AreQuiet, all_begin_anew, kept_gives_up, kept_restarts};

use crate::node::Node;
use crate::reaching::place_of;
use exchange::NoMemory;
use settings::{LinkId, Outcome, PointCode, Settings};

/// The node at the point of these settings starts again with them. Ignored where there is none. After NoMemory nothing
/// has changed.
pub(crate) fn restart(nodes: &mut [Node], settings: Settings) -> Result<Outcome, NoMemory>
    ensures outcome { IfOk result (λ outcome. outcome ≡ (kept_restarts settings nodes.old).outcome) }
    ensures state { OnOk result (nodes.new ≡ (kept_restarts settings nodes.old).left) }
    ensures unchanged { OnErr result (nodes.new ≡ nodes.old) }
{
    match place_of(nodes, settings.own()) {
        Some(place) => nodes[place].restart(settings),
        None => Ok(Outcome::Ignored),
    }
}

/// The node at a point may not follow the other end of a link any more. Ignored where it might not.
pub(crate) fn give_up(nodes: &mut [Node], at: PointCode, link: LinkId) -> Outcome
    ensures outcome { result ≡ (kept_gives_up at link nodes.old).outcome }
    ensures state { nodes.new ≡ (kept_gives_up at link nodes.old).left }
{
    match place_of(nodes, at) {
        Some(place) => nodes[place].give_up(link),
        None => Outcome::Ignored,
    }
}

/// The books of all nodes begin anew.
pub(crate) fn begin_anew(nodes: &mut [Node])
    ensures { nodes.new ≡ all_begin_anew nodes.old }
{
    for node in nodes.iter_mut() {
        node.begin_anew();
    }
}

/// Whether all nodes are quiet.
pub(crate) fn are_quiet(nodes: &[Node]) -> bool
    ensures { IsTrue result ↔ AreQuiet nodes.now }
{
    for place in 0..nodes.len() {
        if !nodes[place].is_quiet() {
            return false;
        }
    }
    true
}
