//! What is done at the node at a place.

ghost use Rattle.std.specs.Prelude.{◌≡◌, ◌<◌, ◌&&◌, true, false, length, nat_lt, slice_get, IfSome};
ghost use Rattle.signalling_types.specs.declared.outcome.Outcome.TheVariants.{Ignored};
ghost use Rattle.exchange.specs.Calls.{StandsFor, happened};
ghost use Rattle.exchange_rules.specs.Exchange.{after, outcome_of};
ghost use Rattle.exchange_rules.specs.First.{Abstract};
ghost use Rattle.exchange_rules.specs.Queues.{whole};
ghost use Rattle.node_world.specs.Calls.{NodeCalls, NodesCall, NodesStep, is_made_from, is_made_to, is_there, octets_heard, told};
ghost use Rattle.node_world.specs.Kept.{KeptPlace, kept_other_end, sent_on, sent_there};
ghost use Rattle.node_world.specs.Worlds.{is_own};

use crate::between::{adjacent_of, link_with_code};
use crate::call::Call;
use crate::node::Node;
use crate::reading::place_of;
use exchange::Event;
use settings::{LinkId, Outcome};
use std::marker::Model;

/// The other end of a link: the place of its node, and its link there.
#[derive(Drop)]
pub(crate) struct There {
    place: usize,
    link: LinkId,
}

impl Model for There {
    ghost Value = { KeptPlace };

    ghost view = { λ there. record { place = there.place; link = there.link } };
}

/// Something happens to the exchange of the node at a place, unless it is what a link brings. Requires that the node is
/// there.
pub(crate) fn step_from(nodes: &mut [Node], place: usize, event: &Event<'_>) -> Outcome
    requires { place < length nodes.old }
    ensures steps { is_own event.now ≡ true → NodesStep place event.now result nodes.old nodes.new }
    ensures ignored { is_own event.now ≡ false → result ≡ Ignored }
    ensures unchanged { is_own event.now ≡ false → nodes.new ≡ nodes.old }
{
    step_at(&mut nodes[place], event)
}

/// Something happens to the exchange of a node, unless it is what a link brings.
fn step_at(node: &mut Node, event: &Event<'_>) -> Outcome
    ensures outcome { is_own event.now ≡ true → (a : Abstract) → StandsFor node.old.exchange a →
        result ≡ outcome_of whole (happened event.now result) a }
    ensures exchange { is_own event.now ≡ true → (a : Abstract) → StandsFor node.old.exchange a →
        StandsFor node.new.exchange (after whole (happened event.now result) a) }
    ensures ports { node.new.ports ≡ node.old.ports }
    ensures settings { node.new.exchange.settings ≡ node.old.exchange.settings }
    ensures ignored { is_own event.now ≡ false → result ≡ Ignored }
    ensures unchanged { is_own event.now ≡ false → node.new ≡ node.old }
{
    if !is_own(event) {
        return Outcome::Ignored;
    }
    node.step(event)
}

/// Whether an event is none that a link brings.
fn is_own(event: &Event<'_>) -> bool
    ensures { result ≡ is_own event.now }
{
    match event {
        Event::AssociationUp(_) | Event::AssociationDown(_) | Event::Frame(_, _) => false,
        Event::Tick | Event::Submit(_) | Event::Order(_) => true,
    }
}

/// Calls the gate of a link of the node at a place, if the link leads to another node. Requires that the node is there.
pub(crate) fn call_from(
    nodes: &mut [Node],
    place: usize,
    link: LinkId,
    call: Call,
    now: u64,
) -> bool
    requires { place < length nodes.old }
    ensures answer { result ≡ is_made_from call place link nodes.old (slice_get nodes.old place) }
    ensures calls { result ≡ true → NodesCall place link (told call (octets_heard call (sent_there nodes.old
        (kept_other_end nodes.old (slice_get nodes.old place) link))) now) nodes.old nodes.new }
    ensures unchanged { result ≡ false → nodes.new ≡ nodes.old }
{
    match other_end(nodes, place, link) {
        Some(there) => call_to(nodes, place, link, there, call, now),
        None => false,
    }
}

/// The other end of a link of the node at a place. Requires that the node is there. It looks through the nodes, and
/// through the links of that of the other end.
fn other_end(nodes: &[Node], near: usize, link: LinkId) -> Option<There>
    requires { near < length nodes.now }
    ensures place { result ≡ kept_other_end nodes.now (slice_get nodes.now near) link }
    ensures fits { IfSome result (λ there. there.place < length nodes.now) }
{
    let settings = nodes[near].settings();
    let row = settings.links().get(link.index())?;
    let place = place_of(nodes, adjacent_of(settings, row))?;
    let other = link_with_code(nodes[place].settings(), settings.own(), row.slc())?;
    Some(There { place, link: other })
}

/// Calls the gate of a link of the node at a place, given the other end of the link, if that is at another node.
/// Requires that both nodes are there.
fn call_to(
    nodes: &mut [Node],
    near: usize,
    link: LinkId,
    there: There,
    call: Call,
    now: u64,
) -> bool
    requires near { near < length nodes.old }
    requires far { there.place < length nodes.old }
    ensures answer { IfSome (slice_get nodes.old near) (λ n.
        result ≡ is_made_to call near link nodes.old n (Some there)) }
    ensures calls { result ≡ true → NodesCall near link
        (told call (octets_heard call (sent_there nodes.old (Some there))) now) nodes.old nodes.new }
    ensures unchanged { result ≡ false → nodes.new ≡ nodes.old }
{
    let far = there.place;
    let other = there.link;
    if near == far {
        return false;
    }
    if near < far {
        let (front, back) = nodes.split_at_mut(far);
        call_at(&mut front[near], &back[0], link, other, call, now)
    } else {
        let (front, back) = nodes.split_at_mut(near);
        call_at(&mut back[0], &front[far], link, other, call, now)
    }
}

/// Calls the gate of a link at a node, given the node at the other end of the link, and its link there.
fn call_at(node: &mut Node, far: &Node, link: LinkId, other: LinkId, call: Call, now: u64) -> bool
    ensures answer { result ≡ (nat_lt link (length node.old.ports) && is_there call (sent_on far.now other)) }
    ensures calls { result ≡ true → (a : Abstract) → StandsFor node.old.exchange a →
        NodeCalls link (told call (octets_heard call (sent_on far.now other)) now) node.old node.new a }
    ensures settings { node.new.exchange.settings ≡ node.old.exchange.settings }
    ensures unchanged { result ≡ false → node.new ≡ node.old }
{
    if link.index() >= node.gate_count() || !far.has(other, call) {
        return false;
    }
    node.call(link, call, far.octets_heard(other, call), now);
    true
}
