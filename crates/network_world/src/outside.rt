//! What comes to the nodes of a network by links that lead out of it, and what goes out by them.

ghost use Rattle.std.specs.Prelude.{◌≡◌, ◌<◌, length, slice_get, IfOk, OnOk, OnErr};
ghost use Rattle.network_world.specs.KeptNetworks.{place_at};
ghost use Rattle.network_world.specs.KeptOutside.{kept_hears_outside, kept_leads_out, kept_management_within, kept_opens_outside, kept_sends_outside, kept_speaks_within, kept_within};

use crate::between::adjacent_of;
use crate::node::Node;
use crate::reaching::place_of;
use exchange::{Event, Frame, FrameText, NoMemory, decode};
use mtp3_codec::Label;
use settings::{LinkId, Outcome, PointCode};

/// The service indicator of management (Q.704 §14.2.1).
const MANAGEMENT: u8 = 0;

/// The bits of a service information octet that have the service indicator.
const SERVICE_INDICATOR: u8 = 0x0F;

/// The association of a link of the node at a point comes up, where the link leads out.
pub(crate) fn open_outside(nodes: &mut [Node], at: PointCode, link: LinkId) -> Outcome
    ensures outcome { result ≡ (kept_opens_outside (place_at at nodes.old) link nodes.old).outcome }
    ensures state { nodes.new ≡ (kept_opens_outside (place_at at nodes.old) link nodes.old).left }
{
    match place_of(nodes, at) {
        Some(place) if leads_out(nodes, place, link) => nodes[place].happen(&Event::AssociationUp(
            link,
        )),
        Some(_) | None => Outcome::Ignored,
    }
}

/// A frame comes by a link of the node at a point, where the link leads out, unless the frame carries management in the
/// name of one of the nodes for one of them. After NoMemory nothing has changed.
pub(crate) fn hear_outside(
    nodes: &mut [Node],
    at: PointCode,
    link: LinkId,
    text: &FrameText,
) -> Result<Outcome, NoMemory>
    ensures outcome { IfOk result (λ outcome.
        outcome ≡ (kept_hears_outside (place_at at nodes.old) link text.now nodes.old).outcome) }
    ensures state { OnOk result
        (nodes.new ≡ (kept_hears_outside (place_at at nodes.old) link text.now nodes.old).left) }
    ensures unchanged { OnErr result (nodes.new ≡ nodes.old) }
{
    let Some(place) = place_of(nodes, at) else {
        return Ok(Outcome::Ignored);
    };
    if !leads_out(nodes, place, link) || speaks_within(nodes, text.octets()) {
        return Ok(Outcome::Ignored);
    }
    nodes[place].hear_outside(link, text)
}

/// The next frame of a link of the node at a point, where the link leads out. None if there is none.
pub(crate) fn send_outside(nodes: &mut [Node], at: PointCode, link: LinkId) -> Option<FrameText>
    ensures text { result ≡ (kept_sends_outside (place_at at nodes.old) link nodes.old).text }
    ensures state { nodes.new ≡ (kept_sends_outside (place_at at nodes.old) link nodes.old).left }
{
    let place = place_of(nodes, at)?;
    if !leads_out(nodes, place, link) {
        return None;
    }
    nodes[place].take(link)
}

/// Whether a link of the node at a place leads to a point at which none of the nodes is. Requires that the node is
/// there.
fn leads_out(nodes: &[Node], place: usize, link: LinkId) -> bool
    requires { place < length nodes.now }
    ensures { result ≡ kept_leads_out nodes.now (slice_get nodes.now place) link }
{
    let settings = nodes[place].settings();
    match settings.links().get(link.index()) {
        Some(row) => !is_within(nodes, adjacent_of(settings, row)),
        None => false,
    }
}

/// Whether a node with link sets is at a point.
fn is_within(nodes: &[Node], point: PointCode) -> bool
    ensures { result ≡ kept_within point nodes.now }
{
    match place_of(nodes, point) {
        Some(place) => 0 < nodes[place].settings().sets().len(),
        None => false,
    }
}

/// Whether a frame carries management in the name of one of the nodes for one of them.
fn speaks_within(nodes: &[Node], octets: &[u8]) -> bool
    ensures { result ≡ kept_speaks_within nodes.now octets.now }
{
    match decode(octets) {
        Ok(Frame::Message { sio, sif, .. }) => is_management_within(nodes, sio, sif),
        Ok(Frame::Empty { .. }) => false,
        Ok(Frame::Status { .. }) => false,
        Err(_) => false,
    }
}

/// Whether a message of this service information octet and this field is management of one of the nodes for one of
/// them.
fn is_management_within(nodes: &[Node], sio: u8, sif: &[u8]) -> bool
    ensures { result ≡ kept_management_within nodes.now (record { sio = sio; sif = sif.now }) }
{
    let label = Label::at(sif);
    sio & SERVICE_INDICATOR == MANAGEMENT
        && is_within(nodes, label.opc)
        && is_within(nodes, label.dpc)
}
