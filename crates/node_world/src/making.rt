//! What a gate is made of.

ghost use Rattle.std.specs.Prelude.{◌↔◌, IsTrue};
ghost use Rattle.node_world.specs.Making.{AreInOrder};

use sctp_endpoint::Settings;
use sctp_endpoint::endpoint::KEY_OCTETS;

/// The longest timeout that a gate may have, in milliseconds.
const LONGEST: u32 = 1 << 24;

/// What a gate is made of: whether it tries to open the association, its endpoint's settings, and the keys under which
/// that draws tags and signs cookies.
#[derive(Clone, Copy)]
pub struct GateMaking {
    /// Whether it tries to open.
    pub tries: bool,
    /// The settings of its endpoint.
    pub settings: Settings,
    /// The key of its tags.
    pub tag_key: [u8; KEY_OCTETS],
    /// The key of its cookies.
    pub cookie_key: [u8; KEY_OCTETS],
}

/// Whether the bounds of its timeouts are in order.
pub(crate) fn are_in_order(making: &GateMaking) -> bool
    ensures { IsTrue result ↔ AreInOrder making.now.settings.bounds }
{
    let bounds = making.settings.bounds;
    bounds.initial <= bounds.most && bounds.least <= bounds.most && bounds.most <= LONGEST
}
