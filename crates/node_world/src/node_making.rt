//! What a node is made of.

use crate::making::GateMaking;
use settings::Settings;

/// What a node of a world is made of.
#[derive(Drop)]
pub struct NodeMaking {
    /// Its settings, which say at which point it is.
    pub settings: Settings,
    /// What the gate of each of its links is made of, in order.
    pub gates: Vec<GateMaking>,
}
