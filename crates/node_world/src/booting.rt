//! A world of new nodes.

ghost use Rattle.std.specs.Prelude.{◌≡◌, ◌↔◌, true, false, map, IfOk, IfErr, OnOk};
ghost use Rattle.network_gates.specs.GateWorlds.{new_world};
ghost use Rattle.node_world.specs.Joined.{AreJoined, are_apart};
ghost use Rattle.node_world.specs.Kept.{points_of};
ghost use Rattle.node_world.specs.Making.{HavePortsAll, SuitsAll, first_nodes, make_at};
ghost use Rattle.node_world.specs.Stands.{StandsFor};

use crate::fault::{NodeFault, WorldFault};
use crate::joining::{are_apart, are_joined, are_well};
use crate::node::Node;
use crate::node_making::NodeMaking;
use crate::world::World;
use std::alloc::Global;

impl World {
    /// A world of nodes that were just made, each of its settings and of what each of its links' gates is made of, in
    /// order.
    ///
    /// SamePoint where two of them are at the same point; else NotJoined where a link leads to no node with which its
    /// own shares a link set (`Settings::shares_set_with`); else BadGates or NoMemory. BadGates comes only where a node
    /// has more or fewer gates than links, or the bounds of a gate's timeouts are out of order; but there NoMemory may
    /// come before it. NoMemory means that memory ran out.
    pub fn new(alloc: Global, nodes: Vec<NodeMaking>) -> Result<World, WorldFault>
        // It stands for the new world of these nodes.
        ensures first { IfOk result (λ world. StandsFor world (new_world (make_at nodes.items))) }
        // Its nodes are at their points, in order.
        ensures points { IfOk result (λ world. points_of world ≡ map (λ m. m.settings.own) nodes.items) }
        // There is one only if each has a point of its own, all links are joined, and each has a gate whose timeouts
        // are in order,
        ensures apart { OnOk result (are_apart nodes.items ≡ true) }
        ensures joined { OnOk result (AreJoined nodes.items) }
        ensures suit { OnOk result (SuitsAll nodes.items) }
        // and the fault says which of these isn't so, but for NoMemory.
        ensures same_point { IfErr result (λ fault.
            (fault ≡ WorldFault.SamePoint) ↔ (are_apart nodes.items ≡ false)) }
        ensures not_joined { IfErr result (λ fault.
            (fault ≡ WorldFault.NotJoined) ↔ (are_apart nodes.items ≡ true) × (¬ (AreJoined nodes.items))) }
        ensures bad { IfErr result (λ fault. fault ≡ WorldFault.BadGates → ¬ (SuitsAll nodes.items)) }
    {
        are_well(&nodes);
        if !are_apart(&nodes) {
            return Err(WorldFault::SamePoint);
        }
        if !are_joined(&nodes) {
            return Err(WorldFault::NotJoined);
        }
        match make_all(alloc, nodes) {
            Ok(nodes) => Ok(World { nodes }),
            Err(NodeFault::BadGates) => Err(WorldFault::BadGates),
            Err(NodeFault::NoMemory) => Err(WorldFault::NoMemory),
        }
    }
}

/// New nodes, made of these.
fn make_all(alloc: Global, nodes: Vec<NodeMaking>) -> Result<Vec<Node>, NodeFault>
    ensures first { IfOk result (λ made. made.items ≡ first_nodes nodes.items) }
    ensures ports { OnOk result (HavePortsAll nodes.items) }
    ensures suit { OnOk result (SuitsAll nodes.items) }
    ensures bad { IfErr result (λ fault. fault ≡ NodeFault.BadGates → ¬ (SuitsAll nodes.items)) }
{
    let mut made = Vec::new(alloc);
    for making in nodes {
        let NodeMaking { settings, gates } = making;
        let node = Node::new(alloc, settings, gates.as_slice())?;
        if made.push(node).is_err() {
            return Err(NodeFault::NoMemory);
        }
    }
    Ok(made)
}
