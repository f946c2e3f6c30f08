//! A network whose nodes were just booted.

ghost use Rattle.std.specs.Prelude.{◌≡◌, ◌≢◌, ◌↔◌, true, false, [], IfOk, IfErr, OnOk, map};
ghost use Rattle.network_rules.specs.Networks.{first_network};
ghost use Rattle.network_world.specs.Joined.{AreJoined, are_apart, settings_at};
ghost use Rattle.network_world.specs.KeptNetworks.{points_of};
ghost use Rattle.network_world.specs.NetworkAnew.{RunsSince};
ghost use Rattle.network_world.specs.NetworkPromised.{ShareAll};
ghost use Rattle.network_world.specs.NetworkStands.{NetworkStandsFor};

use crate::fault::NetworkFault;
use crate::joining::{are_apart, are_joined, are_well, boot_all};
use crate::network::Network;
use exchange::NoMemory;
use settings::Settings;
use std::alloc::Global;

impl Network {
    /// A network of nodes that were just booted with these settings, with nothing in flight.
    ///
    /// SamePoint where two of them are for the same point; else NotJoined where a link leads to no node with which its
    /// own shares a link set (`Settings::shares_set_with`); NoMemory comes only where a growth was refused.
    pub fn new(alloc: Global, settings: Vec<Settings>) -> Result<Network, NetworkFault>
        // It stands for the first network of these settings.
        ensures first { IfOk result (λ network.
            NetworkStandsFor network (first_network (settings_at settings.items))) }
        ensures since { IfOk result (λ network. RunsSince network (first_network (settings_at settings.items)) []) }
        ensures points { IfOk result (λ network. points_of network ≡ map (λ c. c.own) settings.items) }
        // There is one only if each has a point of its own, and all links are joined,
        ensures apart { OnOk result (are_apart settings.items ≡ true) }
        ensures joined { OnOk result (AreJoined settings.items) }
        ensures shared { OnOk result (ShareAll (first_network (settings_at settings.items))) }
        // and the fault says whether they do.
        ensures same_point { IfErr result (λ fault.
            (fault ≡ NetworkFault.SamePoint) ↔ (are_apart settings.items ≡ false)) }
        ensures not_joined { IfErr result (λ fault.
            (fault ≡ NetworkFault.NotJoined) ↔ (are_apart settings.items ≡ true) × (¬ (AreJoined settings.items))) }
    {
        are_well(&settings);
        if !are_apart(&settings) {
            return Err(NetworkFault::SamePoint);
        }
        if !are_joined(&settings) {
            return Err(NetworkFault::NotJoined);
        }
        match boot_all(alloc, settings) {
            Ok(nodes) => Ok(Network { nodes }),
            Err(NoMemory) => Err(NetworkFault::NoMemory),
        }
    }

    /// The same, of nodes whose links may lead out, or to a node with which their own shares no set: what two nodes
    /// that share a set promise each other stands; what holds from end to end is said only if each link has its other end
    /// in the network (`is_linked`, `node_laws`).
    ///
    /// SamePoint where two of them are for the same point; NoMemory comes only where a growth was refused.
    pub fn new_part(alloc: Global, settings: Vec<Settings>) -> Result<Network, NetworkFault>
        // It stands for the first network of these settings.
        ensures first { IfOk result (λ network.
            NetworkStandsFor network (first_network (settings_at settings.items))) }
        ensures since { IfOk result (λ network. RunsSince network (first_network (settings_at settings.items)) []) }
        ensures points { IfOk result (λ network. points_of network ≡ map (λ c. c.own) settings.items) }
        // There is one only if each has a point of its own,
        ensures apart { OnOk result (are_apart settings.items ≡ true) }
        // and the fault says whether they do.
        ensures same_point { IfErr result (λ fault.
            (fault ≡ NetworkFault.SamePoint) ↔ (are_apart settings.items ≡ false)) }
        ensures not_joined { IfErr result (λ fault. fault ≢ NetworkFault.NotJoined) }
    {
        are_well(&settings);
        if !are_apart(&settings) {
            return Err(NetworkFault::SamePoint);
        }
        match boot_all(alloc, settings) {
            Ok(nodes) => Ok(Network { nodes }),
            Err(NoMemory) => Err(NetworkFault::NoMemory),
        }
    }
}
