//! What holds between two nodes of a network where one set alone leads from each of the two to the other, whatever ways
//! lead to other points.

ghost use Rattle.network_world.specs.KeptNetworks.{points_of};
ghost use Rattle.network_world.specs.NodesHold.{HoldsLinked, HoldsLinkedSince};
ghost use Rattle.node_law.specs.Anew.{AreInTimeSince, AreLosslessSince, AreUnbrokenSince, ComesOverSince};
ghost use Rattle.node_law.specs.Anew.{OfEachHopSince, quiet_networks_have_nothing_left};
ghost use Rattle.node_law.specs.Hops.{AreBothUnbroken, AreInTime, AreOfOneNetwork, ComesOver, ComesOverWhole};
ghost use Rattle.node_law.specs.Hops.{HaveNoFlag, HaveSet, KeepsEachFlow, OfEachHop};

use crate::network::Network;

impl Network {
    /// What holds of each hop between any two steps, in a network of any shape each of whose links has its other end
    /// there (`is_linked`), until a node starts again, or gives up following, or the books begin anew. Two nodes are a
    /// hop where one set alone leads from each of them to the other, as between the two of a mated pair; what the other
    /// nodes do, and how often they count a loss or a break, doesn't matter.
    ///
    /// While neither of the two counts a break (`times_broken`): of the user messages for the far node that the near
    /// one accepted, by any test, those that came to it by a link from there and those that wait are together no more
    /// than it accepted. So one that it accepted once comes once at most, and doesn't wait if it came. The rest are
    /// gone, and no more of them than the near node counts as lost, or that count is at its end, 2^64 - 1. While
    /// neither of the two has raised its flag of losses, none is gone.
    ///
    /// If the two have one network indicator they share a set, so what other calls say of two such nodes holds of them;
    /// and the messages of each flow for the far node come in the order in which the near one accepted them, while
    /// neither may have lost a message, and the near one hasn't raised its flag of lateness (laws of `node_law`). This
    /// says so by its contract, and does nothing.
    pub fn hop_laws(&self)
        ensures once { HoldsLinked self.now (OfEachHop AreBothUnbroken ComesOver (points_of self.now)) }
        ensures none_gone { HoldsLinked self.now (OfEachHop HaveNoFlag ComesOverWhole (points_of self.now)) }
        ensures shared { HoldsLinked self.now (OfEachHop AreOfOneNetwork HaveSet (points_of self.now)) }
        ensures order { HoldsLinked self.now (OfEachHop AreInTime KeepsEachFlow (points_of self.now)) }
    {}

    /// What holds of each hop since the books began anew, between any two calls, whatever was lost or broken before,
    /// and however often nodes have started again, where each link has its other end in the network. If nothing was
    /// left between its two nodes then, as in a quiet network (`is_quiet`), and whatever third nodes do, restarts among
    /// it, until one of the two starts again or gives up following.
    ///
    /// While neither of the two counts one break more: of what the near one accepted for the far one since, one that it
    /// accepted once came once at most, and no more is gone than it counted as lost since. While neither counts a
    /// possible loss more, none is gone; and if they have one network indicator each flow keeps its order, while
    /// besides the near one counts no lateness more (laws of `node_law`). This says so by its contract, and does
    /// nothing.
    pub fn hop_laws_since(&self)
        ensures once { HoldsLinkedSince self.now (OfEachHopSince AreUnbrokenSince ComesOverSince (points_of self.now)) }
        ensures none_gone { HoldsLinkedSince self.now
            (OfEachHopSince AreLosslessSince (λ from w near far. ComesOverWhole w near far) (points_of self.now)) }
        ensures order { HoldsLinkedSince self.now
            (OfEachHopSince AreInTimeSince (λ from w near far. KeepsEachFlow w near far) (points_of self.now)) }
        // In a quiet network nothing is left between the nodes of any hop.
        ensures quiet { quiet_networks_have_nothing_left }
    {}
}
