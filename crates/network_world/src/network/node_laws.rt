//! What holds of a network whatever the routes, and however many ways lead to a point.

ghost use Rattle.std.specs.Prelude.{◌≡◌, ◌↔◌, ℕ, true, List, IsTrue};
ghost use Rattle.network_rules.specs.Anew.{Change, HaveLostNothingSince};
ghost use Rattle.network_rules.specs.Networks.{NetworkState};
ghost use Rattle.network_rules.specs.Outside.{Move, after_move};
ghost use Rattle.network_rules.specs.Totals.{is_listed};
ghost use Rattle.node_law.specs.Alike.{AreLinked, IsRunOfNodes};
ghost use Rattle.node_law.specs.Anew.{EndsOnceSince, NoneBrokenSince, SinceQuiet};
ghost use Rattle.node_law.specs.Ends.{EndsOnce, EndsWhole, TakesOrRefuses};
ghost use Rattle.node_law.specs.Sums.{AreAccountedFor, ComeToNode, ComeWhole, IsWhole, ToEach};
ghost use Rattle.network_world.specs.KeptLinks.{AreAllLinked};
ghost use Rattle.network_world.specs.KeptNetworks.{points_of};
ghost use Rattle.network_world.specs.NetworkAnew.{RunsSince, since};
ghost use Rattle.network_world.specs.NetworkPromised.{ShareAll};
ghost use Rattle.network_world.specs.NetworkStands.{NetworkStandsFor};
ghost use Rattle.network_world.specs.NodesHold.{AtEach, HoldsLinked, HoldsLinkedSince, HoldsLossless, HoldsUnbroken};

use crate::network::Network;
use crate::reaching::are_linked;

impl Network {
    /// What holds between any two steps, whatever the routes, and however many ways lead to a point, mated pairs
    /// included, where each link has its other end in the network (`is_linked`): so it is of each network from `new`,
    /// and of one from `new_part` whose links all have theirs there. `turn` doesn't change that. But once a node has
    /// started again, or given up following, or the books have begun anew, this says nothing.
    ///
    /// Whatever was lost, and wherever links lead: what a node accepted, and what it refused of the messages for other
    /// points, is what entered there, and what came for other points.
    ///
    /// While no node has counted a break (`times_broken`): of the user messages that a node accepted, by any test,
    /// those that came from it to its neighbours, by all its links, and those that wait there are together no more than
    /// it accepted. So one that it accepted once comes to one neighbour at most, once at most, and doesn't wait if it
    /// came. The rest, which neither came nor wait, are gone, and no more of them than the node counts as lost, or that
    /// count is at its end, 2^64 - 1. Of the whole network, as many entered as were received at a node that they aren't
    /// to leave, as wait in nodes, as were refused by a node on the way, and as are gone; and so it is of the messages
    /// for each node, if all have its network indicator: of those as many entered as it received, as wait, as were
    /// refused, and as are gone.
    ///
    /// While no node may have lost a message, none is gone. This is said of the messages that nodes take in, whose SIF
    /// has at most 272 octets; equal messages aren't told apart, and nothing is said of order (`laws` of `node_law`).
    /// This says so by its contract, and does nothing.
    pub fn node_laws(&self)
        ensures taken { (w : NetworkState) → NetworkStandsFor self.now w → (point : ℕ) → TakesOrRefuses w point }
        ensures ends { HoldsUnbroken self.now (AtEach self.now (λ point w. EndsOnce w point)) }
        ensures accounted { HoldsUnbroken self.now (AreAccountedFor (points_of self.now)) }
        ensures to_each { HoldsUnbroken self.now (ToEach ComeToNode (points_of self.now)) }
        ensures none_gone { HoldsLossless self.now (AtEach self.now (λ point w. EndsWhole w point)) }
        ensures whole { HoldsLossless self.now (IsWhole (points_of self.now)) }
        ensures each_whole { HoldsLossless self.now (ToEach ComeWhole (points_of self.now)) }
        // There is a network of `node_moves`, for which the laws of that hold, with the same nodes, but for reroutings,
        // the same in flight to them, and the same messages accepted, and come by each link.
        ensures runs { HoldsLinked self.now IsRunOfNodes }
        // Each link has its other end there where each leads to a node with which its own shares a set, as in what
        // `new` gives,
        ensures shared { (w : NetworkState) → NetworkStandsFor self.now w → ShareAll w → AreLinked w }
        // and ever after, since settings never change.
        ensures linked { (w : NetworkState) → AreLinked w → (move : Move) → AreLinked (after_move move w) }
    {}

    /// What holds since the books began anew, between any two calls, whatever the routes.
    ///
    /// Whatever was left, lost or broken, and however often nodes start again: what a node accepted since, and what it
    /// refused since of the messages for other points, is what entered there since, and what came since for other
    /// points. The rest is said where each link has its other end in the network, if it was quiet when the books began,
    /// until a node starts again or gives up following.
    ///
    /// While no node counts one break more: at each node, as many user messages as it accepted since came from it to
    /// its neighbours, wait, or are gone, and no more are gone than it counted as lost since; and as many as entered
    /// since were received since, wait, were refused since on the way, or are gone, of all and of those for each node,
    /// if all have its network indicator. While none counts a possible loss more, none is gone (laws of `node_law`).
    /// This says so by its contract, and does nothing.
    pub fn node_laws_since(&self)
        ensures taken { (from : NetworkState) (changes : List Change) → RunsSince self.now from changes →
            (point : ℕ) → TakesOrRefuses (since from changes) point }
        ensures ends { HoldsLinkedSince self.now (SinceQuiet NoneBrokenSince
            (λ points from w. (point : ℕ) → is_listed points point ≡ true → EndsOnceSince from w point)
            (points_of self.now)) }
        ensures accounted { HoldsLinkedSince self.now
            (SinceQuiet NoneBrokenSince (λ points from w. AreAccountedFor points w) (points_of self.now)) }
        ensures to_each { HoldsLinkedSince self.now
            (SinceQuiet NoneBrokenSince (λ points from w. ToEach ComeToNode points w) (points_of self.now)) }
        ensures none_gone { HoldsLinkedSince self.now (SinceQuiet HaveLostNothingSince
            (λ points from w. (point : ℕ) → is_listed points point ≡ true → EndsWhole w point)
            (points_of self.now)) }
        ensures whole { HoldsLinkedSince self.now
            (SinceQuiet HaveLostNothingSince (λ points from w. IsWhole points w) (points_of self.now)) }
        ensures each_whole { HoldsLinkedSince self.now
            (SinceQuiet HaveLostNothingSince (λ points from w. ToEach ComeWhole points w) (points_of self.now)) }
        // Settings never change: each link has its other end there exactly if it had, as `is_linked` looks at it now.
        ensures linked { (from : NetworkState) (changes : List Change) →
            AreLinked (since from changes) ↔ AreLinked from }
    {}

    /// Whether each link has its other end in the network: a link of a node there, with its signalling link code, that
    /// leads back. It looks through all links of all nodes.
    pub fn is_linked(&self) -> bool
        ensures since { (from : NetworkState) (changes : List Change) → RunsSince self.now from changes →
            IsTrue result ↔ AreLinked (since from changes) }
        ensures linked { (w : NetworkState) → NetworkStandsFor self.now w → IsTrue result ↔ AreLinked w }
        ensures kept { IsTrue result ↔ AreAllLinked self.now }
    {
        self.are_linked()
    }

    /// Whether each has, by what is kept.
    fn are_linked(&self) -> bool
        ensures { IsTrue result ↔ AreAllLinked self.now }
    {
        are_linked(&self.nodes)
    }
}
