//! Nodes of a network that start again, and books that begin anew.

ghost use Rattle.std.specs.Prelude.{◌≡◌, ◌↔◌, ℕ, List, [], ◌∷◌, IsTrue, IfOk, OnOk, OnErr};
ghost use Rattle.network_rules.specs.Anew.{Change, GivesUp, IsQuietNetwork, Restarts, after_all, networks_begin_quietly};
ghost use Rattle.network_rules.specs.Networks.{NetworkState, end_of};
ghost use Rattle.network_rules.specs.Totals.{IsAccounted};
ghost use Rattle.pair_rules.specs.Pairs as pairs;
ghost use Rattle.network_world.specs.KeptAnew.{AreQuiet, all_begin_anew, gave_up, kept_gives_up, kept_restarts};
ghost use Rattle.network_world.specs.KeptNetworks.{points_of};
ghost use Rattle.network_world.specs.NetworkAnew.{ComeToEachSince, HasSettings, HoldsSince, KeptBetween, QuietBetween};
ghost use Rattle.network_world.specs.NetworkAnew.{RunsSince, and_then, since};
ghost use Rattle.network_world.specs.NetworkPromised.{ShareAll};
ghost use Rattle.network_world.specs.NetworkStands.{NetworkStandsFor, has_node, if_there};

use crate::network::Network;
use crate::restarting::{are_quiet, begin_anew, give_up, restart};
use exchange::NoMemory;
use settings::{LinkId, Outcome, PointCode, Settings};

impl Network {
    /// The node at the point of these settings, which are its own, starts again: its exchange is as they boot it, and
    /// nothing is in flight to it. What it had in Held, on links and in flight to it is gone, and counts as lost
    /// nowhere; its counts of losses begin at 0; it may follow the other end of no link. Its books stay. What it sent
    /// is in flight yet, and the other end of each of its links still has its association: that loses it later, by a
    /// `Doing::Lose`, and may still follow, until it gives that up. Ignored where no node is at their point.
    ///
    /// What a network that has lost nothing promises since it was booted is no longer promised then, but what one
    /// promises since its books began anew is, between two other nodes (`laws_since`). Nothing is promised of a node
    /// that starts again with other settings than its own. After NoMemory, which comes only where a growth was refused,
    /// nothing has changed.
    pub fn restart(&mut self, settings: Settings) -> Result<Outcome, NoMemory>
        ensures outcome { IfOk result (λ outcome. outcome ≡ if_there (has_node settings.own self.old)) }
        // Whatever it stood for since its books began anew, this is one change more.
        ensures since { (from : NetworkState) (changes : List Change) → RunsSince self.old from changes →
            HasSettings (since from changes) settings → OnOk result (RunsSince self.new from
            (and_then (has_node settings.own self.old) (Restarts settings.own) changes)) }
        // The exact nodes that are kept
        ensures kept { OnOk result (self.new ≡ (kept_restarts settings self.old).left) }
        ensures points { OnOk result (points_of self.new ≡ points_of self.old) }
        ensures unchanged { OnErr result (self.new ≡ self.old) }
    {
        self.restarted(settings)
    }

    /// The node at a point may not follow the other end of a link any more, as when its transport has seen that nobody
    /// answers. Ignored, and nothing changes, where it might not, or no node is at the point.
    pub fn give_up(&mut self, at: PointCode, link: LinkId) -> Outcome
        ensures outcome { (from : NetworkState) (changes : List Change) → RunsSince self.old from changes →
            result ≡ gave_up (pairs.may_follow (end_of ((since from changes).node at)) link) }
        ensures since { (from : NetworkState) (changes : List Change) → RunsSince self.old from changes →
            RunsSince self.new from (and_then (has_node at self.old) (GivesUp at link) changes) }
        ensures points { points_of self.new ≡ points_of self.old }
    {
        self.given_up(at, link)
    }

    /// The books of all nodes begin anew: nothing is booked yet. What was lost before no longer counts if the network
    /// is quiet now (`is_quiet`).
    pub fn begin_anew(&mut self)
        // They begin from the network as it is now, with all that its nodes booked since they were booted.
        ensures since { (from : NetworkState) (changes : List Change) → RunsSince self.old from changes →
            RunsSince self.new (after_all changes from) [] }
        ensures kept { self.new ≡ all_begin_anew self.old }
        ensures points { points_of self.new ≡ points_of self.old }
    {
        self.begun_anew();
    }

    /// Whether the network is quiet: each link of each node may open, no node may follow the other end of one, and
    /// nothing is in Held, management messages neither.
    pub fn is_quiet(&self) -> bool
        // Exactly then what became of it since its books began is quiet,
        ensures since { (from : NetworkState) (changes : List Change) → RunsSince self.now from changes →
            IsTrue result ↔ IsQuietNetwork (points_of self.now) (since from changes) }
        // and the network from which they begin, if they begin anew now (`begin_anew`), as `laws_since` asks for.
        ensures anew { (from : NetworkState) (changes : List Change) → RunsSince self.now from changes →
            IsTrue result ↔ IsQuietNetwork (points_of self.now) (after_all changes from) }
        ensures quiet { (w : NetworkState) → NetworkStandsFor self.now w →
            IsTrue result ↔ IsQuietNetwork (points_of self.now) w }
        ensures kept { IsTrue result ↔ AreQuiet self.now }
    {
        self.are_quiet()
    }

    /// What holds since the books began anew, between any two calls, whatever was lost before, and however often nodes
    /// have started again.
    ///
    /// From end to end, where each link leads to a node with which its own shares a set, from a quiet network on, while
    /// no node starts again, gives up following, or counts one loss more: as many user messages entered since, by any
    /// test, as were received since, as wait, and as were refused since on the way. So it is of the messages for each
    /// node, if all have its network indicator.
    ///
    /// Between two nodes that share a set, if nothing was left between them then, as in a quiet network, and whatever
    /// third nodes do, restarts among it: each message that one accepted for the other since came once, or waits, while
    /// neither of the two starts again, gives up following, or counts one loss more; and each flow kept its order,
    /// while besides the accepting one counts no lateness more (`networks_begin_anew` and `neighbours_begin_anew` of
    /// `network_rules`). This says so by its contract, and does nothing.
    pub fn laws_since(&self)
        ensures accounted { HoldsSince self.now (IsAccounted (points_of self.now)) }
        ensures to_each { HoldsSince self.now (ComeToEachSince (points_of self.now)) }
        ensures between { KeptBetween self.now }
        ensures quiet { QuietBetween self.now }
        ensures first { networks_begin_quietly }
        // Settings never change, so links lead to nodes that share their sets ever after, and in the network from which
        // the books begin anew (`begin_anew`), too.
        ensures shared { (from : NetworkState) → ShareAll from →
            (changes : List Change) → ShareAll (since from changes) }
        ensures shared_after { (from : NetworkState) → ShareAll from →
            (changes : List Change) → ShareAll (after_all changes from) }
    {}

    /// A node starts again, by what is kept.
    fn restarted(&mut self, settings: Settings) -> Result<Outcome, NoMemory>
        ensures outcome { IfOk result (λ outcome. outcome ≡ (kept_restarts settings self.old).outcome) }
        ensures state { OnOk result (self.new ≡ (kept_restarts settings self.old).left) }
        ensures unchanged { OnErr result (self.new ≡ self.old) }
    {
        restart(&mut self.nodes, settings)
    }

    /// A node gives up following, by what is kept.
    fn given_up(&mut self, at: PointCode, link: LinkId) -> Outcome
        ensures outcome { result ≡ (kept_gives_up at link self.old).outcome }
        ensures state { self.new ≡ (kept_gives_up at link self.old).left }
    {
        give_up(&mut self.nodes, at, link)
    }

    /// The books begin anew, by what is kept.
    fn begun_anew(&mut self)
        ensures { self.new ≡ all_begin_anew self.old }
    {
        begin_anew(&mut self.nodes);
    }

    /// Whether all nodes are quiet, by what is kept.
    fn are_quiet(&self) -> bool
        ensures { IsTrue result ↔ AreQuiet self.now }
    {
        are_quiet(&self.nodes)
    }
}
