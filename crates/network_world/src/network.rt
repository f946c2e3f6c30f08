//! Any number of exchanges, joined by links in any shape.

mod anew;
mod booting;
mod hop_laws;
mod node_laws;
mod outside;

ghost use Rattle.std.specs.Prelude.{◌≡◌, ℕ, List, is_some, IfOk, IfSome, OnErr, OnOk, count_by};
ghost use Rattle.exchange.specs.Calls as exchanges;
ghost use Rattle.neighbour_rules.specs.Awaiting.{AwaitsNothingInVain};
ghost use Rattle.neighbour_rules.specs.Laws.{AreFinal, MovesLacked, NoneIsLeft};
ghost use Rattle.neighbour_rules.specs.Promises as promises;
ghost use Rattle.pair_rules.specs.Pairs as pairs;
ghost use Rattle.pair_rules.specs.Promises.{user};
ghost use Rattle.network_rules.specs.Anew.{Change, Steps};
ghost use Rattle.network_rules.specs.Links.{IsCarriedBetween};
ghost use Rattle.network_rules.specs.Pairs.{pair_of};
ghost use Rattle.network_world.specs.NetworkPromised.{AcceptedInOrder, AcceptedOnce, AcceptedOrWait, AreBookedBetween, ArrivedInOrder, ArrivedOnce, ComeToEach, HoldsBetween, HoldsNothingInVain, ShareAll, ShareSet, TellsBetween};
ghost use Rattle.network_world.specs.KeptNetworks.{network_turn, points_of};
ghost use Rattle.network_world.specs.NetworkAnew.{RunsSince, and_then, since};
ghost use Rattle.network_world.specs.Told.{doing_told};
ghost use Rattle.network_world.specs.NetworkStands.{NetworkStandsFor, has_node, step_outcome, stepped};
ghost use Rattle.network_rules.specs.Networks.{NetworkState, end_of};
ghost use Rattle.network_rules.specs.Outside.{Move, after_move};
ghost use Rattle.network_rules.specs.Totals.{HaveLostNothing, IsAccounted};

use crate::arrival::Arrival;
use crate::doing::{Doing, Reach};
use crate::node::Node;
use crate::reaching::{act_at, place_of, reach_from};
use crate::reading::{
    accepted_at, arrived_at, entered_at, exchange_at, follows_at, refused_at, waiting_between,
};
use exchange::{Exchange, NoMemory, Pick};
use settings::{LinkId, Msu, Outcome, PointCode};
use std::marker::Model;

/// Any number of exchanges, joined by links in any shape, the frames in flight between them, and what each of them
/// books: all that it accepted, whomever it is for, and all that came to it. Links may lead out, to other nodes.
///
/// It stands for an abstract network that some steps led to from the first on (`NetworkStandsFor`): `new` makes it so,
/// and each `turn` keeps it. Once a node starts again it stands for none, but still for one that some changes led to
/// since its books began anew (`RunsSince`).
pub struct Network {
    nodes: Vec<Node>,
}

// By hand, so that no proof above has what a network owns.
impl Drop for Network {
    fn drop(self) {
        let Network { nodes: _ } = self;
    }
}

impl Model for Network {
    ghost use Rattle.std.specs.Prelude.{List};
    ghost use Rattle.network_world.specs.KeptNodes.{KeptNode};

    ghost Value = { List KeptNode };

    ghost use Rattle.std.specs.Coded.{codes};
    ghost use Rattle.flow_hold.specs.Stored.{hold_set_code};
    ghost use Rattle.timers.specs.OneMap.{running_code};

    ghost coded = { Prim.hlevel (codes, hold_set_code, running_code) };

    ghost view = { λ network. network.nodes.items };
}

impl Network {
    /// Does one thing at the node at a point, and says what became of it. Where no node is at the point, it is Ignored,
    /// and nothing changes.
    ///
    /// It makes its room first: after NoMemory, which comes only where a growth was refused, nothing has changed.
    pub fn turn(&mut self, at: PointCode, doing: Doing) -> Result<Outcome, NoMemory>
        // For every abstract network that it stood for, the outcome is that of the abstract step,
        ensures outcome { (w : NetworkState) → NetworkStandsFor self.old w → IfOk result (λ outcome.
            outcome ≡ step_outcome (has_node at self.old) (record { point = at; what = doing_told doing outcome }) w) }
        // which for a delivery says what came, and what was accepted of that, where the node and another have only each
        // other: Local exactly if it received a message for a user part or a subsystem here, NoUserPart
        // exactly if one for another user part;
        ensures told { (w : NetworkState) → NetworkStandsFor self.old w → (far : ℕ) →
            IfOk result (λ outcome. TellsBetween (doing_told doing outcome) w at far outcome) }
        // and the network stands for the one after it.
        ensures state { (w : NetworkState) → NetworkStandsFor self.old w → IfOk result (λ outcome. NetworkStandsFor
            self.new (stepped (has_node at self.old) (record { point = at; what = doing_told doing outcome }) w)) }
        // So it is, too, of what it stood for since its books began anew, though nodes had started again before.
        ensures outcome_since { (from : NetworkState) (changes : List Change) → RunsSince self.old from changes →
            IfOk result (λ outcome. outcome ≡ step_outcome (has_node at self.old)
            (record { point = at; what = doing_told doing outcome }) (since from changes)) }
        ensures since { (from : NetworkState) (changes : List Change) → RunsSince self.old from changes →
            IfOk result (λ outcome. RunsSince self.new from (and_then (has_node at self.old)
            (Steps (record { point = at; what = doing_told doing outcome })) changes)) }
        // Its nodes stay at their points.
        ensures points { OnOk result (points_of self.new ≡ points_of self.old) }
        ensures unchanged { OnErr result (self.new ≡ self.old) }
    {
        self.apply(at, doing)
    }

    /// All messages that the node at a point took in, in order, whomever they are for: all that it queued or held.
    /// Empty where no node is at the point.
    pub fn accepted(&self, at: PointCode) -> &[Msu]
        ensures accepted { (w : NetworkState) → NetworkStandsFor self.now w → result.now ≡ (w.node at).accepted }
        ensures since { (from : NetworkState) (changes : List Change) → RunsSince self.now from changes →
            result.now ≡ ((since from changes).node at).accepted }
        // "Exactly once", of what is for a node with which it shares a set
        ensures once { (w : NetworkState) → NetworkStandsFor self.now w → (far : ℕ) →
            AcceptedOnce w at far result.now }
        // "Order"
        ensures order { (w : NetworkState) → NetworkStandsFor self.now w → (far : ℕ) →
            AcceptedInOrder w at far result.now }
    {
        accepted_at(&self.nodes, at)
    }

    /// All messages that frames newly brought to the node at a point, in order, each with the link by which it came.
    /// Empty where no node is at the point.
    pub fn arrived(&self, at: PointCode) -> &[Arrival]
        ensures arrived { (w : NetworkState) → NetworkStandsFor self.now w → result.now ≡ (w.node at).arrived }
        ensures since { (from : NetworkState) (changes : List Change) → RunsSince self.now from changes →
            result.now ≡ ((since from changes).node at).arrived }
        // "Exactly once", of what is for this node, and came from one with which it shares a set
        ensures once { (w : NetworkState) → NetworkStandsFor self.now w → (far : ℕ) →
            ArrivedOnce w at far result.now }
        // "Order"
        ensures order { (w : NetworkState) → NetworkStandsFor self.now w → (far : ℕ) →
            ArrivedInOrder w at far result.now }
    {
        arrived_at(&self.nodes, at)
    }

    /// Of the messages that the node at a point took in, those that entered the network there, in order: all but those
    /// for other points that came by a frame. Empty where no node is at the point.
    pub fn entered(&self, at: PointCode) -> &[Msu]
        ensures entered { (w : NetworkState) → NetworkStandsFor self.now w → result.now ≡ (w.node at).entered }
        ensures since { (from : NetworkState) (changes : List Change) → RunsSince self.now from changes →
            result.now ≡ ((since from changes).node at).entered }
    {
        entered_at(&self.nodes, at)
    }

    /// The user messages for other points that frames newly brought to the node at a point, and that it refused, in
    /// order. Empty where no node is at the point.
    pub fn refused(&self, at: PointCode) -> &[Msu]
        ensures refused { (w : NetworkState) → NetworkStandsFor self.now w → result.now ≡ (w.node at).refused }
        ensures since { (from : NetworkState) (changes : List Change) → RunsSince self.now from changes →
            result.now ≡ ((since from changes).node at).refused }
    {
        refused_at(&self.nodes, at)
    }

    /// How many user messages for another node that a choice takes wait at the node at a point: on a link between the
    /// two, behind the last message that the other accepted there, or in Held. 0 where one of the points has no node.
    /// So while neither of two that share a set may have lost a message, as many were accepted as the other received
    /// and as wait, between any two steps.
    pub fn waiting<P: Pick>(&self, at: PointCode, far: PointCode, pick: &P) -> u128
        ensures waiting { (w : NetworkState) → NetworkStandsFor self.now w →
            ShareSet w at far → result ≡ count_by (user (P.picks pick.now)) (promises.waiting (pair_of w at far)) }
        ensures once { (w : NetworkState) → NetworkStandsFor self.now w →
            AcceptedOrWait w at far (P.picks pick.now) result }
        ensures since { (from : NetworkState) (changes : List Change) → RunsSince self.now from changes →
            ShareSet (since from changes) at far → result ≡
            count_by (user (P.picks pick.now)) (promises.waiting (pair_of (since from changes) at far)) }
    {
        waiting_between(&self.nodes, at, far, pick)
    }

    /// The exchange of the node at a point. None where no node is there.
    pub fn at(&self, at: PointCode) -> Option<&Exchange>
        ensures there { is_some result ≡ has_node at self.now }
        ensures stands { (w : NetworkState) → NetworkStandsFor self.now w →
            IfSome result (λ exchange. exchanges.StandsFor exchange.now (w.node at).exchange) }
        ensures since { (from : NetworkState) (changes : List Change) → RunsSince self.now from changes →
            IfSome result (λ exchange. exchanges.StandsFor exchange.now ((since from changes).node at).exchange) }
    {
        exchange_at(&self.nodes, at)
    }

    /// Whether the node at a point may follow the other end of a link, which opened there first. False where no node is
    /// at the point.
    pub fn may_follow(&self, at: PointCode, link: LinkId) -> bool
        ensures follows { (w : NetworkState) → NetworkStandsFor self.now w →
            result ≡ pairs.may_follow (end_of (w.node at)) link }
        ensures since { (from : NetworkState) (changes : List Change) → RunsSince self.now from changes →
            result ≡ pairs.may_follow (end_of ((since from changes).node at)) link }
    {
        follows_at(&self.nodes, at, link)
    }

    /// What holds from end to end, over all nodes, between any two steps, where each link leads to a node with which
    /// its own shares a set, as `new` sees to and nothing changes, and while none of them may have lost a message: as
    /// many user messages entered the network, by any test, as were received at a node that they aren't to leave, as
    /// wait in nodes, and as were refused by a node on the way (`specs/Totals.antt` of `network_rules`). So it is of
    /// the messages for each node, if all have its network indicator: of those as many entered as it received, as wait,
    /// and as were refused.
    ///
    /// And what holds between any two nodes that share a set, the laws (i) to (iv) of a pair and that nothing is
    /// awaited in vain while neither of the two may have lost a message; and whatever was lost, that nothing is held in
    /// vain, and that what is booked of the two is for the one or the other (`laws` of `network_rules`). This says so
    /// by its contract, and does nothing.
    pub fn laws(&self)
        ensures accounted { (w : NetworkState) → NetworkStandsFor self.now w → ShareAll w →
            HaveLostNothing (points_of self.now) w → IsAccounted (points_of self.now) w }
        ensures to_each { (w : NetworkState) → NetworkStandsFor self.now w → ShareAll w →
            ComeToEach (points_of self.now) w }
        ensures shared { (w : NetworkState) → ShareAll w → (move : Move) → ShareAll (after_move move w) }
        ensures carried { HoldsBetween IsCarriedBetween self.now }
        ensures none_left { HoldsBetween NoneIsLeft self.now }
        ensures final_number { HoldsBetween AreFinal self.now }
        ensures moved { HoldsBetween MovesLacked self.now }
        ensures awaited { HoldsBetween AwaitsNothingInVain self.now }
        ensures held { HoldsNothingInVain self.now }
        ensures booked { AreBookedBetween self.now }
    {}

    /// Does one thing at the node at a point, by what is kept.
    fn apply(&mut self, at: PointCode, doing: Doing) -> Result<Outcome, NoMemory>
        ensures outcome { IfOk result (λ outcome.
            outcome ≡ (network_turn (doing_told doing outcome) at self.old).outcome) }
        ensures state { IfOk result (λ outcome.
            self.new ≡ (network_turn (doing_told doing outcome) at self.old).left) }
        ensures unchanged { OnErr result (self.new ≡ self.old) }
    {
        let Some(place) = place_of(&self.nodes, at) else {
            return Ok(Outcome::Ignored);
        };
        match doing {
            Doing::Take(link) => reach_from(&mut self.nodes, Reach::Fetch, place, link),
            Doing::OpenFirst(link) => reach_from(&mut self.nodes, Reach::Open, place, link),
            Doing::Submit(message) => act_at(&mut self.nodes, place, Doing::Submit(message)),
            Doing::Deliver(link) => act_at(&mut self.nodes, place, Doing::Deliver(link)),
            Doing::DeliverStatus(link) => {
                act_at(&mut self.nodes, place, Doing::DeliverStatus(link))
            }
            Doing::LoseStatus(link) => act_at(&mut self.nodes, place, Doing::LoseStatus(link)),
            Doing::DoubleStatus(link) => act_at(&mut self.nodes, place, Doing::DoubleStatus(link)),
            Doing::Lose(link) => act_at(&mut self.nodes, place, Doing::Lose(link)),
            Doing::Tick => act_at(&mut self.nodes, place, Doing::Tick),
            Doing::Activate { link, emergency } => {
                act_at(&mut self.nodes, place, Doing::Activate { link, emergency })
            }
            Doing::Deactivate(link) => act_at(&mut self.nodes, place, Doing::Deactivate(link)),
            Doing::Release(link) => act_at(&mut self.nodes, place, Doing::Release(link)),
            Doing::AddTitle(row) => act_at(&mut self.nodes, place, Doing::AddTitle(row)),
            Doing::SetTitle(row) => act_at(&mut self.nodes, place, Doing::SetTitle(row)),
            Doing::RemoveTitle(key, digits) => {
                act_at(&mut self.nodes, place, Doing::RemoveTitle(key, digits))
            }
            Doing::OpenSecond(link) => act_at(&mut self.nodes, place, Doing::OpenSecond(link)),
        }
    }
}
