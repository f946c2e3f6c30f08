//! What comes to a network by links that lead out of it, and what goes out by them.

ghost use Rattle.std.specs.Prelude.{◌≡◌, ℕ, List, false, IfOk, OnOk, OnErr};
ghost use Rattle.exchange_rules.specs.State.{CameUp, FrameCame};
ghost use Rattle.network_rules.specs.Anew.{Change};
ghost use Rattle.network_rules.specs.Networks.{NetworkState};
ghost use Rattle.network_rules.specs.Outside.{HearsOutside, OpensOutside, after_move, leads_out, speaks_within};
ghost use Rattle.pair_rules.specs.Pairs.{Takes};
ghost use Rattle.network_world.specs.KeptNetworks.{place_at};
ghost use Rattle.network_world.specs.KeptOutside.{kept_hears_outside, kept_opens_outside, kept_sends_outside};
ghost use Rattle.network_world.specs.NetworkAnew.{RunsSince, since};
ghost use Rattle.network_world.specs.NetworkStands.{NetworkStandsFor, outside_outcome, sent_outside, stepped};

use crate::network::Network;
use crate::outside::{hear_outside, open_outside, send_outside};
use exchange::{FrameText, NoMemory};
use settings::{LinkId, Outcome, PointCode};

impl Network {
    /// The association of a link of the node at a point comes up, which leads out of the network, to a point at which
    /// none of its nodes is. Ignored, and nothing changes, where it doesn't.
    pub fn open_outside(&mut self, at: PointCode, link: LinkId) -> Outcome
        ensures outcome { (w : NetworkState) → NetworkStandsFor self.old w →
            result ≡ outside_outcome (leads_out w at link) false (CameUp link) (w.node at) }
        ensures state { (w : NetworkState) → NetworkStandsFor self.old w →
            NetworkStandsFor self.new (after_move (OpensOutside at link) w) }
        ensures since { (from : NetworkState) (changes : List Change) → RunsSince self.old from changes →
            leads_out (since from changes) at link ≡ false → self.new ≡ self.old }
    {
        self.opened(at, link)
    }

    /// A frame comes to the node at a point by a link that leads out of the network. Ignored, and nothing changes,
    /// where the link doesn't; and where the frame carries management in the name of a node of the network for another,
    /// which is barred: that nobody else sends such is a premise of what the nodes promise.
    ///
    /// It makes its room first: after NoMemory, which comes only where a growth was refused, nothing has changed.
    pub fn hear_outside(
        &mut self,
        at: PointCode,
        link: LinkId,
        text: &FrameText,
    ) -> Result<Outcome, NoMemory>
        ensures outcome { (w : NetworkState) → NetworkStandsFor self.old w → IfOk result (λ outcome. outcome ≡
            outside_outcome (leads_out w at link) (speaks_within w text.now) (FrameCame link text.now) (w.node at)) }
        ensures state { (w : NetworkState) → NetworkStandsFor self.old w →
            OnOk result (NetworkStandsFor self.new (after_move (HearsOutside at link text.now) w)) }
        ensures since { (from : NetworkState) (changes : List Change) → RunsSince self.old from changes →
            leads_out (since from changes) at link ≡ false → OnOk result (self.new ≡ self.old) }
        ensures unchanged { OnErr result (self.new ≡ self.old) }
    {
        self.heard(at, link, text)
    }

    /// Fetches the next frame of a link of the node at a point, which leads out of the network: that goes there, and is
    /// in flight to no node. None, and nothing changes, where there is none, and where the link doesn't lead out.
    pub fn send_outside(&mut self, at: PointCode, link: LinkId) -> Option<FrameText>
        ensures text { (w : NetworkState) → NetworkStandsFor self.old w →
            result ≡ sent_outside (leads_out w at link) link (w.node at) }
        ensures state { (w : NetworkState) → NetworkStandsFor self.old w → NetworkStandsFor self.new
            (stepped (leads_out w at link) (record { point = at; what = Takes link }) w) }
        ensures since { (from : NetworkState) (changes : List Change) → RunsSince self.old from changes →
            leads_out (since from changes) at link ≡ false → self.new ≡ self.old }
    {
        self.sent(at, link)
    }

    /// A link that leads out opens, by what is kept.
    fn opened(&mut self, at: PointCode, link: LinkId) -> Outcome
        ensures outcome { result ≡ (kept_opens_outside (place_at at self.old) link self.old).outcome }
        ensures state { self.new ≡ (kept_opens_outside (place_at at self.old) link self.old).left }
    {
        open_outside(&mut self.nodes, at, link)
    }

    /// A frame comes by one, by what is kept.
    fn heard(&mut self, at: PointCode, link: LinkId, text: &FrameText) -> Result<Outcome, NoMemory>
        ensures outcome { IfOk result (λ outcome.
            outcome ≡ (kept_hears_outside (place_at at self.old) link text.now self.old).outcome) }
        ensures state { OnOk result
            (self.new ≡ (kept_hears_outside (place_at at self.old) link text.now self.old).left) }
        ensures unchanged { OnErr result (self.new ≡ self.old) }
    {
        hear_outside(&mut self.nodes, at, link, text)
    }

    /// The next frame of one is fetched, by what is kept.
    fn sent(&mut self, at: PointCode, link: LinkId) -> Option<FrameText>
        ensures text { result ≡ (kept_sends_outside (place_at at self.old) link self.old).text }
        ensures state { self.new ≡ (kept_sends_outside (place_at at self.old) link self.old).left }
    {
        send_outside(&mut self.nodes, at, link)
    }
}
