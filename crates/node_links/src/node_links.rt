//! The links of a node, and the routes that they open.

ghost use Rattle.std.specs.Prelude.{◌≡◌, ◌<◌, ◌≤◌, true, false, drop, length, replicate, slice_set, nat_lt, IfOk, IfSome};
ghost use Rattle.routes.specs.Routes.{with_link, chosen_link};
ghost use Rattle.node_links.specs.NodeLinks.{acts_on, after_action, down_link, after_failure, opened, recovered, facts_of, first_network, is_in_service, link_in, serving, with_state};
ghost use Rattle.node_links.specs.FormerLink.{former_link};

mod statuses;

use crate::link_state::LinkState;
use arrayvec::ArrayVec;
use link::{Action, Input, Period};
use routes::{RouteFacts, Routes};
use settings::{DestinationRow, LinkRow};
use signalling_types::{Limits, LinkId, SetId, Sls};
use std::alloc::{AllocError, Global};
use std::marker::Model;

/// The state of each link, and the routes, which always know which links carry traffic.
///
/// All room is made by `new`. The link of each flow is in a table (`Routes`): `link_of` is one look-up, and when a link
/// begins or ceases to carry traffic, or a status changes, the flows that this may move are looked at again.
#[derive(Drop)]
pub struct NodeLinks {
    states: Vec<LinkState>,
    routes: Routes,
}

impl Model for NodeLinks {
    ghost use Rattle.node_links.specs.NodeLinks.{Network};

    ghost Value = { Network };

    ghost use Rattle.node_links.specs.NetworkRoom.{network_in, Agrees};

    ghost view = { network_in };

    ghost invariant = { Agrees };
}

impl NodeLinks {
    /// The links of a node with this many sets, these links and these destinations: every link is down, and every route
    /// is allowed. The error means that memory ran out.
    #[tactic(auto, using(crate::proofs::Serving::kept))]
    pub fn new(
        alloc: Global,
        sets: usize,
        links: &[LinkRow],
        destinations: &[DestinationRow],
    ) -> Result<NodeLinks, AllocError>
        requires sets { sets ≤ Limits.SETS }
        requires links { length links.now ≤ Limits.LINKS }
        ensures { IfOk result (λ made. made ≡ first_network sets links.now destinations.now) }
    {
        Ok(NodeLinks {
            states: down_links(alloc, links.len())?,
            routes: Routes::new(alloc, sets, links, destinations)?,
        })
    }

    /// Whether a link has this number.
    pub fn has(&self, link: LinkId) -> bool
        ensures { result ≡ nat_lt link (length self.now.links) }
    {
        link.index() < self.states.len()
    }

    /// A link that is there.
    pub fn state(&self, link: LinkId) -> &LinkState
        requires { link < length self.now.links }
        ensures { result.now ≡ link_in self.now.links link }
    {
        &self.states[link.index()]
    }

    /// What is known of routes.
    pub fn facts(&self) -> RouteFacts<'_>
        ensures { result ≡ facts_of self.now }
    {
        self.routes.facts()
    }

    /// What would be known of routes if these links carried traffic.
    pub fn facts_by<'a>(&'a self, in_service: &'a [bool]) -> RouteFacts<'a>
        ensures { result ≡ record (facts_of self.now) { in_service = in_service.now } }
    {
        self.routes.facts_by(in_service)
    }

    /// Which links would carry traffic without a link.
    pub fn in_service_without(&self, link: LinkId) -> ArrayVec<bool, { Limits::LINKS }>
        ensures { result.items ≡ slice_set (serving self.now.links) link false }
    {
        self.routes.in_service_without(link)
    }

    /// The link of a flow, by the number of its destination and its selection. Messages to that destination take the
    /// sets of one group. Of the links in these sets that carry traffic, it is the one that the selection tries first
    /// (Q.704 §4.2).
    pub fn link_of(&self, destination: usize, sls: Sls) -> Option<LinkId>
        ensures link { result ≡ chosen_link (facts_of self.now) destination sls }
        ensures fits { IfSome result (λ link. link < length self.now.links) }
    {
        self.routes.link_of(destination, sls)
    }

    /// The link that a flow, which goes by this link, would take if this link carried no traffic, as in `before`
    /// (Q.704 §6.2). `None` if it doesn't go by this link, or would have no other. It costs one look-up, and for a flow
    /// that goes by this link the sets that lead to its destination and their links.
    pub fn former_link(
        &self,
        before: &RouteFacts<'_>,
        link: LinkId,
        destination: usize,
        sls: Sls,
    ) -> Option<LinkId>
        requires { before.now ≡ with_link link false (facts_of self.now) }
        ensures former { result ≡ former_link link (chosen_link before.now destination sls)
            (chosen_link (facts_of self.now) destination sls) }
        ensures fits { IfSome result (λ from. from < length self.now.links) }
    {
        if self.link_of(destination, sls) != Some(link) {
            return None;
        }
        match self.link_before(before, link, destination, sls) {
            Some(from) if from != link => Some(from),
            _ => None,
        }
    }

    /// The link that a flow would take if a link carried no traffic.
    fn link_before(
        &self,
        before: &RouteFacts<'_>,
        link: LinkId,
        destination: usize,
        sls: Sls,
    ) -> Option<LinkId>
        requires { before.now ≡ with_link link false (facts_of self.now) }
        ensures link { result ≡ chosen_link before.now destination sls }
        ensures fits { IfSome result (λ from. from < length self.now.links) }
    {
        before.link_of(destination, sls)
    }

    /// A link does what its alignment does about an input, and says what that is. If the link must fail, nothing
    /// changes here.
    #[tactic(auto, using(crate::proofs::Serving::kept))]
    pub fn on(&mut self, link: LinkId, input: Input) -> Action
        requires { link < length self.old.links }
        ensures action { result ≡ acts_on (link_in self.old.links link) input }
        ensures state { self.new ≡ with_state self.old link (after_action result (link_in self.old.links link)) }
    {
        let state = &mut self.states[link.index()];
        let action = state.on(input);
        self.routes.set_link(link, state.carries_traffic());
        action
    }

    /// A link begins to align, with an association and a proving period. Its peer may be told first that the link is
    /// out of service (RFC 4165 §5.1). `untested` says whether it has to pass a test
    /// before it carries traffic (Q.707 §2.2).
    #[tactic(auto, using(crate::proofs::Serving::kept))]
    pub fn open(&mut self, link: LinkId, tells_out: bool, period: Period, untested: bool)
        requires { link < length self.old.links }
        ensures { self.new ≡ with_state self.old link
            (record (opened tells_out period (link_in self.old.links link)) { untested = untested }) }
    {
        self.states[link.index()].open(tells_out, period, untested);
        self.routes.set_link(link, false);
    }

    /// A link fails. Its association stays.
    #[tactic(auto, using(crate::proofs::Serving::kept))]
    pub fn fail(&mut self, link: LinkId)
        requires { link < length self.old.links }
        ensures { self.new ≡ with_state self.old link (after_failure (link_in self.old.links link)) }
    {
        self.states[link.index()].fail();
        self.routes.set_link(link, false);
    }

    /// A link loses its association.
    pub fn lose_association(&mut self, link: LinkId)
        requires { link < length self.old.links }
        ensures { self.new ≡ with_state self.old link (record (link_in self.old.links link) { association = false }) }
    {
        self.states[link.index()].lose_association();
    }

    /// A link may open, with emergency proving if the operator asks for that.
    pub fn allow(&mut self, link: LinkId, emergency: bool)
        requires { link < length self.old.links }
        ensures { self.new ≡ with_state self.old link
            (record (link_in self.old.links link) { active = true; emergency = emergency }) }
    {
        self.states[link.index()].allow(emergency);
    }

    /// A link may not open.
    pub fn forbid(&mut self, link: LinkId)
        requires { link < length self.old.links }
        ensures { self.new ≡ with_state self.old link
            (record (link_in self.old.links link) { active = false; emergency = false }) }
    {
        self.states[link.index()].forbid();
    }

    /// Sets whether a link's peer counts as busy.
    pub fn set_peer_busy(&mut self, link: LinkId, busy: bool)
        requires { link < length self.old.links }
        ensures { self.new ≡ with_state self.old link (record (link_in self.old.links link) { peer_busy = busy }) }
    {
        self.states[link.index()].set_peer_busy(busy);
    }

    /// The processor of a link's peer is out (RFC 4165 §4.1.4).
    pub fn put_out(&mut self, link: LinkId)
        requires { link < length self.old.links }
        ensures { self.new ≡ with_state self.old link (record (link_in self.old.links link) { peer_outage = true }) }
    {
        self.states[link.index()].put_out();
    }

    /// The processor of a link's peer recovered: Ready answers that, unless a status waits still (RFC 4165 §4.1.4).
    pub fn recover(&mut self, link: LinkId)
        requires there { link < length self.old.links }
        requires serves { is_in_service (link_in self.old.links link).alignment ≡ true }
        ensures { self.new ≡ with_state self.old link (recovered (link_in self.old.links link)) }
    {
        self.states[link.index()].recover();
    }

    /// Sets whether a link owes an acknowledgement.
    pub fn set_owed(&mut self, link: LinkId, owed: bool)
        requires { link < length self.old.links }
        ensures { self.new ≡ with_state self.old link
            (record (link_in self.old.links link) { acknowledgement_owed = owed }) }
    {
        self.states[link.index()].set_owed(owed);
    }

    /// Sets whether a link's last test failed.
    pub fn set_test_failed(&mut self, link: LinkId, failed: bool)
        requires { link < length self.old.links }
        ensures { self.new ≡ with_state self.old link (record (link_in self.old.links link) { test_failed = failed }) }
    {
        self.states[link.index()].set_test_failed(failed);
    }

    /// A link passes a test: it has failed none, and in service it carries traffic from now on.
    #[tactic(auto, using(crate::proofs::Serving::kept))]
    pub fn pass_test(&mut self, link: LinkId)
        requires { link < length self.old.links }
        ensures { self.new ≡ with_state self.old link
            (record (link_in self.old.links link) { test_failed = false; untested = false }) }
    {
        let state = &mut self.states[link.index()];
        state.pass_test();
        let carries = state.carries_traffic();
        self.routes.set_link(link, carries);
    }

    /// A link forgets the status that waited longest, if one waits.
    pub fn drop_status(&mut self, link: LinkId)
        requires { link < length self.old.links }
        ensures { self.new ≡ with_state self.old link
            (record (link_in self.old.links link) { waiting = drop 1 (link_in self.old.links link).waiting }) }
    {
        self.states[link.index()].drop_status();
    }
}

/// This many links that have never been up.
fn down_links(alloc: Global, count: usize) -> Result<Vec<LinkState>, AllocError>
    ensures { IfOk result (λ links. links.items ≡ replicate count down_link) }
{
    let mut links = Vec::with_capacity(alloc, count)?;
    for index in 0..count {
        links.push_reserved(LinkState::new());
    }
    Ok(links)
}
