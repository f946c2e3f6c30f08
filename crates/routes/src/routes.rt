//! Routing facts, with the link of each flow in a table.

ghost use Rattle.std.specs.Prelude.{◌≡◌, ◌≤◌, false, length, slice_set, IfOk};
ghost use Rattle.routes.specs.Routes.{first_facts, with_link, with_status, chosen_link, with_statuses_reset};

mod table;

use crate::flow_links::FlowLinks;
use crate::known::KnownRoutes;
use crate::route::RouteStatus;
use crate::route_facts::RouteFacts;
use arrayvec::ArrayVec;
use settings::{DestinationRow, LinkRow};
use signalling_types::{Limits, LinkId, SetId, Sls};
use std::alloc::{AllocError, Global};
use std::marker::Model;
use table::{compiled, mend, mend_by_link, mend_by_set};

/// Which links are in service, and by which sets, with which status, each destination is reached. Destinations go by
/// their number in the order of the settings.
///
/// All room is made by `new`. The link of each flow is in a table, which is mended as links and statuses change:
/// `link_of` is one look-up. What else follows from the facts is computed on each call of `facts`.
#[derive(Drop)]
pub struct Routes {
    known: KnownRoutes,
    links: Vec<FlowLinks>,
}

impl Model for Routes {
    ghost use Rattle.routes.specs.Routes.{Facts};

    ghost Value = { Facts };

    ghost use Rattle.routes.specs.Room.{known_in, IsCompiled};

    ghost view = { known_in };

    ghost invariant = { IsCompiled };
}

impl Routes {
    /// The routes of a node with this many sets, these links and these destinations: no link is in service, and all
    /// routes are allowed. The error means that memory ran out.
    pub fn new(
        alloc: Global,
        sets: usize,
        links: &[LinkRow],
        destinations: &[DestinationRow],
    ) -> Result<Routes, AllocError>
        requires sets { sets ≤ Limits.SETS }
        requires links { length links.now ≤ Limits.LINKS }
        ensures { IfOk result (λ routes. routes ≡ first_facts sets links.now destinations.now) }
    {
        let known = KnownRoutes::new(alloc, sets, links, destinations)?;
        let links = compiled(alloc, &RouteFacts::of(&known, known.in_service()))?;
        Ok(Routes { known, links })
    }

    /// A link enters service, or leaves it. A link that isn't there is ignored.
    ///
    /// If that changes the link, the flows to each destination that its set leads to are looked at again, and no
    /// others.
    pub fn set_link(&mut self, link: LinkId, in_service: bool)
        ensures { self.new ≡ with_link link in_service self.old }
    {
        if self.known.is_in_service(link) != in_service {
            self.known.set_link(link, in_service);
            let facts = RouteFacts::of(&self.known, self.known.in_service());
            mend_by_link(&mut self.links, &facts, link);
        }
    }

    /// The route to a destination by a set gets a status. A route that isn't there is ignored.
    ///
    /// The 16 flows to the destination are looked at again.
    pub fn set_status(&mut self, destination: usize, set: SetId, status: RouteStatus)
        ensures { self.new ≡ with_status destination set status self.old }
    {
        self.known.set_status(destination, set, status);
        let facts = RouteFacts::of(&self.known, self.known.in_service());
        mend(&mut self.links, &facts, destination);
    }

    /// All routes by a set are allowed again, as its first link enters service (Q.704 §13). It takes a step for each
    /// route of the node, and looks again at the flows to each destination that the set leads to.
    pub fn reset_statuses(&mut self, set: SetId)
        ensures { self.new ≡ with_statuses_reset set self.old }
    {
        self.known.reset_statuses(set);
        let facts = RouteFacts::of(&self.known, self.known.in_service());
        mend_by_set(&mut self.links, &facts, set);
    }

    /// The link of a flow, out of the group that messages to its destination take: of the links in service whose set
    /// they take, the one that the selection tries first (Q.704 §4.2). It is one look-up.
    pub fn link_of(&self, destination: usize, sls: Sls) -> Option<LinkId>
        ensures { result ≡ chosen_link self.now destination sls }
    {
        match self.links.get(destination) {
            Some(links) => links.link(sls),
            None => None,
        }
    }

    /// The facts.
    pub fn facts(&self) -> RouteFacts<'_>
        ensures { result ≡ self.now }
    {
        self.facts_by(self.known.in_service())
    }

    /// What they would be with these links in service.
    pub fn facts_by<'a>(&'a self, in_service: &'a [bool]) -> RouteFacts<'a>
        ensures { result ≡ record self.now { in_service = in_service.now } }
    {
        RouteFacts::of(&self.known, in_service)
    }

    /// Which links would be in service without a link.
    pub fn in_service_without(&self, link: LinkId) -> ArrayVec<bool, { Limits::LINKS }>
        ensures { result.items ≡ slice_set self.now.in_service link false }
    {
        self.known.in_service_without(link)
    }
}
