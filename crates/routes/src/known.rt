//! Routing facts, as they change.

ghost use Rattle.std.specs.Prelude.{◌≡◌, ◌≤◌, false, length, map, replicate, slice_set, IfOk};
ghost use Rattle.routes.specs.declared.route.RouteStatus.TheVariants as status;
ghost use Rattle.routes.specs.Routes.{is_in_service, first_facts, first_sets, first_routes, with_link, with_status, with_status_over, with_statuses_reset};

use crate::LinkSet;
use crate::route::{RouteList, RouteStatus};
use arrayvec::ArrayVec;
use settings::{DestinationRow, LinkRow};
use signalling_types::{Limits, LinkId, SetId};
use std::alloc::{AllocError, Global};
use std::marker::Model;

/// Which links are in service, and by which sets, with which status, each destination is reached. Destinations go by
/// their number in the order of the settings.
#[derive(Drop)]
pub(crate) struct KnownRoutes {
    sets: Vec<LinkSet>,
    in_service: Vec<bool>,
    destinations: Vec<RouteList>,
}

impl Model for KnownRoutes {
    ghost use Rattle.routes.specs.Routes.{Facts};

    ghost Value = { Facts };

    ghost use Rattle.routes.specs.Room.{facts_in, HasFew};

    ghost view = { facts_in };

    ghost invariant = { HasFew };
}

impl KnownRoutes {
    /// The routes of a node with this many sets, these links and these destinations: no link is in service, and all
    /// routes are allowed. The error means that memory ran out.
    pub fn new(
        alloc: Global,
        sets: usize,
        links: &[LinkRow],
        destinations: &[DestinationRow],
    ) -> Result<KnownRoutes, AllocError>
        requires sets { sets ≤ Limits.SETS }
        requires links { length links.now ≤ Limits.LINKS }
        ensures { IfOk result (λ routes. routes ≡ first_facts sets links.now destinations.now) }
    {
        Ok(KnownRoutes {
            sets: link_sets(alloc, sets, links)?,
            in_service: none_in_service(alloc, links.len())?,
            destinations: route_lists(alloc, destinations)?,
        })
    }

    /// Whether a link is in service. One that isn't there isn't.
    pub fn is_in_service(&self, link: LinkId) -> bool
        ensures { result ≡ is_in_service self.now.in_service link }
    {
        match self.in_service.get(link.index()) {
            Some(is) => *is,
            None => false,
        }
    }

    /// A link enters service, or leaves it. A link that isn't there is ignored.
    pub fn set_link(&mut self, link: LinkId, in_service: bool)
        ensures { self.new ≡ with_link link in_service self.old }
    {
        if let Some(is) = self.in_service.get_mut(link.index()) {
            *is = in_service;
        }
    }

    /// The route to a destination by a set gets a status. A route that isn't there is ignored.
    pub fn set_status(&mut self, destination: usize, set: SetId, status: RouteStatus)
        ensures { self.new ≡ with_status destination set status self.old }
    {
        if let Some(routes) = self.destinations.get_mut(destination) {
            routes.tell(set, status);
        }
    }

    /// All routes by a set are allowed again, as its first link enters service (Q.704 §13). It takes a step for each
    /// route of the node.
    pub fn reset_statuses(&mut self, set: SetId)
        ensures { self.new ≡ with_statuses_reset set self.old }
    {
        allow_all(&mut self.destinations, set);
    }

    /// The links of each set.
    pub fn sets(&self) -> &[LinkSet]
        ensures { result.now ≡ self.now.sets }
    {
        &self.sets
    }

    /// The routes to each destination.
    pub fn destinations(&self) -> &[RouteList]
        ensures { result.now ≡ self.now.routes }
    {
        &self.destinations
    }

    /// Which links are in service.
    pub fn in_service(&self) -> &[bool]
        ensures { result.now ≡ self.now.in_service }
    {
        &self.in_service
    }

    /// Which links would be in service without a link.
    pub fn in_service_without(&self, link: LinkId) -> ArrayVec<bool, { Limits::LINKS }>
        ensures { result.items ≡ slice_set self.now.in_service link false }
    {
        let mut links = copied(&self.in_service);
        if let Some(is) = links.get_mut(link.index()) {
            *is = false;
        }
        links
    }
}

/// The same links again.
fn copied(in_service: &[bool]) -> ArrayVec<bool, { Limits::LINKS }>
    requires { length in_service.now ≤ Limits.LINKS }
    ensures { result.items ≡ in_service.now }
{
    let mut copy = ArrayVec::new();
    for is in in_service {
        copy.push(*is);
    }
    copy
}

/// The first sets, this many of them, among the links of a node.
#[tactic(auto, using(crate::proofs::Facts::sets))]
fn link_sets(alloc: Global, sets: usize, links: &[LinkRow]) -> Result<Vec<LinkSet>, AllocError>
    requires sets { sets ≤ Limits.SETS }
    requires links { length links.now ≤ Limits.LINKS }
    ensures { IfOk result (λ made. made.items ≡ first_sets sets links.now) }
{
    let mut made = Vec::with_capacity(alloc, sets)?;
    for set in 0..sets {
        made.push_reserved(LinkSet::of(links, SetId::new(set as u8)));
    }
    Ok(made)
}

/// This many links, none in service.
fn none_in_service(alloc: Global, links: usize) -> Result<Vec<bool>, AllocError>
    ensures { IfOk result (λ made. made.items ≡ replicate links false) }
{
    Ok(vec![in alloc; false; links]?)
}

/// The routes to each destination, all of them allowed.
fn route_lists(alloc: Global, destinations: &[DestinationRow]) -> Result<Vec<RouteList>, AllocError>
    ensures { IfOk result (λ made. made.items ≡ map first_routes destinations.now) }
{
    let mut made = Vec::with_capacity(alloc, destinations.len())?;
    for destination in destinations {
        made.push_reserved(RouteList::new(destination));
    }
    Ok(made)
}

/// The routes by this set are allowed.
fn allow_all(destinations: &mut [RouteList], set: SetId)
    ensures { destinations.new ≡ map (map (with_status_over set status.Allowed)) destinations.old }
{
    for routes in destinations.iter_mut() {
        routes.tell(set, RouteStatus::Allowed);
    }
}
