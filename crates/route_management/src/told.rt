//! What adjacent points are told of destinations.

ghost use Rattle.std.specs.Prelude.{◌≡◌, Some, None, length, map, position, replicate, nat_eq, IfOk, slice_index_or};
ghost use Rattle.std.specs.List.{list_any};
ghost use Rattle.routes.specs.declared.route.RouteStatus.TheVariants as status;
ghost use Rattle.routes.specs.Routes.{leads_by};
ghost use Rattle.node_links.specs.NodeLinks.{facts_of};
ghost use Rattle.route_management.specs.Told.{first_told, adjacent_place, is_own_point, told_at, with_told, with_told_reset, said_by, status_to_advertise, owed_at, heard, answer_to_test};

use crate::heard::{Heard, RouteTest, heard_of};
use crate::row::ToldRow;
use node_links::NodeLinks;
use routes::{Route, RouteFacts, RouteStatus};
use settings::{DestinationRow, SetRow};
use signalling_types::SetId;
use std::alloc::{AllocError, Global};
use std::marker::Model;

/// What the adjacent point of each set was told of each destination. A destination goes by its number in the order of
/// the settings.
///
/// All room is made by `new`. `tell` and `is_own_point` take a fixed number of steps, and `reset` one for each
/// destination. Each other call takes what `NodeLinks` takes for the route to one destination, or for its status.
#[derive(Drop)]
pub struct Told {
    adjacents: Vec<Option<usize>>,
    rows: Vec<ToldRow>,
}

impl Model for Told {
    ghost use Rattle.route_management.specs.Told.{ToldTable};

    ghost Value = { ToldTable };

    ghost use Rattle.route_management.specs.Room.{told_in};

    ghost view = { told_in };
}

impl Told {
    /// What is told at first, to the adjacent points of these sets: that all of these destinations are allowed. The
    /// error means that memory ran out.
    ///
    /// It takes an octet for each set and destination, and a step for each, too. That is 128 KB at the limits of a
    /// node.
    pub fn new(
        alloc: Global,
        sets: &[SetRow],
        destinations: &[DestinationRow],
    ) -> Result<Told, AllocError>
        ensures { IfOk result (λ told. told ≡ first_told sets.now destinations.now) }
    {
        Ok(Told {
            adjacents: adjacents(alloc, sets, destinations)?,
            rows: first_rows(alloc, sets.len(), destinations.len())?,
        })
    }

    /// Whether a destination is the adjacent point of a set itself.
    pub fn is_own_point(&self, set: SetId, destination: usize) -> bool
        ensures { result ≡ is_own_point self.now set destination }
    {
        match self.adjacents.get(set.index()) {
            Some(Some(adjacent)) => *adjacent == destination,
            _ => false,
        }
    }

    /// The status of a destination that the adjacent point of a set is still to be told: what it should know, if it was
    /// told something else. `None` if it was told just that, if no link of the set is in service, if it is that
    /// destination itself, or if one of the two isn't there (Q.704 §13.2 to §13.4).
    pub fn owed(&self, links: &NodeLinks, set: SetId, destination: usize) -> Option<RouteStatus>
        ensures { result ≡ owed_at (facts_of links.now) self.now set destination }
    {
        let facts = links.facts();
        if !facts.has_link(set) || self.is_own_point(set, destination) {
            return None;
        }
        let status = status_to_advertise(&facts, set, destination);
        match self.told(set, destination) {
            Some(told) if !told.is(status) => Some(status),
            _ => None,
        }
    }

    /// What the adjacent point of a set was told of a destination; `None` if one of the two isn't there.
    fn told(&self, set: SetId, destination: usize) -> Option<RouteStatus>
        ensures { result ≡ told_at self.now set destination }
    {
        match self.rows.get(set.index()) {
            Some(row) => row.status(destination),
            None => None,
        }
    }

    /// The adjacent point of a set is told of a destination. What isn't there is ignored, and all else that was told
    /// stays.
    pub fn tell(&mut self, set: SetId, destination: usize, status: RouteStatus)
        ensures { self.new ≡ with_told set destination status self.old }
    {
        if let Some(row) = self.rows.get_mut(set.index()) {
            row.tell(destination, status);
        }
    }

    /// The adjacent point of a set takes all destinations for allowed, as the first link of the set enters service. A
    /// set that isn't there is ignored, and what the others were told stays.
    pub fn reset(&mut self, set: SetId)
        ensures { self.new ≡ with_told_reset set self.old }
    {
        if let Some(row) = self.rows.get_mut(set.index()) {
            row.reset();
        }
    }

    /// What comes of a transfer-prohibited, -restricted or -allowed message from the adjacent point of a set, by the
    /// status that it gives a destination. If that is `Changed`, the caller sets the status on the links (Q.704 §13.2
    /// to §13.4).
    pub fn received(
        &self,
        links: &NodeLinks,
        set: SetId,
        destination: usize,
        status: RouteStatus,
    ) -> Heard
        ensures { result ≡ heard (facts_of links.now) self.now set destination status }
    {
        if self.is_own_point(set, destination) {
            return Heard::Ignored;
        }
        heard_of(links.facts().status_of(destination, set), status)
    }

    /// The status that answers a signalling-route-set-test message from the adjacent point of a set about a
    /// destination: what that point is to be told. `None` if that is what the message asks about, and if the
    /// destination is that point itself (Q.704 §13.5).
    pub fn answer_to_test(
        &self,
        links: &NodeLinks,
        set: SetId,
        destination: usize,
        test: RouteTest,
    ) -> Option<RouteStatus>
        ensures { result ≡ answer_to_test (facts_of links.now) self.now set destination test }
    {
        let status = status_to_advertise(&links.facts(), set, destination);
        if self.is_own_point(set, destination) || status.is(test.tested()) {
            None
        } else {
            Some(status)
        }
    }
}

/// What the adjacent point of a set is to be told of a destination: prohibited if no route leads there, or if some
/// messages go by that very set; otherwise the status of their routes (Q.704 §13.2 to §13.4).
pub fn status_to_advertise(facts: &RouteFacts<'_>, set: SetId, destination: usize) -> RouteStatus
    ensures { result ≡ status_to_advertise facts.now set destination }
{
    said_by(set, &facts.routes_of(destination))
}

/// The same, by the routes that messages take there.
fn said_by(set: SetId, routes: &[Route]) -> RouteStatus
    ensures { result ≡ said_by set routes.now }
{
    match routes.first() {
        Some(first) if !goes_by(routes, set) => first.status,
        _ => RouteStatus::Prohibited,
    }
}

fn goes_by(routes: &[Route], set: SetId) -> bool
    ensures { result ≡ list_any (leads_by set) routes.now }
{
    routes.iter().any(|route| route.set.index() == set.index())
}

/// For each set, the number of the destination that its links lead to.
fn adjacents(
    alloc: Global,
    sets: &[SetRow],
    destinations: &[DestinationRow],
) -> Result<Vec<Option<usize>>, AllocError>
    ensures { IfOk result (λ made. made.items ≡ map (adjacent_place destinations.now) sets.now) }
{
    let mut made = Vec::with_capacity(alloc, sets.len())?;
    for set in sets {
        made.push_reserved(adjacent_place(set, destinations));
    }
    Ok(made)
}

/// The number of the destination that the links of a set lead to.
fn adjacent_place(set: &SetRow, destinations: &[DestinationRow]) -> Option<usize>
    ensures { result ≡ adjacent_place destinations.now set.now }
{
    let adjacent = set.adjacent();
    destinations.iter().position(|destination| adjacent.code() == destination.point().code())
}

/// This many rows of this many destinations, all of them allowed.
fn first_rows(alloc: Global, sets: usize, destinations: usize) -> Result<Vec<ToldRow>, AllocError>
    ensures { IfOk result (λ rows. rows.items ≡ replicate sets (replicate destinations status.Allowed)) }
{
    let mut rows = Vec::with_capacity(alloc, sets)?;
    for index in 0..sets {
        rows.push_reserved(ToldRow::new(alloc, destinations)?);
    }
    Ok(rows)
}
