//! The routes to one destination.

ghost use Rattle.std.specs.Prelude.{◌≡◌, ◌==◌, ◌≤◌, length, map};
ghost use Rattle.routes.specs.Routes.{first_routes, first_route, with_second_joined, with_status_over, status_name, status_number};

use arrayvec::ArrayVec;
use settings::DestinationRow;
use signalling_types::{Limits, SetId};
use std::marker::Model;

/// What the adjacent point of a set says of a destination (Q.704 §3.4).
#[derive(Clone, Copy, PartialEq, Eq)]
pub enum RouteStatus {
    /// Messages may go there by the set.
    Allowed,
    /// Messages go there by the set if no other set leads there.
    Restricted,
    /// No message goes there by the set.
    Prohibited,
}

impl RouteStatus {
    /// The status's name, as texts print it.
    pub fn name(self) -> &'static str
        ensures { result.now ≡ status_name self }
    {
        match self {
            RouteStatus::Allowed => "allowed",
            RouteStatus::Restricted => "restricted",
            RouteStatus::Prohibited => "prohibited",
        }
    }

    /// Whether it is this status.
    pub fn is(self, other: RouteStatus) -> bool
        ensures { result ≡ (status_number self == status_number other) }
    {
        self as u8 == other as u8
    }
}

/// A route to a destination: the set that leads there, and its status.
#[derive(Clone, Copy, PartialEq, Eq)]
pub struct Route {
    /// The set.
    pub set: SetId,
    /// Its status.
    pub status: RouteStatus,
    /// Whether it is joined to the route before it: both are preferred alike. Only the second route can be.
    pub joined: bool,
}

impl Default for Route {
    fn default() -> Route {
        Route {
            set: SetId::new(0),
            status: RouteStatus::Prohibited,
            joined: false,
        }
    }
}

/// The routes to one destination, the preferred one first.
#[derive(Drop)]
pub(crate) struct RouteList {
    routes: ArrayVec<Route, { Limits::SETS_PER_DESTINATION }>,
}

impl Model for RouteList {
    ghost use Rattle.std.specs.Prelude.{List};
    ghost use Rattle.routes.specs.declared.route.Route.{Route};

    ghost Value = { List Route };

    ghost view = { λ s. s.routes.items };
}

impl RouteList {
    /// The routes to a destination, all of them allowed.
    pub fn new(destination: &DestinationRow) -> RouteList
        ensures { result ≡ first_routes destination.now }
    {
        let mut routes = ArrayVec::new();
        for set in destination.sets() {
            routes.push(Route {
                set: *set,
                status: RouteStatus::Allowed,
                joined: false,
            });
        }
        join_second(&mut routes, destination.joined());
        RouteList { routes }
    }

    /// The routes, the preferred one first.
    pub fn routes(&self) -> &[Route]
        ensures { result.now ≡ self.now }
    {
        self.routes.as_slice()
    }

    /// The route by this set gets a status, if there is one.
    pub fn tell(&mut self, set: SetId, status: RouteStatus)
        ensures { self.new ≡ map (with_status_over set status) self.old }
    {
        tell(&mut self.routes, set, status);
    }
}

/// Whether the second route is joined to the first.
fn join_second(routes: &mut [Route], joined: bool)
    ensures { routes.new ≡ with_second_joined joined routes.old }
{
    if routes.len() > 1 {
        routes[1] = Route {
            joined,
            ..routes[1]
        };
    }
}

/// The routes by this set get a status.
fn tell(routes: &mut [Route], set: SetId, status: RouteStatus)
    ensures { routes.new ≡ map (with_status_over set status) routes.old }
{
    for route in routes.iter_mut() {
        *route = with_status_over(*route, set, status);
    }
}

/// A route, which gets a status if it goes by this set.
fn with_status_over(route: Route, set: SetId, status: RouteStatus) -> Route
    ensures { result ≡ with_status_over set status route }
{
    if route.set.index() == set.index() {
        Route { status, ..route }
    } else {
        route
    }
}
