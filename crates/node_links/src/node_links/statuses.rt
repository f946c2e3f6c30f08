//! The statuses of a node's routes.

ghost use Rattle.std.specs.Prelude.{◌≡◌};
ghost use Rattle.node_links.specs.NodeLinks.{with_route_status, with_statuses_reset};

use super::NodeLinks;
use routes::RouteStatus;
use signalling_types::SetId;

impl NodeLinks {
    /// The route to a destination, by its number, over a set gets a status; a route that isn't there is ignored. Links,
    /// and all other routes, stay as they are (Q.704 §13). It takes a step for each set that leads to the destination.
    pub fn set_status(&mut self, destination: usize, set: SetId, status: RouteStatus)
        ensures { self.new ≡ with_route_status destination set status self.old }
    {
        self.routes.set_status(destination, set, status);
    }

    /// All routes over a set are allowed again. Links, and the routes over other sets, stay as they are (Q.704 §13). It
    /// takes a step for each route of the node.
    pub fn reset_statuses(&mut self, set: SetId)
        ensures { self.new ≡ with_statuses_reset set self.old }
    {
        self.routes.reset_statuses(set);
    }
}
