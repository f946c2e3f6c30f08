//! The destinations in the state of a node.

ghost use Rattle.std.specs.Prelude.{◌≡◌, codes, length};
ghost use Rattle.status_page.specs.Each.{each};
ghost use Rattle.status_page.specs.Members.{Adds, array_member};
ghost use Rattle.status_page.specs.States.{route_object, route_tokens, set_names, way_status, way_statuses};

use crate::members::put_text;
use crate::places::{set_name, sets_to};
use exchange::{Exchange, RouteStatus, RouteView};
use json::Writer;
use settings::{PointFormat, Settings, point_text};
use signalling_types::SetId;
use std::alloc::AllocError;

/// Appends the array of the routes.
pub(crate) fn put_routes(
    exchange: &Exchange,
    points: PointFormat,
    out: &mut Writer,
) -> Result<(), AllocError>
    ensures { Adds result out.old out.new (array_member (codes "routes")
        (each (route_tokens points exchange.now) (length exchange.now.settings.destinations))) }
{
    out.key("routes")?;
    out.begin_array()?;
    put_each_route(exchange, points, out)?;
    out.end_array()
}

/// Appends the objects of the destinations.
fn put_each_route(
    exchange: &Exchange,
    points: PointFormat,
    out: &mut Writer,
) -> Result<(), AllocError>
    ensures { Adds result out.old out.new
        (each (route_tokens points exchange.now) (length exchange.now.settings.destinations)) }
{
    for k in 0..exchange.settings().destinations().len() {
        put_route(exchange, k, points, out)?;
    }
    Ok(())
}

/// Appends the object of a destination; nothing if it isn't there.
#[tactic(auto, unfolding(crate::specs::States::route_tokens))]
fn put_route(
    exchange: &Exchange,
    destination: usize,
    points: PointFormat,
    out: &mut Writer,
) -> Result<(), AllocError>
    ensures { Adds result out.old out.new (route_tokens points exchange.now destination) }
{
    match exchange.route(destination) {
        Some(view) => put_shown_route(
            exchange.settings(),
            exchange,
            destination,
            sets_to(exchange.settings(), destination),
            &view,
            points,
            out,
        ),
        None => Ok(()),
    }
}

/// Appends the object of a destination of these settings that is shown like this, to which these sets lead.
fn put_shown_route(
    settings: &Settings,
    exchange: &Exchange,
    destination: usize,
    ways: &[SetId],
    view: &RouteView,
    points: PointFormat,
    out: &mut Writer,
) -> Result<(), AllocError>
    ensures { Adds result out.old out.new (route_object points settings.now exchange.now destination ways.now view.now) }
{
    out.begin_object()?;
    put_text(out, "point", point_text(view.point, points).as_str())?;
    put_set_names(settings, "sets", &view.sets, out)?;
    put_set_names(settings, "ways", ways, out)?;
    put_way_statuses(exchange, destination, ways, out)?;
    put_text(out, "status", view.status.name())?;
    out.end_object()
}

/// Appends the array of the names of these sets, a member of this name.
fn put_set_names(
    settings: &Settings,
    member: &str,
    sets: &[SetId],
    out: &mut Writer,
) -> Result<(), AllocError>
    ensures { Adds result out.old out.new
        (array_member member.now (set_names settings.now sets.now)) }
{
    out.key(member)?;
    out.begin_array()?;
    put_each_name(settings, sets, out)?;
    out.end_array()
}

/// Appends the names of these sets.
fn put_each_name(settings: &Settings, sets: &[SetId], out: &mut Writer) -> Result<(), AllocError>
    ensures { Adds result out.old out.new (set_names settings.now sets.now) }
{
    for set in sets {
        out.string(set_name(settings, *set))?;
    }
    Ok(())
}

/// Appends the array of the statuses of the routes to a destination over these sets.
fn put_way_statuses(
    exchange: &Exchange,
    destination: usize,
    ways: &[SetId],
    out: &mut Writer,
) -> Result<(), AllocError>
    ensures { Adds result out.old out.new
        (array_member (codes "way_statuses") (way_statuses exchange.now destination ways.now)) }
{
    out.key("way_statuses")?;
    out.begin_array()?;
    put_each_status(exchange, destination, ways, out)?;
    out.end_array()
}

/// Appends the statuses of the routes to a destination over these sets.
#[tactic(auto, unfolding(crate::specs::States::way_statuses))]
fn put_each_status(
    exchange: &Exchange,
    destination: usize,
    ways: &[SetId],
    out: &mut Writer,
) -> Result<(), AllocError>
    ensures { Adds result out.old out.new (way_statuses exchange.now destination ways.now) }
{
    for way in ways {
        out.string(way_status(exchange.route_status(destination, *way)))?;
    }
    Ok(())
}

/// The status of a route in words; `-` if there is none.
fn way_status(status: Option<RouteStatus>) -> &'static str
    ensures { result.now ≡ way_status status }
{
    match status {
        Some(status) => status.name(),
        None => "-",
    }
}
