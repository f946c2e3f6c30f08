//! The table of destinations.

ghost use Rattle.std.specs.Prelude.{◌≡◌, ◌+◌, ◌*◌, ◌≤◌, ◌++◌, length, slice_get};
ghost use Rattle.console.specs.Texts.{sets_text};
ghost use Rattle.exchange.specs.Views.{route_status, route_view};
ghost use Rattle.routes.specs.Routes.{status_name};
ghost use Rattle.served_node.specs.Listings.{each_route, route_row, row_of_route, status_words};

use super::table::{CELL_OCTETS, ROW_OCTETS, Row, push_cell, push_point_cell};
use arrayvec::ArrayString;
use console::{LINE_OCTETS, push_sets, set_name};
use exchange::{Exchange, RouteStatus, RouteView};
use settings::{Limits, PointFormat, SetId, Settings};

/// The head line of the destinations.
pub(crate) const ROUTES_HEAD: &str =
    "  DESTINATION  STATUS      SETS TAKEN                ROUTES\n";

/// The width of the column of points.
const POINT: usize = 11;

/// The width of the column of statuses.
const STATUS: usize = 10;

/// The width of the column of the sets that messages take.
const TAKEN: usize = 24;

/// Octets of a route, at most: a blank, the name of its set, a colon and its status.
pub const ROUTE_OCTETS: usize = 44;

/// The row of destination `k`, from 0: its point, the status of the routes that messages take, the sets that these lead
/// over, and then all routes, the preferred one first: the set, and the status of the route over it. Nothing past the
/// last.
pub(crate) fn route_row(exchange: &Exchange, k: usize, points: PointFormat) -> Row
    ensures { result.bytes ≡ row_of_route points exchange.now k
        (slice_get exchange.now.settings.destinations k) (route_view exchange.now k) }
{
    let Some(destination) = exchange.settings().destinations().get(k) else {
        return Row::new();
    };
    match exchange.route(k) {
        Some(view) => row_of(exchange, k, destination.sets(), &view, points),
        None => Row::new(),
    }
}

/// The row of destination `k`, to which routes lead over these sets.
fn row_of(
    exchange: &Exchange,
    k: usize,
    sets: &[SetId],
    view: &RouteView,
    points: PointFormat,
) -> Row
    requires { length sets.now ≤ Limits.SETS_PER_DESTINATION }
    ensures { result.bytes ≡ route_row points exchange.now k sets.now view.now }
{
    let mut row = Row::new();
    push_point_cell(&mut row, POINT, view.point, points);
    push_cell(&mut row, STATUS, status_of(view.status));
    push_cell(
        &mut row,
        TAKEN,
        taken_sets(exchange.settings(), &view.sets).as_str(),
    );
    row.push_str(" ");
    push_each_route(&mut row, exchange, k, sets);
    row.push_str("\n");
    row
}

/// A status in words.
fn status_of(status: RouteStatus) -> &'static str
    ensures text { result.now ≡ status_name status }
    ensures short { length result.now ≤ STATUS }
{
    status.name()
}

/// The names of the sets that messages take.
fn taken_sets(settings: &Settings, sets: &[SetId]) -> ArrayString<LINE_OCTETS>
    ensures text { result.bytes ≡ sets_text settings.now sets.now }
    ensures short { length result.bytes + 2 ≤ CELL_OCTETS }
{
    let mut names = ArrayString::new();
    push_sets(&mut names, settings, sets);
    names
}

/// Appends the routes to destination `k` over these sets.
fn push_each_route(row: &mut Row, exchange: &Exchange, k: usize, sets: &[SetId])
    requires { length row.old.bytes + ROUTE_OCTETS * length sets.now ≤ ROW_OCTETS }
    ensures text { row.new.bytes ≡ row.old.bytes ++ each_route exchange.now k sets.now }
    ensures short { length row.new.bytes ≤ length row.old.bytes + ROUTE_OCTETS * length sets.now }
{
    for set in sets {
        row.push_str(" ");
        row.push_str(set_name(exchange.settings(), *set));
        row.push_str(":");
        row.push_str(status_words(exchange.route_status(k, *set)));
    }
}

/// The status of a route in words; `-` if there is none.
fn status_words(status: Option<RouteStatus>) -> &'static str
    ensures text { result.now ≡ status_words status }
    ensures short { length result.now ≤ STATUS }
{
    match status {
        Some(status) => status_of(status),
        None => "-",
    }
}
