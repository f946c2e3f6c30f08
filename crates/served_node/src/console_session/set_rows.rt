//! The table of link sets.

ghost use Rattle.std.specs.Prelude.{◌≡◌, ◌<◌, ◌≤◌, length, slice_get};
ghost use Rattle.served_link.specs.ShownStates.{service_state_in};
ghost use Rattle.served_node.specs.Listings.{available_text, is_of_set, is_state_available, links_in_service};
ghost use Rattle.served_node.specs.Listings.{links_of_set, row_of_set, set_row};

use super::table::{Row, number_text, push_cell, push_last, push_number_cell, push_point_cell};
use exchange::Exchange;
use served_link::service_state;
use settings::{Limits, LinkId, PointFormat, SetId, SetRow, Settings};

/// The width of the column of names.
const NAME: usize = 12;

/// The width of the column of adjacent points.
const ADJACENT: usize = 8;

/// The width of the column of states.
const STATE: usize = 11;

/// The width of the column that counts links in service.
const IN_SERVICE: usize = 10;

/// The head line of the link sets.
pub(crate) const SETS_HEAD: &str = "  SET           ADJACENT  STATE        IN SERVICE  LINKS\n";

/// The row of set `k`, from 0: its name, the adjacent point, whether it is available, how many of its links are in
/// service, and how many it has. Nothing past the last.
pub(crate) fn set_row(exchange: &Exchange, k: usize, points: PointFormat) -> Row
    ensures { result.bytes ≡ row_of_set points exchange.now k (slice_get exchange.now.settings.sets k) }
{
    let Some(row) = exchange.settings().sets().get(k) else {
        return Row::new();
    };
    let set = SetId::new(k as u8);
    let in_service = links_in_service(exchange, set);
    let links = links_of_set(exchange.settings(), set);
    row_of(row, points, in_service, links)
}

/// The row of a set of which so many of its links are in service.
fn row_of(set: &SetRow, points: PointFormat, in_service: usize, links: usize) -> Row
    ensures { result.bytes ≡ set_row points set.now in_service links }
{
    let mut row = Row::new();
    push_cell(&mut row, NAME, set.name());
    push_point_cell(&mut row, ADJACENT, set.adjacent(), points);
    push_cell(&mut row, STATE, available_text(in_service));
    push_number_cell(&mut row, IN_SERVICE, in_service as u64);
    push_last(&mut row, number_text(links as u64).as_str());
    row
}

/// Whether a set of so many links in service is available, in words.
fn available_text(in_service: usize) -> &'static str
    ensures text { result.now ≡ available_text in_service }
    ensures short { length result.now ≤ STATE }
{
    if in_service == 0 {
        "unavailable"
    } else {
        "available"
    }
}

/// How many links a set has.
fn links_of_set(settings: &Settings, set: SetId) -> usize
    ensures { result ≡ links_of_set settings.now set }
{
    let mut count = 0;
    for k in 0..settings.link_count() {
        if is_of_set(settings, set, k) {
            count += 1;
        }
    }
    count
}

/// How many links of a set are in service.
fn links_in_service(exchange: &Exchange, set: SetId) -> usize
    ensures { result ≡ links_in_service exchange.now set }
{
    let mut count = 0;
    for k in 0..exchange.settings().link_count() {
        if is_of_set(exchange.settings(), set, k) && is_in_service(exchange, k) {
            count += 1;
        }
    }
    count
}

/// Whether link `k` is of a set.
fn is_of_set(settings: &Settings, set: SetId, k: usize) -> bool
    ensures { result ≡ is_of_set settings.now set k }
{
    match settings.links().get(k) {
        Some(row) => row.set() == set,
        None => false,
    }
}

/// Whether link `k` is in service.
fn is_in_service(exchange: &Exchange, k: usize) -> bool
    requires { k < Limits.LINKS }
    ensures { result ≡ is_state_available (service_state_in exchange.now k) }
{
    match service_state(exchange, LinkId::new(k as u8)) {
        Some(state) => state.is_available(),
        None => false,
    }
}
