//! The value of each metric of a destination and of a route.

ghost use Rattle.std.specs.Prelude.{◌≡◌};
ghost use Rattle.status_page.specs.Measuring.{bit, destination_value, has_set, is_accessible, is_in_use, is_open};
ghost use Rattle.status_page.specs.Measuring.{is_restricted, is_restricted_status};

use crate::measuring::bit;
use crate::metric::DestinationMetric;
use exchange::Exchange;
use routes::RouteStatus;
use signalling_types::SetId;

/// The value of a metric of a destination; 0 if there is no such destination.
pub(crate) fn destination_value(
    metric: DestinationMetric,
    exchange: &Exchange,
    destination: usize,
) -> u64
    ensures { result ≡ destination_value metric exchange.now destination }
{
    match metric {
        DestinationMetric::Accessible => bit(is_accessible(exchange, destination)),
        DestinationMetric::Restricted => bit(is_restricted(exchange, destination)),
    }
}

/// Whether messages may go to a destination.
fn is_accessible(exchange: &Exchange, destination: usize) -> bool
    ensures { result ≡ is_accessible exchange.now destination }
{
    match exchange.route(destination) {
        Some(view) => is_open(view.status),
        None => false,
    }
}

/// Whether messages take routes of this status.
fn is_open(status: RouteStatus) -> bool
    ensures { result ≡ is_open status }
{
    match status {
        RouteStatus::Allowed | RouteStatus::Restricted => true,
        RouteStatus::Prohibited => false,
    }
}

/// Whether the messages to a destination take a restricted route.
fn is_restricted(exchange: &Exchange, destination: usize) -> bool
    ensures { result ≡ is_restricted exchange.now destination }
{
    match exchange.route(destination) {
        Some(view) => is_restricted_status(view.status),
        None => false,
    }
}

/// Whether a status is that of a restricted route.
fn is_restricted_status(status: RouteStatus) -> bool
    ensures { result ≡ is_restricted_status status }
{
    match status {
        RouteStatus::Restricted => true,
        RouteStatus::Allowed | RouteStatus::Prohibited => false,
    }
}

/// 1 if the messages to a destination take a set, else 0.
pub(crate) fn use_value(exchange: &Exchange, destination: usize, set: SetId) -> u64
    ensures { result ≡ bit (is_in_use exchange.now destination set) }
{
    bit(is_in_use(exchange, destination, set))
}

/// Whether the messages to a destination take a set.
fn is_in_use(exchange: &Exchange, destination: usize, set: SetId) -> bool
    ensures { result ≡ is_in_use exchange.now destination set }
{
    match exchange.route(destination) {
        Some(view) => has_set(&view.sets, set),
        None => false,
    }
}

/// Whether a set is among these.
fn has_set(sets: &[SetId], set: SetId) -> bool
    ensures { result ≡ has_set set sets.now }
{
    sets.iter().any(|it| it.index() == set.index())
}
