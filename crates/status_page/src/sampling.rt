//! The samples of metrics that each link, each set, each destination or each route has.

ghost use Rattle.std.specs.Prelude.{◌≡◌, ◌++◌, OnOk, flat_map};
ghost use Rattle.exchange.specs.KeptQueues.{kept};
ghost use Rattle.console.specs.Names.{set_name_in};
ghost use Rattle.status_page.specs.Facts.{facts_of};
ghost use Rattle.status_page.specs.Metrics.{destination_sample, destination_samples, link_sample, link_samples};
ghost use Rattle.status_page.specs.Metrics.{route_sample, route_samples, set_sample, set_samples, ways_text};
ghost use Rattle.status_page.specs.Places.{adjacent_text, destination_text};
ghost use Rattle.status_page.specs.Samples.{route_labels};

use crate::facts::Facts;
use crate::family::Family;
use crate::labels::{LABELS_OCTETS, destination_labels, link_labels, route_labels, set_labels};
use crate::link_values::link_value;
use crate::metric::{DestinationMetric, LinkMetric, SetMetric};
use crate::places::{
    adjacent_text, adjacent_text_of, destination_text, set_name, set_name_of, sets_to,
};
use crate::route_values::{destination_value, use_value};
use crate::sample::{put_if, put_sample};
use crate::set_values::set_value;
use arrayvec::ArrayString;
use console::link_name;
use exchange::Exchange;
use http_server::Rope;
use settings::{PointFormat, Settings};
use signalling_types::{LinkId, SetId};
use std::alloc::AllocError;

/// Appends the samples of all links.
pub(crate) fn put_link_samples(
    family: Family,
    metric: LinkMetric,
    exchange: &Exchange,
    facts: &Facts<'_>,
    body: &mut Rope,
) -> Result<(), AllocError>
    ensures { OnOk result (body.new.items
        ≡ body.old.items ++ link_samples kept exchange.now (facts_of facts.now) family metric) }
{
    for k in 0..exchange.settings().link_count() {
        put_link_sample(family, metric, exchange, facts, LinkId::new(k as u8), body)?;
    }
    Ok(())
}

/// Appends the sample of a link, if there is a value.
#[tactic(auto, unfolding(crate::specs::Metrics::link_sample))]
fn put_link_sample(
    family: Family,
    metric: LinkMetric,
    exchange: &Exchange,
    facts: &Facts<'_>,
    link: LinkId,
    body: &mut Rope,
) -> Result<(), AllocError>
    ensures { OnOk result (body.new.items
        ≡ body.old.items ++ link_sample kept exchange.now (facts_of facts.now) family metric link) }
{
    let settings = exchange.settings();
    let adjacent = adjacent_text_of(settings, link, facts.points);
    let labels = link_labels(
        metric,
        link_name(settings, link),
        set_name_of(settings, link),
        adjacent.as_str(),
    );
    put_if(
        link_value(metric, exchange, facts, link),
        family,
        labels.as_str(),
        body,
    )
}

/// Appends the samples of all sets.
pub(crate) fn put_set_samples(
    family: Family,
    metric: SetMetric,
    exchange: &Exchange,
    facts: &Facts<'_>,
    body: &mut Rope,
) -> Result<(), AllocError>
    ensures { OnOk result (body.new.items
        ≡ body.old.items ++ set_samples kept exchange.now (facts_of facts.now) family metric) }
{
    for k in 0..exchange.settings().sets().len() {
        put_set_sample(family, metric, exchange, facts, SetId::new(k as u8), body)?;
    }
    Ok(())
}

/// Appends the sample of a set.
#[tactic(auto, unfolding(crate::specs::Metrics::set_sample))]
fn put_set_sample(
    family: Family,
    metric: SetMetric,
    exchange: &Exchange,
    facts: &Facts<'_>,
    set: SetId,
    body: &mut Rope,
) -> Result<(), AllocError>
    ensures { OnOk result (body.new.items
        ≡ body.old.items ++ set_sample kept exchange.now (facts_of facts.now) family metric set) }
{
    let adjacent = adjacent_text(exchange.settings(), set, facts.points);
    let labels = set_labels(set_name(exchange.settings(), set), adjacent.as_str());
    put_sample(
        family,
        labels.as_str(),
        set_value(metric, exchange, facts, set),
        body,
    )
}

/// Appends the samples of all destinations.
pub(crate) fn put_destination_samples(
    family: Family,
    metric: DestinationMetric,
    exchange: &Exchange,
    points: PointFormat,
    body: &mut Rope,
) -> Result<(), AllocError>
    ensures { OnOk result (body.new.items
        ≡ body.old.items ++ destination_samples points exchange.now family metric) }
{
    for k in 0..exchange.settings().destinations().len() {
        put_destination_sample(family, metric, exchange, k, points, body)?;
    }
    Ok(())
}

/// Appends the sample of a destination.
#[tactic(auto, unfolding(crate::specs::Metrics::destination_sample))]
fn put_destination_sample(
    family: Family,
    metric: DestinationMetric,
    exchange: &Exchange,
    destination: usize,
    points: PointFormat,
    body: &mut Rope,
) -> Result<(), AllocError>
    ensures { OnOk result (body.new.items
        ≡ body.old.items ++ destination_sample points exchange.now family metric destination) }
{
    let text = destination_text(exchange.settings(), destination, points);
    let labels = destination_labels(text.as_str());
    put_sample(
        family,
        labels.as_str(),
        destination_value(metric, exchange, destination),
        body,
    )
}

/// Appends the samples of all routes.
pub(crate) fn put_route_samples(
    family: Family,
    exchange: &Exchange,
    points: PointFormat,
    body: &mut Rope,
) -> Result<(), AllocError>
    ensures { OnOk result (body.new.items
        ≡ body.old.items ++ route_samples points exchange.now family) }
{
    for k in 0..exchange.settings().destinations().len() {
        put_ways(family, exchange, k, points, body)?;
    }
    Ok(())
}

/// Appends the samples of the routes to a destination.
fn put_ways(
    family: Family,
    exchange: &Exchange,
    destination: usize,
    points: PointFormat,
    body: &mut Rope,
) -> Result<(), AllocError>
    ensures { OnOk result (body.new.items
        ≡ body.old.items ++ ways_text points exchange.now family destination) }
{
    put_each_way(
        family,
        exchange,
        destination,
        sets_to(exchange.settings(), destination),
        points,
        body,
    )
}

/// Appends the samples of the routes to a destination by these sets.
fn put_each_way(
    family: Family,
    exchange: &Exchange,
    destination: usize,
    sets: &[SetId],
    points: PointFormat,
    body: &mut Rope,
) -> Result<(), AllocError>
    ensures { OnOk result (body.new.items ≡ body.old.items
        ++ flat_map (route_sample points exchange.now family destination) sets.now) }
{
    for set in sets {
        put_route_sample(family, exchange, destination, *set, points, body)?;
    }
    Ok(())
}

/// Appends the sample of the route to a destination by a set.
#[tactic(auto, unfolding(crate::specs::Metrics::route_sample))]
fn put_route_sample(
    family: Family,
    exchange: &Exchange,
    destination: usize,
    set: SetId,
    points: PointFormat,
    body: &mut Rope,
) -> Result<(), AllocError>
    ensures { OnOk result (body.new.items
        ≡ body.old.items ++ route_sample points exchange.now family destination set) }
{
    let labels = labels_of(exchange.settings(), destination, set, points);
    put_sample(
        family,
        labels.as_str(),
        use_value(exchange, destination, set),
        body,
    )
}

/// The labels of the route to a destination by a set.
fn labels_of(
    settings: &Settings,
    destination: usize,
    set: SetId,
    points: PointFormat,
) -> ArrayString<LABELS_OCTETS>
    ensures { result.bytes ≡ route_labels (destination_text points settings.now destination)
        (set_name_in settings.now set) (adjacent_text points settings.now set) }
{
    let text = destination_text(settings, destination, points);
    let adjacent = adjacent_text(settings, set, points);
    route_labels(text.as_str(), set_name(settings, set), adjacent.as_str())
}
