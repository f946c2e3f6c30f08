//! The metrics of a node, in Prometheus' text format 0.0.4.

ghost use Rattle.std.specs.Prelude.{◌≡◌, ◌++◌, OnOk, flat_map};
ghost use Rattle.exchange.specs.KeptQueues.{kept};
ghost use Rattle.status_page.specs.Facts.{facts_of};
ghost use Rattle.status_page.specs.Metrics.{families_text, family_text, metric_text, metrics_text};

use crate::alarm_sampling::put_alarm_samples;
use crate::facts::Facts;
use crate::family::Family;
use crate::labels::node_labels;
use crate::measuring::node_value;
use crate::metric::Metric;
use crate::sample::{put_head, put_sample};
use crate::sampling::{
    put_destination_samples, put_link_samples, put_route_samples, put_set_samples,
};
use exchange::Exchange;
use http_server::Rope;
use std::alloc::AllocError;

/// Appends all metrics.
pub(crate) fn put_metrics(
    exchange: &Exchange,
    facts: &Facts<'_>,
    body: &mut Rope,
) -> Result<(), AllocError>
    ensures { OnOk result (body.new.items
        ≡ body.old.items ++ metrics_text kept exchange.now (facts_of facts.now)) }
{
    put_families(&Family::ALL, exchange, facts, body)
}

/// Appends these families.
fn put_families(
    families: &[Family],
    exchange: &Exchange,
    facts: &Facts<'_>,
    body: &mut Rope,
) -> Result<(), AllocError>
    ensures { OnOk result (body.new.items
        ≡ body.old.items ++ families_text kept exchange.now (facts_of facts.now) families.now) }
{
    for family in families {
        put_family(*family, exchange, facts, body)?;
    }
    Ok(())
}

/// Appends a family: its head, and then its metrics.
fn put_family(
    family: Family,
    exchange: &Exchange,
    facts: &Facts<'_>,
    body: &mut Rope,
) -> Result<(), AllocError>
    ensures { OnOk result (body.new.items
        ≡ body.old.items ++ family_text kept exchange.now (facts_of facts.now) family) }
{
    put_head(family, body)?;
    put_each(family, family.metrics(), exchange, facts, body)
}

/// Appends the samples of these metrics of a family.
fn put_each(
    family: Family,
    metrics: &[Metric],
    exchange: &Exchange,
    facts: &Facts<'_>,
    body: &mut Rope,
) -> Result<(), AllocError>
    ensures { OnOk result (body.new.items ≡ body.old.items
        ++ flat_map (metric_text kept exchange.now (facts_of facts.now) family) metrics.now) }
{
    for metric in metrics {
        put_metric(family, metric, exchange, facts, body)?;
    }
    Ok(())
}

/// Appends the samples of a metric.
#[tactic(auto, unfolding(crate::specs::Metrics::metric_text))]
fn put_metric(
    family: Family,
    metric: &Metric,
    exchange: &Exchange,
    facts: &Facts<'_>,
    body: &mut Rope,
) -> Result<(), AllocError>
    ensures { OnOk result (body.new.items
        ≡ body.old.items ++ metric_text kept exchange.now (facts_of facts.now) family metric.now) }
{
    match metric {
        Metric::Node(metric) => put_sample(
            family,
            node_labels(*metric).as_str(),
            node_value(*metric, exchange, facts),
            body,
        ),
        Metric::Link(metric) => put_link_samples(family, *metric, exchange, facts, body),
        Metric::Set(metric) => put_set_samples(family, *metric, exchange, facts, body),
        Metric::Destination(metric) => {
            put_destination_samples(family, *metric, exchange, facts.points, body)
        }
        Metric::Route => put_route_samples(family, exchange, facts.points, body),
        Metric::Alarm => put_alarm_samples(family, exchange, facts, body),
    }
}
