//! The value of each metric of a set.

ghost use Rattle.std.specs.Prelude.{◌≡◌};
ghost use Rattle.exchange.specs.KeptQueues.{kept};
ghost use Rattle.status_page.specs.Facts.{facts_of};
ghost use Rattle.status_page.specs.Measuring.{links_in_service, serves_in, set_value};

use crate::facts::Facts;
use crate::link_values::{is_in_service, unavailabilities, unavailable_ms};
use crate::measuring::bit;
use crate::metric::SetMetric;
use crate::places::is_of_set;
use exchange::Exchange;
use signalling_types::{LinkId, SetId};

/// The value of a metric of a set.
pub(crate) fn set_value(
    metric: SetMetric,
    exchange: &Exchange,
    facts: &Facts<'_>,
    set: SetId,
) -> u64
    ensures { result ≡ set_value kept metric exchange.now (facts_of facts.now) set }
{
    match metric {
        SetMetric::Available => bit(0 < links_in_service(exchange, set)),
        SetMetric::LinksInService => links_in_service(exchange, set),
        SetMetric::UnavailableTime => {
            unavailable_ms(facts.set_times, set.index(), facts.times.uptime_ms)
        }
        SetMetric::Unavailabilities => unavailabilities(facts.set_times, set.index()),
    }
}

/// How many links of a set are in service.
fn links_in_service(exchange: &Exchange, set: SetId) -> u64
    ensures { result ≡ links_in_service kept exchange.now set }
{
    let mut links: u64 = 0;
    for k in 0..exchange.settings().link_count() {
        links = links.saturating_add(serves_in(exchange, LinkId::new(k as u8), set));
    }
    links
}

/// 1 if a link is of a set and in service, else 0.
fn serves_in(exchange: &Exchange, link: LinkId, set: SetId) -> u64
    ensures { result ≡ serves_in kept exchange.now link set }
{
    bit(is_of_set(exchange.settings(), link, set) && is_in_service(exchange, link))
}
