//! The value of each metric of the node.

ghost use Rattle.std.specs.Prelude.{◌≡◌};
ghost use Rattle.exchange.specs.KeptQueues.{kept};
ghost use Rattle.status_page.specs.Facts.{facts_of};
ghost use Rattle.status_page.specs.Measuring.{bit, held_users, kept_messages, node_value, users_on, users_on_links};

use crate::facts::Facts;
use crate::metric::NodeMetric;
use cell_pool::UserMessages;
use exchange::Exchange;
use signalling_types::LinkId;
use signalling_types::number::next;

/// Milliseconds in a second.
const SECOND_MS: u64 = 1_000;

/// The value of a metric of the node.
pub(crate) fn node_value(metric: NodeMetric, exchange: &Exchange, facts: &Facts<'_>) -> u64
    ensures { result ≡ node_value kept metric exchange.now (facts_of facts.now) }
{
    match metric {
        NodeMetric::Build => 1,
        NodeMetric::Uptime => facts.times.uptime_ms / SECOND_MS,
        NodeMetric::LongestTurn => facts.times.longest_turn_us,
        NodeMetric::PoolLimit => exchange.settings().pool() as u64,
        NodeMetric::Pool => kept_messages(exchange),
        NodeMetric::Held => held_users(exchange),
        NodeMetric::Notices(kind) => facts.notices.count_of(kind),
        NodeMetric::LostAny => bit(exchange.lost_any()),
        NodeMetric::LateAny => bit(exchange.late_any()),
        NodeMetric::TimesLost => exchange.times_lost(),
        NodeMetric::TimesLate => exchange.times_late(),
        NodeMetric::MessagesLost => exchange.messages_lost(),
        NodeMetric::TimesBroken => exchange.times_broken(),
        NodeMetric::TimesRerouted => exchange.times_rerouted(),
        NodeMetric::DatagramsReceived => facts.counters.datagrams().incoming,
        NodeMetric::DatagramsSent => facts.counters.datagrams().outgoing,
        NodeMetric::Strangers => facts.counters.datagrams().strangers,
    }
}

/// 1 or 0.
pub(crate) fn bit(is: bool) -> u64
    ensures { result ≡ bit is }
{
    u64::from(is)
}

/// How many user messages are held. It looks at each once.
pub(crate) fn held_users(exchange: &Exchange) -> u64
    ensures { result ≡ held_users kept exchange.now }
{
    exchange.count_held_picked(&UserMessages) as u64
}

/// How many user messages the node keeps, as its pool counts them: of each link those that aren't confirmed, and those
/// that are held. It looks at each of them once.
pub fn kept_messages(exchange: &Exchange) -> u64
    ensures { result ≡ kept_messages kept exchange.now }
{
    held_users(exchange).saturating_add(users_on_links(exchange))
}

/// How many user messages of all links aren't confirmed.
fn users_on_links(exchange: &Exchange) -> u64
    ensures { result ≡ users_on_links kept exchange.now }
{
    let mut users: u64 = 0;
    for k in 0..exchange.settings().link_count() {
        users = users.saturating_add(users_on(exchange, LinkId::new(k as u8)));
    }
    users
}

/// How many user messages of a link's queue aren't confirmed: those that the number of the next message leaves.
fn users_on(exchange: &Exchange, link: LinkId) -> u64
    ensures { result ≡ users_on kept exchange.now link }
{
    match exchange.link(link) {
        Some(view) => exchange.count_behind(link, next(view.last_sent), &UserMessages) as u64,
        None => 0,
    }
}
