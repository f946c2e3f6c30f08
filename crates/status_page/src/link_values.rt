//! The value of each metric of a link.

ghost use Rattle.std.specs.Prelude.{◌≡◌, slice_get};
ghost use Rattle.exchange.specs.KeptQueues.{kept};
ghost use Rattle.status_page.specs.Facts.{facts_of};
ghost use Rattle.status_page.specs.Measuring.{association_of, count_if, is_changing_over, is_in_service, keeps_off};
ghost use Rattle.status_page.specs.Measuring.{is_shown_at_zero, is_watched, link_value, messages_of, round_trip_of};
ghost use Rattle.status_page.specs.Measuring.{seen_of, unavailabilities, unavailable_ms, waiting_on};

use crate::counted::counters_of;
use crate::facts::Facts;
use crate::measuring::bit;
use crate::metric::LinkMetric;
use exchange::{Exchange, LinkStanding, Obstacle};
use served_link::{
    AssociationStatus, Counter, Counters, LinkMessages, ServiceStates, StateSince, UnavailableTimes,
};
use signalling_types::{Cause, LinkId};

/// The value of a metric of a link, if it has one that is shown. Counters that have a cause, a reason or a kind each are
/// shown once there is something to count, but those that alerts name always.
pub(crate) fn link_value(
    metric: LinkMetric,
    exchange: &Exchange,
    facts: &Facts<'_>,
    link: LinkId,
) -> Option<u64>
    ensures { result ≡ link_value kept metric exchange.now (facts_of facts.now) link }
{
    let now_ms = facts.times.uptime_ms;
    match metric {
        LinkMetric::InService => Some(bit(is_in_service(exchange, link))),
        LinkMetric::ChangingOver => Some(bit(is_changing_over(exchange, link))),
        LinkMetric::Barred => Some(bit(exchange.is_barred(link))),
        LinkMetric::Waiting => Some(waiting_on(exchange, link)),
        LinkMetric::UnavailableTime => {
            Some(unavailable_ms(facts.link_times, link.index(), now_ms))
        }
        LinkMetric::Unavailabilities => Some(unavailabilities(facts.link_times, link.index())),
        LinkMetric::Changeovers => Some(seen_of(facts.states, link).changeovers),
        LinkMetric::Counted(counter) => count_if(
            is_shown_at_zero(counter),
            counters_of(facts.counters, link).get(counter),
        ),
        LinkMetric::ServiceHeard(service) => {
            count_if(
                false,
                messages_of(facts.counters, link).heard.of_service(service),
            )
        }
        LinkMetric::ServiceSent(service) => {
            count_if(
                false,
                messages_of(facts.counters, link).sent.of_service(service),
            )
        }
        LinkMetric::ManagementHeard(kind) => {
            count_if(false, messages_of(facts.counters, link).heard.of_kind(kind))
        }
        LinkMetric::ManagementSent(kind) => {
            count_if(false, messages_of(facts.counters, link).sent.of_kind(kind))
        }
        LinkMetric::RoundTrip => round_trip_of(association_of(facts.associations, link)),
        LinkMetric::RetransmissionTimeout => match association_of(facts.associations, link) {
            Some(status) => Some(u64::from(status.timeout_ms)),
            None => None,
        },
        LinkMetric::CongestionWindow => match association_of(facts.associations, link) {
            Some(status) => Some(u64::from(status.congestion_window)),
            None => None,
        },
    }
}

/// A link as it was last seen; as a node starts, if it isn't there.
pub(crate) fn seen_of(states: &ServiceStates, link: LinkId) -> StateSince
    ensures { result ≡ seen_of states.now link }
{
    states.link(link).copied().unwrap_or(StateSince::at_start())
}

/// The messages of a link by kind; none for a link that isn't there.
fn messages_of(counters: &Counters, link: LinkId) -> LinkMessages
    ensures { result ≡ messages_of counters.now.messages link }
{
    counters
        .messages(link)
        .copied()
        .unwrap_or(LinkMessages::new())
}

/// How the association of a link does, if it is over SCTP, and up.
fn association_of(
    associations: &[Option<AssociationStatus>],
    link: LinkId,
) -> Option<AssociationStatus>
    ensures { result ≡ association_of associations.now link }
{
    match associations.get(link.index()) {
        Some(status) => *status,
        None => None,
    }
}

/// The smoothed round trip of an association, in milliseconds, if one was measured.
fn round_trip_of(status: Option<AssociationStatus>) -> Option<u64>
    ensures { result ≡ round_trip_of status }
{
    match status?.round_trip_ms {
        Some(round_trip_ms) => Some(u64::from(round_trip_ms)),
        None => None,
    }
}

/// A count, if it is above 0 or shown at 0.
fn count_if(is_shown_at_zero: bool, count: u64) -> Option<u64>
    ensures { result ≡ count_if is_shown_at_zero count }
{
    (is_shown_at_zero || 0 < count).then_some(count)
}

/// For how many milliseconds one of these was unavailable by now; 0 if there is none of this number.
pub(crate) fn unavailable_ms(times: &UnavailableTimes, number: usize, now_ms: u64) -> u64
    ensures { result ≡ unavailable_ms now_ms (slice_get times.now number) }
{
    match times.get(number) {
        Some(row) => row.by_ms(now_ms),
        None => 0,
    }
}

/// How often one of these became unavailable; 0 if there is none of this number.
pub(crate) fn unavailabilities(times: &UnavailableTimes, number: usize) -> u64
    ensures { result ≡ unavailabilities (slice_get times.now number) }
{
    match times.get(number) {
        Some(row) => row.times,
        None => 0,
    }
}

/// Whether a link is in service, and user messages may take it (Q.704 §3.2).
pub(crate) fn is_in_service(exchange: &Exchange, link: LinkId) -> bool
    ensures { result ≡ is_in_service kept exchange.now link }
{
    match exchange.link(link) {
        Some(view) => {
            matches!(view.standing, LinkStanding::InService) && !keeps_off(exchange.obstacle(link))
        }
        None => false,
    }
}

/// Whether this keeps user messages off a link that is in service.
fn keeps_off(obstacle: Option<Obstacle>) -> bool
    ensures { result ≡ keeps_off obstacle }
{
    matches!(obstacle, Some(Obstacle::Untested | Obstacle::PeerOutage))
}

/// Whether a link is down, and its changeover isn't complete or an acknowledgement of its changeover order is awaited.
pub(crate) fn is_changing_over(exchange: &Exchange, link: LinkId) -> bool
    ensures { result ≡ is_changing_over kept exchange.now link }
{
    match exchange.link(link) {
        Some(view) => matches!(view.standing, LinkStanding::Down) && !exchange.may_restart(link),
        None => false,
    }
}

/// How many messages of a link's queue aren't confirmed.
fn waiting_on(exchange: &Exchange, link: LinkId) -> u64
    ensures { result ≡ waiting_on kept exchange.now link }
{
    match exchange.link(link) {
        Some(view) => view.waiting as u64,
        None => 0,
    }
}

/// Whether a counter is shown while it is 0.
fn is_shown_at_zero(counter: Counter) -> bool
    ensures { result ≡ is_shown_at_zero counter }
{
    match counter {
        Counter::Refused(cause) => is_watched(cause),
        Counter::Setbacks(_) => false,
        Counter::FramesIn
        | Counter::OctetsIn
        | Counter::FramesOut
        | Counter::OctetsOut
        | Counter::Forwarded
        | Counter::Delivered
        | Counter::Failed(_)
        | Counter::Retries
        | Counter::Retransmissions => true,
    }
}

/// Whether alerts name a cause.
fn is_watched(cause: Cause) -> bool
    ensures { result ≡ is_watched cause }
{
    cause.number() == Cause::PoolFull.number() || cause.number() == Cause::ShareFull.number()
}
