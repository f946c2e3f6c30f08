//! What is seen of the links and the destinations of a node.

ghost use Rattle.std.specs.Prelude.{◌≡◌};
ghost use Rattle.served_link.specs.LinkFailures.{failing_by, failing_timer, timer_in_service};
ghost use Rattle.served_link.specs.ShownStates.{access_by, destination_state_in, down_state, served_state, service_state_in};
ghost use Rattle.served_link.specs.ShownStates.{state_by};

use crate::destination_states::{Access, DestinationState};
use crate::link_failure::FailingTimer;
use crate::service_states::ServiceState;
use exchange::{Exchange, LinkStanding, Obstacle, RouteStatus, Wants};
use signalling_types::LinkId;

/// The state of a link; None if no link has this number.
pub fn service_state(exchange: &Exchange, link: LinkId) -> Option<ServiceState>
    ensures { result ≡ service_state_in exchange.now link }
{
    let view = exchange.link(link)?;
    let is_barred = exchange.is_barred(link);
    let may_restart = exchange.may_restart(link);
    let down = down_state(is_barred, may_restart, exchange.wants(link));
    let served = served_state(exchange.obstacle(link));
    Some(state_by(view.standing, down, served))
}

/// The state of a link, by where it stands, and by the states that it has if it is down, and if it is in service.
fn state_by(standing: LinkStanding, down: ServiceState, served: ServiceState) -> ServiceState
    ensures { result ≡ state_by standing down served }
{
    match standing {
        LinkStanding::Down => down,
        LinkStanding::NotAligned
        | LinkStanding::Aligned
        | LinkStanding::Proving
        | LinkStanding::AlignedReady => ServiceState::Aligning,
        LinkStanding::InService => served,
    }
}

/// The state of a link that is down.
fn down_state(is_barred: bool, may_restart: bool, wants: Wants) -> ServiceState
    ensures { result ≡ down_state is_barred may_restart wants }
{
    if is_barred {
        return ServiceState::Barred;
    }
    if !may_restart {
        return ServiceState::ChangingOver;
    }
    match wants {
        Wants::Close => ServiceState::Closing,
        Wants::Open => ServiceState::Failed,
        Wants::Nothing => ServiceState::Deactivated,
    }
}

/// The state of a link that is in service, by what keeps user messages off it. One whose peer is busy is available.
fn served_state(obstacle: Option<Obstacle>) -> ServiceState
    ensures { result ≡ served_state obstacle }
{
    match obstacle {
        Some(Obstacle::Untested) => ServiceState::UnderTest,
        Some(Obstacle::PeerOutage) => ServiceState::ProcessorOutage,
        Some(Obstacle::PeerBusy) | None => ServiceState::InService,
    }
}

/// The timer that fails a link if it runs out next, by where the link stands; None if none does, or if no link has this
/// number.
pub fn failing_timer(exchange: &Exchange, link: LinkId) -> Option<FailingTimer>
    ensures { result ≡ failing_timer exchange.now link }
{
    match exchange.link(link) {
        Some(view) => failing_by(view.standing, exchange.obstacle(link)),
        None => None,
    }
}

/// The same of a link that stands so, with this that keeps messages off it.
fn failing_by(standing: LinkStanding, obstacle: Option<Obstacle>) -> Option<FailingTimer>
    ensures { result ≡ failing_by standing obstacle }
{
    match standing {
        LinkStanding::Down | LinkStanding::Proving => None,
        LinkStanding::NotAligned => Some(FailingTimer::L2),
        LinkStanding::Aligned => Some(FailingTimer::L3),
        LinkStanding::AlignedReady => Some(FailingTimer::L1),
        LinkStanding::InService => Some(timer_in_service(obstacle)),
    }
}

/// The same of a link in service.
fn timer_in_service(obstacle: Option<Obstacle>) -> FailingTimer
    ensures { result ≡ timer_in_service obstacle }
{
    match obstacle {
        Some(Obstacle::PeerBusy | Obstacle::PeerOutage) => FailingTimer::L6,
        Some(Obstacle::Untested) => FailingTimer::L6OrL7,
        None => FailingTimer::L7,
    }
}

/// The state of a destination, by its number in the order of the settings; None if none has this number.
pub fn destination_state(exchange: &Exchange, number: usize) -> Option<DestinationState>
    ensures { result ≡ destination_state_in exchange.now number }
{
    let view = exchange.route(number)?;
    Some(DestinationState::new(access_by(view.status), &view.sets))
}

/// Whether a destination is accessible, by the status of the routes that messages take.
fn access_by(status: RouteStatus) -> Access
    ensures { result ≡ access_by status }
{
    match status {
        RouteStatus::Allowed => Access::Accessible,
        RouteStatus::Restricted => Access::Restricted,
        RouteStatus::Prohibited => Access::Inaccessible,
    }
}
