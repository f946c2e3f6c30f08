//! The states of a link, and the table that leads from one to the other.

ghost use Rattle.std.specs.Prelude.{◌≡◌, Option, Some, None};
ghost use Rattle.link.specs.Table.{action_at, entering, opening, period_after, staying, timer_of};

use crate::action::{Action, Input, LinkTimer, Transition};
use crate::period::Period;
use m2pa_codec::LinkStatus;

/// Where a link stands on its way into service (Q.703 §7, RFC 4165 §4.1.3; the table is this project's own).
#[derive(Clone, Copy, Debug, PartialEq, Eq)]
pub enum Alignment {
    /// The link is out of use.
    Down,
    /// An association is there, and the peer isn't aligned yet.
    NotAligned,
    /// The peer is aligned too, and will be proved.
    Aligned,
    /// The link is proved; the peer's Ready may have come already.
    Proving {
        /// Whether it came.
        ready: bool,
    },
    /// The link is proved, and the peer isn't ready yet.
    AlignedReady,
    /// The link carries messages.
    InService,
}

impl Alignment {
    // Proving begins before the peer is ready.
    const UNREADY: Alignment = Alignment::Proving { ready: false };

    /// The first step of a link that was down and has an association now.
    pub fn open(period: Period) -> Transition
        ensures { result ≡ opening period }
    {
        Transition {
            state: Alignment::NotAligned,
            period,
            stop: None,
            anew: false,
            send: Some(LinkStatus::Alignment),
            start: Some(LinkTimer::L2),
            serve: false,
        }
    }

    /// What a link in this state does about an input, with its proving period.
    pub fn on(self, period: Period, input: Input) -> Action
        ensures { result ≡ action_at period self input }
    {
        match self {
            Alignment::Down => Action::Ignored,
            Alignment::NotAligned => in_not_aligned(period, input),
            Alignment::Aligned => in_aligned(period, input),
            Alignment::Proving { ready } => in_proving(ready, period, input),
            Alignment::AlignedReady => in_aligned_ready(period, input),
            Alignment::InService => in_service(period, input),
        }
    }

    /// The timer that runs in this state, if one does.
    pub fn timer(self) -> Option<LinkTimer>
        ensures { result ≡ timer_of self }
    {
        match self {
            Alignment::NotAligned => Some(LinkTimer::L2),
            Alignment::Aligned => Some(LinkTimer::L3),
            Alignment::Proving { .. } => Some(LinkTimer::L4),
            Alignment::AlignedReady => Some(LinkTimer::L1),
            Alignment::Down | Alignment::InService => None,
        }
    }

    /// The step to another state, with the period from then on, the status that is sent and the timer that starts.
    fn enter(
        self,
        state: Alignment,
        period: Period,
        send: Option<LinkStatus>,
        start: Option<LinkTimer>,
    ) -> Transition
        ensures { result ≡ entering self state period send start }
    {
        Transition {
            state,
            period,
            stop: self.timer(),
            anew: false,
            send,
            start,
            serve: false,
        }
    }

    /// No step: this state, and nothing is sent, started or stopped.
    fn stay(self, period: Period) -> Transition
        ensures { result ≡ staying self period }
    {
        Transition {
            state: self,
            period,
            stop: None,
            anew: false,
            send: None,
            start: None,
            serve: false,
        }
    }
}

/// A link that waits for its peer to align.
fn in_not_aligned(period: Period, input: Input) -> Action
    ensures { result ≡ action_at period Alignment.NotAligned input }
{
    let here = Alignment::NotAligned;
    let after = period.after(input);
    let proving = Some(period.status());
    match input {
        Input::Status(LinkStatus::Alignment) => {
            Action::Go(here.enter(Alignment::Aligned, after, proving, Some(LinkTimer::L3)))
        }
        Input::Status(LinkStatus::ProvingNormal | LinkStatus::ProvingEmergency) => {
            Action::Go(here.enter(Alignment::UNREADY, after, proving, Some(LinkTimer::L4)))
        }
        Input::Expiry(LinkTimer::L2) | Input::UserData => Action::Fail,
        _ => Action::Ignored,
    }
}

/// A link whose peer is aligned.
fn in_aligned(period: Period, input: Input) -> Action
    ensures { result ≡ action_at period Alignment.Aligned input }
{
    let here = Alignment::Aligned;
    match input {
        Input::Status(LinkStatus::ProvingNormal | LinkStatus::ProvingEmergency) => {
            let after = period.after(input);
            Action::Go(here.enter(Alignment::UNREADY, after, None, Some(LinkTimer::L4)))
        }
        Input::Expiry(LinkTimer::L3) | Input::Status(LinkStatus::OutOfService) | Input::UserData =>
            Action::Fail,
        _ => Action::Ignored,
    }
}

/// A link that is proved.
fn in_proving(ready: bool, period: Period, input: Input) -> Action
    ensures { result ≡ action_at period (Alignment.Proving ready) input }
{
    match input {
        Input::Status(LinkStatus::Ready) => {
            Action::Go(Alignment::Proving { ready: true }.stay(period))
        }
        Input::Status(LinkStatus::ProvingEmergency) => hurry(ready, period),
        Input::Status(LinkStatus::Alignment) => begin_again(ready, period),
        Input::Expiry(LinkTimer::L4) => end_proving(ready, period),
        Input::Status(LinkStatus::OutOfService | LinkStatus::ProcessorOutage) | Input::UserData =>
            Action::Fail,
        _ => Action::Ignored,
    }
}

/// The peer asks for emergency proving while a link is proved (Q.703 §7.3).
fn hurry(ready: bool, period: Period) -> Action
    ensures { result ≡
        action_at period (Alignment.Proving ready) (Input.Status LinkStatus.ProvingEmergency) }
{
    let here = Alignment::Proving { ready };
    match period {
        Period::Normal => {
            Action::Go(here.enter(here, Period::Hurried, None, Some(LinkTimer::L4)))
        }
        Period::Fixed | Period::Hurried | Period::Emergency => Action::Ignored,
    }
}

/// The peer aligns anew while a link is proved (Q.703 §7.3).
fn begin_again(ready: bool, period: Period) -> Action
    ensures { result ≡ action_at period (Alignment.Proving ready) (Input.Status LinkStatus.Alignment) }
{
    let here = Alignment::Proving { ready };
    let after = period.after(Input::Status(LinkStatus::Alignment));
    let proving = Some(after.status());
    match period {
        Period::Fixed => Action::Ignored,
        Period::Normal | Period::Hurried | Period::Emergency => {
            let step = here.enter(Alignment::Aligned, after, proving, Some(LinkTimer::L3));
            Action::Go(step.begin_anew())
        }
    }
}

/// The proving of a link succeeds (Q.703 §7.3).
fn end_proving(ready: bool, period: Period) -> Action
    ensures { result ≡ action_at period (Alignment.Proving ready) (Input.Expiry LinkTimer.L4) }
{
    let here = Alignment::Proving { ready };
    let told = Some(LinkStatus::Ready);
    Action::Go(if ready {
        here.enter(Alignment::InService, period, told, None)
    } else {
        here.enter(Alignment::AlignedReady, period, told, Some(LinkTimer::L1))
    })
}

/// A link that is proved, whose peer isn't ready.
fn in_aligned_ready(period: Period, input: Input) -> Action
    ensures { result ≡ action_at period Alignment.AlignedReady input }
{
    let step = Alignment::AlignedReady.enter(Alignment::InService, period, None, None);
    match input {
        Input::Status(LinkStatus::Ready) => Action::Go(step),
        Input::UserData => Action::Go(step.then_serve()),
        Input::Expiry(LinkTimer::L1)
        | Input::Status(
            LinkStatus::Alignment | LinkStatus::OutOfService | LinkStatus::ProcessorOutage,
        ) => Action::Fail,
        _ => Action::Ignored,
    }
}

/// A link that carries messages.
fn in_service(period: Period, input: Input) -> Action
    ensures { result ≡ action_at period Alignment.InService input }
{
    match input {
        Input::Status(LinkStatus::Busy | LinkStatus::BusyEnded) | Input::UserData => {
            Action::Go(Alignment::InService.stay(period).then_serve())
        }
        Input::Expiry(LinkTimer::L6 | LinkTimer::L7)
        | Input::Status(
            LinkStatus::Alignment
            | LinkStatus::ProvingNormal
            | LinkStatus::ProvingEmergency
            | LinkStatus::OutOfService
            | LinkStatus::ProcessorOutage,
        ) => Action::Fail,
        _ => Action::Ignored,
    }
}
