//! The states of links as an operator sees them (Q.704 §3.2).

ghost use Rattle.std.specs.Prelude.{◌≡◌, ◌≤◌, IfOk, length, slice_get};
ghost use Rattle.std.specs.Option.{option_copied};
ghost use Rattle.served_link.specs.ServiceStates.{at_start, change_at, change_of, changeovers_by, first_links};
ghost use Rattle.served_link.specs.ServiceStates.{is_available, is_changing_over, is_in_service, links_after};
ghost use Rattle.served_link.specs.ServiceStates.{failed_at, seen_after, seen_as, state_words, timed_at};
ghost use Rattle.served_link.specs.ServiceStates.{timer_of};

use crate::link_failure::{FailingTimer, LinkFailure, ran_out};
use signalling_types::{FailureReason, LinkId};
use std::alloc::{AllocError, Global};
use std::marker::Model;

/// Octets of the words of a state, at most.
const STATE_OCTETS: usize = 18;

/// The state of a link (Q.704 §3.2). It is available in service, and unavailable in each other state.
#[derive(Clone, Copy, PartialEq, Eq)]
pub enum ServiceState {
    /// It is in service (Q.704 §3.2.1).
    InService,
    /// It is in service, but no user message takes it until it has passed its first test (Q.707 §2.2).
    UnderTest,
    /// It is in service, but blocked: the peer's processor is out (Q.704 §3.2.6).
    ProcessorOutage,
    /// An association is there, and the link is being aligned and proved (Q.703 §7).
    Aligning,
    /// It has failed or was deactivated, and its messages change over to other links (Q.704 §5).
    ChangingOver,
    /// Its changeover is over, but the acknowledgement of its order is awaited, and until then it may not open.
    Barred,
    /// It has failed or was deactivated, and its association isn't closed yet.
    Closing,
    /// It may open, and hasn't been available since the node started.
    NotYetInService,
    /// It has failed since it was available, and may open (Q.704 §3.2.2).
    Failed,
    /// The operator took it out of service (Q.704 §3.2.4).
    Deactivated,
}

impl ServiceState {
    /// The state in words.
    pub fn words(self) -> &'static str
        ensures words { result.now ≡ state_words self }
        ensures fits { length result.now ≤ STATE_OCTETS }
    {
        match self {
            ServiceState::InService => "in service",
            ServiceState::UnderTest => "under test",
            ServiceState::ProcessorOutage => "processor outage",
            ServiceState::Aligning => "aligning",
            ServiceState::ChangingOver => "changing over",
            ServiceState::Barred => "barred",
            ServiceState::Closing => "closing",
            ServiceState::NotYetInService => "not in service yet",
            ServiceState::Failed => "failed",
            ServiceState::Deactivated => "deactivated",
        }
    }

    /// Whether a link in this state is available.
    pub fn is_available(self) -> bool
        ensures { result ≡ is_available self }
    {
        matches!(self, ServiceState::InService)
    }

    /// Whether a link in this state is aligned and proved, available or not.
    pub fn is_in_service(self) -> bool
        ensures { result ≡ is_in_service self }
    {
        matches!(
            self,
            ServiceState::InService | ServiceState::UnderTest | ServiceState::ProcessorOutage
        )
    }

    /// Whether the messages of a link in this state change over, and that isn't over.
    fn is_changing_over(self) -> bool
        ensures { result ≡ is_changing_over self }
    {
        matches!(self, ServiceState::ChangingOver)
    }

    /// This state of a link that was available before, or wasn't: of the two states in which it may open, the one that
    /// fits.
    fn seen_as(self, was_available: bool) -> ServiceState
        ensures { result ≡ seen_as was_available self }
    {
        match self {
            ServiceState::NotYetInService | ServiceState::Failed => {
                if was_available {
                    ServiceState::Failed
                } else {
                    ServiceState::NotYetInService
                }
            }
            _ => self,
        }
    }
}

/// A link as it was last seen.
#[derive(Clone, Copy)]
pub struct StateSince {
    /// Its state.
    pub state: ServiceState,
    /// Since when it is in this state, in milliseconds after the start.
    pub since_ms: u64,
    /// Whether it was available then, or before.
    pub was_available: bool,
    /// How many changeovers of it ended since the start; it stays at 2^64 - 1 (Q.704 §5).
    pub changeovers: u64,
    /// The timer that fails it if it runs out by the tick that began last.
    pub timer: Option<FailingTimer>,
    /// Its last failure.
    pub failure: Option<LinkFailure>,
}

/// A change of a link's state.
#[derive(Clone, Copy)]
pub struct StateChange {
    /// The link before.
    pub former: StateSince,
    /// The state that it is in now.
    pub state: ServiceState,
}

impl StateChange {
    /// How many changeovers of the link ended by now. One did since the former look if the link was changing over, or
    /// was in service and is out of it, and isn't changing over now.
    fn changeovers(self) -> u64
        ensures { result ≡ changeovers_by self }
    {
        let former = self.former.state;
        let left_service = former.is_in_service() && !self.state.is_in_service();
        if (former.is_changing_over() || left_service) && !self.state.is_changing_over() {
            self.former.changeovers.saturating_add(1)
        } else {
            self.former.changeovers
        }
    }
}

impl StateSince {
    /// A link as a node starts.
    pub fn at_start() -> StateSince
        ensures { result ≡ at_start }
    {
        StateSince {
            state: ServiceState::NotYetInService,
            since_ms: 0,
            was_available: false,
            changeovers: 0,
            timer: None,
            failure: None,
        }
    }

    /// What changes by a look that finds the link in this state.
    fn change(self, found: ServiceState) -> Option<StateChange>
        ensures { result ≡ change_of found self }
    {
        let state = found.seen_as(self.was_available);
        if self.state == state {
            None
        } else {
            Some(StateChange {
                former: self,
                state,
            })
        }
    }

    /// The link after a look that finds it in this state.
    fn after(self, found: ServiceState, now_ms: u64) -> StateSince
        ensures { result ≡ seen_after found now_ms self }
    {
        match self.change(found) {
            Some(change) => StateSince {
                state: change.state,
                since_ms: now_ms,
                was_available: self.was_available || found.is_available(),
                changeovers: change.changeovers(),
                timer: self.timer,
                failure: self.failure,
            },
            None => self,
        }
    }
}

/// The links of a node as they were last seen.
#[derive(Drop)]
pub struct ServiceStates {
    rows: Vec<StateSince>,
}

impl Model for ServiceStates {
    ghost use Rattle.std.specs.Prelude.{List};
    ghost use Rattle.served_link.specs.declared.service_states.StateSince.{StateSince};

    ghost Value = { List StateSince };

    ghost view = { λ l. l.rows.items };
}

impl ServiceStates {
    /// So many links, as a node starts. The error means that memory ran out.
    pub fn new(alloc: Global, links: usize) -> Result<ServiceStates, AllocError>
        ensures { IfOk result (λ states. states ≡ first_links links) }
    {
        Ok(ServiceStates {
            rows: vec![in alloc; StateSince::at_start(); links]?,
        })
    }

    /// A link as it was last seen, if there is one.
    pub fn link(&self, link: LinkId) -> Option<&StateSince>
        ensures { option_copied result ≡ slice_get self.now link }
    {
        self.rows.get(link.index())
    }

    /// A link was found in this state, so many milliseconds after the start. Returns what changed, if anything did.
    pub fn note(&mut self, link: LinkId, found: ServiceState, now_ms: u64) -> Option<StateChange>
        ensures change { result ≡ change_at found (slice_get self.old link) }
        ensures links { self.new ≡ links_after link found now_ms self.old }
    {
        let row = self.rows.get_mut(link.index())?;
        let former = *row;
        *row = former.after(found, now_ms);
        former.change(found)
    }

    /// A tick begins: this timer fails a link if it runs out.
    pub fn note_timer(&mut self, link: LinkId, timer: Option<FailingTimer>)
        ensures { self.new ≡ timed_at link timer self.old }
    {
        if let Some(row) = self.rows.get_mut(link.index()) {
            row.timer = timer;
        }
    }

    /// A link failed for this reason, so many milliseconds after the start. Returns the timer that ran out, if one did.
    pub fn note_failure(
        &mut self,
        link: LinkId,
        reason: FailureReason,
        now_ms: u64,
    ) -> Option<FailingTimer>
        ensures timer { result ≡ timer_of reason (slice_get self.old link) }
        ensures links { self.new ≡ failed_at link reason now_ms self.old }
    {
        let row = self.rows.get_mut(link.index())?;
        let timer = ran_out(reason, row.timer);
        row.failure = Some(LinkFailure {
            reason,
            timer,
            at_ms: now_ms,
        });
        timer
    }
}
