//! Timers that run out, apart from T1 (RFC 9260 §6.3.3, §8.1, §9.2).

ghost use Rattle.std.specs.Prelude.{◌≡◌, ◌<◌, ◌≤◌, ◌^◌, ◌+◌, ◌-◌, nat_lt, if◌then◌else◌};
ghost use Rattle.sctp_rules.specs.State.{with_association};
ghost use Rattle.sctp_rules.specs.Ending.{aborted, violation};
ghost use Rattle.sctp_rules.specs.declared.loss.Loss.TheVariants.{NoAnswer};
ghost use Rattle.sctp_rules.specs.Timers.{is_due, unanswered, tick_t5, tick_t2, t2_out, tick_t3, t3_out};
ghost use Rattle.sctp_endpoint.specs.Endpoints.{Does};

use crate::endpoint::Endpoint;
use crate::endpoint::shutting::{SHUTDOWN_ACK_OCTETS, SHUTDOWN_OCTETS};
use sctp_bundling::{Reply, Watch};
use sctp_codec::Cause;
use sctp_rules::limits::CONTROL_OCTETS;
use sctp_rules::{Loss, Phase};

impl Endpoint {
    /// T5-shutdown-guard runs out, if it is due: it ends by ABORT.
    pub(super) fn tick_t5<W: Watch>(&mut self, now: u64, watch: &mut W)
        requires { self.old.state.generation < 2 ^ 64 - 1 }
        ensures { Does W.has watch.old watch.new self.old self.new
            (tick_t5 self.old.settings now self.old.state) }
    {
        if is_due(now, self.t5) {
            self.end_with(
                Loss::NoAnswer,
                Some(&Reply::Abort(Cause::EndedByUser)),
                watch,
            );
        }
    }

    /// T2-shutdown runs out, if it is due.
    pub(super) fn tick_t2<W: Watch>(&mut self, now: u64, watch: &mut W)
        requires generation { self.old.state.generation < 2 ^ 64 - 1 }
        requires now { now ≤ 2 ^ 63 }
        ensures { Does W.has watch.old watch.new self.old self.new
            (tick_t2 self.old.settings now self.old.state) }
    {
        if is_due(now, self.t2) {
            self.run_t2(now, watch);
        }
    }

    /// SHUTDOWN or SHUTDOWN ACK wasn't answered: it goes out again, or it is over.
    fn run_t2<W: Watch>(&mut self, now: u64, watch: &mut W)
        requires generation { self.old.state.generation < 2 ^ 64 - 1 }
        requires now { now ≤ 2 ^ 63 }
        ensures { Does W.has watch.old watch.new self.old self.new
            (unanswered self.old.settings (λ left. t2_out self.old.settings now left) self.old.state) }
    {
        if self.count_failure() {
            self.give_up(watch);
        } else {
            self.repeat_shutdown(now);
        }
    }

    /// SHUTDOWN or SHUTDOWN ACK goes out again with the next packet, and RTO is doubled.
    fn repeat_shutdown(&mut self, now: u64)
        requires { now ≤ 2 ^ 63 }
        ensures { self.new ≡ record self.old { state = (t2_out self.old.settings now self.old.state).left } }
    {
        self.sender.back_off();
        self.t2 = Some(now + u64::from(self.sender.timeout()));
        match self.phase {
            Phase::ShutdownSent => {
                if self.control.size() + SHUTDOWN_OCTETS <= CONTROL_OCTETS {
                    let cumulative = self.receiver.cumulative();
                    self.control.add(&Reply::Shutdown(cumulative));
                }
            }
            Phase::Closed
            | Phase::CookieWait
            | Phase::CookieEchoed
            | Phase::Established
            | Phase::ShutdownPending
            | Phase::ShutdownReceived
            | Phase::ShutdownAckSent => {
                if self.control.size() + SHUTDOWN_ACK_OCTETS <= CONTROL_OCTETS {
                    self.control.add(&Reply::ShutdownAck);
                }
            }
        }
    }

    /// T3-rtx runs out, if it is due.
    pub(super) fn tick_t3<W: Watch>(&mut self, now: u64, watch: &mut W)
        requires generation { self.old.state.generation < 2 ^ 64 - 1 }
        requires now { now ≤ 2 ^ 63 }
        ensures { Does W.has watch.old watch.new self.old self.new
            (tick_t3 self.old.settings now self.old.state) }
    {
        if is_due(now, self.sender.t3()) {
            self.run_t3(now, watch);
        }
    }

    /// DATA wasn't confirmed in time: what is out is lost, or it is over.
    fn run_t3<W: Watch>(&mut self, now: u64, watch: &mut W)
        requires generation { self.old.state.generation < 2 ^ 64 - 1 }
        requires now { now ≤ 2 ^ 63 }
        ensures { Does W.has watch.old watch.new self.old self.new
            (unanswered self.old.settings (λ left. t3_out self.old.settings now left) self.old.state) }
    {
        if self.count_failure() {
            self.give_up(watch);
        } else {
            self.sender.time_out(now);
        }
    }

    /// Counts that the peer didn't answer once more. Returns whether that is too often; then it isn't counted.
    pub(super) fn count_failure(&mut self) -> bool
        ensures is_last { result ≡ nat_lt self.old.settings.retransmissions (self.old.state.association.failures + 1) }
        ensures counted { self.new ≡ (if nat_lt self.old.settings.retransmissions (self.old.state.association.failures + 1)
            then self.old
            else record self.old {
              state = with_association self.old.state
                  (record self.old.state.association { failures = self.old.state.association.failures + 1 });
            }) }
    {
        if self.failures >= self.settings.retransmissions {
            return true;
        }
        self.failures += 1;
        false
    }

    /// The peer doesn't answer: it ends by ABORT.
    pub(super) fn give_up<W: Watch>(&mut self, watch: &mut W)
        requires { self.old.state.generation < 2 ^ 64 - 1 }
        ensures { Does W.has watch.old watch.new self.old self.new
            (aborted self.old.settings NoAnswer violation self.old.state) }
    {
        self.end_with(
            Loss::NoAnswer,
            Some(&Reply::Abort(Cause::ProtocolViolation(&[]))),
            watch,
        );
    }
}

/// Whether a timer that runs out at a moment has run out.
pub(super) fn is_due(now: u64, moment: Option<u64>) -> bool
    ensures { result ≡ is_due now moment }
{
    match moment {
        Some(moment) => moment <= now,
        None => false,
    }
}
