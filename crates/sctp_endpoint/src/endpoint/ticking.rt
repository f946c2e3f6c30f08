//! Time that goes by, and the end that the user wants (RFC 9260 §9.2).

ghost use Rattle.std.specs.Prelude.{◌≡◌, ◌<◌, ◌≤◌, ◌^◌, ◌-◌};
ghost use Rattle.sctp_rules.specs.Timers.{ticked};
ghost use Rattle.sctp_rules.specs.Shutdown.{shutdown};
ghost use Rattle.sctp_endpoint.specs.Endpoints.{Does, secrets_of};

use crate::endpoint::Endpoint;
use sctp_bundling::Watch;
use sctp_rules::Phase;

impl Endpoint {
    /// Time went by: the timers that are due run out, T1, T5, T2, T3 and that of the heartbeat, one after another; the
    /// end of an association stops the others. Call it when `deadline` says so. What is to go out waits for the next
    /// `flush`, except ABORT, INIT and COOKIE ECHO, which go out at once.
    pub fn tick<W: Watch>(&mut self, now: u64, watch: &mut W)
        requires generation { self.old.state.generation < 2 ^ 63 }
        requires nonces { self.old.state.nonces < 2 ^ 63 }
        requires now { now ≤ 2 ^ 63 }
        ensures { Does W.has watch.old watch.new self.old self.new
            (ticked self.old.settings (secrets_of self.old) now self.old.state) }
    {
        self.tick_t1(now, watch);
        self.tick_t5(now, watch);
        self.tick_t2(now, watch);
        self.tick_t3(now, watch);
        self.tick_beat(now, watch);
    }

    /// The user wants the association to end once all that was sent is confirmed: SHUTDOWN goes out then. A try is
    /// aborted, and so is the wish for an association; a shutdown that is under way goes on.
    pub fn shutdown<W: Watch>(&mut self, now: u64, watch: &mut W)
        requires generation { self.old.state.generation < 2 ^ 63 }
        requires now { now ≤ 2 ^ 63 }
        ensures { Does W.has watch.old watch.new self.old self.new
            (shutdown self.old.settings now self.old.state) }
    {
        match self.phase {
            Phase::Closed | Phase::CookieWait | Phase::CookieEchoed => self.abort(watch),
            Phase::Established => {
                self.phase = Phase::ShutdownPending;
                self.go_on(now);
            }
            Phase::ShutdownPending
            | Phase::ShutdownSent
            | Phase::ShutdownReceived
            | Phase::ShutdownAckSent => {}
        }
    }
}
