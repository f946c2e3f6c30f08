//! T1: a try that isn't answered goes out again (RFC 9260 §5.1, §5.1.6, §5.2.6).

ghost use Rattle.std.specs.Prelude.{◌≡◌, ◌<◌, ◌≤◌, ◌^◌, ◌-◌};
ghost use Rattle.sctp_codec.specs.Values.{items_of};
ghost use Rattle.sctp_rules.specs.Opening.{heard_error, begun_after_stale};
ghost use Rattle.sctp_rules.specs.Timers.{tick_t1};
ghost use Rattle.sctp_endpoint.specs.Beginning.{again, trying_on};
ghost use Rattle.sctp_endpoint.specs.Endpoints.{Does, secrets_of};

use crate::endpoint::Endpoint;
use crate::peer::Attempt;
use sctp_bundling::Watch;
use sctp_codec::{Items, has_stale_cookie};
use sctp_rules::{Loss, Phase};

impl Endpoint {
    /// T1 runs out, if it is due.
    pub(super) fn tick_t1<W: Watch>(&mut self, now: u64, watch: &mut W)
        requires generation { self.old.state.generation < 2 ^ 64 - 1 }
        requires now { now ≤ 2 ^ 63 }
        ensures { Does W.has watch.old watch.new self.old self.new
            (tick_t1 self.old.settings now self.old.state) }
    {
        if let Some(Attempt { t1, .. }) = self.attempt {
            if t1 <= now {
                self.retry(now, watch);
            }
        }
    }

    /// A try wasn't answered once more: it goes out again, RTO doubled, or ends.
    fn retry<W: Watch>(&mut self, now: u64, watch: &mut W)
        requires generation { self.old.state.generation < 2 ^ 64 - 1 }
        requires now { now ≤ 2 ^ 63 }
        ensures { Does W.has watch.old watch.new self.old self.new
            (again self.old.state.association.trying self.old.settings now self.old.state) }
    {
        if let Some(Attempt { failures, .. }) = self.attempt {
            if failures < self.settings.init_retransmissions {
                self.sender.back_off();
                self.try_on(failures + 1, now, watch);
            } else {
                self.end_with(Loss::NoAnswer, None, watch);
            }
        }
    }

    /// The chunks of a try go out again.
    fn try_on<W: Watch>(&mut self, failures: u32, now: u64, watch: &mut W)
        requires { now ≤ 2 ^ 63 }
        ensures { Does W.has watch.old watch.new self.old self.new
            (trying_on self.old.state.association.trying self.old.settings now failures self.old.state) }
    {
        if self.attempt.is_some() {
            let address = self.address;
            self.put_all(&address, self.tag_of_try(), &self.tried, watch);
            let t1 = now + u64::from(self.sender.timeout());
            self.attempt = Some(Attempt { failures, t1 });
        }
    }

    /// ERROR came: if the cookie that was echoed is stale, the try restarts. Other causes say nothing here.
    pub(super) fn hear_error<W: Watch>(&mut self, causes: Items<'_>, now: u64, watch: &mut W)
        requires generation { self.old.state.generation < 2 ^ 64 - 1 }
        requires now { now ≤ 2 ^ 63 }
        ensures { Does W.has watch.old watch.new self.old self.new
            (heard_error self.old.settings (secrets_of self.old) now (items_of causes.entry) self.old.state) }
    {
        if matches!(self.phase, Phase::CookieEchoed) && has_stale_cookie(causes) {
            self.begin_after_stale(now, watch);
        }
    }

    /// A try restarts after a stale cookie, and its failures count on.
    fn begin_after_stale<W: Watch>(&mut self, now: u64, watch: &mut W)
        requires generation { self.old.state.generation < 2 ^ 64 - 1 }
        requires now { now ≤ 2 ^ 63 }
        ensures { Does W.has watch.old watch.new self.old self.new
            (begun_after_stale self.old.settings (secrets_of self.old) now self.old.state.association.trying
            self.old.state) }
    {
        if let Some(Attempt { failures, .. }) = self.attempt {
            if failures < self.settings.init_retransmissions {
                let address = self.settings.address;
                self.begin_anew(failures + 1, &address, now, watch);
            } else {
                self.end_with(Loss::StaleCookie, None, watch);
            }
        }
    }
}
