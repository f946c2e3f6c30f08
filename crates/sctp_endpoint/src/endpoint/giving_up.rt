//! COOKIE ECHO that comes in COOKIE-ECHOED (RFC 9260 §5.2.4).

ghost use Rattle.std.specs.Prelude.{◌≡◌, ◌<◌, ◌≤◌, ◌^◌, ◌-◌};
ghost use Rattle.sctp_rules.specs.Opening.{echo_in_try, given_up};
ghost use Rattle.sctp_bundling.specs.Settings.{address_of};
ghost use Rattle.sctp_endpoint.specs.Endpoints.{Does};

use crate::endpoint::Endpoint;
use sctp_bundling::{Address, Watch};
use sctp_cookie::Cookie;

impl Endpoint {
    /// A cookie with the peer's tag opens; any other ends the try. Returns whether the chunks after it belong to the
    /// association.
    pub(super) fn hear_in_try<W: Watch>(
        &mut self,
        source: &Address,
        cookie: &Cookie,
        now: u64,
        watch: &mut W,
    ) -> bool
        requires generation { self.old.state.generation < 2 ^ 64 - 1 }
        requires now { now ≤ 2 ^ 63 }
        ensures does { Does W.has watch.old watch.new self.old self.new
            (echo_in_try self.old.settings now (address_of source.now) cookie.now self.old.state).does }
        ensures goes_on { result
            ≡ (echo_in_try self.old.settings now (address_of source.now) cookie.now self.old.state).goes_on }
    {
        if self.is_own(cookie) && self.is_far(cookie) {
            self.open_by(source, cookie, now, watch);
            true
        } else {
            self.give_up_try(source, cookie, watch);
            false
        }
    }

    /// The try ends, since the peer has begun anew. This end waits for the INIT that the peer is asked for.
    fn give_up_try<W: Watch>(&mut self, source: &Address, cookie: &Cookie, watch: &mut W)
        requires { self.old.state.generation < 2 ^ 64 - 1 }
        ensures { Does W.has watch.old watch.new self.old self.new
            (given_up self.old.settings (address_of source.now) cookie.now self.old.state) }
    {
        self.generation += 1;
        self.forget();
        self.tell_stale(source, 1, cookie, watch);
    }
}
