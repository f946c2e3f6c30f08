//! COOKIE ECHO that comes (RFC 9260 §5.1.5, §5.2.4).

ghost use Rattle.std.specs.Prelude.{◌≡◌, ◌<◌, ◌≤◌, ◌^◌, ◌-◌, if◌then◌else◌};
ghost use Rattle.sctp_rules.specs.State.{followed_by, silent};
ghost use Rattle.sctp_rules.specs.Ending.{ended};
ghost use Rattle.sctp_rules.specs.declared.loss.Loss.TheVariants.{Restart};
ghost use Rattle.sctp_rules.specs.Opening.{
  opened_by,
  echo_without_try,
  stops,
  acknowledged_again,
  stale,
  refused_in_shutdown,
  restarted,
  echo_in_association,
  good_echo_in,
  heard_cookie,
  heard_cookie_echo,
};
ghost use Rattle.sctp_ends.specs.Keyed.{opened_under};
ghost use Rattle.sctp_bundling.specs.Settings.{address_of};
ghost use Rattle.sctp_bundling.specs.Watching.{Gives};
ghost use Rattle.sctp_endpoint.specs.Endpoints.{Does, secrets_of};
ghost use Rattle.sctp_endpoint.specs.Hearing.{heard_another, heard_in_time};

use crate::endpoint::Endpoint;
use crate::endpoint::ties::staleness;
use crate::peer::{Names, Peer};
use sctp_bundling::{Address, Reply, Watch};
use sctp_codec::Cause;
use sctp_cookie::Cookie;
use sctp_rules::{Loss, Phase};

impl Endpoint {
    /// COOKIE ECHO came; returns whether the chunks after it belong to the association. A cookie that this end didn't
    /// sign, or that is another packet's, is dropped.
    pub(super) fn hear_cookie_echo<W: Watch>(
        &mut self,
        source: &Address,
        tag: u32,
        octets: &[u8],
        now: u64,
        watch: &mut W,
    ) -> bool
        requires generation { self.old.state.generation < 2 ^ 64 - 1 }
        requires now { now ≤ 2 ^ 63 }
        ensures does { Does W.has watch.old watch.new self.old self.new
            (heard_cookie_echo self.old.settings (secrets_of self.old) now tag (address_of source.now) octets.now
            self.old.state).does }
        ensures goes_on { result
            ≡ (heard_cookie_echo self.old.settings (secrets_of self.old) now tag (address_of source.now) octets.now
            self.old.state).goes_on }
    {
        match self.cookie_in(octets) {
            Some(cookie) => {
                if cookie.own_tag == tag && cookie.peer_port == self.settings.far_port {
                    self.hear_cookie(source, &cookie, now, watch)
                } else {
                    false
                }
            }
            None => false,
        }
    }

    /// The cookie that octets are, if this end signed it.
    fn cookie_in(&self, octets: &[u8]) -> Option<Cookie>
        ensures { result ≡ opened_under self.now.cookie_key octets.now }
    {
        Cookie::open(octets, &self.cookie_key)
    }

    /// A cookie that this end signed came. One of the association is acknowledged again; any other opens within its
    /// life, and only in its generation. Otherwise the peer is told that it is stale.
    fn hear_cookie<W: Watch>(
        &mut self,
        source: &Address,
        cookie: &Cookie,
        now: u64,
        watch: &mut W,
    ) -> bool
        requires generation { self.old.state.generation < 2 ^ 64 - 1 }
        requires now { now ≤ 2 ^ 63 }
        ensures does { Does W.has watch.old watch.new self.old self.new
            (heard_cookie self.old.settings (secrets_of self.old) now (address_of source.now) cookie.now self.old.state).does }
        ensures goes_on { result
            ≡ (heard_cookie self.old.settings (secrets_of self.old) now (address_of source.now) cookie.now self.old.state).goes_on }
    {
        if self.is_of_association(cookie) {
            self.acknowledge_first();
            true
        } else {
            self.hear_another_cookie(source, cookie, now, watch)
        }
    }

    /// A cookie came that isn't that of the association: one that is too old opens nothing.
    fn hear_another_cookie<W: Watch>(
        &mut self,
        source: &Address,
        cookie: &Cookie,
        now: u64,
        watch: &mut W,
    ) -> bool
        requires generation { self.old.state.generation < 2 ^ 64 - 1 }
        requires now { now ≤ 2 ^ 63 }
        ensures does { Does W.has watch.old watch.new self.old self.new
            (heard_another self.old.settings (secrets_of self.old) now (address_of source.now) cookie.now self.old.state).does }
        ensures goes_on { result
            ≡ (heard_another self.old.settings (secrets_of self.old) now (address_of source.now) cookie.now self.old.state).goes_on }
    {
        if u64::from(cookie.life) < now.saturating_sub(cookie.made) {
            self.tell_stale(source, staleness(now, cookie), cookie, watch);
            false
        } else {
            self.hear_timely_cookie(source, cookie, now, watch)
        }
    }

    /// A cookie came within its life: it opens only in its generation.
    fn hear_timely_cookie<W: Watch>(
        &mut self,
        source: &Address,
        cookie: &Cookie,
        now: u64,
        watch: &mut W,
    ) -> bool
        requires generation { self.old.state.generation < 2 ^ 64 - 1 }
        requires now { now ≤ 2 ^ 63 }
        ensures does { Does W.has watch.old watch.new self.old self.new
            (heard_in_time self.old.settings (secrets_of self.old) now (address_of source.now) cookie.now self.old.state).does }
        ensures goes_on { result
            ≡ (heard_in_time self.old.settings (secrets_of self.old) now (address_of source.now) cookie.now self.old.state).goes_on }
    {
        if cookie.generation == self.generation {
            self.hear_good_cookie(source, cookie, now, watch)
        } else {
            self.tell_stale(source, 1, cookie, watch);
            false
        }
    }

    /// A good cookie came, by the state.
    fn hear_good_cookie<W: Watch>(
        &mut self,
        source: &Address,
        cookie: &Cookie,
        now: u64,
        watch: &mut W,
    ) -> bool
        requires generation { self.old.state.generation < 2 ^ 64 - 1 }
        requires now { now ≤ 2 ^ 63 }
        ensures does { Does W.has watch.old watch.new self.old self.new
            (good_echo_in self.old.state.association.phase self.old.settings (secrets_of self.old) now
            (address_of source.now) cookie.now self.old.state).does }
        ensures goes_on { result
            ≡ (good_echo_in self.old.state.association.phase self.old.settings (secrets_of self.old) now
            (address_of source.now) cookie.now self.old.state).goes_on }
    {
        match self.phase {
            Phase::Closed => self.open_without_try(source, cookie, now, watch),
            Phase::CookieWait => self.open_if(self.is_own(cookie), source, cookie, now, watch),
            Phase::CookieEchoed => self.hear_in_try(source, cookie, now, watch),
            Phase::Established
            | Phase::ShutdownPending
            | Phase::ShutdownSent
            | Phase::ShutdownReceived
            | Phase::ShutdownAckSent => {
                self.hear_other_cookie(source, cookie, watch);
                false
            }
        }
    }

    /// Without a try the association opens if the user wants one, and the cookie has the next tag, which is drawn then;
    /// returns whether it did.
    fn open_without_try<W: Watch>(
        &mut self,
        source: &Address,
        cookie: &Cookie,
        now: u64,
        watch: &mut W,
    ) -> bool
        requires generation { self.old.state.generation < 2 ^ 64 - 1 }
        requires now { now ≤ 2 ^ 63 }
        ensures does { Does W.has watch.old watch.new self.old self.new
            (echo_without_try self.old.settings (secrets_of self.old) now (address_of source.now) cookie.now
            self.old.state).does }
        ensures goes_on { result
            ≡ (echo_without_try self.old.settings (secrets_of self.old) now (address_of source.now) cookie.now
            self.old.state).goes_on }
    {
        if self.is_wanted && self.is_next(cookie.own_tag) {
            self.draw();
            self.open_by(source, cookie, now, watch);
            true
        } else {
            false
        }
    }

    /// The association opens by a cookie, if it may; returns whether it did.
    fn open_if<W: Watch>(
        &mut self,
        may_open: bool,
        source: &Address,
        cookie: &Cookie,
        now: u64,
        watch: &mut W,
    ) -> bool
        requires generation { self.old.state.generation < 2 ^ 64 - 1 }
        requires now { now ≤ 2 ^ 63 }
        ensures does { Does W.has watch.old watch.new self.old self.new
            (if may_open
            then opened_by self.old.settings now (address_of source.now) cookie.now self.old.state
            else stops (silent self.old.state)).does }
        ensures goes_on { result
            ≡ (if may_open
            then opened_by self.old.settings now (address_of source.now) cookie.now self.old.state
            else stops (silent self.old.state)).goes_on }
    {
        if may_open {
            self.open_by(source, cookie, now, watch);
            true
        } else {
            false
        }
    }

    /// The association opens: the peer is to hear COOKIE ACK, and the user is told.
    pub(super) fn open_by<W: Watch>(
        &mut self,
        source: &Address,
        cookie: &Cookie,
        now: u64,
        watch: &mut W,
    )
        requires generation { self.old.state.generation < 2 ^ 64 - 1 }
        requires now { now ≤ 2 ^ 63 }
        ensures { Does W.has watch.old watch.new self.old self.new
            (opened_by self.old.settings now (address_of source.now) cookie.now self.old.state).does }
    {
        let names = Names {
            own_tag: cookie.own_tag,
            far_tag: cookie.peer_tag,
            own_first: cookie.own_first_tsn,
        };
        let peer = Peer {
            first: cookie.peer_first_tsn,
            window: cookie.peer_window,
        };
        self.open_with(names, peer, source, now, watch);
        self.acknowledge_cookie();
    }

    /// Another cookie came: if it is one of a peer that has restarted, the association is lost (case A).
    fn hear_other_cookie<W: Watch>(&mut self, source: &Address, cookie: &Cookie, watch: &mut W)
        requires { self.old.state.generation < 2 ^ 64 - 1 }
        ensures { Does W.has watch.old watch.new self.old self.new
            (echo_in_association self.old.state.association.phase self.old.settings (address_of source.now) cookie.now
            self.old.state).does }
    {
        if !self.is_own(cookie) && !self.is_far(cookie) && self.is_tied(cookie) {
            self.hear_restart(source, cookie, watch);
        }
    }

    /// The peer has restarted.
    fn hear_restart<W: Watch>(&mut self, source: &Address, cookie: &Cookie, watch: &mut W)
        requires { self.old.state.generation < 2 ^ 64 - 1 }
        ensures { Does W.has watch.old watch.new self.old self.new
            (restarted self.old.state.association.phase self.old.settings (address_of source.now) cookie.now
            self.old.state) }
    {
        match self.phase {
            Phase::ShutdownAckSent => self.refuse_in_shutdown(source, cookie, watch),
            Phase::Closed
            | Phase::CookieWait
            | Phase::CookieEchoed
            | Phase::Established
            | Phase::ShutdownPending
            | Phase::ShutdownSent
            | Phase::ShutdownReceived => self.lose_restarted(source, cookie, watch),
        }
    }

    /// The association is lost, and the peer is to restart once more: the user must want the next one first.
    fn lose_restarted<W: Watch>(&mut self, source: &Address, cookie: &Cookie, watch: &mut W)
        requires { self.old.state.generation < 2 ^ 64 - 1 }
        ensures { Does W.has watch.old watch.new self.old self.new
            (followed_by (ended self.old.settings Restart self.old.state)
            (stale self.old.settings (address_of source.now) 1 cookie.now)) }
    {
        self.end_with(Loss::Restart, None, watch);
        self.tell_stale(source, 1, cookie, watch);
    }

    /// In SHUTDOWN-ACK-SENT the association stays: SHUTDOWN ACK goes out again, and ERROR where the cookie came from.
    fn refuse_in_shutdown<W: Watch>(&self, source: &Address, cookie: &Cookie, watch: &mut W)
        ensures { Gives W.has watch.old watch.new
            (refused_in_shutdown self.now.settings (address_of source.now) cookie.now self.now.state) }
    {
        self.put(&self.address, self.far_tag, &Reply::ShutdownAck, watch);
        self.put(
            source,
            cookie.peer_tag,
            &Reply::Error(Cause::CookieInShutdown),
            watch,
        );
    }

    /// The peer is told that a cookie is stale.
    pub(super) fn tell_stale<W: Watch>(
        &self,
        source: &Address,
        microseconds: u32,
        cookie: &Cookie,
        watch: &mut W,
    )
        ensures { Gives W.has watch.old watch.new
            (stale self.now.settings (address_of source.now) microseconds cookie.now self.now.state) }
    {
        self.put(
            source,
            cookie.peer_tag,
            &Reply::Error(Cause::StaleCookie { microseconds }),
            watch,
        );
    }
}
