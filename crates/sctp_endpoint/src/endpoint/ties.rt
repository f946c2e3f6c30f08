//! What a cookie says of the present association (RFC 9260 §5.2.4).

ghost use Rattle.std.specs.Prelude.{◌≡◌, ◌≤◌, ◌^◌, ◌&&◌};
ghost use Rattle.sctp_rules.specs.Opening.{is_own, is_far, is_tied, is_there, staleness};

use crate::endpoint::Endpoint;
use sctp_cookie::Cookie;
use sctp_rules::Phase;

/// Of a millisecond.
const MICROSECONDS: u64 = 1_000;

impl Endpoint {
    pub(super) fn is_of_association(&self, cookie: &Cookie) -> bool
        ensures { result ≡ (is_there self.now.state.association.phase && is_own cookie.now self.now.state.association
            && is_far cookie.now self.now.state.association) }
    {
        is_there(self.phase) && self.is_own(cookie) && self.is_far(cookie)
    }

    /// Whether a cookie has the tag of this end.
    pub(super) fn is_own(&self, cookie: &Cookie) -> bool
        ensures { result ≡ is_own cookie.now self.now.state.association }
    {
        cookie.own_tag == self.own_tag
    }

    /// Whether a cookie has the tag of the peer.
    pub(super) fn is_far(&self, cookie: &Cookie) -> bool
        ensures { result ≡ is_far cookie.now self.now.state.association }
    {
        cookie.peer_tag == self.far_tag
    }

    /// Whether a cookie was made in this association.
    pub(super) fn is_tied(&self, cookie: &Cookie) -> bool
        ensures { result ≡ is_tied cookie.now self.now.state.association }
    {
        cookie.tie_own_tag == self.own_tag && cookie.tie_peer_tag == self.far_tag
    }
}

/// Whether there is an association.
pub(super) fn is_there(phase: Phase) -> bool
    ensures { result ≡ is_there phase }
{
    !matches!(
        phase,
        Phase::Closed | Phase::CookieWait | Phase::CookieEchoed
    )
}

/// How long a cookie was too old, in microseconds, as far as there is a number for it.
pub(super) fn staleness(now: u64, cookie: &Cookie) -> u32
    requires { now ≤ 2 ^ 63 }
    ensures { result ≡ staleness now cookie.now }
{
    let late = now
        .saturating_sub(cookie.made)
        .saturating_sub(u64::from(cookie.life));
    late.saturating_mul(MICROSECONDS).min(u64::from(u32::MAX)) as u32
}
