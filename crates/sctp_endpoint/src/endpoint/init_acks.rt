//! INIT ACK that comes, and the echo of its cookie (RFC 9260 §5.1).

ghost use Rattle.std.specs.Prelude.{◌≡◌, ◌<◌, ◌≤◌, ◌^◌, ◌-◌, [], ◌∷◌, length};
ghost use Rattle.sctp_codec.specs.Values.{init_of};
ghost use Rattle.sctp_codec.specs.Parameters.{InvalidParameter, cookie_in};
ghost use Rattle.sctp_rules.specs.Opening.{heard_init_ack, echoed_if, echoed, refused, is_usable};
ghost use Rattle.sctp_rules.specs.State.{put, followed_by};
ghost use Rattle.sctp_rules.specs.Ending.{ended, abort_for};
ghost use Rattle.sctp_rules.specs.declared.loss.Loss.TheVariants.{BadInitAck};
ghost use Rattle.sctp_endpoint.specs.Beginning.{echoed_or_refused, with_peer};
ghost use Rattle.sctp_endpoint.specs.Endpoints.{Does};

use crate::endpoint::Endpoint;
use crate::endpoint::answering::has_few_streams;
use crate::peer::{Attempt, Peer};
use sctp_bundling::{Chunks, Reply, Watch};
use sctp_codec::{Cause, Init, cookie, host_name};
use sctp_rules::limits::COOKIE_OCTETS;
use sctp_rules::{Loss, Phase};

impl Endpoint {
    /// INIT ACK came: in COOKIE-WAIT its cookie is echoed, or the try ends; otherwise it is dropped.
    pub(super) fn hear_init_ack<W: Watch>(&mut self, init: &Init<'_>, now: u64, watch: &mut W)
        requires generation { self.old.state.generation < 2 ^ 64 - 1 }
        requires now { now ≤ 2 ^ 63 }
        ensures { Does W.has watch.old watch.new self.old self.new
            (heard_init_ack self.old.settings now (init_of init.now) self.old.state) }
    {
        if let Phase::CookieWait = self.phase {
            self.take_init_ack(init, now, watch);
        }
    }

    /// INIT ACK of a try: without a cookie it is refused.
    fn take_init_ack<W: Watch>(&mut self, init: &Init<'_>, now: u64, watch: &mut W)
        requires generation { self.old.state.generation < 2 ^ 64 - 1 }
        requires now { now ≤ 2 ^ 63 }
        ensures { Does W.has watch.old watch.new self.old self.new
            (echoed_if self.old.settings now (init_of init.now) self.old.state.association.trying
            (cookie_in (init_of init.now).parameters) self.old.state) }
    {
        if let Some(Attempt { failures, .. }) = self.attempt {
            match cookie(init.parameters) {
                Some(cookie) => self.echo_or_refuse(init, cookie, failures, now, watch),
                None => self.refuse_init_ack(init, watch),
            }
        }
    }

    /// INIT ACK with a cookie: one that can't be used is refused.
    fn echo_or_refuse<W: Watch>(
        &mut self,
        init: &Init<'_>,
        cookie: &[u8],
        failures: u32,
        now: u64,
        watch: &mut W,
    )
        requires generation { self.old.state.generation < 2 ^ 64 - 1 }
        requires now { now ≤ 2 ^ 63 }
        ensures { Does W.has watch.old watch.new self.old self.new
            (echoed_or_refused self.old.settings now failures (init_of init.now) cookie.now self.old.state) }
    {
        if is_usable(init) && cookie.len() <= COOKIE_OCTETS {
            self.echo(init, cookie, failures, now, watch);
        } else {
            self.refuse_init_ack(init, watch);
        }
    }

    /// The cookie is echoed: COOKIE-ECHOED, and T1 counts on.
    fn echo<W: Watch>(
        &mut self,
        init: &Init<'_>,
        cookie: &[u8],
        failures: u32,
        now: u64,
        watch: &mut W,
    )
        requires cookie { length cookie.now ≤ 1184 }
        requires now { now ≤ 2 ^ 63 }
        ensures { Does W.has watch.old watch.new self.old self.new
            (echoed self.old.settings now failures (init_of init.now) cookie.now self.old.state) }
    {
        self.note_peer(init);
        let chunks = Chunks::echoing(cookie, init.parameters);
        self.try_with(chunks, failures, now, watch);
    }

    /// What INIT ACK says of the peer is noted: COOKIE-ECHOED.
    fn note_peer(&mut self, init: &Init<'_>)
        ensures { self.new ≡ record self.old {
          state = with_peer self.old.settings (init_of init.now) self.old.state;
        } }
    {
        self.phase = Phase::CookieEchoed;
        self.far_tag = init.offer.tag;
        self.peer = Peer {
            first: init.offer.first_tsn,
            window: init.offer.window,
        };
        self.sender.forget_round_trips(self.settings.bounds);
    }

    /// INIT ACK can't be used: the try ends, and a peer with a tag is told.
    fn refuse_init_ack<W: Watch>(&mut self, init: &Init<'_>, watch: &mut W)
        requires { self.old.state.generation < 2 ^ 64 - 1 }
        ensures { Does W.has watch.old watch.new self.old self.new
            (refused self.old.settings (init_of init.now) self.old.state) }
    {
        if init.offer.tag == 0 {
            self.end_with(Loss::BadInitAck, None, watch);
        } else {
            self.abort_init_ack(init.offer.tag, watch);
        }
    }

    /// The peer is told by ABORT, and the try ends.
    fn abort_init_ack<W: Watch>(&mut self, tag: u32, watch: &mut W)
        requires { self.old.state.generation < 2 ^ 64 - 1 }
        ensures { Does W.has watch.old watch.new self.old self.new
            (followed_by
            (put self.old.settings self.old.state.association.address tag (abort_for InvalidParameter ∷ []) self.old.state)
            (λ left. ended self.old.settings BadInitAck left)) }
    {
        let address = self.address;
        self.put(&address, tag, &Reply::Abort(Cause::InvalidParameter), watch);
        self.end_with(Loss::BadInitAck, None, watch);
    }
}

/// Whether INIT ACK can be used: it has a tag, enough streams and no host name.
fn is_usable(init: &Init<'_>) -> bool
    ensures { result ≡ is_usable (init_of init.now) }
{
    init.offer.tag != 0 && !has_few_streams(init) && host_name(init.parameters).is_none()
}
