//! INIT that comes, and its answer (RFC 9260 §5.1, §5.2.1, §5.2.2).

ghost use Rattle.std.specs.Prelude.{◌≡◌, ◌<◌, ◌≤◌, ◌^◌, ◌-◌, [], ◌∷◌, None};
ghost use Rattle.sctp_codec.specs.Values.{init_of};
ghost use Rattle.sctp_rules.specs.Opening.{
  heard_init,
  judged_init,
  init_in,
  answered_with,
  answered_anew,
  answered_alike,
  answered_echoed,
  no_address,
  has_few_streams,
  cookie_for,
};
ghost use Rattle.sctp_rules.specs.State.{put};
ghost use Rattle.sctp_rules.specs.Ending.{abort_for};
ghost use Rattle.sctp_bundling.specs.Settings.{address_of};
ghost use Rattle.sctp_bundling.specs.Watching.{Gives};
ghost use Rattle.sctp_endpoint.specs.Endpoints.{Does, secrets_of};

use crate::endpoint::Endpoint;
use crate::endpoint::opening::offer;
use sctp_bundling::packets::put_init_answer;
use sctp_bundling::{Address, Reply, Watch};
use sctp_codec::{Cause, Init, host_name};
use sctp_cookie::Cookie;
use sctp_rules::Phase;
use sctp_rules::limits::{HOST_NAME_OCTETS, STREAMS};

impl Endpoint {
    /// INIT came. One without a tag is dropped. Whoever sent it, nothing changes here.
    pub(super) fn hear_init<W: Watch>(
        &self,
        source: &Address,
        init: &Init<'_>,
        now: u64,
        watch: &mut W,
    )
        ensures { Does W.has watch.old watch.new self.now self.now
            (heard_init self.now.settings (secrets_of self.now) now (address_of source.now) (init_of init.now)
            self.now.state) }
    {
        if init.offer.tag == 0 {
            return;
        }
        match host_name(init.parameters) {
            Some(name) => self.refuse_name(source, init.offer.tag, name, watch),
            None => self.judge_init(source, init, now, watch),
        }
    }

    /// An INIT without a host name: one with too few streams is refused.
    fn judge_init<W: Watch>(&self, source: &Address, init: &Init<'_>, now: u64, watch: &mut W)
        ensures { Does W.has watch.old watch.new self.now self.now
            (judged_init None self.now.settings (secrets_of self.now) now (address_of source.now) (init_of init.now)
            self.now.state) }
    {
        if has_few_streams(init) {
            self.put(
                source,
                init.offer.tag,
                &Reply::Abort(Cause::InvalidParameter),
                watch,
            );
        } else {
            self.answer_init(source, init, now, watch);
        }
    }

    /// A host name gives no address.
    fn refuse_name<W: Watch>(&self, source: &Address, tag: u32, name: &[u8], watch: &mut W)
        ensures { Gives W.has watch.old watch.new
            (put self.now.settings (address_of source.now) tag (abort_for (no_address name.now) ∷ []) self.now.state) }
    {
        if name.len() <= HOST_NAME_OCTETS {
            self.put(
                source,
                tag,
                &Reply::Abort(Cause::UnresolvableAddress(name)),
                watch,
            );
        } else {
            self.put(source, tag, &Reply::Abort(Cause::InvalidParameter), watch);
        }
    }

    /// INIT is answered, by the state.
    fn answer_init<W: Watch>(&self, source: &Address, init: &Init<'_>, now: u64, watch: &mut W)
        ensures { Does W.has watch.old watch.new self.now self.now
            (init_in self.now.state.association.phase self.now.settings (secrets_of self.now) now
            (address_of source.now) (init_of init.now) self.now.state) }
    {
        match self.phase {
            Phase::Closed => {
                if self.is_wanted {
                    self.answer_anew(source, init, now, watch);
                }
            }
            Phase::CookieWait => self.answer_alike(source, init, now, watch),
            Phase::CookieEchoed => self.answer_echoed(source, init, now, watch),
            Phase::ShutdownAckSent => {
                self.put(&self.address, self.far_tag, &Reply::ShutdownAck, watch);
            }
            Phase::Established
            | Phase::ShutdownPending
            | Phase::ShutdownSent
            | Phase::ShutdownReceived => self.answer_anew(source, init, now, watch),
        }
    }

    /// INIT ACK with the next tag, which is also the first TSN, and isn't drawn by this; if no tag is left there is no
    /// answer.
    fn answer_anew<W: Watch>(&self, source: &Address, init: &Init<'_>, now: u64, watch: &mut W)
        ensures { Does W.has watch.old watch.new self.now self.now
            (answered_anew self.now.settings (secrets_of self.now) now (address_of source.now) (init_of init.now)
            self.now.state) }
    {
        if let Some(tag) = self.next_tag() {
            self.answer_with(source, init, tag, tag, now, watch);
        }
    }

    /// INIT ACK with the tag and the first TSN of its own try.
    fn answer_alike<W: Watch>(&self, source: &Address, init: &Init<'_>, now: u64, watch: &mut W)
        ensures { Gives W.has watch.old watch.new
            (answered_alike self.now.settings (secrets_of self.now) now (address_of source.now) (init_of init.now)
            self.now.state) }
    {
        self.answer_with(source, init, self.own_tag, self.own_first, now, watch);
    }

    /// If the cookie of the peer was echoed: an INIT of that peer is answered by the try, and any other with the next tag.
    fn answer_echoed<W: Watch>(&self, source: &Address, init: &Init<'_>, now: u64, watch: &mut W)
        ensures { Does W.has watch.old watch.new self.now self.now
            (answered_echoed self.now.settings (secrets_of self.now) now (address_of source.now) (init_of init.now)
            self.now.state) }
    {
        if init.offer.tag == self.far_tag {
            self.answer_alike(source, init, now, watch);
        } else {
            self.answer_anew(source, init, now, watch);
        }
    }

    /// INIT ACK with a tag and a first TSN: the addresses of this end, the cookie, and what INIT had that isn't known.
    fn answer_with<W: Watch>(
        &self,
        source: &Address,
        init: &Init<'_>,
        tag: u32,
        first_tsn: u32,
        now: u64,
        watch: &mut W,
    )
        ensures { Gives W.has watch.old watch.new
            (answered_with self.now.settings (secrets_of self.now) now (address_of source.now) (init_of init.now)
            (record { tag = tag; first = first_tsn }) self.now.state) }
    {
        let cookie = self
            .cookie_for(init, tag, first_tsn, now)
            .sign(&self.cookie_key);
        let offer = offer(tag, first_tsn);
        let way = self.way(source, init.offer.tag);
        put_init_answer(
            &way,
            &offer,
            &self.settings.addresses,
            &cookie,
            init.parameters,
            watch,
        );
    }

    /// The cookie that an INIT is answered with.
    fn cookie_for(&self, init: &Init<'_>, tag: u32, first_tsn: u32, now: u64) -> Cookie
        ensures { result ≡ cookie_for self.now.settings now self.now.state
            (record { tag = tag; first = first_tsn }) (init_of init.now) }
    {
        Cookie {
            made: now,
            generation: self.generation,
            own_tag: tag,
            peer_tag: init.offer.tag,
            own_first_tsn: first_tsn,
            peer_first_tsn: init.offer.first_tsn,
            peer_window: init.offer.window,
            peer_outgoing_streams: init.offer.outgoing,
            peer_incoming_streams: init.offer.incoming,
            tie_own_tag: self.own_tag,
            tie_peer_tag: self.far_tag,
            life: self.settings.cookie_life,
            peer_port: self.settings.far_port,
        }
    }
}

/// Whether a peer sends on fewer streams than there are to be, or takes fewer.
pub(super) fn has_few_streams(init: &Init<'_>) -> bool
    ensures { result ≡ has_few_streams (init_of init.now) }
{
    init.offer.outgoing.min(init.offer.incoming) < STREAMS
}
