//! How an association begins: the tries of this end (RFC 9260 §5.1).

ghost use Rattle.std.specs.Prelude.{◌≡◌, ◌<◌, ◌≤◌, ◌^◌, ◌+◌, ◌-◌, [], ◌∷◌, is_some, if◌then◌else◌};
ghost use Rattle.sctp_cookie.specs.Tags.{next_tag};
ghost use Rattle.sctp_rules.specs.State.{put};
ghost use Rattle.sctp_rules.specs.Opening.{opening, may_open, begun, begun_anew, trying_with, tag_of_try, is_next};
ghost use Rattle.sctp_bundling.specs.Settings.{address_of};
ghost use Rattle.sctp_bundling.specs.Watching.{Gives};
ghost use Rattle.sctp_endpoint.specs.Endpoints.{Does, secrets_of};
ghost use Rattle.sctp_ends.specs.Keyed.{drawing_after};
ghost use Rattle.sctp_endpoint.specs.Beginning.{begun_by, in_try, with_try};

use crate::endpoint::Endpoint;
use crate::peer::Attempt;
use sctp_bundling::{Address, Chunks, Reply, Watch};
use sctp_codec::Offer;
use sctp_receiving::limits::WINDOW;
use sctp_rules::limits::STREAMS;
use sctp_rules::{Loss, Phase};

impl Endpoint {
    /// The user wants an association from now on. An active end begins to try, by INIT; another one waits for its peer.
    /// If there is an association, or the try of one, nothing changes; an end that waits may begin to try.
    ///
    /// After a Down for Shutdown there still is one, until the peer's SHUTDOWN is answered and that is confirmed, or
    /// given up. The wish is lost then, and nothing is told: whoever wants the next association asks again.
    pub fn open<W: Watch>(&mut self, is_active: bool, now: u64, watch: &mut W)
        requires generation { self.old.state.generation < 2 ^ 63 }
        requires now { now ≤ 2 ^ 63 }
        ensures { Does W.has watch.old watch.new self.old self.new
            (opening self.old.settings (secrets_of self.old) now is_active self.old.state) }
    {
        if !self.may_open(is_active) {
            return;
        }
        if is_active {
            let address = self.settings.address;
            self.begin(0, &address, now, watch);
        } else {
            self.is_wanted = true;
        }
    }

    /// Whether the user may want one.
    fn may_open(&self, is_active: bool) -> bool
        ensures { result ≡ may_open is_active self.now.state }
    {
        matches!(self.phase, Phase::Closed) && (is_active || !self.is_wanted)
    }

    /// A try begins, with a tag of its own; if no tag is left it fails.
    pub(super) fn begin<W: Watch>(
        &mut self,
        failures: u32,
        address: &Address,
        now: u64,
        watch: &mut W,
    )
        requires generation { self.old.state.generation < 2 ^ 64 - 1 }
        requires now { now ≤ 2 ^ 63 }
        ensures { Does W.has watch.old watch.new self.old self.new
            (begun self.old.settings (secrets_of self.old) now failures (address_of address.now) self.old.state) }
    {
        match self.draw() {
            Some(tag) => self.begin_by(tag, failures, address, now, watch),
            None => self.end_with(Loss::NoTag, None, watch),
        }
    }

    /// A try restarts, and the generation grows; if no tag is left it ends.
    pub(super) fn begin_anew<W: Watch>(
        &mut self,
        failures: u32,
        address: &Address,
        now: u64,
        watch: &mut W,
    )
        requires generation { self.old.state.generation < 2 ^ 64 - 1 }
        requires now { now ≤ 2 ^ 63 }
        ensures { Does W.has watch.old watch.new self.old self.new
            (begun_anew self.old.settings (secrets_of self.old) now failures (address_of address.now) self.old.state) }
    {
        match self.draw() {
            Some(tag) => {
                self.generation += 1;
                self.begin_by(tag, failures, address, now, watch);
            }
            None => self.end_with(Loss::NoTag, None, watch),
        }
    }

    /// Draws the next tag, if one is left.
    pub(super) fn draw(&mut self) -> Option<u32>
        ensures tag { result ≡ next_tag (drawing_after self.old.tag_key self.old.state.beginnings) }
        ensures drawn { self.new ≡ record self.old {
          state = record self.old.state {
            beginnings = if is_some result then self.old.state.beginnings + 1 else self.old.state.beginnings;
          };
        } }
    {
        self.beginnings.draw()
    }

    /// The next tag, if one is left; it isn't drawn by this.
    pub(super) fn next_tag(&self) -> Option<u32>
        ensures { result ≡ next_tag (drawing_after self.now.tag_key self.now.state.beginnings) }
    {
        self.beginnings.peek()
    }

    /// Whether a tag is the next one.
    pub(super) fn is_next(&self, tag: u32) -> bool
        ensures { result ≡ is_next ((secrets_of self.now).beginning self.now.state.beginnings) tag }
    {
        match self.next_tag() {
            Some(next) => tag == next,
            None => false,
        }
    }

    /// A try begins with a tag that was drawn for it, which is also its first TSN.
    fn begin_by<W: Watch>(
        &mut self,
        tag: u32,
        failures: u32,
        address: &Address,
        now: u64,
        watch: &mut W,
    )
        requires now { now ≤ 2 ^ 63 }
        ensures { Does W.has watch.old watch.new self.old self.new
            (begun_by self.old.settings now failures (address_of address.now) tag self.old.state) }
    {
        self.wait_for_cookie(tag, address);
        let mut chunks = Chunks::new();
        chunks.add(&Reply::Init(offer(tag, tag), &self.settings.addresses));
        self.try_with(chunks, failures, now, watch);
    }

    /// The state of a try that has begun: COOKIE-WAIT.
    fn wait_for_cookie(&mut self, tag: u32, address: &Address)
        ensures { self.new ≡ record self.old {
          state = in_try self.old.settings (address_of address.now) tag self.old.state;
        } }
    {
        self.forget();
        self.is_wanted = true;
        self.phase = Phase::CookieWait;
        self.own_tag = tag;
        self.own_first = tag;
        self.address = *address;
    }

    /// The chunks of a try go out, and will again until they are answered.
    pub(super) fn try_with<W: Watch>(
        &mut self,
        chunks: Chunks,
        failures: u32,
        now: u64,
        watch: &mut W,
    )
        requires { now ≤ 2 ^ 63 }
        ensures { Does W.has watch.old watch.new self.old self.new
            (trying_with self.old.settings now failures chunks self.old.state) }
    {
        let address = self.address;
        self.put_all(&address, self.tag_of_try(), &chunks, watch);
        self.keep_trying(chunks, failures, now);
    }

    /// The tag of a packet of a try: 0 before the peer's is known.
    pub(super) fn tag_of_try(&self) -> u32
        ensures { result ≡ tag_of_try self.now.state.association }
    {
        if self.far_tag == 0 { 0 } else { self.far_tag }
    }

    /// Chunks are kept as those of the try, and T1 runs.
    fn keep_trying(&mut self, chunks: Chunks, failures: u32, now: u64)
        requires { now ≤ 2 ^ 63 }
        ensures { self.new ≡ record self.old { state = with_try now failures chunks self.old.state } }
    {
        self.tried = chunks;
        let t1 = now + u64::from(self.sender.timeout());
        self.attempt = Some(Attempt { failures, t1 });
    }
}

/// What this end offers with a tag and a first TSN.
pub(super) fn offer(tag: u32, first_tsn: u32) -> Offer
    ensures { result ≡ record {
      tag = tag;
      window = 65536;
      outgoing = 2;
      incoming = 2;
      first_tsn = first_tsn;
    } }
{
    Offer {
        tag,
        window: WINDOW as u32,
        outgoing: STREAMS,
        incoming: STREAMS,
        first_tsn,
    }
}
