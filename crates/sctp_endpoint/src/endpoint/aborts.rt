//! ABORT that comes (RFC 9260 §8.5.1, §9.1).

ghost use Rattle.std.specs.Prelude.{◌≡◌, ◌<◌, ◌≤◌, ◌^◌, ◌-◌, []};
ghost use Rattle.sctp_codec.specs.Packets.{AbortChunk};
ghost use Rattle.sctp_rules.specs.Ending.{ended_alone};
ghost use Rattle.sctp_rules.specs.Packets.{has_tag, heard_abort, loss_by_abort};
ghost use Rattle.sctp_bundling.specs.Replies.{last_of, size_of_last};
ghost use Rattle.sctp_endpoint.specs.Endpoints.{Does};

use crate::endpoint::Endpoint;
use sctp_bundling::{Reply, Watch};
use sctp_rules::{Loss, Phase};

impl Endpoint {
    /// ABORT came in a packet with a tag: if the tag is right it is over, whatever the causes are.
    pub(super) fn hear_abort<W: Watch>(&mut self, tag: u32, is_reflected: bool, watch: &mut W)
        requires { self.old.state.generation < 2 ^ 64 - 1 }
        ensures { Does W.has watch.old watch.new self.old self.new
            (heard_abort self.old.settings tag (AbortChunk is_reflected []) self.old.state).does }
    {
        if self.has_tag(tag, is_reflected) {
            self.end_alone(loss_by_abort(self.phase), None, watch);
        }
    }

    /// Whether a packet that begins with ABORT or SHUTDOWN COMPLETE has the right tag: that of the peer, if it is
    /// reflected.
    pub(super) fn has_tag(&self, tag: u32, is_reflected: bool) -> bool
        ensures { result ≡ has_tag self.now.state.association tag (AbortChunk is_reflected []) }
    {
        if is_reflected {
            self.far_tag != 0 && tag == self.far_tag
        } else {
            tag == self.own_tag
        }
    }

    /// It ends, and the answers that wait don't go out.
    pub(super) fn end_alone<W: Watch>(&mut self, why: Loss, last: Option<&Reply<'_>>, watch: &mut W)
        requires generation { self.old.state.generation < 2 ^ 64 - 1 }
        requires last { size_of_last last ≤ 64 }
        ensures { Does W.has watch.old watch.new self.old self.new
            (ended_alone self.old.settings why (last_of last.entry) self.old.state) }
    {
        self.control.clear();
        self.end_with(why, last, watch);
    }
}

/// Why it is over by ABORT: a try that wasn't answered before is refused.
fn loss_by_abort(phase: Phase) -> Loss
    ensures { result ≡ loss_by_abort phase }
{
    match phase {
        Phase::CookieWait => Loss::Refused,
        Phase::Closed
        | Phase::CookieEchoed
        | Phase::Established
        | Phase::ShutdownPending
        | Phase::ShutdownSent
        | Phase::ShutdownReceived
        | Phase::ShutdownAckSent => Loss::Aborted,
    }
}
