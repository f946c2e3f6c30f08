//! The end of an association, or of the try of one (RFC 9260 §9.1).

ghost use Rattle.std.specs.Prelude.{◌≡◌, ◌<◌, ◌≤◌, ◌^◌, ◌-◌, ◌++◌, [], ◌∷◌};
ghost use Rattle.sctp_rules.specs.State.{put};
ghost use Rattle.sctp_rules.specs.Ending.{ended, ended_with, aborted, abort, told_of_end, last_words, has_peer};
ghost use Rattle.sctp_bundling.specs.Settings.{address_of};
ghost use Rattle.sctp_bundling.specs.Replies.{chunk_of, size_of, last_of, size_of_last};
ghost use Rattle.sctp_bundling.specs.Watching.{Gives, Puts, Tells};
ghost use Rattle.sctp_bundling.specs.Ways.{way_of};
ghost use Rattle.sctp_endpoint.specs.Flushing.{way_to};
ghost use Rattle.sctp_endpoint.specs.Endpoints.{Does};

use crate::endpoint::Endpoint;
use sctp_bundling::packets::put_packet;
use sctp_bundling::{Address, Chunks, Event, Reply, Watch, Way};
use sctp_codec::Cause;
use sctp_rules::{Loss, Phase};

impl Endpoint {
    /// Where packets go to an address, with a tag.
    pub(super) fn way(&self, to: &Address, tag: u32) -> Way
        ensures { way_of result ≡ way_to self.now.settings (address_of to.now) tag }
    {
        Way {
            source: self.settings.own_port,
            destination: self.settings.far_port,
            tag,
            to: *to,
        }
    }

    /// A packet with one chunk goes out at once.
    pub(super) fn put<W: Watch>(&self, to: &Address, tag: u32, chunk: &Reply<'_>, watch: &mut W)
        requires { size_of (chunk_of chunk.now) ≤ 1188 }
        ensures { Gives W.has watch.old watch.new
            (put self.now.settings (address_of to.now) tag (chunk_of chunk.now ∷ []) self.now.state) }
    {
        put_packet(&self.way(to, tag), &[], Some(chunk), watch);
    }

    /// A packet with these chunks goes out at once.
    pub(super) fn put_all<W: Watch>(&self, to: &Address, tag: u32, chunks: &Chunks, watch: &mut W)
        ensures { Gives W.has watch.old watch.new
            (put self.now.settings (address_of to.now) tag chunks.now self.now.state) }
    {
        put_packet(&self.way(to, tag), chunks.octets(), None, watch);
    }

    /// The user ends the association, the try of one, or the wish for one.
    pub fn abort<W: Watch>(&mut self, watch: &mut W)
        requires { self.old.state.generation < 2 ^ 63 }
        ensures { Does W.has watch.old watch.new self.old self.new (abort self.old.settings self.old.state) }
    {
        self.end_with(Loss::Local, Some(&Reply::Abort(Cause::EndedByUser)), watch);
    }

    /// It ends: the answers that wait go out, and a last chunk after them. All timers stop, and what is held is
    /// dropped.
    pub(super) fn end_with<W: Watch>(&mut self, why: Loss, last: Option<&Reply<'_>>, watch: &mut W)
        requires generation { self.old.state.generation < 2 ^ 64 - 1 }
        requires last { size_of_last last ≤ 64 }
        ensures { Does W.has watch.old watch.new self.old self.new
            (ended_with self.old.settings why (last_of last.entry) self.old.state) }
    {
        self.send_last_words(last, watch);
        self.tell_end(why, watch);
        self.is_wanted = false;
        self.generation += 1;
        self.forget();
    }

    /// The answers that wait go out, and a last chunk after them, if there is a tag that the peer takes packets by.
    fn send_last_words<W: Watch>(&self, last: Option<&Reply<'_>>, watch: &mut W)
        requires { size_of_last last ≤ 64 }
        ensures { Puts W.has watch.old watch.new (last_words self.now.settings self.now.state.association
            (self.now.state.association.control ++ last_of last.entry)) }
    {
        if !has_peer(self.phase) || (self.control.size() == 0 && last.is_none()) {
            return;
        }
        let way = self.way(&self.address, self.far_tag);
        put_packet(&way, self.control.octets(), last, watch);
    }

    /// The user is told that it ended, if it was up or wanted.
    fn tell_end<W: Watch>(&self, why: Loss, watch: &mut W)
        ensures { Tells W.has watch.old watch.new (told_of_end why self.now.state) }
    {
        if self.is_up {
            watch.tell(&Event::Down(why));
        } else if self.is_wanted {
            watch.tell(&Event::Failed(why));
        }
    }
}

/// Whether there is a tag that the peer takes packets by: from COOKIE-ECHOED on.
fn has_peer(phase: Phase) -> bool
    ensures { result ≡ has_peer phase }
{
    !matches!(phase, Phase::Closed | Phase::CookieWait)
}
