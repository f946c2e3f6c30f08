//! Packets that go out (RFC 9260 §6.1, §6.10).

ghost use Rattle.std.specs.Prelude.{◌≡◌, ◌≤◌, ◌^◌, sum_by};
ghost use Rattle.sctp_rules.specs.State.{with_association};
ghost use Rattle.sctp_rules.specs.Sending.{data_of, with_data_sent, flush};
ghost use Rattle.sctp_bundling.specs.Bundling.{Adds, draft_of};
ghost use Rattle.sctp_bundling.specs.Replies.{size_of};
ghost use Rattle.sctp_endpoint.specs.Endpoints.{Does};
ghost use Rattle.sctp_endpoint.specs.Flushing.{way_of_peer};

use crate::endpoint::sacks::takes_sack;
use crate::endpoint::{Endpoint, NO_WAY};
use sctp_bundling::{Draft, Watch};

impl Endpoint {
    /// All that is due goes out, bundled into packets: the answers that wait, SACK, and DATA, as much as may.
    pub fn flush<W: Watch>(&mut self, now: u64, watch: &mut W)
        requires { now ≤ 2 ^ 63 }
        ensures { Does W.has watch.old watch.new self.old self.new
            (flush self.old.settings now self.old.state) }
    {
        match self.take_draft() {
            Some(mut draft) => {
                self.flush_into(&mut draft, now, watch);
                self.keep_draft(draft);
            }
            None => self.flush_into(&mut Draft::new(NO_WAY), now, watch),
        }
    }

    /// Takes the packet that is kept for writing: it is neither made nor cleared again.
    #[inline(always)]
    fn take_draft(&mut self) -> Option<Box<Draft>>
        ensures { self.new ≡ self.old }
    {
        self.draft.take()
    }

    /// Keeps a packet for writing.
    #[inline(always)]
    fn keep_draft(&mut self, draft: Box<Draft>)
        ensures { self.new ≡ self.old }
    {
        self.draft = Some(draft);
    }

    /// The same; packets are written into this one, one after another. What it had before is dropped.
    fn flush_into<W: Watch>(&mut self, draft: &mut Draft, now: u64, watch: &mut W)
        requires { now ≤ 2 ^ 63 }
        ensures { Does W.has watch.old watch.new self.old self.new
            (flush self.old.settings now self.old.state) }
    {
        self.turn_draft(draft);
        self.begin_draft(draft);
        self.bundle_acknowledgement(draft, now, watch);
        self.bundle_messages(draft, now, watch);
        draft.put_rest(watch);
        self.control.clear();
    }

    /// A packet goes to the peer.
    #[inline(always)]
    fn turn_draft(&self, draft: &mut Draft)
        ensures { draft.new.way ≡ way_of_peer self.now }
    {
        draft.turn(self.way(&self.address, self.far_tag));
    }

    /// A packet to the peer begins with the answers that wait.
    fn begin_draft(&self, draft: &mut Draft)
        requires { draft.old.way ≡ way_of_peer self.now }
        ensures few { sum_by size_of self.now.state.association.control ≤ 1024 }
        ensures way { draft.new.way ≡ way_of_peer self.now }
        ensures text { draft.new.text ≡ draft_of (way_of_peer self.now) self.now.state.association.control }
    {
        draft.begin_with(&self.control);
    }

    /// If SACK counts, the messages that may go out do.
    fn bundle_messages<W: Watch>(&mut self, draft: &mut Draft, now: u64, watch: &mut W)
        requires { now ≤ 2 ^ 63 }
        ensures bundled { Adds W.has watch.old watch.new draft.old draft.new (data_of now self.old.state.association) }
        ensures left { self.new ≡ record self.old {
          state = with_association self.old.state (with_data_sent now self.old.state.association);
        } }
    {
        if takes_sack(self.phase) {
            self.bundle_all(draft, now, watch);
        }
    }
}
