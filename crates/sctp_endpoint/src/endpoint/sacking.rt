//! The SACK that goes out, and SHUTDOWN before it (RFC 9260 §6.2, §9.2).

ghost use Rattle.std.specs.Prelude.{◌≡◌, ◌≤◌, ◌^◌};
ghost use Rattle.sctp_rules.specs.State.{with_association};
ghost use Rattle.sctp_rules.specs.Data.{sacked};
ghost use Rattle.sctp_rules.specs.Sending.{acknowledgement, is_acknowledging, with_acknowledged, t2_in};
ghost use Rattle.sctp_bundling.specs.Bundling.{Adds};
ghost use Rattle.sctp_endpoint.specs.Flushing.{shutdown_chunks};

use crate::endpoint::Endpoint;
use crate::endpoint::data::takes_data;
use sctp_bundling::{Draft, Watch};
use sctp_rules::Phase;

impl Endpoint {
    /// If DATA came, SACK is bundled after what waits; in SHUTDOWN-SENT after a SHUTDOWN.
    pub(super) fn bundle_acknowledgement<W: Watch>(
        &mut self,
        draft: &mut Draft,
        now: u64,
        watch: &mut W,
    )
        requires { now ≤ 2 ^ 63 }
        ensures bundled { Adds W.has watch.old watch.new draft.old draft.new
            (acknowledgement self.old.state.association) }
        ensures left { self.new ≡ record self.old {
          state = with_association self.old.state (with_acknowledged now self.old.state.association);
        } }
    {
        if !self.is_acknowledging() {
            return;
        }
        self.bundle_shutdown(draft, watch);
        draft.add_sack(&self.receiver, watch);
        self.note_outgoing_sack(now);
    }

    /// Whether DATA came, and is acknowledged.
    fn is_acknowledging(&self) -> bool
        ensures { result ≡ is_acknowledging self.now.state.association }
    {
        self.is_sack_due && takes_data(self.phase)
    }

    /// In SHUTDOWN-SENT, SHUTDOWN is bundled after what waits.
    fn bundle_shutdown<W: Watch>(&self, draft: &mut Draft, watch: &mut W)
        ensures { Adds W.has watch.old watch.new draft.old draft.new
            (shutdown_chunks self.now.state.association.phase self.now.state.association) }
    {
        if let Phase::ShutdownSent = self.phase {
            draft.add_shutdown(self.receiver.cumulative(), watch);
        }
    }

    /// SACK went out; T2 restarts if a SHUTDOWN did.
    fn note_outgoing_sack(&mut self, now: u64)
        requires { now ≤ 2 ^ 63 }
        ensures { self.new ≡ record self.old {
          state = with_association self.old.state (record (sacked self.old.state.association) {
            t2 = t2_in self.old.state.association.phase now self.old.state.association;
          });
        } }
    {
        self.receiver.report();
        self.is_sack_due = false;
        if let Phase::ShutdownSent = self.phase {
            self.t2 = Some(now + u64::from(self.sender.timeout()));
        }
    }
}
