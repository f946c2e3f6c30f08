//! Why each link failed last, and by which timer.

ghost use Rattle.std.specs.Prelude.{◌≡◌, length, slice_get};
ghost use Rattle.served_link.specs.ServiceStates.{failed_at, timer_of};
ghost use Rattle.served_node.specs.NodeChanges.{with_timers};

use crate::node_watch::NodeWatch;
use exchange::Exchange;
use served_link::{FailingTimer, ServiceStates, failing_timer};
use settings::{FailureReason, LinkId};

impl NodeWatch {
    /// A tick begins: notes by which timer each link fails if it runs out.
    pub(crate) fn note_timers(&mut self, exchange: &Exchange)
        ensures { self.new ≡ record self.old {
          links = with_timers exchange.now (length exchange.now.settings.links) self.old.links;
        } }
    {
        note_each_timer(exchange, &mut self.links);
    }

    /// A link failed for this reason, so many milliseconds after the start. Returns the timer that ran out, if one did.
    pub(crate) fn note_failure(
        &mut self,
        link: LinkId,
        reason: FailureReason,
        now_ms: u64,
    ) -> Option<FailingTimer>
        ensures timer { result ≡ timer_of reason (slice_get self.old.links link) }
        ensures links { self.new ≡ record self.old { links = failed_at link reason now_ms self.old.links } }
    {
        self.links.note_failure(link, reason, now_ms)
    }
}

/// The same of the states of these links.
fn note_each_timer(exchange: &Exchange, states: &mut ServiceStates)
    ensures { states.new ≡ with_timers exchange.now (length exchange.now.settings.links) states.old }
{
    for k in 0..exchange.settings().link_count() {
        let link = LinkId::new(k as u8);
        states.note_timer(link, failing_timer(exchange, link));
    }
}
