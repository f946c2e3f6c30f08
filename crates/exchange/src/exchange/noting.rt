//! Notices: what the operator can read.

ghost use Rattle.std.specs.Prelude.{◌≡◌};
ghost use Rattle.exchange_rules.specs.State.{with_node, with_parts};
ghost use Rattle.exchange_rules.specs.State as rule;

use super::Exchange;
use settings::Notice;

impl Exchange {
    /// A message may have been lost from now on.
    pub(super) fn flag_loss(&mut self)
        ensures { self.new ≡ with_node self.old (with_parts self.old.node (rule.flagged self.old.node.parts)) }
    {
        self.times_lost = self.times_lost.saturating_add(1);
    }

    /// A message was named as lost.
    pub(super) fn count_lost(&mut self)
        ensures { self.new ≡ with_node self.old (with_parts self.old.node (rule.counted_lost self.old.node.parts)) }
    {
        self.messages_lost = self.messages_lost.saturating_add(1);
    }

    /// If a changeover ended so that it isn't known for sure what the other end has, counts that.
    pub(super) fn count_break_if(&mut self, breaks: bool)
        ensures { self.new
            ≡ with_node self.old (with_parts self.old.node (rule.broken_if breaks self.old.node.parts)) }
    {
        if breaks {
            self.times_broken = self.times_broken.saturating_add(1);
        }
    }

    /// Messages may have gone out of order from now on.
    pub(super) fn flag_lateness(&mut self)
        ensures { self.new ≡ with_node self.old (with_parts self.old.node (rule.flagged_late self.old.node.parts)) }
    {
        self.times_late = self.times_late.saturating_add(1);
    }

    /// Keeps a notice, and counts it. Beyond 64 the oldest is dropped.
    #[inline(never)]
    pub(super) fn note(&mut self, notice: Notice)
        ensures { self.new ≡ with_node self.old (with_parts self.old.node (rule.note notice self.old.node.parts)) }
    {
        self.notices.push_back(notice);
        self.notice_count = self.notice_count.wrapping_add(1);
    }
}
