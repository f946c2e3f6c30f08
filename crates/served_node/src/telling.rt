//! What is told of notices and flags: the log and the clients that watch them, and what is counted of failures.

ghost use Rattle.std.specs.Prelude.{◌≡◌, slice_get};
ghost use Rattle.served_link.specs.Counting.{Failure, counted_at};
ghost use Rattle.served_link.specs.ServiceStates.{failed_at, timer_of};

use crate::console_session::News;
use crate::log::Log;
use crate::noticing::newly_raised;
use crate::observers::Observers;
use arrayvec::ArrayString;
use console::{LINE_OCTETS, show_notices};
use exchange::Exchange;
use script::Sink;
use served_link::times::millis;
use served_link::{FailingTimer, timer_suffix};
use settings::{FailureReason, LinkId, Notice};
use std::fmt::Write;

impl Observers {
    /// Tells the log and the clients that watch them of the new notices: how many were missed, and then those that are
    /// kept. Counts failures; one whose notice was dropped for later ones is counted as one for this reason.
    #[inline(never)]
    pub(crate) fn look<W: Sink>(
        &mut self,
        exchange: &Exchange,
        dropped: FailureReason,
        log: &mut Log<'_, W>,
    ) {
        let new = self.seen.look(exchange);
        if new.missed > 0 {
            self.note_missed(new.missed);
        }
        self.tell_missed(log);
        self.tell_last(exchange, new.kept, log);
        self.note_dropped_failures(exchange, new.kept, dropped, millis(log.now));
        self.tell_flags(exchange, log);
    }

    /// So many notices were dropped for later ones before they could be told: the clients that watch them hear it.
    fn note_missed(&mut self, missed: u64) {
        let mut line = ArrayString::<LINE_OCTETS>::new();
        let _fits = write!(line, "missed {missed}");
        self.clients.tell_line(News::Notice, line.as_bytes());
        self.missed_notices.add(missed);
    }

    /// Tells the log how many notices were dropped before it could be told of them, once a second.
    pub(crate) fn tell_missed<W: Sink>(&mut self, log: &mut Log<'_, W>) {
        let due = self.missed_notices.due(log.now.as_secs());
        tell_count(due, log);
    }

    /// Tells the log of those that it hasn't been told of, whenever it last was.
    pub fn tell_last_missed<W: Sink>(&mut self, log: &mut Log<'_, W>) {
        let rest = self.missed_notices.rest();
        tell_count(rest, log);
    }

    /// Tells the log of a flag that was raised since the last time, and how often it was by now.
    fn tell_flags<W: Sink>(&mut self, exchange: &Exchange, log: &mut Log<'_, W>) {
        if let Some(times) = newly_raised(&mut self.seen.times_lost, exchange.times_lost()) {
            log.tell(&format_args!("flag lost_any {times}"));
        }
        if let Some(times) = newly_raised(&mut self.seen.times_late, exchange.times_late()) {
            log.tell(&format_args!("flag late_any {times}"));
        }
    }

    /// Tells of the last `count` notices.
    #[inline(never)]
    fn tell_last<W: Sink>(&mut self, exchange: &Exchange, count: usize, log: &mut Log<'_, W>) {
        let kept = exchange.notices().len();
        for k in kept.saturating_sub(count)..kept {
            self.tell(exchange, k, log);
        }
    }

    /// Tells of the notice in this place. The log is also told which timer ran out, if a link failed by one.
    fn tell<W: Sink>(&mut self, exchange: &Exchange, k: usize, log: &mut Log<'_, W>) {
        let timer = match exchange.notices().get(k) {
            Some(Notice::Failed(link, reason)) => {
                self.note_failure(*link, *reason, millis(log.now))
            }
            _ => None,
        };
        let mut line = ArrayString::<LINE_OCTETS>::new();
        if show_notices(exchange, k, self.points, &mut line) {
            self.clients.tell_line(News::Notice, line.as_bytes());
            let suffix = timer_suffix(timer);
            log.tell(&format_args!("notice {line}{suffix}"));
        }
    }

    /// A link failed for this reason, so many milliseconds after the start: that is counted, and shown as its last
    /// failure. Returns the timer that ran out, if one did.
    fn note_failure(
        &mut self,
        link: LinkId,
        reason: FailureReason,
        now_ms: u64,
    ) -> Option<FailingTimer>
        ensures timer { result ≡ timer_of reason (slice_get self.old.watch.links link) }
        ensures counters { self.new.counters ≡ counted_at link (Failure reason) self.old.counters }
        ensures watch { self.new.watch ≡ record self.old.watch {
          links = failed_at link reason now_ms self.old.watch.links;
        } }
    {
        self.counters.count_failure(link, reason);
        self.watch.note_failure(link, reason, now_ms)
    }

    /// Notes the failures of links whose notice isn't among the last `count`, since it was dropped for later ones.
    /// More notices than are kept come between two looks if a changeover order loses many messages, or if the messages
    /// that a changeover held find no route.
    fn note_dropped_failures(
        &mut self,
        exchange: &Exchange,
        count: usize,
        reason: FailureReason,
        now_ms: u64,
    ) {
        let first = exchange.notices().len().saturating_sub(count);
        for k in 0..exchange.settings().link_count() {
            let link = LinkId::new(u8::try_from(k).unwrap_or(u8::MAX));
            if self.seen.fell(link) && !is_failure_told(exchange, link, first) {
                self.note_failure(link, reason, now_ms);
            }
        }
    }
}

/// Tells the log how many notices it has no line of, if there are some.
fn tell_count<W: Sink>(missed: Option<u64>, log: &mut Log<'_, W>) {
    if let Some(missed) = missed {
        log.tell(&format_args!("missed {missed}"));
    }
}

/// Whether one of the notices from this place on tells that a link failed.
fn is_failure_told(exchange: &Exchange, link: LinkId, first: usize) -> bool {
    exchange.notices().iter().skip(first).any(
        |notice| matches!(notice, Notice::Failed(failed, _) if *failed == link),
    )
}
