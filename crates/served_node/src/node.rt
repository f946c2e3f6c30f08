//! The node of a server.

ghost use Rattle.std.specs.Prelude.{◌≡◌, IfOk, length};
ghost use Rattle.exchange.specs.KeptQueues.{kept};
ghost use Rattle.exchange.specs.Calls.{kept_of, happened};
ghost use Rattle.exchange_rules.specs.Exchange.{outcome_of, after, after_tests};
ghost use Rattle.exchange_rules.specs.First.{first_state};
ghost use Rattle.exchange_rules.specs.State.{Ticked};
ghost use Rattle.served_link.specs.Counting.{first_counters};

use crate::console_session::ConsoleContext;
use crate::fault::OpenFault;
use crate::log::Log;
use crate::observers::Observers;
use exchange::{Event, Exchange};
use script::Sink;
use settings::{FailureReason, Outcome, Settings};
use std::alloc::Global;
use trace::PointFormat;

/// A node, and who is told what happens in it. After a call of its exchange that isn't one of these, `look` tells what
/// is new.
pub struct Node {
    /// The node itself.
    pub exchange: Exchange,
    /// Who is told.
    pub observers: Observers,
}

// By hand, so that no proof above has what a node owns.
impl Drop for Node {
    fn drop(self) {
        let Node {
            exchange: _,
            observers: _,
        } = self;
    }
}

impl Node {
    /// The node with these settings, in its first state. Nothing is counted yet. A tick takes so many milliseconds. The
    /// error is NoMemory.
    pub fn boot(
        alloc: Global,
        settings: Settings,
        points: PointFormat,
        tick_ms: u16,
    ) -> Result<Node, OpenFault>
        ensures first { IfOk result (λ node. node.exchange ≡ kept_of (first_state settings)) }
        ensures counters { IfOk result (λ node.
            node.observers.counters ≡ first_counters (length settings.links)) }
    {
        let exchange = Exchange::boot(alloc, settings)?;
        match Observers::new(alloc, exchange.settings(), points, tick_ms) {
            Ok(observers) => Ok(Node {
                exchange,
                observers,
            }),
            Err(_) => {
                drop(exchange);
                Err(OpenFault::NoMemory)
            }
        }
    }

    /// Hands in an event, and tells what is new. A failure whose notice was dropped for later ones is counted as one
    /// for this reason.
    pub fn step<W: Sink>(
        &mut self,
        event: &Event<'_>,
        dropped: FailureReason,
        log: &mut Log<'_, W>,
    ) -> Outcome
        ensures outcome { result ≡ outcome_of kept (happened event.now result) self.old.exchange }
        ensures state { self.new.exchange ≡ after kept (happened event.now result) self.old.exchange }
    {
        let outcome = self.exchange.step(event);
        self.look(dropped, log);
        outcome
    }

    /// Lets a tick pass, submits the tests of subsystems that are due by it, and tells what is new, and what changed
    /// since the last tick. A failure whose notice was dropped for later ones is counted as one by a timer.
    pub fn tick<W: Sink>(&mut self, log: &mut Log<'_, W>)
        ensures { self.new.exchange ≡ after_tests kept (after kept Ticked self.old.exchange) }
    {
        self.observers.watch.note_timers(&self.exchange);
        self.exchange.step(&Event::Tick);
        self.exchange.test_subsystems();
        self.look(FailureReason::Timer, log);
        self.observers.tell_missed(log);
        let has_capture_failed = self.observers.has_capture_failed;
        self.observers
            .watch
            .look(&self.exchange, has_capture_failed, log);
    }

    /// Does the lines that clients of the console wrote, and tells the log of orders. True if one of them stops the
    /// node.
    pub fn read_clients<W: Sink>(&mut self, log: &mut Log<'_, W>) -> bool {
        let Node {
            exchange,
            observers: Observers {
                counters,
                clients,
                points,
                tick_ms,
                captured,
                watch,
                ..
            },
        } = self;
        let watch = &*watch;
        let mut context = ConsoleContext {
            exchange,
            counters,
            alarms: watch.alarms(),
            links: watch.links(),
            points: *points,
            tick_ms: *tick_ms,
            captured,
        };
        clients.read(&mut context, log)
    }

    /// An association came up, and its link perhaps with it: the next `look` counts it as failed if it is down by then.
    pub fn note_up(&mut self)
        ensures exchange { self.new.exchange ≡ self.old.exchange }
        ensures counters { self.new.observers.counters ≡ self.old.observers.counters }
    {
        self.observers.seen.note_up(&self.exchange);
    }

    /// Tells the log and the clients that watch them of new notices, if there are any, tells the log of flags that were
    /// raised, and counts failures. A failure whose notice was dropped for later ones is counted as one for this
    /// reason.
    pub fn look<W: Sink>(&mut self, dropped: FailureReason, log: &mut Log<'_, W>)
        ensures { self.new.exchange ≡ self.old.exchange }
    {
        if !self.observers.seen.has_all(&self.exchange) {
            self.observers.look(&self.exchange, dropped, log);
        }
    }
}
