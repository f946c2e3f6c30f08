//! What the log says of a node: the changes of its links, its sets and its destinations, and its alarms.

ghost use Rattle.std.specs.Prelude.{◌≡◌, [], is_some, not, slice_get};
ghost use Rattle.served_link.specs.DestinationStates.{is_closed};
ghost use Rattle.served_link.specs.ServiceStates.{change_at};
ghost use Rattle.served_link.specs.Times.{millis_of};
ghost use Rattle.served_node.specs.NodeChanges.{TellsEach, after_alarm, after_destination, after_link, alarm_change};
ghost use Rattle.served_node.specs.NodeChanges.{alarm_texts, destination_texts, link_texts, set_texts};

mod failures;
mod times;

use crate::changes::{tell_destination, tell_link};
use crate::log::Log;
use exchange::Exchange;
use script::Sink;
use served_link::times::millis;
use served_link::{
    Alarm, Alarms, DestinationState, DestinationStates, ServiceState, ServiceStates,
    UnavailableTimes, alarm_change_line, destination_state, is_pool_high, service_state,
    set_change_line,
};
use settings::{LinkId, PointFormat, SetId, Settings};
use std::alloc::{AllocError, Global};
use std::marker::Model;

/// Destinations that are looked at by one tick, at most. So those of the largest node take eight ticks.
const DESTINATIONS_A_TICK: usize = 512;

/// What was last seen of a node, and which alarms are raised.
pub struct NodeWatch {
    alarms: Alarms,
    links: ServiceStates,
    destinations: DestinationStates,
    /// For how long each link was unavailable.
    link_times: UnavailableTimes,
    /// For how long each set was unavailable.
    set_times: UnavailableTimes,
    /// The number of the destination at which the next look begins.
    next: usize,
    /// Whether the node was looked at.
    has_looked: bool,
    points: PointFormat,
}

// By hand, so that no proof above has what was seen.
impl Drop for NodeWatch {
    fn drop(self) {
        let NodeWatch {
            alarms: _,
            links: _,
            destinations: _,
            link_times: _,
            set_times: _,
            next: _,
            has_looked: _,
            points: _,
        } = self;
    }
}

impl Model for NodeWatch {
    ghost use Rattle.served_node.specs.NodeChanges.{Watched};

    ghost Value = { Watched };

    ghost view = { λ w. record {
      alarms = w.alarms;
      links = w.links;
      destinations = w.destinations;
      link_times = w.link_times;
      set_times = w.set_times;
      next = w.next;
      points = w.points;
    } };
}

impl NodeWatch {
    /// A node with these settings as it starts. It wasn't looked at yet, and no alarm is raised. The error means that
    /// memory ran out.
    pub(crate) fn new(
        alloc: Global,
        settings: &Settings,
        points: PointFormat,
    ) -> Result<NodeWatch, AllocError> {
        let count = settings.destinations().len();
        let links = ServiceStates::new(alloc, settings.link_count())?;
        let destinations = DestinationStates::new(alloc, count)?;
        let link_times = UnavailableTimes::new(alloc, settings.link_count())?;
        let set_times = UnavailableTimes::new(alloc, settings.sets().len())?;
        Ok(NodeWatch {
            alarms: Alarms::new(alloc, count as u16)?,
            links,
            destinations,
            link_times,
            set_times,
            next: 0,
            has_looked: false,
            points,
        })
    }

    /// Which alarms are raised.
    pub fn alarms(&self) -> &Alarms
        ensures { result.now ≡ self.now.alarms }
    {
        &self.alarms
    }

    /// Looks at each link, and at each set the first time, and if a link changed; at the flags, the pool, and whether the
    /// capture failed; and at the next destinations. The log is told of changes, and of alarms that are raised or cleared.
    pub(crate) fn look<W: Sink>(
        &mut self,
        exchange: &Exchange,
        has_capture_failed: bool,
        log: &mut Log<'_, W>,
    ) {
        self.look_at_links(exchange, log);
        let settings = exchange.settings();
        self.note_alarm(settings, &Alarm::LostAny, exchange.lost_any(), log);
        self.note_alarm(settings, &Alarm::LateAny, exchange.late_any(), log);
        self.note_alarm(settings, &Alarm::Capture, has_capture_failed, log);
        let was_high = self.alarms.since(Alarm::Pool).is_some();
        let is_high = is_pool_high(was_high, messages_in(exchange), settings.pool() as u32);
        self.note_alarm(settings, &Alarm::Pool, is_high, log);
        self.look_at_destinations(exchange, log);
    }

    /// Looks at each link, and then at each set, if a link changed, or if that wasn't done yet.
    fn look_at_links<W: Sink>(&mut self, exchange: &Exchange, log: &mut Log<'_, W>) {
        let settings = exchange.settings();
        let mut has_changed = !self.has_looked;
        self.has_looked = true;
        for k in 0..settings.link_count() {
            let link = LinkId::new(k as u8);
            if let Some(found) = service_state(exchange, link) {
                let waiting = waiting_on(exchange, link);
                has_changed |= self.note_link(settings, link, found, waiting, log);
            }
        }
        if has_changed {
            self.look_at_sets(settings, log);
            self.time_links(settings, millis(log.now));
            self.time_sets(settings, millis(log.now));
        }
    }

    /// Looks at each set.
    fn look_at_sets<W: Sink>(&mut self, settings: &Settings, log: &mut Log<'_, W>) {
        for k in 0..settings.sets().len() {
            let set = SetId::new(k as u8);
            let is_available = self.is_set_available(settings, set);
            self.note_set(settings, set, is_available, log);
        }
    }

    /// A link was found in this state, with so many messages that aren't confirmed. The log is told if it was in another
    /// state before, and if its alarm is raised or cleared. Returns whether it was in another state.
    fn note_link<W: Sink>(
        &mut self,
        settings: &Settings,
        link: LinkId,
        found: ServiceState,
        waiting: usize,
        log: &mut Log<'_, W>,
    ) -> bool
        ensures state { self.new ≡ after_link link found (millis_of log.old.now) self.old }
        ensures told { TellsEach log.old.now
            (link_texts settings.now link found waiting (millis_of log.old.now) self.old)
            (W.output log.old.sink.now) (W.output log.new.sink.now) }
        ensures changed { result ≡ is_some (change_at found (slice_get self.old.links link)) }
        ensures time { log.new.now ≡ log.old.now }
    {
        let change = self.links.note(link, found, millis(log.now));
        tell_link(settings, link, change, waiting, log);
        self.note_alarm(settings, &Alarm::Link(link), !found.is_available(), log);
        change.is_some()
    }

    /// A link of this set is in service, or none is. The log is told if that was otherwise before.
    fn note_set<W: Sink>(
        &mut self,
        settings: &Settings,
        set: SetId,
        is_available: bool,
        log: &mut Log<'_, W>,
    )
        ensures state { self.new
            ≡ after_alarm (Alarm.Set set) (not is_available) (millis_of log.old.now) self.old }
        ensures told { TellsEach log.old.now
            (set_texts settings.now set is_available (millis_of log.old.now) self.old)
            (W.output log.old.sink.now) (W.output log.new.sink.now) }
        ensures time { log.new.now ≡ log.old.now }
    {
        if self.note_alarm(settings, &Alarm::Set(set), !is_available, log) {
            log.tell_change(&set_change_line(settings, set, is_available));
        }
    }

    /// Whether a link of a set is in service.
    fn is_set_available(&self, settings: &Settings, set: SetId) -> bool {
        for (k, row) in settings.links().iter().enumerate() {
            if row.set() == set && self.is_link_available(LinkId::new(k as u8)) {
                return true;
            }
        }
        false
    }

    /// Looks at the next destinations.
    fn look_at_destinations<W: Sink>(&mut self, exchange: &Exchange, log: &mut Log<'_, W>) {
        let count = exchange.settings().destinations().len();
        for _ in 0..count.min(DESTINATIONS_A_TICK) {
            if self.next >= count {
                self.next = 0;
            }
            if let Some(found) = destination_state(exchange, self.next) {
                self.note_destination(exchange.settings(), self.next as u16, found, log);
            }
            self.next = self.next.saturating_add(1);
        }
    }

    /// The destination of this number was found in this state. The log is told if it was in another one before, and if
    /// its alarm is raised or cleared.
    fn note_destination<W: Sink>(
        &mut self,
        settings: &Settings,
        number: u16,
        found: DestinationState,
        log: &mut Log<'_, W>,
    )
        ensures state { self.new ≡ after_destination number found (millis_of log.old.now) self.old }
        ensures told { TellsEach log.old.now
            (destination_texts settings.now number found (millis_of log.old.now) self.old)
            (W.output log.old.sink.now) (W.output log.new.sink.now) }
        ensures time { log.new.now ≡ log.old.now }
    {
        let is_closed = has_no_way(found);
        let is_changed = self.destinations.note(number as usize, found);
        tell_destination(settings, self.points, number, &found, is_changed, log);
        let alarm = Alarm::Destination(number);
        self.note_alarm(settings, &alarm, is_closed, log);
    }

    /// More ticks are due than a round can let pass, or no longer.
    pub fn note_behind<W: Sink>(
        &mut self,
        settings: &Settings,
        is_behind: bool,
        log: &mut Log<'_, W>,
    )
        ensures state { self.new ≡ after_alarm Alarm.Behind is_behind (millis_of log.old.now) self.old }
        ensures told { TellsEach log.old.now
            (alarm_texts self.old.points settings.now Alarm.Behind (alarm_change Alarm.Behind is_behind self.old)
            (millis_of log.old.now) []) (W.output log.old.sink.now) (W.output log.new.sink.now) }
    {
        self.note_alarm(settings, &Alarm::Behind, is_behind, log);
    }

    /// What an alarm is about was looked at. The log is told if it is raised or cleared. Returns whether it is.
    fn note_alarm<W: Sink>(
        &mut self,
        settings: &Settings,
        alarm: &Alarm,
        is_on: bool,
        log: &mut Log<'_, W>,
    ) -> bool
        ensures state { self.new ≡ after_alarm alarm.now is_on (millis_of log.old.now) self.old }
        ensures told { TellsEach log.old.now
            (alarm_texts self.old.points settings.now alarm.now (alarm_change alarm.now is_on self.old) (millis_of log.old.now) [])
            (W.output log.old.sink.now) (W.output log.new.sink.now) }
        ensures changed { result ≡ is_some (alarm_change alarm.now is_on self.old) }
        ensures time { log.new.now ≡ log.old.now }
    {
        let now_ms = millis(log.now);
        let Some(change) = self.alarms.note(alarm, is_on, now_ms) else {
            return false;
        };
        log.tell_change(&alarm_change_line(settings, self.points, alarm, &change, now_ms));
        true
    }
}

/// Whether messages to a destination in this state have no way.
fn has_no_way(state: DestinationState) -> bool
    ensures { result ≡ is_closed state.access }
{
    state.access.is_closed()
}

/// How many messages a link hasn't confirmed.
fn waiting_on(exchange: &Exchange, link: LinkId) -> usize {
    match exchange.link(link) {
        Some(view) => view.waiting,
        None => 0,
    }
}

/// How many messages the node keeps.
fn messages_in(exchange: &Exchange) -> u32 {
    let mut messages = exchange.count_held();
    for k in 0..exchange.settings().link_count() {
        messages = messages.saturating_add(waiting_on(exchange, LinkId::new(k as u8)));
    }
    u32::try_from(messages).unwrap_or(u32::MAX)
}
