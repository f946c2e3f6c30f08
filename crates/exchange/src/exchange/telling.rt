//! RTPC, RTAC and RTRC, transfer prohibited, allowed and restricted control (Q.704 §13.2 to §13.4), and RSRT, route set
//! test control (§13.5): what adjacent points are told about routes.

ghost use Rattle.std.specs.Prelude.{◌≡◌, ◌≤◌, ◌<◌, true, false, length, Some, IfSome, IfNone};
ghost use Rattle.settings.specs.Readings.{destination_place, set_place};
ghost use Rattle.route_management.specs.Told as hearing;
ghost use Rattle.route_management.specs.Told.{status_to_advertise};
ghost use Rattle.exchange_rules.specs.State.{with_node, with_parts};
ghost use Rattle.exchange.specs.KeptQueues.{kept};
ghost use Rattle.exchange_rules.specs.Exchange.{Ends};
ghost use Rattle.exchange_rules.specs.Telling.{send_routed};
ghost use Rattle.exchange_rules.specs.Routing.{facts, route_about};
ghost use Rattle.exchange_rules.specs.Telling as rule;
ghost use Rattle.exchange.specs.Telling.{known, told_set, told_at_place};
ghost use Rattle.exchange.specs.Pending.{OwesNone, OwesNoneBefore, OwesNoneBetween, OwesNoneUpTo};

use super::Exchange;
use cell_pool::Lanes;
use mtp3_codec::Management;
use route_management::RouteTest;
use routes::RouteStatus;
use settings::{LinkId, Outcome, PointCode, SetId};
use timers::TimerName;

/// Pending updates are queued while the node has fewer management messages than this.
const TOLD_BELOW: usize = 128;

impl Exchange {
    /// Queues the pending updates for adjacent points, while there is room.
    #[inline(always)]
    pub(super) fn tell_owed(&mut self)
        ensures { self.new ≡ with_node self.old (rule.tell_owed kept self.old.settings self.old.node) }
    {
        if self.pending.is_any() {
            self.tell_if_room();
        }
    }

    /// Queues the pending updates, if there is room.
    #[inline(always)]
    fn tell_if_room(&mut self)
        ensures { self.new ≡ with_node self.old (rule.tell_owed kept self.old.settings self.old.node) }
    {
        if self.may_tell() {
            self.tell_all();
        }
    }

    /// Queues the pending updates until there is no room for more. What is left stays pending.
    #[inline(never)]
    fn tell_all(&mut self)
        ensures { self.new ≡ with_node self.old (rule.tell_owed kept self.old.settings self.old.node) }
    {
        match self.tell_sets() {
            Some((set, destination)) => self.stop_telling(set, destination),
            None => self.end_telling(),
        }
    }

    /// No update before this one is pending.
    fn stop_telling(&mut self, set: SetId, destination: usize)
        requires { OwesNoneBefore (known self.old) self.old.node.parts.told set destination }
        ensures { self.new ≡ self.old }
    {
        self.pending.clear_before(set, destination);
    }

    /// No update is pending.
    fn end_telling(&mut self)
        requires { OwesNone (known self.old) self.old.node.parts.told }
        ensures { self.new ≡ self.old }
    {
        self.pending.clear();
    }

    /// Tells each adjacent point what it is owed. Returns the set and the destination at which there was no more room.
    fn tell_sets(&mut self) -> Option<(SetId, usize)>
        ensures state { self.new ≡ with_node self.old (rule.tell_owed kept self.old.settings self.old.node) }
        ensures some { IfSome result (λ place.
            OwesNoneBefore (known self.new) self.new.node.parts.told place.0 place.1) }
        ensures none { IfNone result (OwesNone (known self.new) self.new.node.parts.told) }
    {
        for set in 0..self.settings.sets().len() {
            let set = SetId::new(set as u8);
            if let Some(stopped) = self.tell_set(set) {
                return Some((set, stopped));
            }
        }
        None
    }

    /// Tells the adjacent point of a set what it is owed, if those of earlier sets are owed nothing. Returns the
    /// destination at which there was no more room.
    fn tell_set(&mut self, set: SetId) -> Option<usize>
        requires set { set < length self.old.settings.sets }
        requires before { OwesNoneBefore (known self.old) self.old.node.parts.told set 0 }
        ensures state { self.new ≡ told_set set self.old }
        ensures full { IfSome result (λ _. rule.may_tell kept self.new.settings self.new.node ≡ false) }
        ensures pending { OwesNoneUpTo result (known self.new) self.new.node.parts.told set }
    {
        if self.links.facts().has_link(set) {
            self.tell_row(set)
        } else {
            None
        }
    }

    /// Tells the adjacent point of a set with a link in service what it is owed, if those of earlier sets are owed
    /// nothing. Returns the destination at which there was no more room.
    fn tell_row(&mut self, set: SetId) -> Option<usize>
        requires set { set < length self.old.settings.sets }
        requires before { OwesNoneBefore (known self.old) self.old.node.parts.told set 0 }
        ensures state { self.new ≡ told_set set self.old }
        ensures full { IfSome result (λ _. rule.may_tell kept self.new.settings self.new.node ≡ false) }
        ensures pending { OwesNoneUpTo result (known self.new) self.new.node.parts.told set }
    {
        let end = self.settings.destinations().len();
        let mut destination = self.next_pending(set, 0);
        while destination < end {
            if !self.may_tell() {
                return Some(destination);
            }
            self.tell_at(set, destination);
            destination = self.next_pending(set, destination + 1);
        }
        None
    }

    /// The first destination from this one on that the adjacent point of a set may must be told of. If there is none,
    /// this one or the number of all destinations.
    #[inline(always)]
    fn next_pending(&self, set: SetId, from: usize) -> usize
        ensures from { from ≤ result }
        ensures none { OwesNoneBetween (known self.now) self.now.node.parts.told set from result }
    {
        match self.pending.next(set, from) {
            Some(destination) => destination,
            None => from.max(self.settings.destinations().len()),
        }
    }

    /// Tells the adjacent point of a set what it is owed of a destination, while there is room for it.
    fn tell_at(&mut self, set: SetId, destination: usize)
        requires set { set < length self.old.settings.sets }
        requires destination { destination < length self.old.settings.destinations }
        requires room { rule.may_tell kept self.old.settings self.old.node ≡ true }
        ensures { self.new ≡ told_at_place set destination self.old }
    {
        if let Some(status) = self.told.owed(&self.links, set, destination) {
            self.tell(set, destination, status);
        }
    }

    /// Tells the adjacent point of a set the status of a destination that it should know.
    fn tell(&mut self, set: SetId, destination: usize, status: RouteStatus)
        requires set { set < length self.old.settings.sets }
        requires destination { destination < length self.old.settings.destinations }
        requires status { status ≡ status_to_advertise (known self.old) set destination }
        ensures { self.new ≡ with_node self.old (rule.tell kept self.old.settings
            (record { set = set; destination = destination; status = status }) self.old.node) }
    {
        self.record_told(set, destination, status);
        if status.is(RouteStatus::Prohibited) {
            self.inhibit(set, destination);
        }
        self.send_status(set, destination, status);
    }

    /// The adjacent point of a set was told what it should know of a destination. That makes nothing pending.
    fn record_told(&mut self, set: SetId, destination: usize, status: RouteStatus)
        requires { status ≡ status_to_advertise (known self.old) set destination }
        ensures { self.new ≡ with_node self.old (with_parts self.old.node
            (rule.answered_parts set destination status self.old.node.parts)) }
    {
        self.told.tell(set, destination, status);
    }

    /// Starts or restarts T8 for a set and a destination.
    fn inhibit(&mut self, set: SetId, destination: usize)
        requires { destination < length self.old.settings.destinations }
        ensures { self.new ≡ with_node self.old (with_parts self.old.node
            (rule.inhibited self.old.settings set destination self.old.node.parts)) }
    {
        let timer = TimerName::T8(set, self.number_of(destination));
        self.timers.set(timer, self.settings.timers().t8);
    }

    /// Sends the adjacent point of a set the message that says a status of a destination.
    fn send_status(&mut self, set: SetId, destination: usize, status: RouteStatus)
        requires set { set < length self.old.settings.sets }
        requires destination { destination < length self.old.settings.destinations }
        ensures { self.new ≡ with_node self.old (send_routed kept self.old.settings
            (rule.route_message self.old.settings set destination status) self.old.node) }
    {
        let about = self.point_of(destination);
        self.send_management(self.adjacent_of(set), &telling(status, about));
    }

    /// Whether a link leads to the adjacent point of a set, for the message that says a status of a destination.
    fn is_status_led(&self, set: SetId, destination: usize, status: RouteStatus) -> bool
        requires set { set < length self.now.settings.sets }
        requires destination { destination < length self.now.settings.destinations }
        ensures { result ≡ rule.is_led self.now.settings
            (rule.route_message self.now.settings set destination status) self.now.node.parts }
    {
        let about = self.point_of(destination);
        self.is_led(self.adjacent_of(set), &telling(status, about))
    }

    /// A message to the destination of this number has no route. If it arrived on a link, transfer-prohibited about the
    /// destination goes to the point at the other end of that link, and T8 starts. None goes while T8 runs, if that
    /// point is the destination itself, or if there is no room or no link for it (Q.704 §13.2).
    #[inline(never)]
    pub(super) fn answer_no_route(&mut self, from: Option<LinkId>, destination: usize)
        requires from { IfSome from (λ link. link < length self.old.settings.links) }
        requires destination { destination < length self.old.settings.destinations }
        ensures { self.new ≡ with_node self.old
            (rule.answer_no_route kept self.old.settings from (Some destination) self.old.node) }
    {
        let Some(link) = from else {
            return;
        };
        let set = self.set_of(link);
        if self.may_tell()
            && !self.is_inhibited(set, destination)
            && self.is_status_led(set, destination, RouteStatus::Prohibited)
        {
            self.inhibit(set, destination);
            self.send_status(set, destination, RouteStatus::Prohibited);
        }
    }

    /// Whether no transfer-prohibited message about a destination goes out to the adjacent point of a set: for now,
    /// since one was just sent; or ever, since it is that point itself.
    fn is_inhibited(&self, set: SetId, destination: usize) -> bool
        requires { destination < length self.now.settings.destinations }
        ensures { result ≡ rule.is_inhibited set destination self.now.node.parts }
    {
        let timer = TimerName::T8(set, self.number_of(destination));
        self.timers.is_running(timer) || self.told.is_own_point(set, destination)
    }

    /// A test of an adjacent point about another (Q.704 §13.5). It is ignored if the other is that very point. It is
    /// answered if the point should be told something other than what it asks about.
    pub(super) fn on_route_test(
        &mut self,
        test: RouteTest,
        point: PointCode,
        about: PointCode,
    ) -> Outcome
        ensures { Ends self.old result self.new (rule.on_route_test kept self.old.settings test
            (route_about (set_place self.old.settings point) (destination_place self.old.settings about))
            self.old.node) }
    {
        match self.route_about(point, about) {
            Ok((set, destination)) => self.answer_route_test(test, set, destination),
            Err(outcome) => outcome,
        }
    }

    /// A test of the adjacent point of this set about this destination.
    fn answer_route_test(&mut self, test: RouteTest, set: SetId, destination: usize) -> Outcome
        requires set { set < length self.old.settings.sets }
        requires destination { destination < length self.old.settings.destinations }
        ensures { Ends self.old result self.new
            (rule.answer_route_test kept self.old.settings test set destination self.old.node) }
    {
        if self.told.is_own_point(set, destination) {
            return Outcome::Ignored;
        }
        self.send_route_status(test, set, destination);
        Outcome::Handled
    }

    /// Answers a test, if it should be answered and the answer has a link. The answer counts as told.
    fn send_route_status(&mut self, test: RouteTest, set: SetId, destination: usize)
        requires set { set < length self.old.settings.sets }
        requires destination { destination < length self.old.settings.destinations }
        ensures { self.new ≡ with_node self.old (rule.send_route_status kept self.old.settings
            (hearing.answer_to_test (facts self.old.settings self.old.node.parts)
            self.old.node.parts.told set destination test)
            set destination self.old.node) }
    {
        let answer = self
            .told
            .answer_to_test(&self.links, set, destination, test);
        if let Some(status) = answer {
            self.send_status_if_led(set, destination, status);
        }
    }

    /// Tells the adjacent point of a set the status of a destination that it should know, if the message has a link.
    fn send_status_if_led(&mut self, set: SetId, destination: usize, status: RouteStatus)
        requires set { set < length self.old.settings.sets }
        requires destination { destination < length self.old.settings.destinations }
        requires status { status ≡ status_to_advertise (known self.old) set destination }
        ensures { self.new ≡ with_node self.old
            (rule.send_route_status kept self.old.settings (Some status) set destination self.old.node) }
    {
        if self.is_status_led(set, destination, status) {
            self.record_told(set, destination, status);
            self.send_status(set, destination, status);
        }
    }

    /// Whether the node has few enough management messages to queue another update.
    pub(super) fn may_tell(&self) -> bool
        ensures { result ≡ rule.may_tell kept self.now.settings self.now.node }
    {
        self.lanes.managements() < TOLD_BELOW
    }
}

/// The message that says a status of a point.
fn telling(status: RouteStatus, about: PointCode) -> Management
    ensures { result ≡ rule.telling status about }
{
    match status {
        RouteStatus::Prohibited => Management::TransferProhibited(about),
        RouteStatus::Restricted => Management::TransferRestricted(about),
        RouteStatus::Allowed => Management::TransferAllowed(about),
    }
}
