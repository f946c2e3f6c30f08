//! TFRC and TCRC, forced and controlled rerouting control (Q.704 §7, §8), and RSRT, route set test control (§13.5):
//! what adjacent points say about routes, what that does to flows, and the tests that this node sends.

ghost use Rattle.std.specs.Prelude.{◌≡◌, ◌<◌, length};
ghost use Rattle.settings.specs.Readings.{destination_place, set_place};
ghost use Rattle.exchange_rules.specs.State.{with_node, with_parts};
ghost use Rattle.exchange.specs.KeptQueues.{kept};
ghost use Rattle.exchange_rules.specs.Exchange.{Ends, with_timers};
ghost use Rattle.exchange_rules.specs.Routing.{facts, adjacent_of, route_about};
ghost use Rattle.exchange_rules.specs.Telling.{management_to};
ghost use Rattle.routes.specs.Routes.{status_of};
ghost use Rattle.route_management.specs.Told.{heard};
ghost use Rattle.exchange_rules.specs.Rerouting as rule;

use super::Exchange;
use changeback::reroute;
use flow_hold::Procedure;
use mtp3_codec::Management;
use route_management::Heard;
use routes::RouteStatus;
use settings::{Outcome, PointCode, SetId};
use timers::{RouteTimer, TimerName};

impl Exchange {
    /// A status that an adjacent point reports for another (Q.704 §13.2 to §13.4). It is ignored if the other is that
    /// very point, or isn't reached by its set.
    pub(super) fn on_route_status(
        &mut self,
        status: RouteStatus,
        point: PointCode,
        about: PointCode,
    ) -> Outcome
        ensures { Ends self.old result self.new (rule.on_route_status kept self.old.settings status
            (route_about (set_place self.old.settings point) (destination_place self.old.settings about))
            self.old.node) }
    {
        match self.route_about(point, about) {
            Ok((set, destination)) => self.apply_route_status(set, destination, status),
            Err(outcome) => outcome,
        }
    }

    /// A status of this destination that the adjacent point of this set reports.
    fn apply_route_status(&mut self, set: SetId, destination: usize, status: RouteStatus) -> Outcome
        requires set { set < length self.old.settings.sets }
        requires destination { destination < length self.old.settings.destinations }
        ensures { Ends self.old result self.new (rule.apply_route_status kept self.old.settings
            (heard (facts self.old.settings self.old.node.parts) self.old.node.parts.told set destination status)
            set destination status self.old.node) }
    {
        match self.told.received(&self.links, set, destination, status) {
            Heard::Ignored => Outcome::Ignored,
            Heard::Unchanged => Outcome::Handled,
            Heard::Changed => {
                self.change_status(set, destination, status);
                Outcome::Handled
            }
        }
    }

    /// The route to a destination over a set gets another status. Prohibited holds nothing (forced rerouting); the
    /// others hold the flows that change their link (controlled rerouting; Q.704 §7, §8).
    fn change_status(&mut self, set: SetId, destination: usize, status: RouteStatus)
        requires set { set < length self.old.settings.sets }
        requires destination { destination < length self.old.settings.destinations }
        ensures { self.new ≡ with_node self.old (with_parts self.old.node
            (rule.with_status_heard self.old.settings set destination status self.old.node.parts)) }
    {
        self.time_status(set, destination, status);
        if status.is(RouteStatus::Prohibited) {
            self.force(set, destination, status);
        } else {
            self.reroute(set, destination, status);
        }
    }

    /// T10 runs while a route isn't allowed.
    fn time_status(&mut self, set: SetId, destination: usize, status: RouteStatus)
        requires destination { destination < length self.old.settings.destinations }
        ensures { self.new ≡ with_node self.old (with_timers self.old.node
            (rule.timed_status self.old.settings set destination status self.old.node.parts.timers)) }
    {
        let timer = TimerName::T10(set, self.number_of(destination));
        match status {
            RouteStatus::Allowed => self.timers.clear(timer),
            RouteStatus::Restricted | RouteStatus::Prohibited => {
                self.timers.set(timer, self.settings.timers().t10);
            }
        }
    }

    /// Forced rerouting: the route to a destination over a set gets a status.
    fn force(&mut self, set: SetId, destination: usize, status: RouteStatus)
        requires { destination < length self.old.settings.destinations }
        ensures { self.new ≡ with_node self.old (with_parts self.old.node
            (rule.forced self.old.settings set destination status self.old.node.parts)) }
    {
        self.pending.add(destination);
        self.flows_due.mark(destination);
        self.links.set_status(destination, set, status);
    }

    /// Controlled rerouting: the route to a destination over a set gets a status. Flows to that destination that change
    /// their link as a result are held, and if there are any, T6 restarts.
    fn reroute(&mut self, set: SetId, destination: usize, status: RouteStatus)
        requires destination { destination < length self.old.settings.destinations }
        ensures { self.new ≡ with_node self.old (with_parts self.old.node
            (rule.controlled self.old.settings set destination status self.old.node.parts)) }
    {
        let timer = TimerName::T6(self.number_of(destination));
        self.pending.add(destination);
        self.flows_due.mark(destination);
        self.release_due = true;
        if reroute(&mut self.links, &mut self.holds, destination, set, status) {
            self.timers.set(timer, self.settings.timers().t6);
        }
    }

    /// T6 of a destination ran out: its hold is lifted.
    pub(super) fn end_rerouting(&mut self, destination: u16)
        ensures { self.new ≡ with_node self.old
            (with_parts self.old.node (rule.rerouting_ended destination self.old.node.parts)) }
    {
        self.release_due = true;
        self.holds
            .lift(Procedure::Reroute(usize::from(destination)));
    }

    /// The first link of a set enters service: all routes over it are allowed, its adjacent point assumes that all
    /// destinations are allowed, and T8 and T10 of the set stop.
    pub(super) fn reset_set(&mut self, set: SetId)
        ensures { self.new ≡ with_node self.old
            (with_parts self.old.node (rule.with_set_reset self.old.settings set self.old.node.parts)) }
    {
        self.pending.add_all();
        self.flows_due.mark_all_if(true);
        self.links.reset_statuses(set);
        self.told.reset(set);
        self.timers.clear_set(RouteTimer::T8, set);
        self.timers.clear_set(RouteTimer::T10, set);
    }

    /// T10 of a set and a destination ran out: while the adjacent point's route is prohibited or restricted it is
    /// tested once more, and T10 runs again (Q.704 §13.5).
    pub(super) fn ask_again(&mut self, set: SetId, destination: u16)
        ensures { self.new ≡
            with_node self.old (rule.ask_again kept self.old.settings set destination self.old.node) }
    {
        let destination = usize::from(destination);
        let is_there = set.index() < self.settings.sets().len()
            && destination < self.settings.destinations().len();
        if is_there {
            self.ask_by(set, destination);
        }
    }

    /// Tests the route of the adjacent point of this set to this destination.
    fn ask_by(&mut self, set: SetId, destination: usize)
        requires set { set < length self.old.settings.sets }
        requires destination { destination < length self.old.settings.destinations }
        ensures { self.new ≡ with_node self.old (rule.ask_by kept self.old.settings
            (status_of (facts self.old.settings self.old.node.parts) destination set) set destination self.old.node) }
    {
        let about = self.point_of(destination);
        match self.links.facts().status_of(destination, set) {
            Some(RouteStatus::Prohibited) => {
                self.ask(set, destination, &Management::RouteSetTestProhibited(about));
            }
            Some(RouteStatus::Restricted) => {
                self.ask(set, destination, &Management::RouteSetTestRestricted(about));
            }
            Some(RouteStatus::Allowed) | None => {}
        }
    }

    /// A test about a destination goes to the adjacent point of a set, if a link leads there, and T10 runs again.
    fn ask(&mut self, set: SetId, destination: usize, test: &Management)
        requires set { set < length self.old.settings.sets }
        requires destination { destination < length self.old.settings.destinations }
        ensures { self.new ≡ with_node self.old (rule.ask kept self.old.settings
            (management_to self.old.settings (adjacent_of self.old.settings set) test.now) set destination
            self.old.node) }
    {
        let timer = TimerName::T10(set, self.number_of(destination));
        self.timers.set(timer, self.settings.timers().t10);
        self.send_management_if_led(self.adjacent_of(set), test);
    }
}
