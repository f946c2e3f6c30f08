//! What an exchange shows: its settings, its flags and notices, its links, routes and translation rows; and the places
//! that it has.

ghost use Rattle.std.specs.Prelude.{◌≡◌, ◌+◌, length, min, slice_get};
ghost use Rattle.exchange_rules.specs.First.{Abstract};
ghost use Rattle.exchange_rules.specs.State.{made_since, lost_any, late_any};
ghost use Rattle.exchange.specs.Calls.{StandsFor};
ghost use Rattle.exchange.specs.KeptQueues.{kept};
ghost use Rattle.exchange_rules.specs.Queues.{whole};
ghost use Rattle.exchange_rules.specs.Places.{HasPlacesFor};
ghost use Rattle.sccp_relay.specs.Rows.{IsOrdered};
ghost use Rattle.exchange.specs.Views.{link_view, obstacle_at, route_status, route_view};

use super::Exchange;
use crate::view::{LinkStanding, LinkView, NewNotices, Obstacle, RouteView, status_shown};
use circular_buffer::HeapCircularBuffer;
use routes::RouteStatus;
use sccp_relay::Titles;
use settings::{LinkId, Notice, SetId, Settings, TitleRow};

impl Exchange {
    /// The settings that the exchange was booted with.
    pub fn settings(&self) -> &Settings
        ensures settings { (a : Abstract) → StandsFor self.now a → result.now ≡ a.settings }
        ensures kept_settings { result.now ≡ self.now.settings }
    {
        &self.settings
    }

    /// Whether a message may have been lost since `boot`: a notice of a lost message or of a dropped management message
    /// was made, a changeover ended without a reasonable number, T2 ran out, or the operator released a link that was
    /// barred. Once true it stays true.
    pub fn lost_any(&self) -> bool
        ensures lost { (a : Abstract) → StandsFor self.now a → result ≡ lost_any a.node.parts }
        ensures kept_lost { result ≡ lost_any self.now.node.parts }
    {
        self.times_lost != 0
    }

    /// How often a message may have been lost since `boot`; it stays at 2^64 - 1.
    pub fn times_lost(&self) -> u64
        ensures times { (a : Abstract) → StandsFor self.now a → result ≡ a.node.parts.times_lost }
        ensures kept_times { result ≡ self.now.node.parts.times_lost }
    {
        self.times_lost
    }

    /// How many messages were named as lost since `boot`, each by a notice; it stays at 2^64 - 1.
    pub fn messages_lost(&self) -> u64
        ensures messages { (a : Abstract) → StandsFor self.now a → result ≡ a.node.parts.messages_lost }
        ensures kept_messages { result ≡ self.now.node.parts.messages_lost }
    {
        self.messages_lost
    }

    /// How often since `boot` a changeover ended so that it isn't known for sure what the other end has of its link:
    /// the acknowledgement of its order was awaited no more, though it didn't come, or a number came that names no
    /// message. It stays at 2^64 - 1.
    pub fn times_broken(&self) -> u64
        ensures times { (a : Abstract) → StandsFor self.now a → result ≡ a.node.parts.times_broken }
        ensures kept_times { result ≡ self.now.node.parts.times_broken }
    {
        self.times_broken
    }

    /// How often since `boot` a flow changed its link set, but away from its destination's own: at the end of an event
    /// it went by another set than the last time that it had a link. It stays at 2^64 - 1.
    pub fn times_rerouted(&self) -> u64
        ensures times { (a : Abstract) → StandsFor self.now a → result ≡ a.reroutings.times }
        ensures kept_times { result ≡ self.now.reroutings.times }
    {
        self.times_rerouted
    }

    /// Whether messages of a flow may have gone out of order since `boot`: T3 or T4 ran out, so a changeback released
    /// messages before the acknowledgement arrived. Once true it stays true.
    pub fn late_any(&self) -> bool
        ensures late { (a : Abstract) → StandsFor self.now a → result ≡ late_any a.node.parts }
        ensures kept_late { result ≡ late_any self.now.node.parts }
    {
        self.times_late != 0
    }

    /// How often messages of a flow may have gone out of order since `boot`; it stays at 2^64 - 1.
    pub fn times_late(&self) -> u64
        ensures times { (a : Abstract) → StandsFor self.now a → result ≡ a.node.parts.times_late }
        ensures kept_times { result ≡ self.now.node.parts.times_late }
    {
        self.times_late
    }

    /// The last 64 notices, the oldest first. Reading removes none; once there are 64, each new one drops the oldest.
    pub fn notices(&self) -> &HeapCircularBuffer<Notice>
        ensures notices { (a : Abstract) → StandsFor self.now a → result.now.items ≡ a.node.parts.notices.last }
        ensures kept_notices { result.now.items ≡ self.now.node.parts.notices.last }
    {
        &self.notices
    }

    /// The notices that are new to a reader that last saw this many (`notice_count`): the last ones of `notices`, and
    /// how many it missed. If there are 2^64 new notices or more, only the rest modulo 2^64 count as new.
    pub fn notices_since(&self, count: u64) -> NewNotices
        ensures kept { (a : Abstract) → StandsFor self.now a →
            result.kept ≡ min (made_since count a.node.parts.notices) (length a.node.parts.notices.last) }
        ensures all { (a : Abstract) → StandsFor self.now a →
            result.kept + result.missed ≡ made_since count a.node.parts.notices }
    {
        let new = self.notice_count.wrapping_sub(count);
        let kept = self.notices.len();
        if new < kept as u64 {
            return NewNotices {
                kept: new as usize,
                missed: 0,
            };
        }
        NewNotices {
            kept,
            missed: new - kept as u64,
        }
    }

    /// How many notices there were since `boot`, modulo 2^64. The last of `notices` has this number.
    pub fn notice_count(&self) -> u64
        ensures count { (a : Abstract) → StandsFor self.now a → result ≡ a.node.parts.notices.count }
        ensures kept_count { result ≡ self.now.node.parts.notices.count }
    {
        self.notice_count
    }

    /// A link as it is shown; `None` if there is no such link.
    pub fn link(&self, link: LinkId) -> Option<LinkView>
        ensures link { (a : Abstract) → StandsFor self.now a → result ≡ link_view whole a link }
        ensures kept_link { result ≡ link_view kept self.now link }
    {
        if !self.links.has(link) {
            return None;
        }
        let sequence = &self.sequences[link.index()];
        Some(LinkView {
            standing: LinkStanding::of(self.links.state(link).alignment()),
            waiting: self.count_on(link),
            last_sent: sequence.last_sent(),
            last_accepted: sequence.last_accepted(),
        })
    }

    /// What keeps a link that is in service from carrying user messages: the first that holds of its first test, which
    /// it hasn't passed, an outage of the peer's processor, and a peer that is busy, as one whose processor is out also
    /// is. `None` if nothing does, if the link isn't in service, or if there is no such link.
    pub fn obstacle(&self, link: LinkId) -> Option<Obstacle>
        ensures obstacle { (a : Abstract) → StandsFor self.now a → result ≡ obstacle_at a link }
        ensures kept_obstacle { result ≡ obstacle_at self.now link }
    {
        if !self.links.has(link) {
            return None;
        }
        let state = self.links.state(link);
        if !state.is_in_service() {
            None
        } else if !state.carries_traffic() {
            Some(Obstacle::Untested)
        } else if state.is_peer_out() {
            Some(Obstacle::PeerOutage)
        } else if state.is_peer_busy() {
            Some(Obstacle::PeerBusy)
        } else {
            None
        }
    }

    /// A destination as it is shown, by its number in the order of the settings; `None` if it isn't there.
    pub fn route(&self, destination: usize) -> Option<RouteView>
        ensures route { (a : Abstract) → StandsFor self.now a → result ≡ route_view a destination }
        ensures kept_route { result ≡ route_view self.now destination }
    {
        let row = self.settings.destinations().get(destination)?;
        Some(RouteView {
            point: row.point(),
            sets: self.links.facts().sets_of(destination),
            status: status_shown(&self.links.facts().routes_of(destination)),
        })
    }

    /// The status of the route over a set to a destination, by its number in the order of the settings; `None` if no
    /// such route is there. It takes a step for each set that leads to the destination.
    pub fn route_status(&self, destination: usize, set: SetId) -> Option<RouteStatus>
        ensures status { (a : Abstract) → StandsFor self.now a → result ≡ route_status a destination set }
        ensures kept_status { result ≡ route_status self.now destination set }
    {
        self.links.facts().status_of(destination, set)
    }

    /// A translation row, by its number in the order of the rows: by translation type, plan, nature, then digit by
    /// digit, a prefix before the longer ones. `None` past the last.
    pub fn title(&self, index: usize) -> Option<TitleRow>
        ensures title { (a : Abstract) → StandsFor self.now a → result ≡ slice_get a.node.parts.titles.rows index }
        ensures kept_title { result ≡ slice_get self.now.node.parts.titles.rows index }
        ensures order { IsOrdered self.now.node.parts.titles.rows }
    {
        self.titles.row(index)
    }

    /// How many translation rows there are.
    pub fn title_count(&self) -> usize
        ensures count { (a : Abstract) → StandsFor self.now a → result ≡ length a.node.parts.titles.rows }
        ensures kept_count { result ≡ length self.now.node.parts.titles.rows }
    {
        self.titles.len()
    }

    /// The translation rows, and which of the subsystems that they lead to are prohibited.
    pub fn titles(&self) -> &Titles
        ensures titles { (a : Abstract) → StandsFor self.now a → result.now ≡ a.node.parts.titles }
        ensures kept_titles { result.now ≡ self.now.node.parts.titles }
    {
        &self.titles
    }

    /// Every exchange has a place for each link, set and destination of its settings, whatever happened to it.
    pub fn has_its_places(&self)
        ensures places { (a : Abstract) → StandsFor self.now a → HasPlacesFor a.settings a.node.parts }
        ensures kept_places { HasPlacesFor self.now.settings self.now.node.parts }
    {
        // reading a field gives the prover the invariant
        let _ = &self.holds;
    }
}
