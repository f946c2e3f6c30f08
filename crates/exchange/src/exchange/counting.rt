//! How many messages wait.

ghost use Rattle.std.specs.Prelude.{◌≡◌, count_by, length};
ghost use Rattle.cell_pool.specs.Lanes.{is_user_picked};
ghost use Rattle.exchange_rules.specs.First.{Abstract};
ghost use Rattle.exchange_rules.specs.Queues.{queue_at};
ghost use Rattle.exchange.specs.Calls.{StandsFor};
ghost use Rattle.exchange.specs.KeptQueues.{kept, counts_at, link_lane};
ghost use Rattle.exchange.specs.Counting.{behind_number, kept_behind_number};

use super::Exchange;
use super::lanes::{HELD, lane_of};
use cell_pool::{Lanes, Pick};
use settings::LinkId;
use signalling_types::Number24;

impl Exchange {
    /// How many messages are in Held, management messages too. It looks at none of them.
    pub fn count_held(&self) -> usize
        ensures count { (a : Abstract) → StandsFor self.now a → result ≡ length a.node.queues.held }
        ensures kept_count { result ≡ length (kept.held self.now.node.queues) }
    {
        self.lanes.count(HELD)
    }

    /// How many user messages of Held a choice takes. It looks at each message once, and copies none.
    pub fn count_held_picked<P: Pick>(&self, pick: &P) -> usize
        ensures count { (a : Abstract) → StandsFor self.now a →
            result ≡ count_by (is_user_picked (P.picks pick.now)) a.node.queues.held }
        ensures kept_count { result ≡ count_by (is_user_picked (P.picks pick.now)) (kept.held self.now.node.queues) }
    {
        self.lanes.count_users(HELD, 0, pick)
    }

    /// Of the user messages of a link after the count that a number names (RFC 4165 §2.2), how many a choice takes; if
    /// the number names none, of all that aren't confirmed. 0 if there is no such link. It looks at each of these
    /// messages once, with a step for each one before them, and copies none.
    pub fn count_behind<P: Pick>(&self, link: LinkId, number: Number24, pick: &P) -> usize
        ensures count { (a : Abstract) → StandsFor self.now a →
            result ≡ count_by (is_user_picked (P.picks pick.now))
            (behind_number (queue_at a.node.queues link) number) }
        ensures kept_count { result ≡ count_by (is_user_picked (P.picks pick.now))
            (kept_behind_number (counts_at self.now.node.queues.counts link)
            (link_lane self.now.node.queues link) number) }
    {
        self.count_on_link(link, number, pick)
    }

    /// The same, by what is kept.
    fn count_on_link<P: Pick>(&self, link: LinkId, number: Number24, pick: &P) -> usize
        ensures { result ≡ count_by (is_user_picked (P.picks pick.now))
            (kept_behind_number (counts_at self.now.node.queues.counts link)
            (link_lane self.now.node.queues link) number) }
    {
        if !self.links.has(link) {
            return 0;
        }
        let confirmed = self.sequences[link.index()].retrieve(number).unwrap_or(0);
        self.lanes.count_users(lane_of(link), confirmed, pick)
    }
}
