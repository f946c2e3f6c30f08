//! Flows that changed their link set: at the end of each event those are looked at whose routes or links changed.

ghost use Rattle.std.specs.Prelude.{◌≡◌, ◌<◌, length};
ghost use Rattle.signalling_types.specs.declared.limits.TheConstants.Limits.{SELECTIONS};
ghost use Rattle.exchange_rules.specs.Exchange.{leaving};
ghost use Rattle.exchange_rules.specs.Routing.{facts};
ghost use Rattle.exchange_rules.specs.Reroutings.{set_taken, is_direct, is_rerouted, one_if, last_sets_from, changes_from, counted};
ghost use Rattle.exchange.specs.DueFlows.{row_of, row_counted, with_reroutings, CountedBut};
ghost use Rattle.exchange.specs.declared.reroutings.DueFlows.TheVariants.{To};

use super::Exchange;
use crate::reroutings::{DueFlows, LastSets};
use settings::{Limits, SetId, Sls};

/// The flows to one destination, looked at once more.
#[derive(Drop)]
struct Recount {
    // the sets by which they went last
    sets: LastSets,
    // how many of them were rerouted
    changes: u64,
}

impl Exchange {
    /// Counts the flows that were rerouted. An event that changes no route and no link costs one comparison; one that
    /// changes the routes to a destination looks at the 16 flows there; and one that begins or ends the traffic of a
    /// link looks at all flows.
    #[inline(always)]
    pub(super) fn count_flows(&mut self)
        ensures { self.new ≡ leaving self.old self.old.node }
    {
        if self.flows_due.is_any() {
            self.count_due();
        }
    }

    /// Counts those flows that may have changed their set.
    #[inline(never)]
    fn count_due(&mut self)
        ensures { self.new ≡ leaving self.old self.old.node }
    {
        match self.flows_due {
            DueFlows::To(destination) => self.count_one(destination),
            DueFlows::Nothing | DueFlows::All => self.count_rows(),
        }
        self.end_counting();
    }

    /// All flows were counted.
    fn end_counting(&mut self)
        requires { counted self.old.settings (facts self.old.settings self.old.node.parts) self.old.reroutings
            ≡ self.old.reroutings }
        ensures { self.new ≡ self.old }
    {
        self.flows_due = DueFlows::Nothing;
    }

    /// Counts the flows to a destination, where all others were counted.
    fn count_one(&mut self, destination: usize)
        requires { CountedBut self.old.settings (To destination)
            (facts self.old.settings self.old.node.parts) self.old.reroutings }
        ensures { self.new ≡ leaving self.old self.old.node }
    {
        if destination < self.settings.destinations().len() {
            self.count_row(destination);
        }
    }

    /// Counts the flows to all destinations.
    fn count_rows(&mut self)
        ensures { self.new ≡ leaving self.old self.old.node }
    {
        for destination in 0..self.settings.destinations().len() {
            self.count_row(destination);
        }
    }

    /// Counts the flows to a destination.
    fn count_row(&mut self, destination: usize)
        requires { destination < length self.old.settings.destinations }
        ensures { self.new ≡ with_reroutings self.old
            (row_counted self.old.settings (facts self.old.settings self.old.node.parts) destination
            self.old.reroutings) }
    {
        let recount = self.recount(destination);
        self.times_rerouted = self.times_rerouted.saturating_add(recount.changes);
        self.flow_sets.write(destination, recount.sets);
    }

    /// Looks at the flows to a destination.
    fn recount(&self, destination: usize) -> Recount
        requires { destination < length self.now.settings.destinations }
        ensures sets { result.sets ≡ last_sets_from self.now.settings (facts self.now.settings self.now.node.parts)
            destination 0 (row_of self.now.reroutings destination) }
        ensures changes { result.changes ≡ changes_from self.now.settings
            (facts self.now.settings self.now.node.parts) destination 0 (row_of self.now.reroutings destination) }
    {
        let last_sets = self.flow_sets.to(destination);
        let mut sets = [None; Limits::SELECTIONS];
        let mut changes = 0;
        for selection in 0..last_sets.count() {
            let last = last_sets.get(selection);
            let now = self.set_taken(destination, selection as u8);
            changes += self.changes_by(destination, &last, &now);
            sets[selection] = now.or(last);
        }
        Recount {
            sets: LastSets::of(sets),
            changes,
        }
    }

    /// The set of the link of a flow.
    fn set_taken(&self, destination: usize, selection: u8) -> Option<SetId>
        requires { selection < SELECTIONS }
        ensures { result ≡ set_taken self.now.settings (facts self.now.settings self.now.node.parts)
            destination selection }
    {
        let Some(sls) = Sls::new(selection) else {
            unreachable!()
        };
        let link = self.link_to(destination, sls)?;
        Some(self.set_of(link))
    }

    /// 1 if a flow to a destination was rerouted, else 0.
    fn changes_by(&self, destination: usize, last: &Option<SetId>, now: &Option<SetId>) -> u64
        requires { destination < length self.now.settings.destinations }
        ensures { result ≡ one_if (is_rerouted self.now.settings destination last.now now.now) }
    {
        match (last, now) {
            (Some(last), Some(now)) => {
                if last != now && !self.is_direct(*last, destination) {
                    1
                } else {
                    0
                }
            }
            _ => 0,
        }
    }

    /// Whether a set is a destination's own.
    fn is_direct(&self, set: SetId, destination: usize) -> bool
        requires { destination < length self.now.settings.destinations }
        ensures { result ≡ is_direct self.now.settings set destination }
    {
        match self.settings.sets().get(set.index()) {
            Some(row) => row.adjacent() == self.point_of(destination),
            None => false,
        }
    }
}
