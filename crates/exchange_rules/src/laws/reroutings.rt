//! Laws of the abstract exchange: which flows are rerouted, and how that is counted.

ghost use Rattle.exchange_rules.specs.LawsOfReroutings.{no_flow_went_at_first, events_count_what_they_reroute};
ghost use Rattle.exchange_rules.specs.LawsOfReroutings.{events_that_keep_sets_count_none, takes_reroute_nothing};
ghost use Rattle.exchange_rules.specs.LawsOfReroutings.{reroutings_stay_counted, uncounted_events_keep_sets};
ghost use Rattle.exchange_rules.specs.LawsOfReroutings.{flows_go_by_their_last_set, flows_keep_their_last_set};

/// In each state that is reached from the first, an event counts as many as there are flows that it reroutes, of all
/// destinations and selections: such a flow went by one set before, the last time that it had a link, and goes by
/// another at the end of the event; unless the set before is its destination's own, which leads to that point itself.
/// An event counts none if each flow that has a link after it went by no set yet, or goes by the set by which it went
/// last, or has left its destination's own. At first none is counted; the count never falls, whatever happens and
/// whatever is taken, and no take raises it, nor changes the set of a flow. 2^64 - 1 are counted at most.
pub fn rerouted_flows_are_counted()
    ensures first { no_flow_went_at_first }
    ensures event { events_count_what_they_reroute }
    ensures only { events_that_keep_sets_count_none }
    ensures take { takes_reroute_nothing }
    ensures stays { reroutings_stay_counted }
{}

/// While an event counts none, each flow that has a link after it went by no set yet, or goes by the set by which it
/// went last, or has left its destination's own. So while none is counted over any number of events and takes each flow
/// goes by one set of this node, once it went by one that isn't its destination's own: the set that a flow takes is
/// always the one by which it went last, and that stays the same.
pub fn flows_keep_their_set_while_none_is_counted()
    ensures event { uncounted_events_keep_sets }
    ensures last { flows_go_by_their_last_set }
    ensures always { flows_keep_their_last_set }
{}
