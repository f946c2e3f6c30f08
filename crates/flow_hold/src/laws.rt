//! What holds of holds.

ghost use Rattle.flow_hold.specs.Pairs.{first_holds_nothing, held_by_a_procedure};
ghost use Rattle.flow_hold.specs.Pairs.{first_is_of_node, hold_is_of_node, lift_is_of_node};
ghost use Rattle.flow_hold.specs.Pairs.{hold_adds_its_pair, hold_leaves_others, may_not_leaves};
ghost use Rattle.flow_hold.specs.Pairs.{hold_holds_its_flow, hold_keeps_flows_held};
ghost use Rattle.flow_hold.specs.Pairs.{some_flow_passes, flows_add_their_pairs, flows_leave_others, flows_are_of_node};
ghost use Rattle.flow_hold.specs.Pairs.{lift_leaves_others, lift_ends_its_own};

/// At first nothing is held.
pub fn nothing_is_held_at_first()
    ensures { first_holds_nothing }
{}

/// A flow is held exactly when some procedure holds it.
pub fn flow_is_held_by_a_procedure()
    ensures { held_by_a_procedure }
{}

/// Only procedures of the node hold flows, and only flows of the node, whatever is held and lifted.
pub fn holds_are_of_their_node()
    ensures first { first_is_of_node }
    ensures hold { hold_is_of_node }
    ensures flows { flows_are_of_node }
    ensures lift { lift_is_of_node }
{}

/// A hold adds its one pair, or none if the procedure may not hold the flow.
pub fn hold_adds_one_pair()
    ensures own { hold_adds_its_pair }
    ensures others { hold_leaves_others }
    ensures none { may_not_leaves }
{}

/// A hold holds its flow, and what was held stays held.
pub fn hold_holds_flows()
    ensures own { hold_holds_its_flow }
    ensures others { hold_keeps_flows_held }
{}

/// A hold of all flows for which a test holds adds just the pairs of those that the procedure may hold.
pub fn hold_of_flows_adds_their_pairs()
    ensures own { flows_add_their_pairs }
    ensures others { flows_leave_others }
{}

/// A test holds for some flow exactly when it holds for one to a destination that is there, with a selection.
pub fn some_flow_passes_a_test()
    ensures { some_flow_passes }
{}

/// A procedure that is lifted holds nothing, and what others hold stays.
pub fn lift_takes_its_own_pairs_alone()
    ensures own { lift_ends_its_own }
    ensures others { lift_leaves_others }
{}
