//! What holds of the flows that a link takes over, of those that are rerouted, and of codes.

ghost use Rattle.changeback.specs.Codes.{awaited_codes_are_not_free};
ghost use Rattle.changeback.specs.Laws.{each_is_moved, each_moved_is_found};
ghost use Rattle.changeback.specs.Laws.{each_change_has_its_pair, changes_leave_other_pairs};
ghost use Rattle.changeback.specs.Laws.{each_rerouted_goes_to_another, each_that_goes_to_another_is_rerouted};
ghost use Rattle.changeback.specs.Laws.{unlinked_before_are_left, unlinked_after_are_left};
ghost use Rattle.changeback.specs.Laws.{each_rerouted_has_its_hold, rerouting_leaves_other_pairs};
ghost use Rattle.changeback.specs.Laws.{each_rerouted_is_held, rerouting_keeps_flows_held};

/// Each flow that a link takes over went by the link that it comes from, and goes by the new one now.
pub fn flows_taken_over_are_moved()
    ensures { each_is_moved }
{}

/// Each flow that goes by the link now, and went by another before, is taken over.
pub fn moved_flows_are_taken_over()
    ensures { each_moved_is_found }
{}

/// A link that takes flows over adds just these pairs: each flow with the procedure that holds what comes from its
/// former link.
pub fn changes_add_their_pairs()
    ensures own { each_change_has_its_pair }
    ensures others { changes_leave_other_pairs }
{}

/// The flows that are rerouted are those that went by one link and go by another.
pub fn rerouted_flows_go_to_another_link()
    ensures another { each_rerouted_goes_to_another }
    ensures found { each_that_goes_to_another_is_rerouted }
{}

/// A flow that had no link, or has none now, isn't rerouted.
pub fn unlinked_flows_are_not_rerouted()
    ensures before { unlinked_before_are_left }
    ensures after { unlinked_after_are_left }
{}

/// A rerouting adds just these pairs: each flow that is rerouted, with the rerouting of its destination.
pub fn rerouted_flows_have_their_pairs()
    ensures own { each_rerouted_has_its_hold }
    ensures others { rerouting_leaves_other_pairs }
{}

/// Each flow that is rerouted is held, and what was held stays held.
pub fn rerouted_flows_are_held()
    ensures held { each_rerouted_is_held }
    ensures others { rerouting_keeps_flows_held }
{}

/// No code is free that awaits its acknowledgement.
pub fn awaited_codes_are_kept()
    ensures { awaited_codes_are_not_free }
{}
