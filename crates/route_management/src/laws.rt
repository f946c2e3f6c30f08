//! What holds of what adjacent points are told and owed.

ghost use Rattle.route_management.specs.Laws.{told_is_kept, told_once, leaves_other_points, leaves_other_destinations};
ghost use Rattle.route_management.specs.Laws.{reset_is_kept, reset_leaves_others, status_leaves_other_destinations};
ghost use Rattle.route_management.specs.Laws.{reset_leaves_what_is_to_be_told, listed_is_owed, told_all_owes_nothing};

/// What is owed is told once: then it is owed no more, and nothing else changes whether it is owed.
pub fn what_is_owed_is_told_once()
    ensures kept { told_is_kept }
    ensures once { told_once }
    ensures points { leaves_other_points }
    ensures destinations { leaves_other_destinations }
{}

/// A reset of what one point was told leaves what the others are owed.
pub fn reset_is_of_one_point()
    ensures kept { reset_is_kept }
    ensures others { reset_leaves_others }
{}

/// A status of one destination changes nothing that points are to be told of another. While no link of a set is in
/// service, its statuses change nothing at all of it as they become allowed.
pub fn statuses_change_their_own_destination()
    ensures destinations { status_leaves_other_destinations }
    ensures reset { reset_leaves_what_is_to_be_told }
{}

/// What is listed as owed is owed, and once all of it is told, in order, nothing is owed.
pub fn all_that_is_owed_is_listed()
    ensures owed { listed_is_owed }
    ensures all { told_all_owes_nothing }
{}
