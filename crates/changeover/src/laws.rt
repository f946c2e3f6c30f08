//! What holds of a completion.

ghost use Rattle.changeover.specs.Kept.{kept_completes_alike};
ghost use Rattle.changeover.specs.Lanes.{splicing_completes};
ghost use Rattle.changeover.specs.Laws.{each_once, lost_then_moved, none_lost};

/// The user messages of a failed link after the last confirmed one are, in order and each once: those that the number
/// confirms, those named as lost, and those that move.
pub fn each_user_message_once()
    ensures { each_once }
{}

/// What is named as lost and what moves are, in order, the user messages after those that are confirmed.
pub fn lost_and_moved_are_all()
    ensures { lost_then_moved }
{}

/// With a reasonable number nothing is named as lost.
pub fn reasonable_number_loses_none()
    ensures { none_lost }
{}

/// What is kept of a queue completes as the whole queue does.
pub fn kept_queue_completes_alike()
    ensures { kept_completes_alike }
{}

/// Dropping what is accepted, and putting the user messages before all that is held, completes: in order, with the
/// management messages left.
pub fn splicing_lists_completes()
    ensures { splicing_completes }
{}
