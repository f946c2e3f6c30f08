//! Laws of the abstract exchange: messages for user parts that aren't here.

ghost use Rattle.exchange_rules.specs.LawsOfUserParts.{lacking_is_refused, told_by_one, else_counted, else_untouched};
ghost use Rattle.exchange_rules.specs.LawsOfUserParts.{counts_modulo_eight, upu_reads_back};
ghost use Rattle.exchange_rules.specs.LawsOfUserParts.{parts_get_their_messages, others_go_the_same};
ghost use Rattle.exchange_rules.specs.LawsOfUserParts.{submissions_tell_nobody, submissions_are_their_parts};
ghost use Rattle.exchange_rules.specs.LawsOfUserParts.{nothing_else_is_counted, none_is_counted_at_first};
ghost use Rattle.exchange_rules.specs.LawsOfUserParts.{takes_count_none};

/// A message in a frame for a user part that isn't here is refused (NoUserPart). It is counted for its sender, modulo
/// 8, if the settings say so and the sender is a destination; else the node is left as it was. The sender is told by
/// one UPU if that count was 0, so at one of each eight at most, fewer than 128 management messages wait, and the flow
/// of UPU has a link. UPU goes to the end of that link's queue, so it is never Unsent; nothing else changes. It reads
/// back: from this point to the sender, about the user part that this point doesn't have (Q.704 §11.2.7).
///
/// A message for a user part that is here is that part's (Local), and leaves the node as it was; one for SCCP goes as
/// if nobody were told. So does one that is submitted; for a user part it is that part's or is refused, and leaves the
/// node as it was. At first nothing is counted; a take counts nothing, and no event does that brings no such message.
pub fn absent_user_parts_are_told_once_in_eight()
    ensures refused { lacking_is_refused }
    ensures told { told_by_one }
    ensures untold { else_counted }
    ensures off { else_untouched }
    ensures counted { counts_modulo_eight }
    ensures says { upu_reads_back }
    ensures here { parts_get_their_messages }
    ensures others { others_go_the_same }
    ensures submitted { submissions_tell_nobody }
    ensures given { submissions_are_their_parts }
    ensures only { nothing_else_is_counted }
    ensures first { none_is_counted_at_first }
    ensures take { takes_count_none }
{}
