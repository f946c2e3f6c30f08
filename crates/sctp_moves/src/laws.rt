//! What holds after every list of moves of two new ends, whatever the network does with the datagrams
//! that they put out. The moves are those of `specs/Moves.antt` (RFC 9260 §5, §6), and the statements
//! those of `specs/Theorems.antt`.

ghost use Rattle.sctp_moves.specs.Theorems.{each_association_carries_a_prefix};
ghost use Rattle.sctp_moves.specs.Theorems.{what_is_received_was_sent, what_is_confirmed_was_received};
ghost use Rattle.sctp_moves.specs.Theorems.{own_tags_differ, far_tags_differ};
ghost use Rattle.sctp_moves.specs.Theorems.{first_finds_other_waiting, second_enters_latest};
ghost use Rattle.sctp_moves.specs.Theorems.{associations_come_in_order};
ghost use Rattle.sctp_moves.specs.Theorems.{near_moves_are_moves, far_moves_are_moves, moves_join};
ghost use Rattle.sctp_moves.specs.Openings.{openings_come_in_turn, established_ends_are_spent, cookies_are_not_revived};
ghost use Rattle.sctp_moves.specs.Example.{Happens};

/// "Prefix" and "confirmed": if both ends had an association, what one received in it is the beginning of what the
/// other sent, each message once, in order, whole, and no more was confirmed than had come. An end that received
/// something, or saw something confirmed, did so in an association that the other end had too.
pub fn messages_come_in_order()
    ensures carried { each_association_carries_a_prefix }
    ensures sent { what_is_received_was_sent }
    ensures confirmed { what_is_confirmed_was_received }
{}

/// "One": no two associations of an end have the same own tag, nor the same far tag. So two epochs
/// with the same two tags are those of one association.
pub fn tags_name_one_association()
    ensures own { own_tags_differ }
    ensures far { far_tags_differ }
{}

/// "First": if an end opens an association that the other end hasn't opened, the other isn't established. Its user
/// wants the association and it waits for COOKIE ACK of it, or it waited for that and gave up since.
pub fn first_end_finds_other_waiting()
    ensures { first_finds_other_waiting }
{}

/// "Second": if an end opens an association that the other end opened before, it is the latest that the other had.
pub fn second_end_enters_latest()
    ensures { second_enters_latest }
{}

/// "Order": the associations that both ends had come in the same order at both.
pub fn both_ends_have_the_same_order()
    ensures { associations_come_in_order }
{}

/// Openings come in turn. An end opens an association first by a cookie that the other one echoed, and the other may
/// follow into that one alone: not once either end opened another, and not once it was ahead itself. A cookie is spent
/// once an end has an association: what that end echoed before opens nothing at the other end but this association,
/// even when it has fallen. And nothing that the other end does makes a cookie good again.
pub fn openings_come_in_turn()
    ensures turns { openings_come_in_turn }
    ensures spent { established_ends_are_spent }
    ensures revived { cookies_are_not_revived }
{}

/// Moves of one end, while the other stands still, are moves of both; and moves after moves are moves. So whoever shows
/// that each call of an endpoint is a list of moves has the laws above.
pub fn moves_of_ends_join()
    ensures near { near_moves_are_moves }
    ensures far { far_moves_are_moves }
    ensures behind { moves_join }
{}

/// These laws aren't empty. In a run of 31 moves an association opens at one end and then at the other. Messages wrap
/// round the end of the numbers; one overtakes another, one comes twice, and one is lost. The association falls at one
/// end, where its old cookie opens nothing, and a new one opens at both. After the hole nothing was acknowledged, and
/// no cookie of another peer might have opened.
pub fn associations_open_and_fall()
    ensures { Happens }
{}
