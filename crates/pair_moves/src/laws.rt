//! What holds after every list of moves from every quiet pair on, as the first is, in both directions, while neither
//! node lost anything. A pair is quiet (`specs/Quiet.antt`) while all its links are closed at both ends and neither
//! node has a message for the other. The moves are those of `specs/Passing.antt` (Q.704 §2), `specs/Carrying.antt` (RFC
//! 4165 §2), `specs/Failing.antt` and `specs/LateOrders.antt` (Q.704 §5), and `specs/Returning.antt` (Q.704 §6).

ghost use Rattle.pair_moves.specs.Theorems.{lines_flow, first_ends_are_alone, ends_are_sound};
ghost use Rattle.pair_moves.specs.Theorems.{messages_come_in_order};
ghost use Rattle.pair_moves.specs.Theorems.{orders_are_awaited, opens_with_nothing_under_way};
ghost use Rattle.pair_moves.specs.Theorems.{follows_with_nothing_under_way};
ghost use Rattle.pair_moves.specs.Theorems.{words_are_true, numbers_name_what_was_received, what_waits_is_lacked};
ghost use Rattle.pair_moves.specs.Theorems.{orders_move_what_is_lacked, answers_move_what_is_lacked};
ghost use Rattle.pair_moves.specs.Quiet.{first_pairs_are_quiet};
ghost use Rattle.pair_moves.specs.Crossing.{Crosses};
ghost use Rattle.pair_moves.specs.CrossingLate.{CrossesLate};
ghost use Rattle.pair_moves.specs.GoingBack.{Returns};
ghost use Rattle.pair_moves.specs.Theorems.{codes_are_outstanding, none_is_given_up};
ghost use Rattle.pair_moves.specs.Theorems.{each_message_once, each_flow_in_order};

/// Law (i), of one link and one direction. While either end is up, and until the near end's changeover is complete,
/// unless an end may follow the other, the far end accepted the first messages of the near end's queue, as many as it
/// counts (RFC 4165 §2.2). While the far end is up, the User Data in flight carry those from there to the last that was
/// sent, in order. While the near end is up, the backward numbers of the User Data that come to it name counts that the
/// far end accepted, never falling. So a message that comes is the first that its end lacked. While an end may follow,
/// the one that opened first has an empty queue and isn't in service; nothing is in flight to it, and no message to the
/// other, which is down and may open. A message is at an end only while the end is in service or its changeover isn't
/// complete.
pub fn frames_carry_what_was_not_received()
    ensures carried { lines_flow }
    ensures opening { first_ends_are_alone }
    ensures ends { ends_are_sound }
    ensures taken { messages_come_in_order }
{}

/// Law (ii). Of a node's changeover orders about a link and the peer's answers about it, exactly one is under way while
/// the node awaits that answer, and otherwise none (Q.704 §5.4). So no node awaits in vain. None is from either node
/// when the link may open at both ends, nor when an end may follow the other.
pub fn orders_and_answers_are_awaited()
    ensures awaited { orders_are_awaited }
    ensures opening { opens_with_nothing_under_way }
    ensures following { follows_with_nothing_under_way }
{}

/// Law (iii). An order or an answer about a link is under way only while the link is down at the
/// node that sent it, and it has the number of the last message accepted there (Q.704 §5.4, with
/// the numbers of Q.2210).
pub fn orders_and_answers_are_true()
    ensures { words_are_true }
{}

/// Law (iv) (Q.704 §5.4, §5.5). While either end of a link is up, and until its changeover is complete, unless an end
/// may follow the other, the number of the last message that the peer accepted there names the count of all that it
/// received. At all times the messages after the count that the number names, or if it names none those that aren't
/// confirmed, are those that the peer lacks. A completion, by an order or by an answer, moves these and no others.
pub fn completions_move_what_the_peer_lacks()
    ensures named { numbers_name_what_was_received }
    ensures waiting { what_waits_is_lacked }
    ensures orders { orders_move_what_is_lacked }
    ensures answers { answers_move_what_is_lacked }
{}

/// Of a node's changeback declarations with a code and the peer's confirmations of it, exactly one is under way while
/// the code is outstanding, and otherwise none (Q.704 §6.3). But a code that was outstanding in the quiet pair is given
/// up: it stays so, and none is under way. No other is given up.
pub fn codes_are_outstanding_until_they_are_confirmed()
    ensures outstanding { codes_are_outstanding }
    ensures given_up { none_is_given_up }
{}

/// "Exactly once": of any kind of user messages, as many were accepted at one node as the other received, together with
/// those between them: in Held, on a link after what the other node accepted, or in a list that a node is working on.
pub fn each_message_comes_once()
    ensures { each_message_once }
{}

/// "Order": the user messages of a flow that one node accepted are, in order, those that the other received or that
/// just arrived there, those on the one link that has any, those in Held, and those being worked on. It holds while no
/// timer of the accepting node ended a hold.
pub fn each_flow_keeps_its_order()
    ensures { each_flow_in_order }
{}

/// The first pair is quiet, however many links it has.
pub fn a_new_pair_is_quiet()
    ensures { first_pairs_are_quiet }
{}

/// These laws aren't empty. In a run of 39 moves a message on a link that fails at both ends is accepted at one node
/// and received by the other, through a changeover order and its answer, and no flag is raised.
pub fn a_message_crosses_a_failure()
    ensures { Crosses }
{}

/// An order may go out late. In a run of 40 moves the only link between the nodes fails with a message on it, and no
/// order goes out. Once another link is in service at both ends the order does, and the message moves there as its
/// answer comes. No flag is raised.
pub fn a_late_order_moves_what_waits()
    ensures { CrossesLate }
{}

/// Nor is the law of codes. The run goes on by 27 moves: the link that failed returns, and the flow goes back to it
/// after a changeback declaration. A message that is accepted meanwhile is held until the declaration is confirmed,
/// goes by the link that returned, and is received after the first. No flag is raised.
pub fn a_flow_returns_in_order()
    ensures { Returns }
{}
