//! What holds after every list of moves from every quiet network on, as the first is, while no node is broken; four
//! laws ask less of nodes, of which three begin with the first network. A network is quiet (`specs/Quiet.antt`) while
//! all its links are closed at both ends, its nodes' books begin, and no node has a user message, an order or an
//! answer. It may have any shape. The moves are those of `specs/Passing.antt` (Q.704 §2), `specs/Carrying.antt` (RFC
//! 4165 §2), `specs/Failing.antt` (Q.704 §5) and `specs/Returning.antt` (Q.704 §6).

ghost use Rattle.network_moves.specs.Theorems.{Always, LinesFlow, FirstEndsAreAlone, EndsAreSound, MovedEndsAreAlone};
ghost use Rattle.network_moves.specs.Theorems.{MessagesComeInOrder};
ghost use Rattle.network_moves.specs.Theorems.{LinksOpenWithNoWordLeft, EndsFollowWithNoWordLeft};
ghost use Rattle.network_moves.specs.Theorems.{NumbersNameWhatWasReceived};
ghost use Rattle.network_moves.specs.Theorems.{OrdersMoveWhatIsLacked, AnswersMoveWhatIsLacked};
ghost use Rattle.network_moves.specs.Theorems.{OrdersAreReasonable, AnswersAreReasonable};
ghost use Rattle.network_moves.specs.Theorems.{EachMessageEntersOnce, EachMessageEndsOnce, EachMessageIsAccountedFor};
ghost use Rattle.network_moves.specs.Laws.{WordsAreAwaited, WordsAreTrue};
ghost use Rattle.network_moves.specs.Groups.{groups_begin_anew, groups_decide_alone, nothing_leaves_the_group};
ghost use Rattle.network_moves.specs.Lasting.{ends_stay_sound};
ghost use Rattle.network_moves.specs.Quiet.{first_networks_are_quiet};
ghost use Rattle.network_moves.specs.Crossing.{Crosses};
ghost use Rattle.network_moves.specs.LateAnswer.{EndsTheBar};
ghost use Rattle.network_moves.specs.Beside.{MatesDecide};

/// Law (i), of one link and one direction. While either end is up, and until the near end's changeover is complete,
/// unless an end may follow the other, the far end accepted the first messages of the near end's queue, as many as it
/// counts (RFC 4165 §2.2). While the far end is up, the User Data in flight carry those from there to the last that was
/// sent, in order. While the near end is up, the backward numbers of the User Data that come to it name counts that the
/// far end accepted, never falling. So a message that comes is the first that its end lacked. While an end may follow,
/// the one that opened first has an empty queue and isn't in service; nothing is in flight to it, and no message to the
/// other, which is down and may open. An end whose messages a word moved has another end that is down.
pub fn frames_carry_what_was_not_received()
    ensures carried { Always LinesFlow }
    ensures opening { Always FirstEndsAreAlone }
    ensures ends { Always EndsAreSound }
    ensures moved { Always MovedEndsAreAlone }
    ensures taken { Always MessagesComeInOrder }
{}

/// Law (ii). Of an end's changeover orders about its link and the other end's answers to them, no more than one is
/// under way, at whatever node and on whatever link, and only while the end awaits that answer (Q.704 §5.4). None is
/// when the link may open at both ends, nor when an end may follow the other.
pub fn words_are_awaited()
    ensures awaited { Always WordsAreAwaited }
    ensures opening { Always LinksOpenWithNoWordLeft }
    ensures following { Always EndsFollowWithNoWordLeft }
{}

/// Law (iii). An order or an answer about a link is under way, wherever it is, only while the link is down at the end
/// that made it, and it has the number of the last message accepted there (Q.704 §5.4, with the numbers of Q.2210).
pub fn words_carry_the_final_number()
    ensures { Always WordsAreTrue }
{}

/// Law (iv) (Q.704 §5.4, §5.5). While law (i) holds, the number of the last message that the far end accepted names the
/// count of all that it received. A completion, by an order or by an answer, moves the messages that the far end lacks,
/// and no others. So no order or answer has a number that no count has.
pub fn completions_move_what_the_other_end_lacks()
    ensures named { Always NumbersNameWhatWasReceived }
    ensures orders { Always OrdersMoveWhatIsLacked }
    ensures answers { Always AnswersMoveWhatIsLacked }
    ensures reasonable_orders { Always OrdersAreReasonable }
    ensures reasonable_answers { Always AnswersAreReasonable }
{}

/// The node law. Of any kind of user messages, as many came in at a node as were submitted there or came from a
/// neighbour by a link; and as many as ended there, received or refused by name; came to a neighbour by a link; wait,
/// at the node or on a link of it; or are gone. And no more are gone than its notices of loss name.
pub fn each_message_ends_once()
    ensures entered { Always EachMessageEntersOnce }
    ensures ended { Always EachMessageEndsOnce }
{}

/// Of the whole network: of any kind of user messages, as many were submitted at its nodes as ended, received or
/// refused by name; wait; or are gone. Each end of a link has to be at a node.
pub fn each_message_is_accounted_for()
    ensures { Always EachMessageIsAccountedFor }
{}

/// The second half of the node law, of a group of nodes that keeps to itself, whatever else the others do. It keeps to
/// itself if its nodes put what concerns it (user messages for it, and orders and answers about the links between its
/// nodes) on links between its nodes alone. After every list of moves from the first network on, while no node of the
/// group is broken, though others may be, start again, and put anything in flight that spoofs nobody of it: of any
/// kind of user messages for the group, as many came in at each of its nodes as ended there; came from it to a node of
/// the group by a link; wait, at the node or on such a link; or are gone. And no more are gone than its notices of loss
/// name.
pub fn groups_decide_alone()
    ensures { groups_decide_alone }
{}

/// What concerns a group that keeps to itself stays in it, whichever nodes are broken or start again, its own among
/// them, after every list of moves from the first network on. No order or answer about a link between its nodes is at
/// another node, on another link, or in flight there; and no user message for the group is on another link from one of
/// its nodes.
pub fn nothing_leaves_the_group()
    ensures { nothing_leaves_the_group }
{}

/// The law of groups begins anew from each network on in which nothing of the group is left: the links between its nodes
/// are at rest, nothing that concerns it is at its nodes or on other links from there, and no order or answer about a
/// link between its nodes is anywhere else. The books of its nodes and links begin there, and none of its nodes is
/// broken, there or later.
pub fn groups_begin_anew()
    ensures { groups_begin_anew }
{}

/// So much holds whichever nodes are broken, and however often nodes start again, after every list of moves from the
/// first network on. Each end of a link is sound: its counts are in order and within the window, in service it is up,
/// while a changeover goes on or an answer is awaited it is down, and until its changeover is complete it has a message
/// only in service or while that goes on. And no order or answer at a node or on an end has a number of more than 24
/// bits.
pub fn ends_stay_sound()
    ensures { ends_stay_sound }
{}

/// The first network is quiet, whatever its shape.
pub fn a_new_network_is_quiet()
    ensures { first_networks_are_quiet }
{}

/// These laws aren't empty. In a run of 82 moves both links between two points fail, one with a message on it that came
/// and wasn't confirmed, and one with a message that didn't come. Their changeover orders and the answers go by the
/// mate of one of the two, and so does the second message. Each message ends once at the point that it was for; nothing
/// is named as lost, and the links may open again.
pub fn messages_cross_by_a_third_node()
    ensures { Crosses }
{}

/// Nor is what they say of losses. In a run of 55 moves a link fails with a message on it that doesn't come, and T2
/// runs out before the answer is here. The message is named as lost, and the link opens once the answer came; no node
/// is broken.
pub fn a_late_answer_ends_the_bar()
    ensures { EndsTheBar }
{}

/// Nor is the law of groups. In a run of 40 moves a point beside the mated pair breaks, whose order is still under way.
/// The pair keeps to itself, and a message from one to the other comes, once.
pub fn mates_decide_alone()
    ensures { MatesDecide }
{}
