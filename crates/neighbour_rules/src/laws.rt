//! What holds of two nodes that share a link set, whatever other neighbours each has, after every list of steps from
//! two newly booted exchanges. The steps are those of `specs/Neighbours.antt`. Each function states its law in its
//! contract, and does nothing.

ghost use Rattle.pair_rules.specs.Deliveries.{deliveries_tell};
ghost use Rattle.neighbour_rules.specs.AfterRestart.{ComesAfterRestart};
ghost use Rattle.neighbour_rules.specs.Alone.{alone_is_special};
ghost use Rattle.neighbour_rules.specs.Anew.{pairs_begin_quietly, promises_begin_anew};
ghost use Rattle.neighbour_rules.specs.Awaiting.{nothing_is_awaited_in_vain, nothing_is_held_in_vain};
ghost use Rattle.neighbour_rules.specs.Laws.{frames_carry, none_is_left, words_are_final};
ghost use Rattle.neighbour_rules.specs.Laws.{moves_are_lacked};
ghost use Rattle.neighbour_rules.specs.Possible.{links_may_fail, statuses_may_be_harmed};
ghost use Rattle.neighbour_rules.specs.Possible.{third_nodes_may_say_anything_else};
ghost use Rattle.neighbour_rules.specs.Promises.{each_message_once, each_flow_in_order};
ghost use Rattle.neighbour_rules.specs.Promises.{books_are_of_the_two, flows_stay_between};
ghost use Rattle.neighbour_rules.specs.ThirdNode.{GoesOn};

/// "Exactly once", in both directions. While neither exchange may have lost a message, as many user messages of any
/// kind were accepted at one end for the other point as the other end received, together with those that wait: on the
/// links between the two, and in Held.
pub fn each_message_comes_once()
    ensures { each_message_once }
{}

/// "Order", in both directions. While neither exchange may have lost a message, and no timer of the
/// accepting end ended a hold, the user messages of a flow to the other point that one end accepted are,
/// in order, those that the other received, and then those that wait.
pub fn each_flow_keeps_its_order()
    ensures { each_flow_in_order }
{}

/// Both promises begin anew whenever nothing is left between the two, whatever was lost before, and however often
/// either node has started again: while each link between them may open at both ends, neither of which may follow the
/// other, and no message between the two is in Held. Of what is accepted from then on "Exactly once" holds until either
/// node counts one loss more, and laws (i) to (iv) with it; and "Order" until the accepting one ends a hold by a timer
/// besides. Two newly booted exchanges are such a pair.
pub fn promises_begin_anew()
    ensures anew { promises_begin_anew }
    ensures first { pairs_begin_quietly }
{}

/// Law (i), of a link between the two and either direction. While the link is up at either end, and until the near
/// end's changeover of it is complete, unless an end may follow the other, the far end received no fewer messages than
/// are confirmed, and no more than were sent. While the link isn't down there, the User Data in flight carry those
/// between, in order, whomever they are for (RFC 4165 §2.2). No link status carries a message. While the far end may
/// follow, the link may open there, and the near one isn't in service and has an empty queue; nothing is in flight to
/// it, and no message to the far end. A message that a frame newly carries is the first that the far end lacked. On a
/// link that leads elsewhere nothing is in flight from the far end.
pub fn frames_carry_what_was_not_received()
    ensures { frames_carry }
{}

/// Law (ii) (Q.704 §5.4). An end wants a link between the two to open, and it may open at the other too, or the end may
/// follow the other. Then no order to change over of one of the two for the other, and no answer, that is about the
/// link is in Held or unreceived in a queue of either end, on whatever link. Nor is User Data with one in flight to an
/// end on a link that isn't down there.
pub fn links_open_with_no_word_left()
    ensures { none_is_left }
{}

/// Nothing is awaited in vain, in both directions: law (ii) in full. While an end awaits the answer to its order to
/// change over from a link between the two, exactly one message about that is in Held or not received on a link: its
/// order, or the other end's answer (Q.704 §5.4). While a code of the set between them awaits its acknowledgement,
/// exactly one message has that code: a changeback declaration of this end, or an acknowledgement of the other (Q.704
/// §6.3). Otherwise there is none. This holds while neither exchange may have lost a message.
pub fn nothing_is_awaited_in_vain()
    ensures { nothing_is_awaited_in_vain }
{}

/// Law (iii). While an order of one of the two to change over, or an answer, is in Held or unreceived in a queue for
/// the other, the link that it is about is down at the end that sends it, and it carries the number of the last message
/// that was accepted there (Q.704 §5.4, with the numbers of Q.2210).
pub fn words_carry_the_final_number()
    ensures { words_are_final }
{}

/// Law (iv). While a link between the two is up at either end, and until an end's changeover of it is complete, unless
/// an end may follow the other, the number of the last message that the peer accepted there names the count of all that
/// it received. So an order or an answer of the peer that completes the changeover, such as one brought by the next
/// frame of any link, moves the messages that the peer lacks, and no others (Q.704 §5.4, §5.5).
pub fn completions_move_what_the_peer_lacks()
    ensures { moves_are_lacked }
{}

/// Two nodes that have only each other are the special case: settings that face each other (`AreJoined` of
/// `pair_rules`) share a set, and each step between them has the same outcome and effect as there. All that an end
/// accepted is for the other, and "Exactly once" and "Order" hold of all user messages.
pub fn a_pair_alone_is_the_special_case()
    ensures { alone_is_special }
{}

/// These laws aren't empty, nor are third nodes in them. In a run of 27 steps of two exchanges that share a set, a
/// message that comes to one of them from a third node is accepted for the other, and reaches that once. No flag is
/// raised.
pub fn a_message_comes_from_a_third_node()
    ensures { GoesOn }
{}

/// Nor is what begins anew. In a run of 46 steps a node starts again while a link to it is in service, and T1 of the
/// other runs out, which counts as a loss. Nothing is left between them then; the link returns, and a message crosses
/// it, once.
pub fn a_message_comes_after_a_restart()
    ensures { ComesAfterRestart }
{}

/// All that an end booked as accepted is for the point of the other end, all that it booked as received
/// for its own, and none of it is of management or testing. This holds whatever has been lost.
pub fn books_are_of_the_two_points()
    ensures { books_are_of_the_two }
{}

/// The route to the other point stays allowed (Q.704 §4.2): each flow there that has a link has one that leads there,
/// and no user message for it is on a link that leads elsewhere. This holds whatever happens on the other links, and
/// whatever has been lost.
pub fn flows_stay_between_the_two()
    ensures { flows_stay_between }
{}

/// Nothing is held in vain, at either end (Q.704 §16.8). A changeover that holds a flow isn't complete, and has T1
/// running, or its answer awaited and T2 running; or its link is in service while the peer's processor is out, and L6
/// runs. T4 of a code that holds one runs, and so do T3 of a link that holds one by time and T6 of a destination whose
/// flows are rerouted. This holds whatever has been lost.
pub fn nothing_is_held_in_vain()
    ensures { nothing_is_held_in_vain }
{}

/// Of two nodes that have only each other, at either end: received means delivered, or handled by SCCP. A frame that is
/// handed in comes to Local exactly if what the end received grew by a message of a user part that its settings list,
/// or by one of SCCP for a subsystem there; to NoUserPart exactly if it grew by one of another part; and to Queued or
/// Held only if it grew by one of SCCP that its row leads to another point, or that tests a subsystem there. What the
/// end accepted then grew by that message as its relay wrote it, or by the SSA that answers it, and by nothing else. If
/// one of SCCP is refused, by its relay or on its way on, it grew by the UDTS or XUDTS that returns it, or by nothing;
/// otherwise it didn't grow (Q.704 §2.4, Q.714 §2.3, §4.2, §5.3.4). This holds even if a message may be lost.
pub fn deliveries_tell_what_came()
    ensures { deliveries_tell }
{}

/// The laws of steps ask this little of what lies between and around two nodes. On a link between them the next link
/// status in flight may be lost, or come twice; the association may be lost at any moment, as one end sees it; and a
/// tick may pass at one end alone. A link that leads to a third node may open at any moment, and any frame may come by
/// it, unless it carries management (SI 0) in the name of one of the two for the other.
pub fn the_worst_may_happen()
    ensures statuses { statuses_may_be_harmed }
    ensures links { links_may_fail }
    ensures thirds { third_nodes_may_say_anything_else }
{}
