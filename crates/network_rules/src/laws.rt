//! What holds of each two nodes of a network that share a link set, and of all its nodes together. Most laws speak of
//! every list of steps from newly booted exchanges on (`specs/Networks.antt`); those that say so, of steps from any
//! network on, restarts among them. The laws of each two nodes in `specs/Pairs.antt` and `Links.antt`, and those of
//! hops, hold also after whatever comes by links that lead out of the network (`specs/Outside.antt`). The last two are
//! single runs. Each function says its law by its contract, and does nothing.

ghost use Rattle.network_rules.specs.AfterRestart.{ComesAfterRestart};
ghost use Rattle.network_rules.specs.Anew.{neighbours_begin_anew, nobody_ever_speaks_for_another};
ghost use Rattle.network_rules.specs.Anew.{destinations_begin_anew, networks_begin_anew, networks_begin_quietly};
ghost use Rattle.network_rules.specs.Hops.{hops_keep_flows_in_order, paths_keep_flows_in_order};
ghost use Rattle.network_rules.specs.Links.{frames_carry, moves_are_lacked, none_is_left, words_are_final};
ghost use Rattle.network_rules.specs.NextMessage.{BothComeInOrder};
ghost use Rattle.network_rules.specs.Pairs.{books_are_of_the_two, each_flow_in_order, each_message_once};
ghost use Rattle.network_rules.specs.Pairs.{flows_stay_between, nothing_is_awaited_in_vain, nothing_is_held_in_vain};
ghost use Rattle.network_rules.specs.Pairs.{nobody_speaks_for_another, runs_are_runs_of_neighbours};
ghost use Rattle.network_rules.specs.Paths.{books_begin_empty, each_node_passes_in_order, last_hops_begin_anew};
ghost use Rattle.network_rules.specs.Paths.{each_node_passes_what_comes_in_order};
ghost use Rattle.network_rules.specs.Paths.{last_hops_keep_flows_in_order, paths_keep_the_order_of_their_hops};
ghost use Rattle.network_rules.specs.Possible.{links_may_fail, outside_may_say_anything_else};
ghost use Rattle.network_rules.specs.Possible.{statuses_may_be_harmed};
ghost use Rattle.network_rules.specs.Totals.{each_message_is_accounted_for, messages_come_from_end_to_end};
ghost use Rattle.network_rules.specs.Transit.{messages_pass_through};
ghost use Rattle.network_rules.specs.TwoFailures.{CrossesTwoFailures};

/// Each set of a network is a pair of neighbours: by some steps of two neighbours (`neighbour_rules`) the same two
/// exchanges come to be, with the same books and the same in flight between them.
pub fn each_set_is_a_pair_of_neighbours()
    ensures { runs_are_runs_of_neighbours }
{}

/// What the guard of neighbours asks holds by itself: the frame that comes next to one of the two by a link that leads
/// elsewhere carries no management (SI 0) of one of them for the other. A node passes on whatever is for another point,
/// management too; but it makes management in its own name alone, and that of one of the two for the other goes out on
/// links of their set.
pub fn nobody_speaks_for_another()
    ensures { nobody_speaks_for_another }
{}

/// "Exactly once", in both directions. While neither exchange may have lost a message, as many user messages of any
/// kind for the other point were accepted at one node as the other received from it and as wait: on the links between
/// the two, and in Held.
pub fn each_message_comes_once()
    ensures { each_message_once }
{}

/// "Order", in both directions. While neither exchange may have lost a message, and no T3 or T4 of the accepting node
/// ended a hold, the user messages of a flow to the other point that one node accepted are, in order, those that the
/// other received from it, and then those that wait.
pub fn each_flow_keeps_its_order()
    ensures { each_flow_in_order }
{}

/// Law (i), of a link between the two and either direction. While the link is up at either end, and until the near
/// end's changeover of it is complete, unless an end may follow the other, the far end received no fewer messages than
/// are confirmed, and no more than were sent. While the link isn't down there, the User Data in flight carry those
/// between, in order, whomever they are for (RFC 4165 §2.2). No link status carries a message. While the far end may
/// follow, the link may open there, and the near one isn't in service and has an empty queue; nothing is in flight to
/// it, and no message to the far end. A message that a frame newly carries is the first that the far end lacked.
pub fn frames_carry_what_was_not_received()
    ensures { frames_carry }
{}

/// Law (ii) (Q.704 §5.4). A node wants a link between the two to open, and it may open at the other too, or the node
/// may follow the other. Then no order to change over of one of the two for the other, and no answer, that is about the
/// link is in Held or unreceived in a queue of either, on whatever link. Nor is User Data with one in flight to either,
/// on any link that isn't down there, from whichever node.
pub fn links_open_with_no_word_left()
    ensures { none_is_left }
{}

/// Law (iii). While an order of one of the two to change over, or an answer, is in Held or unreceived in a queue for
/// the other, the link that it is about is down at the node that sends it, and it carries the number of the last
/// message that was accepted there (Q.704 §5.4, with the numbers of Q.2210).
pub fn words_carry_the_final_number()
    ensures { words_are_final }
{}

/// Law (iv). While a link between the two is up at either end, and until a node's changeover of it is complete, unless
/// an end may follow the other, the number of the last message that the peer accepted there names the count of all that
/// it received. So an order or an answer of the peer that completes the changeover, such as one brought by the next
/// frame of any link, moves the messages that the peer lacks, and no others (Q.704 §5.4, §5.5).
pub fn completions_move_what_the_peer_lacks()
    ensures { moves_are_lacked }
{}

/// All that a node booked as accepted for the other is for its point, all that it booked as received from it for its
/// own, and none of it is of management or testing. This holds whatever has been lost.
pub fn books_are_of_the_two_points()
    ensures { books_are_of_the_two }
{}

/// Nothing is awaited in vain, in both directions. While neither exchange may have lost a message: while a node awaits
/// the answer to its order to change over from a link between the two (Q.704 §5.4), or a code of their set awaits its
/// acknowledgement (Q.704 §6.3), exactly one message that brings it is under way. Else none is.
pub fn nothing_is_awaited_in_vain()
    ensures { nothing_is_awaited_in_vain }
{}

/// The route to the other point stays allowed: each flow there that has a link has one that leads there, and no user
/// message for it stands on a link that leads elsewhere (Q.704 §4.2). This holds whatever has been lost.
pub fn flows_stay_between_the_two()
    ensures { flows_stay_between }
{}

/// Nothing is held in vain, at either node: each hold has its timer or its word (Q.704 §16.8). This holds whatever has
/// been lost.
pub fn nothing_is_held_in_vain()
    ensures { nothing_is_held_in_vain }
{}

/// Both promises begin anew between any two nodes whenever nothing is left between them, whatever was lost before, and
/// however often any node has started again: while each link between the two may open at both ends, neither of which
/// may follow the other, and no message between the two is in Held. Of what is accepted from then on "Exactly once"
/// holds until either node counts one loss more, and "Order" until the accepting one ends a hold by a timer besides:
/// whatever the others do, restarts among it, while neither of the two starts again, or gives up following the other
/// end of a link. And whatever was done or lost, nobody speaks for another.
pub fn neighbours_begin_anew()
    ensures promises { neighbours_begin_anew }
    ensures silent { nobody_ever_speaks_for_another }
{}

/// A message that comes to a node for another point, whatever happened before, is queued, held or refused. The node
/// books it as accepted, once, exactly if it isn't refused. Where it is accepted for an adjacent point to which one set
/// alone leads, what is promised of that set begins.
pub fn messages_pass_through()
    ensures { messages_pass_through }
{}

/// A node accepts what it is to pass on in the order in which it came: of the user messages, what came for another
/// point is made up of those that it accepted and those that it refused, and what it accepted of these and those that
/// entered there, each in order. This holds whatever is done or lost, however often nodes start again, and whatever
/// comes from outside; in which order they leave, the hops say.
pub fn nodes_pass_on_in_order()
    ensures each { each_node_passes_in_order }
    ensures outside { each_node_passes_what_comes_in_order }
    ensures first { books_begin_empty }
{}

/// So the order of a flow over a path is that of its hops. If each hop keeps it, as two neighbours do for the messages
/// for either of them, and the nodes between get the flow from the one before alone, then what came to the last node is
/// in the order in which the first accepted it; what is missing there waits at a node of the path, or was refused or
/// ended at one between. The last hop does keep a flow that is for the last node, while neither of its nodes may have
/// lost a message and no T3 or T4 of the former ended a hold.
pub fn paths_keep_the_order_of_their_hops()
    ensures paths { paths_keep_the_order_of_their_hops }
    ensures last { last_hops_keep_flows_in_order }
    ensures anew { last_hops_begin_anew }
{}

/// So flows come over a path in order, by settings, books and flags alone. A hop keeps the order of a flow that is for
/// the next node, or goes on beyond it by the set between the two alone, while no status about its route (TFP, TFR,
/// TFA, Q.704 §13) is among what came from there, neither node may have lost a message, and no T3 or T4 of the former
/// ended a hold. So over nodes in a row, to which the flow comes from the one before alone, what came to the last node
/// is in the order in which the first accepted it. Both hold whatever comes from outside.
pub fn paths_keep_flows_in_order()
    ensures hops { hops_keep_flows_in_order }
    ensures paths { paths_keep_flows_in_order }
{}

/// From end to end, over any number of nodes, each of which reaches its adjacent points by one set alone and all others
/// by whatever routes: while none of them may have lost a message, as many user messages entered the network, by any
/// test, as were received at a node that they aren't to leave, as wait in nodes, and as were refused by a node on the
/// way, which had no route for them or no room. So none is lost or doubled between two nodes. A message enters where a
/// user part submits it, and where SCCP passes it on or returns it; it waits in Held, or on a link until the other end
/// of that received it.
pub fn each_message_is_accounted_for()
    ensures { each_message_is_accounted_for }
{}

/// So it is of the messages for one point, where all nodes have one network indicator: as many entered the network, by
/// any test, as that point received, as wait in nodes, and as were refused on the way. So each that entered came there
/// once, or waits, or was refused; and it ended at no other point.
pub fn messages_come_from_end_to_end()
    ensures { messages_come_from_end_to_end }
{}

/// Both laws from end to end begin anew from every quiet network on, whatever was lost before, and however often nodes
/// have started again: one in which each link of each node may open, no node may follow, and nothing is in Held. Of
/// what enters from then on each message is accounted for, and those for one point came there, wait, or were refused,
/// until a node counts one loss more. A network of newly booted exchanges is quiet.
pub fn networks_begin_anew()
    ensures all { networks_begin_anew }
    ensures destinations { destinations_begin_anew }
    ensures first { networks_begin_quietly }
{}

/// These laws aren't empty: three nodes in a row keep the premises, those of the whole network too. Each two neighbours
/// share two links, and a user message that one end of the row has for the other is sent on a link that fails at both
/// ends before it comes, on either side of the middle node. By the other links it comes to each node on its way, once;
/// no flag is raised, and nothing waits in the end. Each hop of its path keeps its flow in order, and has what the law
/// of paths asks; so the flow came over the path in order.
pub fn a_message_crosses_two_failures()
    ensures { CrossesTwoFailures }
{}

/// Nor do they hold of one message alone, or of a flow of none: the run goes on with the next message of the flow,
/// which differs from the first. Each hop of their path has what the law of paths asks, and both, which are all that
/// their flow has, come to each node of it in the order in which they were accepted.
pub fn two_messages_come_in_order()
    ensures { BothComeInOrder }
{}

/// Nor are those that begin anew: the middle one of three nodes in a row starts again, by which both others lose
/// messages. Then the network is quiet, and a user message comes from end to end, once; no node counts one loss more,
/// and nothing waits in the end.
pub fn a_message_comes_after_a_restart()
    ensures { ComesAfterRestart }
{}

/// The laws ask this little of links and of points outside. On a link between two nodes the next link status in flight
/// may be lost, or come twice; the association may be lost at any moment, as one node sees it; and a tick may pass at
/// one node alone. A link that leads out may open at any moment, and any frame may come by it, unless it carries
/// management (SI 0) in the name of a node of the network for a node of it.
pub fn the_worst_may_happen()
    ensures statuses { statuses_may_be_harmed }
    ensures links { links_may_fail }
    ensures outside { outside_may_say_anything_else }
{}
