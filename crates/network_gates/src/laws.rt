//! Laws of networks of gates. The statements are those of `specs/GateCalls.antt`, `GatePromises.antt`, `Possible.antt`,
//! `GatesAlone.antt` and `GateOctets.antt`.

ghost use Rattle.network_gates.specs.GateCalls.{calls_are_steps};
ghost use Rattle.network_gates.specs.GatePromises.{runs_are_runs_over_datagrams, AlwaysShown};
ghost use Rattle.network_gates.specs.Possible.{steps_are_possible};
ghost use Rattle.network_datagrams.specs.NetworkPromises.{BooksAreOfTheTwo, EachFlowInOrder, EachMessageAccounted, EachMessageOnce, FlowsStayBetween, FramesAreShort, HopsKeepFlows, IsRunOfNetwork, LastHopsKeepOrder, MessagesComeToEnd, NodesPassInOrder, NothingAwaitedInVain, NothingHeldInVain, PathsKeepFlows, PathsKeepOrder};
ghost use Rattle.network_gates.specs.GateOctets.{packets_are_read};
ghost use Rattle.network_gates.specs.GatesAlone.{nodes_alone_are_special};

/// Whatever was done at all nodes before: each call of the gate of any link does what a list of steps of its node does,
/// each of which the node may do. So a gate is as careful as the promises of a network ask. That a new gate goes with a
/// new node is a law of `gate_rules`.
pub fn calls_of_gates_are_steps()
    ensures { calls_are_steps }
{}

/// Whatever the network between them does: what the nodes of a network do that call their gates, as they like, is what
/// nodes of `network_datagrams` may do, and so what those of `network_rules` do with frames in flight between them: the
/// same exchanges, with the same books.
pub fn runs_of_gates_are_runs_over_datagrams()
    ensures datagrams { runs_are_runs_over_datagrams }
    ensures frames { AlwaysShown IsRunOfNetwork }
{}

/// "Exactly once" over datagrams, of nodes with gates, in both directions, between each two that share a link set.
/// While neither exchange may have lost a message, as many user messages of any kind for the other point were accepted
/// at one node as the other received from it and as wait between them.
pub fn each_message_comes_once()
    ensures { AlwaysShown EachMessageOnce }
{}

/// "Order" over datagrams, of nodes with gates, in both directions. While neither exchange may have lost a message, and
/// no T3 or T4 of the accepting node ended a hold, the user messages of a flow to the other point that one node
/// accepted are, in order, those that the other received from it, and then those that wait.
pub fn each_flow_keeps_its_order()
    ensures { AlwaysShown EachFlowInOrder }
{}

/// Nothing is awaited in vain, in both directions. While neither exchange may have lost a message: while a node awaits
/// the answer to its order to change over from a link between the two (Q.704 §5.4), or a code of their set awaits its
/// acknowledgement (Q.704 §6.3), exactly one message that brings it is under way. Else none is.
pub fn nothing_is_awaited_in_vain()
    ensures { AlwaysShown NothingAwaitedInVain }
{}

/// Whatever has been lost: all that a node booked as accepted for the other is for its point, all that it booked as
/// received from it for its own. The route to the other point stays allowed, and flows there keep to links that lead
/// there (Q.704 §4.2). And nothing is held in vain, at either node (Q.704 §16.8).
pub fn neighbours_keep_to_themselves()
    ensures books { AlwaysShown BooksAreOfTheTwo }
    ensures flows { AlwaysShown FlowsStayBetween }
    ensures held { AlwaysShown NothingHeldInVain }
{}

/// From end to end, of nodes with gates: while no node may have lost a message, as many user messages entered the
/// network, by any test, as were received at a node that they aren't to leave, as wait in nodes, and as were refused by
/// a node on the way. So it is of the messages for one point, where all nodes have one network indicator.
pub fn messages_come_from_end_to_end()
    ensures all { AlwaysShown EachMessageAccounted }
    ensures one { AlwaysShown MessagesComeToEnd }
{}

/// Order over a path, of nodes with gates. A node accepts what it is to pass on in the order in which it came. So over
/// a path of which each hop keeps a flow in order, what came to the last node is in the order in which the first
/// accepted it. The last hop keeps a flow that is for the last node, while neither of its nodes may have lost a message
/// and no T3 or T4 of the former ended a hold. So does each hop for a flow that goes on beyond it by the set between
/// the two alone, while no status about its route (TFP, TFR, TFA, Q.704 §13) is among what came from the next node; and
/// so does a path of such hops.
pub fn paths_keep_the_order_of_their_hops()
    ensures nodes { AlwaysShown NodesPassInOrder }
    ensures paths { AlwaysShown PathsKeepOrder }
    ensures last { AlwaysShown LastHopsKeepOrder }
    ensures hops { AlwaysShown HopsKeepFlows }
    ensures flows { AlwaysShown PathsKeepFlows }
{}

/// These laws aren't empty. Whatever was done before, at a node a tick may pass and a message may be handed over; each
/// gate of a link with an end at another node may be called in each way, and a packet may come to it that was put out
/// at that end and after which no message passed there, and so may what is no packet.
pub fn steps_of_gates_are_possible()
    ensures { steps_are_possible }
{}

/// The next frame that a link sends has 1 to 290 octets, so its gate's endpoint takes it as a message.
pub fn frames_fit_an_endpoint()
    ensures { AlwaysShown FramesAreShort }
{}

/// Two nodes of a network that have only each other are two of `gate_rules`: each link is between the two, all that
/// either accepted is for the other, and both promises hold of all user messages.
pub fn nodes_alone_are_the_special_case()
    ensures { nodes_alone_are_special }
{}

/// What a gate puts out is octets on its way, and a gate that hears these octets hears the packet that was put out, if
/// SCTP ports have 16 bits, as between two nodes.
pub fn octets_of_gates_read_back()
    ensures { packets_are_read }
{}
