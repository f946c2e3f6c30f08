//! What the nodes of a network promise over datagrams. The statements are those of `specs/NetworkPromises.antt`.

ghost use Rattle.network_datagrams.specs.Example.{Happens};
ghost use Rattle.network_datagrams.specs.NetworkPromises.{HopsKeepFlows, Always, BooksAreOfTheTwo, EachFlowInOrder, EachMessageAccounted, EachMessageOnce, FlowsStayBetween, FramesAreShort, IsRunOfNetwork, LastHopsKeepOrder, MessagesComeToEnd, NodesPassInOrder, NothingAwaitedInVain, NothingHeldInVain, PathsKeepFlows, PathsKeepOrder};

/// Whatever the network between them does, what the nodes do is what those of `network_rules` do with frames in flight
/// between them: the same exchanges, with the same books.
pub fn runs_over_datagrams_are_runs_of_networks()
    ensures { Always IsRunOfNetwork }
{}

/// "Exactly once" over datagrams, in both directions, between each two nodes that share a link set. While neither
/// exchange may have lost a message, as many user messages of any kind for the other point were accepted at one node as
/// the other received from it and as wait between them.
pub fn each_message_comes_once()
    ensures { Always EachMessageOnce }
{}

/// "Order" over datagrams, in both directions. While neither exchange may have lost a message, and no timer of the
/// accepting node ended a hold, the user messages of a flow to the other point that one node accepted are, in order,
/// those that the other received from it, and then those that wait.
pub fn each_flow_keeps_its_order()
    ensures { Always EachFlowInOrder }
{}

/// Nothing is awaited in vain, in both directions. While neither exchange may have lost a message: while a node awaits
/// the answer to its order to change over from a link between the two (Q.704 §5.4), or a code of their set awaits its
/// acknowledgement (Q.704 §6.3), exactly one message that brings it is under way. Else none is.
pub fn nothing_is_awaited_in_vain()
    ensures { Always NothingAwaitedInVain }
{}

/// All that a node booked as accepted for the other is for its point, all that it booked as received from it for its
/// own, and none of it is of management or testing. This holds whatever has been lost.
pub fn books_are_of_the_two_points()
    ensures { Always BooksAreOfTheTwo }
{}

/// The route to the other point stays allowed: each flow there that has a link has one that leads there, and no user
/// message for it stands on a link that leads elsewhere (Q.704 §4.2). This holds whatever has been lost.
pub fn flows_stay_between_the_two()
    ensures { Always FlowsStayBetween }
{}

/// Nothing is held in vain, at either node: each hold has its timer or its word (Q.704 §16.8). This holds whatever has
/// been lost.
pub fn nothing_is_held_in_vain()
    ensures { Always NothingHeldInVain }
{}

/// From end to end over datagrams: while no node may have lost a message, as many user messages entered the network, by
/// any test, as were received at a node that they aren't to leave, as wait in nodes, and as were refused by a node on
/// the way, which had no route for them or no room.
pub fn each_message_is_accounted_for()
    ensures { Always EachMessageAccounted }
{}

/// So it is of the messages for one point, where all nodes have one network indicator: each that entered came there
/// once, or waits, or was refused on the way.
pub fn messages_come_from_end_to_end()
    ensures { Always MessagesComeToEnd }
{}

/// Order over a path, over datagrams. A node accepts what it is to pass on in the order in which it came, whatever has
/// been lost. So over a path of which each hop keeps a flow in order, and whose nodes between get the flow from the one
/// before alone, what came to the last node is in the order in which the first accepted it; what is missing there waits
/// at a node of the path, or was refused or ended at one between. The last hop keeps a flow that is for the last node,
/// while neither of its nodes may have lost a message and no T3 or T4 of the former ended a hold. So does each hop for
/// a flow that goes on beyond it by the set between the two alone, while no status about its route (TFP, TFR, TFA,
/// Q.704 §13) is among what came from the next node; and so does a path of such hops.
pub fn paths_keep_the_order_of_their_hops()
    ensures nodes { Always NodesPassInOrder }
    ensures paths { Always PathsKeepOrder }
    ensures last { Always LastHopsKeepOrder }
    ensures hops { Always HopsKeepFlows }
    ensures flows { Always PathsKeepFlows }
{}

/// The next frame that a link sends has 1 to 290 octets, so an endpoint takes it as a message.
pub fn frames_fit_an_endpoint()
    ensures { Always FramesAreShort }
{}

/// Networks over datagrams do run. Three nodes in a row keep the premises, and in a run of 11 steps a link between two
/// of them opens at one and then at the other, and a link status crosses in a datagram that comes twice, once. In none
/// does a user message cross: that two nodes exchange one over datagrams `node_rules` shows.
pub fn a_link_opens_over_datagrams()
    ensures { Happens }
{}
