//! What two nodes promise each other over any network, whatever further neighbours each has. The statements are those
//! of `specs/Promises.antt`.

ghost use Rattle.node_rules.specs.Alone.{alone_is_special};
ghost use Rattle.node_rules.specs.Crossing.{Crosses};
ghost use Rattle.node_rules.specs.Example.{Happens};
ghost use Rattle.node_rules.specs.Promises.{runs_are_runs_of_pairs, each_message_once, each_flow_in_order};
ghost use Rattle.node_rules.specs.Promises.{frames_are_short};

/// Whatever the network does, and whatever happens on links that lead elsewhere, what two nodes do is what two
/// exchanges of `neighbour_rules` do with frames in flight between them.
pub fn runs_of_two_nodes_are_runs_of_pairs()
    ensures { runs_are_runs_of_pairs }
{}

/// "Exactly once" over datagrams, in both directions, whatever further neighbours each node has. While neither exchange
/// may have lost a message, as many user messages of any kind were accepted at one node for the other as the other
/// received for itself, together with those that wait between them.
pub fn each_message_comes_once()
    ensures { each_message_once }
{}

/// "Order" over datagrams, in both directions. While neither exchange may have lost a message, and no timer of the
/// accepting node ended a hold, the user messages of a flow to the other that one node accepted are, in order, those
/// that the other received, and then those that wait.
pub fn each_flow_keeps_its_order()
    ensures { each_flow_in_order }
{}

/// Two nodes that have only each other are the special case. Settings that face each other share a set, each link is
/// between the two and has one number at both, and none leads elsewhere. All that a node accepted is for the other, and
/// all that it received is for itself. It is what two exchanges of `pair_rules` do with frames in flight between them,
/// and both promises hold of all user messages.
pub fn nodes_alone_are_the_special_case()
    ensures { alone_is_special }
{}

/// The next frame that a link sends has 1 to 290 octets, so an endpoint takes it as a message.
pub fn frames_fit_an_endpoint()
    ensures { frames_are_short }
{}

/// These laws aren't empty. In a run of 11 steps a link opens at one node and then at the other, and a link status of
/// the one crosses in a datagram that comes twice, once.
pub fn a_link_opens_over_datagrams()
    ensures { Happens }
{}

/// In a run of 30 steps, which begins like that one, the link enters service at both nodes. A user message that is
/// submitted at one goes out in a datagram that comes twice, and is received at the other, once. Neither run sets a
/// flag.
pub fn a_user_message_crosses_datagrams()
    ensures { Crosses }
{}
