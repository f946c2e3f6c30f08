//! Laws of gates. The statements are those of `specs/Calls.antt`, `Promises.antt`, `Octets.antt`, `Possible.antt` and
//! `FallAndReturn.antt`.

ghost use Rattle.gate_rules.specs.Calls.{calls_are_steps, new_gates_show};
ghost use Rattle.gate_rules.specs.Late.{packets_may_come_late};
ghost use Rattle.gate_rules.specs.Octets.{packets_are_read};
ghost use Rattle.gate_rules.specs.FallAndReturn.{FallsAndReturns};
ghost use Rattle.gate_rules.specs.Possible.{steps_are_possible};
ghost use Rattle.gate_rules.specs.Promises.{runs_are_runs_of_nodes, each_message_once, each_flow_in_order};
ghost use Rattle.gate_rules.specs.Promises.{alone_is_special};

/// Whatever was done at two nodes before: each call of the gate of a link between them does what a list of steps of its
/// node does, each of which the node may do. A call is made when a datagram or the time comes, when the gate settles,
/// when it takes frames, and when it closes. So a gate is as careful as the promises of two nodes ask. A new gate goes
/// with a new node.
pub fn calls_of_gates_are_steps()
    ensures calls { calls_are_steps }
    ensures new { new_gates_show }
{}

/// Whatever the network does, and whatever happens on links that lead elsewhere: what two nodes do that call their
/// gates, as they like, is what two nodes of `node_rules` may do.
pub fn runs_of_gates_are_runs_of_nodes()
    ensures { runs_are_runs_of_nodes }
{}

/// "Exactly once" over datagrams, of two nodes with gates, in both directions, whatever further neighbours each has.
/// While neither exchange may have lost a message, as many user messages of any kind were accepted at one node for the
/// other as the other received for itself, together with those that wait between them.
pub fn each_message_comes_once()
    ensures { each_message_once }
{}

/// "Order" over datagrams, of two nodes with gates, in both directions. While neither exchange may have lost a message,
/// and no T3 or T4 of the accepting node ended a hold, the user messages of a flow to the other that one node accepted
/// are, in order, those that the other received, and then those that wait.
pub fn each_flow_keeps_its_order()
    ensures { each_flow_in_order }
{}

/// Two nodes that have only each other are the special case, as in `node_rules`: each link is between the two, all that
/// either accepted is for the other, and both promises hold of all user messages.
pub fn nodes_alone_are_the_special_case()
    ensures { alone_is_special }
{}

/// These laws aren't empty. Whatever was done before, at a node a tick may pass and a message may be handed over; each
/// gate of a link between the two may be called in each way, a packet may come to it that was put out at the other end
/// of the link and after which no message passed there, and so may what is no packet; and a link that leads elsewhere
/// may open and send. A packet may come as late as nearly 2^32 messages after it was made.
pub fn steps_of_gates_are_possible()
    ensures steps { steps_are_possible }
    ensures late { packets_may_come_late }
{}

/// What a gate puts out is octets on its way (`sent_as`), and a gate that hears these octets hears the packet that was
/// put out, if SCTP ports have 16 bits. So all that must be required of the network, in place of "hears a packet", is
/// that octets aren't changed; whose packet it is, and its age, is required as before.
pub fn octets_of_gates_read_back()
    ensures { packets_are_read }
{}

/// Nor are they of nodes to which nothing comes. Of two nodes with two links, whose gates have keys of their own: both
/// links open and enter service, and a message comes. The first link falls at both nodes, since nobody answers; the
/// next message, which went out on it and was lost, comes by the second, and the first one doesn't come again. Then the
/// first link opens and enters service again, takes its flow back, and the last message comes by it: each once, in
/// order. All that the promises ask of the two holds, and no flag is raised.
pub fn a_link_falls_and_returns()
    ensures { FallsAndReturns }
{}
