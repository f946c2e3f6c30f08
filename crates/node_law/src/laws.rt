//! What holds after every list of moves of a network each of whose links has its other end in it (`AreLinked`), of any
//! shape and with any routes (`specs/Ends.antt`, `Sums.antt`). No node starts again, and nothing comes from outside.
//! Each node is told the point at which it is, and its settings are checked.
//!
//! The laws are sums: each compares numbers of user messages, by any test. So equal messages aren't told apart, and one
//! that was accepted twice may come twice. Messages whose SIF is longer than 272 octets aren't counted.

ghost use Rattle.node_law.specs.Alike.{runs_are_runs_of_nodes};
ghost use Rattle.node_law.specs.Anew.{ends_begin_anew, hops_begin_anew, networks_lose_nothing_anew, nodes_begin_anew};
ghost use Rattle.node_law.specs.Anew.{nodes_lose_nothing_anew, nothing_is_lost_anew};
ghost use Rattle.node_law.specs.Anew.{nothing_is_lost_from_end_to_end_anew, order_begins_anew};
ghost use Rattle.node_law.specs.Anew.{quiet_networks_have_nothing_left, sums_begin_anew};
ghost use Rattle.node_law.specs.Anew.{what_comes_is_taken_or_refused_anew};
ghost use Rattle.node_law.specs.Ends.{each_message_ends_once, nodes_lose_nothing, what_comes_is_taken_or_refused};
ghost use Rattle.node_law.specs.Hops.{flows_come_in_order_over_a_hop, hops_share_a_set, messages_come_over_a_hop};
ghost use Rattle.node_law.specs.Hops.{nothing_is_lost_over_a_hop};
ghost use Rattle.node_law.specs.Mated.{IsMatedPairLinked};
ghost use Rattle.node_law.specs.MatedRuns.{MatesBeginAnew, MatesCarry};
ghost use Rattle.node_law.specs.Sums.{each_message_is_accounted_for, messages_come_from_end_to_end};
ghost use Rattle.node_law.specs.Sums.{networks_lose_nothing, nothing_is_lost_from_end_to_end};

/// There is a network of `node_moves`, for which the laws of that hold, that has the same nodes after some steps, but
/// for reroutings, with the same in flight to them. They accepted the same messages, and the same came to them by each
/// link. It isn't said that what entered, and what was refused, is the same; nor that the steps are those of the moves.
pub fn networks_are_those_of_nodes()
    ensures { runs_are_runs_of_nodes }
{}

/// The node law. While no node counts a break (`times_broken`): of user messages, by any test, those that came from a
/// node to its neighbours and those that wait there, in Held or on a link, are together no more than it accepted. So a
/// message that it accepted once comes to one neighbour at most, once at most, and doesn't wait there if it came. The
/// rest, which neither came nor wait, are gone: by any test, no more than the node counts as lost, or that count is at
/// its end, 2^64 - 1.
pub fn each_message_ends_once()
    ensures { each_message_ends_once }
{}

/// What comes to a node for another point it accepts, unless it refuses it. So the node laws of neighbours are joined.
/// Whatever was lost or broken, and of any network, also one that links leave: by any test, the user messages that a
/// node accepted, and those for other points that came and that it refused, are together those that entered the network
/// there, and those that came for other points. It is so of what is booked since the books began anew, from any state
/// on, however often nodes start again.
pub fn what_comes_is_taken_or_refused()
    ensures always { what_comes_is_taken_or_refused }
    ensures anew { what_comes_is_taken_or_refused_anew }
{}

/// From end to end, while no node counts a break: by any test, as many user messages entered the network as were
/// received at a node that they aren't to leave, as wait in nodes, as were refused by a node on the way, and as are
/// gone.
pub fn each_message_is_accounted_for()
    ensures { each_message_is_accounted_for }
{}

/// So it is of the user messages for a node, where all have its network indicator: as many entered the network as that
/// node received, as wait, as were refused on the way, and as are gone. So one that entered once, at whatever node, is
/// received at most once.
pub fn messages_come_from_end_to_end()
    ensures { messages_come_from_end_to_end }
{}

/// While no node has raised its flag of losses, no message is gone: the number that a node accepted is the sum of those
/// that came from it to a neighbour and those that wait at it; and of the whole network, as of the messages for one
/// node, as many entered as were received, as wait, and as were refused on the way. A refusal raises no flag.
pub fn nothing_is_lost_while_no_flag_is_raised()
    ensures nodes { nodes_lose_nothing }
    ensures all { networks_lose_nothing }
    ensures ends { nothing_is_lost_from_end_to_end }
{}

/// A hop asks for the counts of its two nodes alone, whatever the others do, and whatever their routes: one set alone
/// leads from each of the two to the other. While neither of the two counts a break: by any test, of the user messages
/// for the far node that the near one accepted, those that came to it by a link from there and those that wait there,
/// in Held or on such a link, are together no more than were accepted. So one that was accepted once comes at most
/// once, and doesn't wait if it came. The rest are gone: no more than the near node counts as lost, or that count is at
/// its end. While neither of the two has raised its flag of losses, none is gone.
pub fn messages_come_over_a_hop()
    ensures once { messages_come_over_a_hop }
    ensures flags { nothing_is_lost_over_a_hop }
{}

/// The two nodes of a hop share a set, if they have one network indicator. So what `network_rules` promises of two such
/// nodes holds between them: while neither may have lost a message, and the near one raised no flag of lateness, the
/// messages of each flow for the far node that the near one accepted are, in order, those that came to it from there,
/// and then those that wait.
pub fn flows_come_in_order_over_a_hop()
    ensures shares { hops_share_a_set }
    ensures order { flows_come_in_order_over_a_hop }
{}

/// The laws of hops begin anew whenever nothing is left between the two nodes: each link between them may open at both
/// ends, of which none may follow, and neither node has in Held a user message for one of the two. What was lost or
/// broken before doesn't matter, nor how often nodes have started again, nor what is in third nodes. From then on,
/// while neither of the two starts again, gives up following, or counts one break more, whatever the others do: the law
/// holds of what the near node accepts for the far one since, and no more is gone than it counts as lost since (up to
/// 2^64 - 1). While neither counts a possible loss, each came or waits; and each flow keeps its order, while besides no
/// timer of the near one ends a hold. In a quiet network nothing is left between any two.
pub fn hops_begin_anew()
    ensures once { hops_begin_anew }
    ensures flags { nothing_is_lost_anew }
    ensures order { order_begins_anew }
    ensures quiet { quiet_networks_have_nothing_left }
{}

/// The node law and the sums begin anew from each quiet network on, while no node starts again, gives up following, or
/// counts one break more: what they say holds of what enters and is accepted since, and at a node no more is gone than
/// it counts as lost since. While none counts a possible loss, none is gone: at each node, of all, and of those for each
/// node.
pub fn networks_begin_anew()
    ensures nodes { nodes_begin_anew }
    ensures all { sums_begin_anew }
    ensures ends { ends_begin_anew }
    ensures flags { nodes_lose_nothing_anew }
    ensures flags_of_all { networks_lose_nothing_anew }
    ensures flags_of_ends { nothing_is_lost_from_end_to_end_anew }
{}

/// What these laws ask is met where two ways lead to a point: by the mated pair of `node_moves`.
pub fn a_mated_pair_is_linked()
    ensures { IsMatedPairLinked }
{}

/// Nor are the laws of hops vacuous. Of the same network the pair is a hop, though two sets lead from each of the two to
/// every other point. In a run a third point counts a break; neither of the two does, nor raises a flag; and a message
/// from one of the two to the other comes, once.
pub fn a_message_comes_over_a_hop()
    ensures { MatesCarry }
{}

/// Nor are those anew. Of the same network one of the pair starts again with a message for the other on their link,
/// which is lost. Once T1 ran out at the other, nothing is left between the two: their link opens again, and the next
/// message comes, once, while neither counts a possible loss or a lateness.
pub fn a_message_comes_anew()
    ensures { MatesBeginAnew }
{}
