//! What holds in each network that steps reach from the first (`specs/Networks.antt`), of any shape and with any
//! routes. No step starts a node again, but in the law of fates and in those of what begins anew; and nothing comes from
//! outside, but in the law of fates and in `hops_begin_anew`. Where no other premise is named, these are asked (`AreTheirs`): each node is told the point at which it is, its settings are
//! checked, and each of its links has its other end in the network, with its code. No node is *broken* while
//! `times_broken` is 0 at all of them.
//!
//! The laws are sums: each compares numbers of user messages, by any test. So equal messages aren't told apart, and one
//! that was accepted twice may come twice. Messages whose SIF is longer than 272 octets aren't counted.

ghost use Rattle.node_moves.specs.Anew.{hops_begin_anew, networks_begin_quietly, nothing_is_lost_anew};
ghost use Rattle.node_moves.specs.AnewRun.{BeginsAnew};
ghost use Rattle.node_moves.specs.EachFate.{each_message_has_its_fate};
ghost use Rattle.node_moves.specs.EndToEnd.{each_message_is_accounted_for, messages_come_from_end_to_end};
ghost use Rattle.node_moves.specs.HopRun.{MatesAreAHop};
ghost use Rattle.node_moves.specs.Hops.{messages_come_over_a_hop, nothing_is_lost_over_a_hop};
ghost use Rattle.node_moves.specs.Laws.{each_message_of_a_node_ends_once};
ghost use Rattle.node_moves.specs.LossRun.{NamesWhatIsLost};
ghost use Rattle.node_moves.specs.Lossless.{flags_tell_of_each_loss, nodes_lose_nothing};
ghost use Rattle.node_moves.specs.Lossless.{nothing_is_lost_from_end_to_end};
ghost use Rattle.node_moves.specs.MatedRun.{ComesByTheMate};
ghost use Rattle.node_moves.specs.NetworkAnew.{ends_begin_anew, first_networks_are_quiet, nodes_begin_anew};
ghost use Rattle.node_moves.specs.NetworkAnew.{nodes_lose_nothing_anew, nothing_is_lost_from_end_to_end_anew};
ghost use Rattle.node_moves.specs.NetworkAnew.{sums_begin_anew};
ghost use Rattle.node_moves.specs.NetworkAnewRun.{NetworkBeginsAnew};
ghost use Rattle.node_moves.specs.OutsideRun.{ComesByAnotherLink};
ghost use Rattle.node_moves.specs.Possible.{links_may_fail, outside_may_say_anything_else, statuses_may_be_harmed};

/// The node law. While no node is broken: of user messages, by any test, those that came from a node to its neighbours
/// and those that wait there, in Held or on a link, are together no more than it accepted. So a message that it
/// accepted once comes to one neighbour at most, once at most, and doesn't wait there if it came. The rest, which
/// neither came nor wait, are gone: by any test, no more than the node named as lost; nor than `messages_lost` counts.
pub fn each_message_of_a_node_ends_once()
    ensures { each_message_of_a_node_ends_once }
{}

/// What comes to a node it accepts, unless it ends there. So the node laws of neighbours are joined. This asks nothing
/// of settings, and holds whatever was lost or broken, however often nodes have started again, and whatever comes by
/// links that lead out (`specs/Outside.antt`). Each user message that came to a node by a link, and each that
/// its user parts handed over, has one of four fates. It goes on: it is for another point, and is queued or held. It is
/// refused, by a cause. It is delivered: it is for this point, its outcome is Local, and the settings name its user
/// part or it is of SCCP. Or SCCP takes it: it is of SCCP and for this point, and is queued, held or handled. The
/// number that the node accepted is the sum of those that go on and those that its SCCP made. These are of SCCP, and in
/// all no more than the messages of SCCP for this point that came or were handed over.
pub fn each_message_has_its_fate()
    ensures { each_message_has_its_fate }
{}

/// It is so from end to end, too, whatever the routes, and however many ways lead to a point. While no node is broken:
/// of the user messages for the user parts of a point that has a node, SCCP apart, the number handed over, at whatever
/// nodes, is the sum of those delivered there; those that some node refused, as they were handed over, on the way or
/// there; those that wait in nodes; and those that are gone. No more are gone than nodes named as lost. So a message
/// that was handed over once is delivered at most once; and once none waits, each was delivered, refused by a cause, or
/// is one of those named. With messages for SCCP there, the number that SCCP made for the point, at whatever nodes, is
/// added to the number handed over, and the number that SCCP there takes to the sum.
pub fn messages_come_from_end_to_end()
    ensures { messages_come_from_end_to_end }
{}

/// The same of the whole network, while no node is broken: of all user messages, SCCP apart, including those for points
/// without a node, the number handed over is the sum of those delivered, those refused, those that wait and those that
/// are gone, at all nodes together. With those of SCCP, the number that SCCP made is added to the number handed over,
/// and the number that it takes to the sum.
pub fn each_message_is_accounted_for()
    ensures { each_message_is_accounted_for }
{}

/// While no node has raised its flag of losses, no message is gone. A node whose flag is down counts no message that it
/// named as lost, and no break; this asks nothing of settings. So the number of user messages that a node accepted is
/// the sum of those that came from it to a neighbour and those that wait at it; and of those for the user parts of a
/// point that has a node, SCCP apart, the number handed over is the sum of those delivered there, those that some node
/// refused, and those that wait. A refusal raises no flag: a message that one node accepted may be refused by the next,
/// for want of a route or of room.
pub fn nothing_is_lost_while_no_flag_is_raised()
    ensures flags { flags_tell_of_each_loss }
    ensures nodes { nodes_lose_nothing }
    ensures ends { nothing_is_lost_from_end_to_end }
{}

/// A hop asks for the counts of its two nodes alone, whatever the other nodes count, and whatever their routes.
/// Where one set alone leads from each of two nodes to the other, and neither of the two is broken: of the user messages
/// for the far node that the near one accepted, by any test, those that came to the far node by a link from the near one
/// and those that wait at the near one, in Held or on such a link, are together no more than it accepted. So a message
/// that it accepted once comes once at most, and doesn't wait if it came. The rest are gone: by any test, no more than
/// the near node named as lost; nor than its `messages_lost` counts. While neither of the two has raised its flag of
/// losses, none is gone. It is so in both directions.
pub fn messages_come_over_a_hop()
    ensures once { messages_come_over_a_hop }
    ensures flags { nothing_is_lost_over_a_hop }
{}

/// The law of hops begins anew whenever nothing is left between the two nodes: each link between them is down at both
/// ends, its changeover complete and no answer awaited, and neither end may follow the other; and neither node has in
/// Held a user message for one of the two. (Management is never there.) What was lost or broken before doesn't matter,
/// nor how often nodes have started again, nor what is in third nodes. From then on, while neither of the two starts
/// again, gives up following, or is broken once more, whatever the others do, restarts among it: of the user messages
/// for the far node that the near one accepts, by any test, those that come to the far node by a link from the near one
/// and those that wait at the near one are together no more than it accepted. The rest are gone: by any test, no more
/// than the near node named as lost since then; nor than it counted in `messages_lost` since (up to 2^64 - 1). While
/// neither of the two counts a possible loss, each that it accepted came or waits, and none twice. It is so in both
/// directions. At first nothing is left between any two nodes. `messages_come_over_a_hop` is the law from there on,
/// where no node starts again and no link leads out. Links may lead out of the network, to points without a node
/// (`specs/Outside.antt`): then any frame may come by them, also one that can't be read, unless its message has more
/// than 272 octets, or is a changeover order or acknowledgement from a node to a node, or an emergency one. So a
/// neighbour outside may send its own by another link of the set, about one that failed (Q.704 §5.4).
pub fn hops_begin_anew()
    ensures once { hops_begin_anew }
    ensures flags { nothing_is_lost_anew }
    ensures first { networks_begin_quietly }
{}

/// The node law, and both laws from end to end, begin anew whenever nothing is left at any node: each link of a node is
/// down there, its changeover complete and no answer awaited, and the node may not follow its other end; and nothing is
/// in Held. What was lost or broken before doesn't matter, nor how often nodes have started again. From then on, while
/// no node starts again, gives up following, or is broken once more, what these laws say holds of what is handed over
/// and accepted since, and of what nodes named as lost since; and of a node no more is gone than it counted in
/// `messages_lost` since (up to 2^64 - 1). While no node counts a possible loss, none is gone, at a node or from end to
/// end. The first network is such a one, so the laws before this are those from there on.
pub fn networks_begin_anew()
    ensures nodes { nodes_begin_anew }
    ensures ends { ends_begin_anew }
    ensures sums { sums_begin_anew }
    ensures flags { nodes_lose_nothing_anew }
    ensures flags_of_ends { nothing_is_lost_from_end_to_end_anew }
    ensures first { first_networks_are_quiet }
{}

/// The node law isn't vacuous. Of a mated pair and two points that it transfers for, whose orders to change over go by
/// any route: the only link between one of the pair and one of the points fails, with a message on it that came and
/// wasn't confirmed, and one that didn't come. The orders and the answers go by the mate, and so does the second
/// message. Each comes once, nothing is broken or lost, and the link may open again. The settings and the run are what
/// the law asks.
pub fn messages_come_by_the_mate()
    ensures { ComesByTheMate }
{}

/// What the node law says of losses isn't vacuous either. Of the same nodes: the first message comes to its user part,
/// once, and what confirms it comes back. The second is on its way as the link fails, and T2 runs out at its node
/// before the answer is here; so that node names it as lost, once, and counts it. It came nowhere, so one is gone, and
/// no more is named. The link is barred until the answer comes late, by the mate; no node is broken.
pub fn a_message_is_named_as_lost()
    ensures { NamesWhatIsLost }
{}

/// Nor is the law of hops. Of the same nodes, the pair is a hop, though two sets lead from each of the two to every
/// other point. In a run the link between one of the pair and one of the points fails, T2 runs out at that point, and an
/// operator there releases the link. So that point is broken, and neither of the pair is, nor has it raised a flag; and a
/// message from one of the pair to the other comes, once.
pub fn mates_are_a_hop()
    ensures { MatesAreAHop }
{}

/// Nor is that law anew. Of the same nodes, one of the pair starts again with a message for the other on their link,
/// which is lost; nobody names it, and neither of the two counts a break. The other loses the association, and T1 runs
/// out there. Then nothing is left between the two: their link opens again, and the next message comes, once. Neither
/// counts a break or a possible loss since.
pub fn a_message_comes_anew()
    ensures { BeginsAnew }
{}

/// Nor are those of whole networks anew. Of the same four nodes, each starts again while a message waits at one of them.
/// It is gone, and nobody names it. Then nothing is left at any node: all links open again, and the next message comes,
/// once. No node counts a break or a possible loss since.
pub fn a_network_begins_anew()
    ensures { NetworkBeginsAnew }
{}

/// What comes from outside doesn't end the law of hops. Of two nodes that are a hop, a set of two links leads from the one to a point
/// without a node. One of these fails, and the node awaits the answer to its order. The order and the answer of the
/// point outside come by the other link (Q.704 §5.4); so the changeover is complete, and the link may open again.
/// Neither node counts a break or a possible loss, and a message from the one to the other comes, once.
pub fn an_order_comes_by_another_link()
    ensures { ComesByAnotherLink }
{}

/// The laws ask this little of links, and of points outside. On a link of a node the next link status in flight may be
/// lost, or come twice. The association of a link may be lost at any moment, and a tick may pass; the exchange of the
/// node then does what the rules say. A link that leads out may open at its other end at any moment, and the node may
/// follow. Any link status may come by it, any User Data, and what can't be read; but no message of more than 272
/// octets, no changeover order or acknowledgement from a node to a node or with a number of more than 24 bits, and no
/// emergency one.
pub fn the_worst_may_happen()
    ensures statuses { statuses_may_be_harmed }
    ensures links { links_may_fail }
    ensures outside { outside_may_say_anything_else }
{}
