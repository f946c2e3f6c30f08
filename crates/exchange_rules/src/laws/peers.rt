//! Laws of the abstract exchange: what other points say, ask and send back.

ghost use Rattle.exchange_rules.specs.LawsOfFarPoints.{link_tests_are_answered, nothing_else_comes_from_afar};
ghost use Rattle.exchange_rules.specs.LawsOfFarPoints.{upu_is_heard_where_asked_for};
ghost use Rattle.exchange_rules.specs.LawsOfOrders.{deactivated_links_stay_out, frames_acknowledge};
ghost use Rattle.exchange_rules.specs.LawsOfOrders.{links_ask_as_they_stand, messages_are_to_be_acknowledged};
ghost use Rattle.exchange_rules.specs.LawsOfOrders.{owed_ones_go_out};
ghost use Rattle.exchange_rules.specs.LawsOfProving.{links_are_proved_as_either_end_asks};
ghost use Rattle.exchange_rules.specs.LawsOfRerouting.{flows_are_rerouted_by_status, statuses_are_taken_as_said};
ghost use Rattle.exchange_rules.specs.LawsOfRows.{messages_go_back_by_rows, rows_have_room};
ghost use Rattle.exchange_rules.specs.LawsOfTelling.{senders_without_route_are_told, statuses_are_told_as_such};
ghost use Rattle.exchange_rules.specs.LawsOfRows.{rows_lead_to_point_and_backup, subsystem_tests_are_answered};

/// Where either end of a link asks for emergency proving, L4 runs by its setting for that as proving begins; where
/// neither does, or the period of links is fixed, by the normal one. A peer that asks for it while a link is proved for
/// the normal period gets the whole of it from then on (Q.703 §7.3).
pub fn links_are_proved_as_long_as_either_end_asks()
    ensures { links_are_proved_as_either_end_asks }
{}

/// Management and tests are accepted of adjacent points alone (NotFromAdjacent), but that a user part isn't there (UPU)
/// of any point. Where the settings ask for UPU it is handled, and else refused; it changes nothing (Q.704 §11.2.7).
pub fn only_adjacent_points_manage()
    ensures afar { nothing_else_comes_from_afar }
    ensures upu { upu_is_heard_where_asked_for }
{}

/// Each link test (SLTM) of an adjacent point is answered, by one SLTA with its code and its pattern, at the end of the
/// queue of the link by which it came; where 256 management messages wait the answer is named as unsent (Q.707 §2.2).
/// Where subsystem tests are answered, so is each SST of another point about a subsystem that is here, whatever its
/// multiplicity indicator: by an SSA to that point, of multiplicity 0, which goes the way of any message for another
/// point (Q.714 §5.3.4).
pub fn tests_of_others_are_answered()
    ensures links { link_tests_are_answered }
    ensures subsystems { subsystem_tests_are_answered }
{}

/// A row leads to a subsystem if it is routed by its number, and its point or its backup is that of the subsystem. 256
/// subsystems to which rows lead may be prohibited at once (Q.714 §5.3.2).
pub fn rows_lead_to_subsystems()
    ensures leads { rows_lead_to_point_and_backup }
    ensures room { rows_have_room }
{}

/// A refused message that asks for return, and was called from a title that a row has, goes back to the row's point if
/// that is open; else to its backup, if that is, also where the message came from there; else to the point, unless the
/// subsystem at one of them is prohibited (Q.714 §4.2, §5.3.2). What stands in the way otherwise is only that it would
/// come to this node, can't be translated, or can't be written.
pub fn messages_go_back_to_titles_by_rows()
    ensures { messages_go_back_by_rows }
{}

/// What the adjacent point of a set is told of a destination reads there as TFP, TFR or TFA, by its status, from this
/// point. The point at the other end of the link by which a message came that finds no route is told by one TFP, and T8
/// runs from then on: if fewer than 128 management messages wait, T8 doesn't run, TFP has a link, and that point isn't
/// the destination itself (Q.704 §13.2 to §13.4).
pub fn adjacent_points_are_told_of_routes()
    ensures read { statuses_are_told_as_such }
    ensures unrouted { senders_without_route_are_told }
{}

/// A link that the operator deactivates is down, and stays so until it is activated: it doesn't ask to open, and
/// refuses an association. A link that is down and has an association asks that it end; one that is up asks nothing
/// (Q.704 §3.2).
pub fn links_open_and_close_as_ordered()
    ensures out { deactivated_links_stay_out }
    ensures asks { links_ask_as_they_stand }
{}

/// A message that User Data newly carries is acknowledged: it leaves an acknowledgement owed, while one is owed there
/// is a frame to take, and each frame has the number of the last message that was accepted on its link (RFC 4165
/// §4.2.1).
pub fn what_came_is_acknowledged()
    ensures owed { messages_are_to_be_acknowledged }
    ensures taken { owed_ones_go_out }
    ensures number { frames_acknowledge }
{}

/// What the adjacent point of a set says of a route, by TFP, TFR or TFA, is taken as said where it is another status
/// than before. By TFP flows go by other routes at once, and none is held for that (Q.704 §7). By TFR and TFA each flow
/// that goes from one link to another by this is held by the rerouting of its destination, and T6 is set; every other
/// hold stays (§8). T10 is set where the route isn't allowed (§13.5).
pub fn routes_change_as_their_points_say()
    ensures taken { statuses_are_taken_as_said }
    ensures flows { flows_are_rerouted_by_status }
{}
