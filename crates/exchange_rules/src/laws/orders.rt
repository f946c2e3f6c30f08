//! Laws of the abstract exchange: orders to change over, and their answers.

ghost use Rattle.exchange_rules.specs.LawsOfAnyRoute.{orders_are_told_as_such, orders_go_by_any_route};
ghost use Rattle.exchange_rules.specs.LawsOfAnyRoute.{orders_go_by_their_set, orders_are_answered};
ghost use Rattle.exchange_rules.specs.LawsOfAnyRoute.{links_that_await_are_down};
ghost use Rattle.exchange_rules.specs.LawsOfLateOrders.{late_orders_go, other_orders_stay, all_late_orders_go};
ghost use Rattle.exchange_rules.specs.LawsOfLateOrders.{orders_go_in_turn, late_orders_need_their_key};
ghost use Rattle.exchange_rules.specs.LawsOfLateOrders.{no_order_is_left};
ghost use Rattle.exchange_rules.specs.LawsOfWaits.{waits_end_so, takes_leave_waits, answers_end_waits};
ghost use Rattle.exchange_rules.specs.LawsOfWaits.{t2_ends_waits, t2_bars_links, releases_end_bars};
ghost use Rattle.exchange_rules.specs.LawsOfWaits.{releases_leave_others};

/// Where the settings ask for changeover by any route, a link that fails in service orders its peer to change over
/// wherever there is a way to the peer: the order goes behind all that stands on the link of its own flow, over
/// whatever set, if fewer than 256 management messages wait; its answer is awaited, and T2 is set. Only without a way
/// none goes out, and T1 is set. Else the same holds where another link of its set carries traffic, or none does. The
/// order reads as such: from this point to the link's, with the link's code and the number of the last message that was
/// accepted on it (Q.704 §5.2 to §5.4).
pub fn orders_go_where_they_may()
    ensures told { orders_are_told_as_such }
    ensures any { orders_go_by_any_route }
    ensures set { orders_go_by_their_set }
{}

/// An order about a link, extended or of emergency, is answered by whatever link it came: the link's changeover is
/// complete then, and the acknowledgement, with the number of the last message that was accepted on the link, stands
/// last on the link of its own flow, unless 256 management messages wait (Q.704 §5.5, §5.6).
pub fn orders_are_answered_by_any_route()
    ensures { orders_are_answered }
{}

/// Of each link at most one answer is awaited at a time: while it is, the link is down, so that it doesn't fail and no
/// second order about it goes out.
pub fn one_answer_is_awaited_at_a_time()
    ensures { links_that_await_are_down }
{}

/// An order that had no way as its link failed goes out late, about each link whose changeover isn't complete and whose
/// answer isn't awaited, as soon as the order has a way: T1 stops, T2 is set, the answer is awaited, and the order goes
/// behind all that stands on the link of its flow, if fewer than 256 management messages wait. No other goes out. Where
/// orders go by any route this is looked at about all links, one after the other, at the end of each tick, and of each
/// frame whose message isn't refused: after these none is left that could go. Where they don't, none goes out late.
pub fn late_orders_go_once_they_have_a_way()
    ensures goes { late_orders_go }
    ensures stays { other_orders_stay }
    ensures turns { orders_go_in_turn }
    ensures all { all_late_orders_go }
    ensures key { late_orders_need_their_key }
    ensures left { no_order_is_left }
{}

/// The answer to an order is awaited until it comes, until T2 of its link runs out, or until the operator lets the link
/// open: no other event ends the wait, and no take does. Where links are barred T2 doesn't end it while the changeover
/// isn't complete, and the operator's order does so only where it is: so nothing else ends the bar of a link
/// (Q.704 §5.7).
pub fn waits_end_by_answer_timer_or_operator()
    ensures event { waits_end_so }
    ensures take { takes_leave_waits }
{}

/// Each of these does end the wait, and T2 doesn't run then. Where links are barred, T2 that runs out before the
/// changeover is complete completes it: the answer stays awaited, so that the link is barred, and T2 runs for the time
/// of the bar. An order of the operator about a link that isn't barred changes nothing.
pub fn answer_timer_and_operator_end_waits()
    ensures answer { answers_end_waits }
    ensures timer { t2_ends_waits }
    ensures bar { t2_bars_links }
    ensures operator { releases_end_bars }
    ensures others { releases_leave_others }
{}
