//! Laws of the abstract exchange.

ghost use Rattle.exchange_rules.specs.Laws.{refusals_leave, nothing_taken_leaves};
ghost use Rattle.exchange_rules.specs.Laws.{first_is_told, events_tell_all, takes_owe_nothing};
ghost use Rattle.exchange_rules.specs.Laws.{completion_leaves_others, release_keeps_order, moved_before_held};
ghost use Rattle.exchange_rules.specs.LastingHolds.{holds_stay_timed, every_hold_has_its_timer_or_its_word};
ghost use Rattle.exchange_rules.specs.TickingAlone.{ticks_end_holds_where_it_is_quiet, ticks_end_all_holds};
ghost use Rattle.exchange_rules.specs.LastingMessages.{first_is_onward, messages_stay_onward};
ghost use Rattle.exchange_rules.specs.LastingRoutes.{own_routes_stay_allowed};
ghost use Rattle.exchange_rules.specs.LoneRoutes.{flows_stay_on_their_set, the_set_decides_its_flows};
ghost use Rattle.exchange_rules.specs.LawsOfMessages.{user_messages_are_conserved, takes_leave_user_messages};
ghost use Rattle.exchange_rules.specs.LawsOfMessages.{all_that_came_adds_up};
ghost use Rattle.exchange_rules.specs.LawsOfMessages.{carried_messages_have_a_fate, submissions_have_a_fate};
ghost use Rattle.exchange_rules.specs.LawsOfLosses.{events_account_for_losses, takes_flag_nothing, management_is_named};
ghost use Rattle.exchange_rules.specs.LawsOfCauses.{holds_end_so, takes_leave_holds, unasked_answers_are_ignored};
ghost use Rattle.exchange_rules.specs.Lasting.{places_at_first, places_stay, notices_keep_their_limits};
ghost use Rattle.exchange_rules.specs.Lasting.{no_flag_at_first, losses_stay, lateness_stays};
ghost use Rattle.exchange_rules.specs.Lasting.{notices_raise_flags, unreasonable_numbers_raise_it};
ghost use Rattle.exchange_rules.specs.Lasting.{notices_made_are_counted, new_notices_are_the_last};
ghost use Rattle.exchange_rules.specs.TimerSettings.{events_set_timers_to_their_settings, timers_keep_their_settings};
ghost use Rattle.exchange_rules.specs.TimerSettings.{takes_set_timers_to_their_settings, only_l4_is_paced};
ghost use Rattle.exchange_rules.specs.TimerSettings.{only_t2_is_barred};
ghost use Rattle.exchange_rules.specs.Testing.{unsure_routes_are_tested, tests_are_repeated};
ghost use Rattle.exchange_rules.specs.LawsOfFailures.{failures_hold_their_flows, failures_by_peer_hold_their_flows};
ghost use Rattle.exchange_rules.specs.LawsOfFailures.{idle_failures_hold_nothing, idle_failures_by_peer_hold_nothing};
ghost use Rattle.exchange_rules.specs.LawsOfReturns.{entries_hold_changed_flows, changed_flows_are_held};
ghost use Rattle.exchange_rules.specs.LawsOfReturns.{tests_hold_changed_flows, first_tests_are_returns};
ghost use Rattle.exchange_rules.specs.LawsOfAnswers.{queued_stands_last, t8_lasts};
ghost use Rattle.exchange_rules.specs.LawsOfAnswers.{one_answer_within_t8, t8_runs_its_time, takes_leave_t8};
ghost use Rattle.exchange_rules.specs.LawsOfAnswers.{route_tests_need_a_link};
ghost use Rattle.exchange_rules.specs.LawsOfReturns.{returns_keep_holds};
ghost use Rattle.exchange_rules.specs.LawsOfReturns.{flows_return_by_their_procedures, entries_are_returns};
ghost use Rattle.exchange_rules.specs.LawsOfReturns.{untested_entries_take_nothing};
ghost use Rattle.exchange_rules.specs.LawsOfShares.{full_shares_refuse, others_know_no_shares};

pub mod link_tests;
pub mod links;
pub mod orders;
pub mod outage;
pub mod peers;
pub mod reroutings;
pub mod rows;
pub mod subsystems;
pub mod user_parts;

pub use link_tests::{links_are_tested, links_carry_traffic_after_their_first_test};
pub use links::{
    links_are_proved_before_they_enter_service, links_have_the_timers_of_their_states,
    links_open_where_they_want_to, links_stay_steady, links_tell_that_they_align,
    links_that_fail_are_named, only_links_that_carry_traffic_are_given_messages,
    other_links_are_left, the_settings_say_whether_periods_are_chosen,
    what_was_received_is_counted,
};
pub use orders::{
    answer_timer_and_operator_end_waits, late_orders_go_once_they_have_a_way,
    one_answer_is_awaited_at_a_time, orders_are_answered_by_any_route, orders_go_where_they_may,
    waits_end_by_answer_timer_or_operator,
};
pub use outage::outages_are_a_state_where_asked_for;
pub use peers::{
    adjacent_points_are_told_of_routes, links_are_proved_as_long_as_either_end_asks,
    links_open_and_close_as_ordered, messages_go_back_to_titles_by_rows,
    only_adjacent_points_manage, routes_change_as_their_points_say, rows_lead_to_subsystems,
    tests_of_others_are_answered, what_came_is_acknowledged,
};
pub use reroutings::{flows_keep_their_set_while_none_is_counted, rerouted_flows_are_counted};
pub use rows::rows_are_set_in_one_event;
pub use subsystems::{
    prohibited_subsystems_are_tested, rows_keep_off_prohibited_subsystems,
    subsystems_are_as_their_points_say, subsystems_are_forgotten_with_their_points,
};
pub use user_parts::absent_user_parts_are_told_once_in_eight;

/// A refused event changes nothing, but that a refused message may be answered: one of SCCP for this point is returned,
/// if it can be, by a UDTS or an XUDTS; where a message in a frame found no route the point at the other end of its
/// link is told, by TFP; and where one is for a user part that isn't here it is counted, and its sender is told, by
/// UPU, as `absent_user_parts_are_told_once_in_eight` says. Of a message in a frame also what accepting that frame did
/// stands, with a notice, and what then found room to be told.
pub fn refusals_change_nothing()
    ensures { refusals_leave }
{}

/// Between two events adjacent points are owed only what finds no room: so it is at first, after each event, and after
/// each frame that goes out.
pub fn only_what_finds_no_room_is_owed()
    ensures first { first_is_told }
    ensures event { events_tell_all }
    ensures take { takes_owe_nothing }
{}

/// A take that gives nothing changes nothing.
pub fn taking_nothing_changes_nothing()
    ensures { nothing_taken_leaves }
{}

/// A message for another point is refused ShareFull exactly if it is a user message that has a known destination, finds
/// room in the pool and doesn't wait, and its link has a share of the pool and at least as many unconfirmed messages.
/// All other messages go as if no link had a share.
pub fn only_a_full_share_refuses()
    ensures refused { full_shares_refuse }
    ensures others { others_know_no_shares }
{}

/// An answer Queued names the link that the flow of the message had before it came, and the message goes behind all
/// that stands there; only what the end of the event releases and tells may follow.
pub fn queued_messages_stand_last()
    ensures { queued_stands_last }
{}

/// While T8 of a set and a destination runs, no message from the set that finds no route to the destination is answered
/// with TFP, nor while no link leads to the set's point; where one is, T8 runs from then on (Q.704 §13.2). It stops only
/// at a tick, as it runs out, or as one of the links of the set enters service, and none of them was; else it lasts as
/// long as it is set to.
pub fn no_message_is_answered_while_t8_runs()
    ensures answered { one_answer_within_t8 }
    ensures event { t8_runs_its_time }
    ensures take { takes_leave_t8 }
    ensures always { t8_lasts }
{}

/// A test by which an adjacent point asks about a route is answered only if a link leads to that point. Else it changes
/// nothing, so nothing counts as told.
pub fn route_tests_are_answered_with_a_link()
    ensures { route_tests_need_a_link }
{}

/// The move of a completed changeover touches the queue of no other link. In Held the messages that it moves stand
/// before those that were held, and each flow keeps its order.
pub fn completion_leaves_other_links()
    ensures { completion_leaves_others }
{}

/// Whatever happens and whatever is taken, some notices were made: their count grew by as many, modulo 2^64, and the
/// last 64 of all notices are kept. So a reader that kept an earlier count knows how many are new, unless these are
/// 2^64 or more, and that they are the last ones, as far as they are kept.
pub fn notices_are_counted()
    ensures counted { notices_made_are_counted }
    ensures newest { new_notices_are_the_last }
    ensures limits { notices_keep_their_limits }
{}

/// A release leaves in Held what waits, and puts the other messages behind those of their links, each in the order of
/// Held: each flow keeps its order.
pub fn release_keeps_the_order_of_each_flow()
    ensures { release_keeps_order }
{}

/// Where a changeover meets a changeback, each flow keeps its order: of its messages that go on by a link, those that
/// the changeover moves stand before those that were held.
pub fn moved_messages_go_before_held_ones()
    ensures { moved_before_held }
{}

/// When a link in service fails, its changeover holds afterwards each flow that it held, each whose link that was, and
/// each that has an unconfirmed user message there; what other procedures hold stays. When another link fails, nothing
/// is held.
pub fn failures_hold_the_flows_that_fail()
    ensures own { failures_hold_their_flows }
    ensures by_peer { failures_by_peer_hold_their_flows }
    ensures idle { idle_failures_hold_nothing }
    ensures idle_by_peer { idle_failures_by_peer_hold_nothing }
{}

/// When a link enters service, or passes a test, each flow whose link changed from one link to another is held; and
/// what was held stays held. This holds for every node that has a place for each link, set and destination of its
/// settings, and every exchange has (`Exchange::has_its_places`).
pub fn flows_that_change_their_link_are_held()
    ensures entered { entries_hold_changed_flows }
    ensures tested { tests_hold_changed_flows }
    ensures changed { changed_flows_are_held }
    ensures others { returns_keep_holds }
{}

/// When a link returns to service, each flow that went by another link and goes by this one now is held by the
/// procedure of that other link. It is a code exactly where a declaration with that code stands at the end of the other
/// link's queue: both links are of one set, and the code is the least one free when the turn of the other link comes,
/// in the order of links, so that no two links of one return have the same. Else it is time: the other link is of
/// another set, or when its turn comes no code is free or management has no room. Every other pair, every other code
/// and every other queue stays. This holds for every node that has all its places. A link that has a test to pass takes
/// nothing back as it enters service, and does so as it passes it (Q.707 §2.2).
pub fn flows_return_by_the_procedures_of_their_links()
    ensures returned { flows_return_by_their_procedures }
    ensures entered { entries_are_returns }
    ensures untested { untested_entries_take_nothing }
    ensures tested { first_tests_are_returns }
{}

/// A node that was just booted has a place for each link, set and destination of its settings, with a queue for each
/// link and the timers of all of them; and it keeps them, whatever happens and whatever is taken.
pub fn nodes_have_their_places()
    ensures first { places_at_first }
    ensures always { places_stay }
{}

/// No flag is raised at first, and nothing is counted. No flag ever falls, whatever happens and whatever is taken: once
/// a message may have been lost, or messages may have gone out of order, that stays shown. They are raised while a
/// notice says so, and by a completion without a reasonable number.
pub fn flags_never_fall()
    ensures first { no_flag_at_first }
    ensures lost { losses_stay }
    ensures late { lateness_stays }
    ensures noted { notices_raise_flags }
    ensures number { unreasonable_numbers_raise_it }
{}

/// Every hold has its timer or its word, whatever happens and whatever is taken. The changeover that holds a flow isn't
/// complete, or its link is in service and in an outage of its peer's processor, which L6 watches
/// (`outages_are_a_state_where_asked_for`); T4 of a code that holds one runs, T3 of a link that holds one by time, and
/// T6 of a destination whose flows are rerouted. While a changeover isn't complete T1 runs, or the answer to its order
/// is awaited; and while that is awaited T2 runs. So nothing is held that neither a timer nor a word of the peer ends.
pub fn every_hold_has_its_timer_or_its_word()
    ensures stays { holds_stay_timed }
    ensures always { every_hold_has_its_timer_or_its_word }
{}

/// A hold ends only by its word, or as a timer of it runs out. A procedure that holds a flow before an event, and
/// doesn't hold it after, is a changeover, and its peer ordered that or answered the order, or T1 or T2 of the link ran
/// out (Q.704 §5.4 to §5.7), or the link was in an outage, and its peer said that its processor recovered (Q.703 §8);
/// or a code, and the answer to its declaration came, or T4 ran out (§6.3); or it holds by time, and T3 ran out (§6.4);
/// or a rerouting, and T6 ran out (§8.2). The words are those of the message that a frame newly carries, if an adjacent
/// point sent it. No other event ends a hold, and no take does. An answer that nobody awaits is ignored: to an order
/// that the changeover of that link doesn't await, or to a code that isn't in use.
pub fn holds_end_by_word_or_timer()
    ensures event { holds_end_so }
    ensures unasked { unasked_answers_are_ignored }
    ensures take { takes_leave_holds }
{}

/// Each timer is set to the ticks that the settings give it, whatever happens and whatever is taken: after an event or
/// a take it has as many left as before, or as many as it is set to, or it doesn't run. A tick takes one from each
/// first. So none ever has more left than its own setting. L4 has two, one by each period for which a link may be
/// proved, and so has T2 where the settings have a bar; here either counts.
pub fn timers_are_set_to_their_settings()
    ensures event { events_set_timers_to_their_settings }
    ensures take { takes_set_timers_to_their_settings }
    ensures always { timers_keep_their_settings }
    ensures paced { only_l4_is_paced }
    ensures barred { only_t2_is_barred }
{}

/// So where nothing but ticks happens, all holds end, from each state that comes of the first: after as many ticks as
/// the longest of T1, T2, T3, T4 and T6 takes no flow is held and no message waits in Held, if no L4, L6 or L7 runs,
/// and neither timer of a link test. These may take a link into service or out of it, and so begin another wait. L4, L6
/// and L7 run while a link is being proved, while a peer is busy, and while something that was sent isn't confirmed;
/// then it takes as many ticks more as the longest of them, and, of a node that tests its links, as the longest pause
/// between two tests and two answers that are awaited. Where orders go by any route, one may go out late at the end of
/// the first tick, so that T2 starts then: from a state where no such timer runs it takes one tick more.
pub fn ticks_end_all_holds()
    ensures quiet { ticks_end_holds_where_it_is_quiet }
    ensures always { ticks_end_all_holds }
{}

/// No message for this point stands in Held or in a queue, at first, and whatever happens and whatever is taken: such a
/// message is never queued as it came.
pub fn messages_for_this_point_are_never_queued()
    ensures first { first_is_onward }
    ensures always { messages_stay_onward }
{}

/// The route to an adjacent point over its own set, if there is one, is allowed, at first, and whatever happens and
/// whatever is taken: what such a point says of itself changes nothing.
pub fn routes_to_adjacent_points_stay_allowed()
    ensures { own_routes_stay_allowed }
{}

/// Each route that isn't allowed, over a set with a link in service, is tested, whatever happens and whatever is taken:
/// its T10 runs. When T10 of such a route runs out, T10 runs again, and the test for its status goes to the adjacent
/// point, if a link leads there (Q.704 §13.5).
pub fn unsure_routes_are_tested_again_and_again()
    ensures always { unsure_routes_are_tested }
    ensures again { tests_are_repeated }
{}

/// Where the links of one set lead to a point, and no other set leads there, that stays so whatever happens and
/// whatever is taken, and whatever other neighbours the node has: the route to the point is allowed, its flows take
/// links of the set, and the user messages for it that stand on links stand on those of the set (Q.704 §4.2). Which of
/// its links a flow takes depends only on which of them are in service.
pub fn flows_to_a_point_stay_on_its_only_set()
    ensures stay { flows_stay_on_their_set }
    ensures decided { the_set_decides_its_flows }
{}

/// No user message is doubled, and none goes unseen: by any test, as many as stood in Held and in queues before an
/// event, and as it brings, stand there after it, were accepted by a peer, or are named as lost.
///
/// It brings the message that came or was submitted where its outcome is that this is queued or held, and no other: a
/// message for another point as it came, an SCCP message for this point as its relay writes it. And it brings the UDTS
/// or XUDTS that returns a refused one, where that finds its way. A peer accepts messages by the numbers of its User
/// Data, oldest first, and by the number of its changeover. Those are lost that a completion leaves in doubt, and that
/// have no route when they are released.
///
/// This holds of every node that has all its places and whose links are steady, so of every one that comes of the
/// first. A take changes no such number. So whatever happens and whatever is taken, all that ever came in stands, was
/// accepted by a peer, or is named as lost.
///
/// And each user message that a frame newly carries, and each that is submitted, is queued, held, delivered or refused;
/// or handled, if it says something of a subsystem at another point, and is heard.
pub fn user_messages_are_conserved()
    ensures carried { carried_messages_have_a_fate }
    ensures submitted { submissions_have_a_fate }
    ensures event { user_messages_are_conserved }
    ensures take { takes_leave_user_messages }
    ensures always { all_that_came_adds_up }
{}

/// Flags rise only for their reasons, and each reason is named, but a completion without a reasonable number. Of every
/// event:
///
/// - the notices that name a user message as lost (Lost) are those of what it loses, in order: what its completions
///   leave in doubt, then what its release finds without a route;
/// - those of management sent in vain (Unsent) are those of what it sends so, in order: orders to change over and their
///   answers, what a completion queues again, acknowledgements of changeback declarations, answers to route set tests
///   and link tests, route set tests, TFP about a message without a route, and what adjacent points are owed;
/// - those of T2 are of each T2 that runs out, and of each bar that the operator ends: Unbarred where links are barred
///   and the changeover was complete, else Expired;
/// - those of lateness (Late) are of each T3 and each T4 that runs out, and so ends holds.
///
/// It counts a possible loss for each notice of the first three kinds and for each completion without a reasonable
/// number, and a possible lateness for each of the last, and no other. It counts each message that is named as lost
/// (`messages_lost`). And it counts a break (`times_broken`) for each answer that isn't awaited any more though it
/// didn't come, so for each Unbarred, and where links aren't barred for each T2 that runs out; and for each number of a
/// completion that names no count. How many notices of other kinds it makes has a bound. A take counts none of these.
///
/// Management is sent in three ways: on the link of its flow, on a given link, and, queued anew, on the link of its
/// flow without a look at room. In each it goes to the end of that link's queue; or it finds no room or no link, and is
/// given up, with why. A changeback declaration and a link test of this node's own are sent in none of them: where
/// one finds no room it isn't made (`flows_return_by_the_procedures_of_their_links`). Nor is UPU, which isn't made where
/// it finds no room or no link (`absent_user_parts_are_told_once_in_eight`).
pub fn what_is_lost_is_named()
    ensures event { events_account_for_losses }
    ensures management { management_is_named }
    ensures take { takes_flag_nothing }
{}
