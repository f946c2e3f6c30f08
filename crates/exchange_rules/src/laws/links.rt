//! Laws of the abstract exchange: its links.

ghost use Rattle.exchange_rules.specs.Laws.{queued_in_traffic};
ghost use Rattle.exchange_rules.specs.Laws.{routed_in_traffic, declared_in_traffic, queued_anew_in_traffic};
ghost use Rattle.exchange_rules.specs.Laws.{settled_in_traffic, declared_by_test_in_traffic, tested_in_service};
ghost use Rattle.exchange_rules.specs.LastingLinks.{links_first_steady, links_stay_steady, l7_watches};
ghost use Rattle.exchange_rules.specs.Touching.{other_links_are_left, takes_leave_other_queues};
ghost use Rattle.exchange_rules.specs.Receiving.{received_is_counted, takes_receive_nothing, nothing_new_is_delivered};
ghost use Rattle.exchange_rules.specs.Aligning.{links_are_proved_first, links_have_their_timers};
ghost use Rattle.exchange_rules.specs.LawsOfAnswers.{wanted_links_open};
ghost use Rattle.exchange_rules.specs.LawsOfPeriods.{periods_are_chosen_with_emergency, periods_are_fixed_without_emergency, periods_are_those_of_orders_and_sets, orders_say_it, told_as_they_open};
ghost use Rattle.exchange_rules.specs.LawsOfCauses.{links_fail_so};

/// The link that an answer Queued names carries traffic: it is in service, and has no test to pass before (Q.707 §2.2).
/// So does each whose queue changes as management made here goes out, as a link declares to it that it is back, as a
/// completion queues management of another link anew, and at the end of each event, as messages are released and
/// adjacent points are told. A link whose own queue changes as it takes a step, since it is tested, is in service.
pub fn only_links_that_carry_traffic_are_given_messages()
    ensures queued { queued_in_traffic }
    ensures routed { routed_in_traffic }
    ensures declared { declared_in_traffic }
    ensures by_test { declared_by_test_in_traffic }
    ensures tested { tested_in_service }
    ensures anew { queued_anew_in_traffic }
    ensures settled { settled_in_traffic }
{}

/// A link wants to open exactly where its association, if it came up, would be taken.
pub fn links_open_where_they_want_to()
    ensures { wanted_links_open }
{}

/// Each link is steady, at first, and whatever happens and whatever is taken: its counts are in order, it is down while
/// it has no association, its changeover isn't complete or the answer to its order is awaited, and out of service
/// messages stand in its queue only until its changeover is complete. L7 of it runs exactly while it is in service, its
/// peer isn't busy, and something that was sent isn't confirmed.
pub fn links_stay_steady()
    ensures first { links_first_steady }
    ensures always { links_stay_steady }
    ensures watched { l7_watches }
{}

/// Each link has the timer of its state, whatever happens and whatever is taken. L2 runs just while it isn't aligned,
/// L3 while it is, L4 while it is proved, and L1 while it is ready and its peer isn't; and L6 while it is in service
/// and its peer is busy. So no link waits without a timer on its way into service, and none fails by a timer of another
/// state.
pub fn links_have_the_timers_of_their_states()
    ensures { links_have_their_timers }
{}

/// A link is proved before it enters service (Q.703 §7). It begins to align only as its association comes up, and is
/// aligned only by its peer's Alignment. Only its peer's Proving begins its proving, which succeeds only as L4 runs
/// out. It enters service then, if its peer was ready, or later by its peer's Ready or User Data, and never else.
pub fn links_are_proved_before_they_enter_service()
    ensures { links_are_proved_first }
{}

/// Without emergency proving in the settings (`l4e`) each link is always proved for the same period. With it, each link
/// that is up has the normal period or that of emergency (Q.703 §7.3). A link opens with the period of emergency if the
/// operator ordered that with its activation, or if no other link of its set is in service, and with the normal one
/// else (§7.1).
pub fn the_settings_say_whether_periods_are_chosen()
    ensures fixed { periods_are_fixed_without_emergency }
    ensures chosen { periods_are_chosen_with_emergency }
    ensures opened { periods_are_those_of_orders_and_sets }
    ensures ordered { orders_say_it }
{}

/// A link that opens tells its peer Alignment, and where the settings ask for it Out of Service before that (RFC 4165
/// §4.1.3, §5.1).
pub fn links_tell_that_they_align()
    ensures { told_as_they_open }
{}

/// An event names a link as failed (Failed) exactly if it takes it down, once, and with a reason that holds of the
/// event: its association went down; one of L1, L2, L3, L6 and L7 of it ran out, which is that of its state; a frame
/// came by it whose length is wrong, or with a status that fails it in its state and begins no outage, or with User
/// Data that it doesn't expect or that has a wrong number; its peer ordered a changeover of it, by a frame on any link;
/// the operator deactivated it; or a test of it wasn't answered in time (Q.704 §3.2, Q.707 §2.2, RFC 4165 §4.1.3).
pub fn links_that_fail_are_named()
    ensures { links_fail_so }
{}

/// An event leaves each link that it isn't about: messages go behind the link's queue while it is in service, or a
/// completion empties that queue, only where the link's changeover wasn't complete before, or the link fails by this
/// event. Out of service the link stays so, and no message goes there: its queue stays as it is, unless its changeover
/// is completed. A take touches no other link's queue.
///
/// An event is about a link if its association comes up, a frame came by it, or one of its timers L1 to L7 runs out:
/// only such events take it into service.
pub fn other_links_are_left()
    ensures event { other_links_are_left }
    ensures take { takes_leave_other_queues }
{}

/// What was received on a link rises by one exactly where a frame newly carries a message there, and by nothing else. A
/// frame newly carries none if its link is down, if it can't be read, or if one of its numbers is wrong; then it
/// delivers none.
pub fn what_was_received_is_counted()
    ensures event { received_is_counted }
    ensures take { takes_receive_nothing }
    ensures none { nothing_new_is_delivered }
{}
