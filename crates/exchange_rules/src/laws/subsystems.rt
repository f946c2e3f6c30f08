//! Laws of the abstract exchange: subsystems at other points.

ghost use Rattle.exchange_rules.specs.LawsOfSubsystems.{an_ssa_allows_one, an_ssp_prohibits_one, rows_stay, statuses_are_heard};
ghost use Rattle.exchange_rules.specs.LawsOfSubsystems.{a_tick_counts_them, none_is_where_nothing_leads};
ghost use Rattle.exchange_rules.specs.LawsOfSubsystems.{nothing_else_changes_titles, orders_leave_subsystems};
ghost use Rattle.exchange_rules.specs.LawsOfSubsystems.{news_say_what_came, what_is_heard_changes_titles};
ghost use Rattle.exchange_rules.specs.LawsOfSubsystems.{reached_ones_stay, tests_come_in_turn, tests_read_as_such};
ghost use Rattle.exchange_rules.specs.LawsOfSubsystems.{rows_lead_where_it_is_open, titles_are_led_on};
ghost use Rattle.exchange_rules.specs.LawsOfSubsystems.{points_are_open_or_shut, unreached_points_bar_nothing};
ghost use Rattle.exchange_rules.specs.LawsOfCountdowns.{each_is_tested_as_due, news_change_one};
ghost use Rattle.exchange_rules.specs.LawsOfCountdowns.{none_is_prohibited_at_first, takes_leave_titles, unled_ones_go_as_due};

/// A UDT for SCCP management with an SSP or an SSA, from another point, is handled, where these are heard. It changes
/// nothing but which subsystems are prohibited: an SSP adds the one that it is about, and an SSA takes that away, if
/// the point of that subsystem says it; an SSP also needs a row that leads there, and room (Q.714 §5.3.2, §5.3.3). It
/// leaves when each other one is tested, and so does a second SSP when its own is.
pub fn subsystems_are_as_their_points_say()
    ensures heard { statuses_are_heard }
    ensures says { news_say_what_came }
    ensures prohibited { an_ssp_prohibits_one }
    ensures allowed { an_ssa_allows_one }
    ensures rows { rows_stay }
    ensures known { news_change_one }
{}

/// At first no subsystem is prohibited. Rows and prohibited subsystems change only by what is heard, just as that says,
/// by a tick, and by an order about rows; that leaves which subsystems are prohibited. No take changes them. After a
/// tick the points of all that are prohibited are reached: what was known of the others is forgotten (Q.714 §5.2.3).
/// One to which no row leads any more is forgotten as its test is due, and not before.
pub fn subsystems_are_forgotten_with_their_points()
    ensures first { none_is_prohibited_at_first }
    ensures others { nothing_else_changes_titles }
    ensures news { what_is_heard_changes_titles }
    ensures takes { takes_leave_titles }
    ensures orders { orders_leave_subsystems }
    ensures tick { a_tick_counts_them }
    ensures reached { none_is_where_nothing_leads }
    ensures unled { unled_ones_go_as_due }
{}

/// While its point is reached and a row leads to it, a subsystem stays prohibited until its SSA comes, and a test of it
/// is due every `sst` ticks. That is an SST about it, for SCCP management at its point (Q.714 §5.3.4). There is one to
/// submit for each of which a test is due, and for no other.
pub fn prohibited_subsystems_are_tested()
    ensures stay { reached_ones_stay }
    ensures turns { tests_come_in_turn }
    ensures due { each_is_tested_as_due }
    ensures text { tests_read_as_such }
{}

/// A row leads a message to its point if that is reached and its subsystem there isn't prohibited; else to its backup,
/// on the same terms, if the message didn't come from there. If neither will do, and the subsystem at one that is
/// reached is prohibited, the message is refused SubsystemProhibited; else it goes to the row's point (Q.714 §5.3.2).
/// So subsystems at points that aren't reached bar nothing, and a row by title leads as if none were prohibited.
pub fn rows_keep_off_prohibited_subsystems()
    ensures points { points_are_open_or_shut }
    ensures choice { rows_lead_where_it_is_open }
    ensures titles { titles_are_led_on }
    ensures unreached { unreached_points_bar_nothing }
{}
