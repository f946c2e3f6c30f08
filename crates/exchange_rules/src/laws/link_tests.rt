//! Laws of the abstract exchange: the tests that a node makes of its links.

ghost use Rattle.exchange_rules.specs.LawsOfTests.{no_tests_without_settings, links_in_service_are_tested};
ghost use Rattle.exchange_rules.specs.LawsOfTests.{tests_read_back, answers_pass, other_answers_are_ignored};
ghost use Rattle.exchange_rules.specs.LawsOfTests.{two_failures_fail_a_link};
ghost use Rattle.exchange_rules.specs.LawsOfFirstTests.{links_wait_for_their_test, flows_keep_off_untested_links};
ghost use Rattle.exchange_rules.specs.LawsOfFirstTests.{untested_links_have_no_user_message, failures_forget_tests};
ghost use Rattle.exchange_rules.specs.LawsOfFirstTests.{none_waits_without_settings, none_is_tested_without_settings};

/// Where the settings have link tests, a link is tested as it enters service, and again as Slt2 runs out: Slt1 starts,
/// and one SLTM goes to the end of the link's queue, if it finds room. It reads back: from this point to the link's,
/// with the link's code and the pattern. The answer from that point by that link, with the same code and the same
/// pattern, octet by octet, passes the test while it is awaited: Slt1 stops and Slt2 starts, and by the first the link
/// begins to carry traffic. Every other is ignored. Where Slt1 runs out the test is repeated the first time, and the
/// second time in a row the link fails. Without link tests in the settings no timer of a test ever runs (Q.707 §2.2).
pub fn links_are_tested()
    ensures off { no_tests_without_settings }
    ensures tested { links_in_service_are_tested }
    ensures says { tests_read_back }
    ensures passes { answers_pass }
    ensures others { other_answers_are_ignored }
    ensures fails { two_failures_fail_a_link }
{}

/// Where the settings have link tests, a link carries traffic only after its first test passed (Q.707 §2.2). One that
/// opens has a test to pass, and enters service with it; in service it carries traffic once it passes one. Until then
/// no flow takes it, and no user message ever is in its queue. A link that passes one has none to pass and has failed
/// none, and leaves all other links as they are. A link that fails forgets what its tests said. Without
/// link tests in the settings no link has a test to pass, and one that takes a step does no more than that.
pub fn links_carry_traffic_after_their_first_test()
    ensures waits { links_wait_for_their_test }
    ensures routed { flows_keep_off_untested_links }
    ensures queued { untested_links_have_no_user_message }
    ensures forgets { failures_forget_tests }
    ensures off { none_waits_without_settings }
    ensures alone { none_is_tested_without_settings }
{}
