//! SLTC, signalling link test control (Q.707 §2.2, §5.5): the tests that this node makes of its links, where the
//! settings say how often.

ghost use Rattle.std.specs.Prelude.{◌≡◌, ◌<◌, length};
ghost use Rattle.mtp3_codec.specs.Values.{test_value};
ghost use Rattle.exchange_rules.specs.State.{with_node, with_parts};
ghost use Rattle.exchange_rules.specs.Routing.{no_room};
ghost use Rattle.exchange_rules.specs.Exchange.{Ends};
ghost use Rattle.exchange.specs.KeptQueues.{kept};
ghost use Rattle.exchange_rules.specs.LinkTests as rule;

use super::Exchange;
use cell_pool::Lanes;
use mtp3_codec::{LinkTest, TEST_OCTETS, TestKind};
use settings::{FailureReason, LinkId, MsuRef, Outcome, PointCode};
use timers::{TimerName, Timers};

/// The service indicator of tests (Q.704 §14.2.1).
const TESTING: u8 = 1;

/// The pattern of this node's tests: SLTM in ASCII.
const OWN_PATTERN: [u8; 4] = [0x53, 0x4c, 0x54, 0x4d];

impl Exchange {
    /// A link in service is tested, if the settings have the node test its links.
    pub(super) fn begin_test(&mut self, link: LinkId)
        requires { link < length self.old.settings.links }
        ensures { self.new ≡ with_node self.old (rule.begin_test kept self.old.settings link self.old.node) }
    {
        if self.tests_links() && self.serves(link) {
            self.send_test(link);
        }
    }

    /// A test of a link goes out, and its answer is awaited. If there is no room for it, it isn't sent.
    fn send_test(&mut self, link: LinkId)
        requires { link < length self.old.settings.links }
        ensures { self.new ≡ with_node self.old (rule.send_test kept self.old.settings link self.old.node) }
    {
        let ticks = self.answer_ticks();
        self.timers.set(TimerName::Slt1(link), ticks);
        self.queue_test(link);
    }

    /// A test goes to the end of its link's queue, if there is room for it.
    fn queue_test(&mut self, link: LinkId)
        requires { link < length self.old.settings.links }
        ensures { self.new ≡ with_node self.old (rule.queue_if kept self.old.settings
            (no_room kept self.old.settings (rule.link_test self.old.settings link) self.old.node.queues) link
            (rule.link_test self.old.settings link) self.old.node) }
    {
        let test = LinkTest {
            kind: TestKind::Test,
            slc: self.code_of(link),
            pattern: &OWN_PATTERN,
        };
        let mut octets = [0; TEST_OCTETS];
        let count = test.write(self.peer_of(link), self.settings.own(), &mut octets);
        let message = MsuRef {
            sio: self.own_sio(TESTING),
            sif: &octets[..count],
        };
        match self.lanes.refusal(message) {
            Some(_) => {}
            None => self.queue_within_room(link, message),
        }
    }

    /// The answer to the test of a link didn't come in time. The first time in a row the test is repeated, the second
    /// time the link fails.
    pub(super) fn test_unanswered(&mut self, link: LinkId)
        ensures { self.new ≡ with_node self.old (rule.test_unanswered kept self.old.settings link self.old.node) }
    {
        if !self.links.has(link) || !self.serves(link) {
            return;
        }
        if self.links.state(link).has_failed_test() {
            self.fail(link, FailureReason::Test);
        } else {
            self.set_test_failed(link, true);
            self.begin_test(link);
        }
    }

    /// The next test of a link is due.
    pub(super) fn next_test(&mut self, link: LinkId)
        ensures { self.new ≡ with_node self.old (rule.begin_test kept self.old.settings link self.old.node) }
    {
        if self.links.has(link) {
            self.begin_test(link);
        }
    }

    /// An answer to a test, from an adjacent point, by a link. It counts if that link's test awaits it: then the test
    /// passed, and the next comes when Slt2 runs out. By its first test the link begins to carry traffic.
    pub(super) fn on_test_answer(
        &mut self,
        link: LinkId,
        point: PointCode,
        test: &LinkTest<'_>,
    ) -> Outcome
        requires { link < length self.old.settings.links }
        ensures { Ends self.old result self.new
            (rule.on_test_answer kept self.old.settings link point (test_value test.now) self.old.node) }
    {
        if self.passes_test(link, point, test) {
            self.pass_test(link);
            Outcome::Handled
        } else {
            Outcome::Ignored
        }
    }

    /// Whether an answer from a point, by a link, is the one that the link's test awaits.
    fn passes_test(&self, link: LinkId, point: PointCode, test: &LinkTest<'_>) -> bool
        requires { link < length self.now.settings.links }
        ensures { result ≡
            rule.passes_test self.now.settings link point (test_value test.now) self.now.node.parts }
    {
        self.tests_links()
            && self.timers.is_running(TimerName::Slt1(link))
            && self.answers_test(link, point, test)
    }

    /// A link passes a test. By its first it begins to carry traffic, and takes its flows back.
    #[inline(never)]
    fn pass_test(&mut self, link: LinkId)
        requires { link < length self.old.settings.links }
        ensures { self.new ≡ with_node self.old (rule.pass_test kept self.old.settings link self.old.node) }
    {
        // reading a field gives the prover the invariant
        let _ = &self.links;
        let carried = self.carries_traffic(link);
        self.test_passed(link);
        if !carried && self.carries_traffic(link) {
            self.take_flows_back(link);
        }
    }

    /// The test of a link passed: the next comes when Slt2 runs out.
    fn test_passed(&mut self, link: LinkId)
        requires { link < length self.old.settings.links }
        ensures { self.new ≡ with_node self.old
            (with_parts self.old.node (rule.test_passed self.old.settings link self.old.node.parts)) }
    {
        self.set_test_passed(link);
        self.timers.clear(TimerName::Slt1(link));
        let ticks = self.pause_ticks();
        self.timers.set(TimerName::Slt2(link), ticks);
    }

    /// Whether an answer from a point is that to the test of a link: from the link's point, with its code and the
    /// pattern.
    fn answers_test(&self, link: LinkId, point: PointCode, test: &LinkTest<'_>) -> bool
        requires { link < length self.now.settings.links }
        ensures { result ≡ rule.answers_test self.now.settings link point (test_value test.now) }
    {
        point == self.peer_of(link)
            && test.slc == self.code_of(link)
            && is_own_pattern(test.pattern)
    }

    /// Whether the settings have the node test its links.
    pub(super) fn tests_links(&self) -> bool
        ensures { result ≡ rule.tests_links self.now.settings }
    {
        self.settings.timers().link_tests.is_some()
    }

    /// How many ticks the answer to a test is awaited.
    fn answer_ticks(&self) -> u16
        ensures { result ≡ rule.answer_ticks self.now.settings }
    {
        match self.settings.timers().link_tests {
            Some(tests) => tests.slt1,
            None => 0,
        }
    }

    /// How many ticks lie between a test that passed and the next.
    fn pause_ticks(&self) -> u16
        ensures { result ≡ rule.pause_ticks self.now.settings }
    {
        match self.settings.timers().link_tests {
            Some(tests) => tests.slt2,
            None => 0,
        }
    }
}

/// Whether a pattern is that of this node's tests, octet by octet.
fn is_own_pattern(pattern: &[u8]) -> bool
    ensures { result ≡ rule.is_same_pattern pattern.now rule.own_pattern }
{
    match *pattern {
        [first, second, third, fourth] => {
            first == OWN_PATTERN[0]
                && second == OWN_PATTERN[1]
                && third == OWN_PATTERN[2]
                && fourth == OWN_PATTERN[3]
        }
        _ => false,
    }
}
