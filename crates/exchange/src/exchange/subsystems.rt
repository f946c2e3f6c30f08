//! Prohibited subsystems at other points (Q.714 §5.3.4): the countdown to the test of each, and the tests that are due.

ghost use Rattle.std.specs.Prelude.{◌≡◌, map};
ghost use Rattle.exchange_rules.specs.Exchange as rule;
ghost use Rattle.exchange_rules.specs.Exchange.{after, after_submitting, after_tests};
ghost use Rattle.exchange_rules.specs.First.{Abstract};
ghost use Rattle.exchange_rules.specs.Messages.{sst_ticks, test_of};
ghost use Rattle.exchange_rules.specs.Queues.{whole};
ghost use Rattle.exchange_rules.specs.State.{with_node, Submitted};
ghost use Rattle.exchange.specs.Calls.{StandsFor};
ghost use Rattle.exchange.specs.KeptQueues.{kept};

use super::Exchange;
use super::relaying::own_in;
use crate::event::Event;
use sccp_relay::{Subsystem, write_test};
use settings::{Limits, MsuRef};

/// The service indicator of SCCP (Q.704 §14.2.1).
const SCCP: u8 = 3;

impl Exchange {
    /// Submits the tests of prohibited subsystems that are due, one after the other: call it after each tick. A test
    /// comes due `timers.sst` ticks after the subsystem was prohibited or was last due, and stays due until the next
    /// tick. Without that setting none does. If none is due, nothing happens. It allocates nothing (Q.714 §5.3.4).
    pub fn test_subsystems(&mut self)
        // For every abstract state that the exchange stood for, it stands for the state after these submissions.
        ensures state { (a : Abstract) → StandsFor self.old a → StandsFor self.new (after_tests whole a) }

        // The same on what is kept.
        ensures kept_state { self.new ≡ after_tests kept self.old }
    {
        self.test_due();
    }

    fn test_due(&mut self)
        ensures { self.new ≡ after_tests kept self.old }
    {
        if self.settings.timers().sst.is_none() || self.titles.prohibited_len() == 0 {
            return;
        }
        let due = self.titles.due_tests();
        self.test_each(due.as_slice());
    }

    /// Submits a test of each of these subsystems, one after the other.
    fn test_each(&mut self, due: &[Subsystem])
        ensures { self.new ≡ after_submitting kept (map (test_of self.old.settings) due.now) self.old }
    {
        for subsystem in due {
            self.test(subsystem);
        }
    }

    /// Submits a test of a subsystem.
    fn test(&mut self, subsystem: &Subsystem)
        ensures { self.new ≡ after kept (Submitted (test_of self.old.settings subsystem.now)) self.old }
    {
        let mut field = [0; Limits::SIF_OCTETS];
        let count = write_test(self.settings.own(), subsystem, &mut field);
        let sio = self.own_sio(SCCP);
        self.happen(&Event::Submit(MsuRef {
            sio,
            sif: &field[..count],
        }));
    }

    /// A tick passes for prohibited subsystems: each has one tick less until its next test, and those that don't stay
    /// prohibited are allowed again.
    pub(super) fn count_subsystems(&mut self)
        ensures { self.new ≡ with_node self.old (rule.count_subsystems self.old.settings self.old.node) }
    {
        let sst = self.sst_ticks();
        self.titles.tick(sst, &own_in(&self.settings, &self.links));
    }

    /// The ticks between two tests of a prohibited subsystem; 0 if what other points say of theirs isn't heard.
    pub(super) fn sst_ticks(&self) -> u16
        ensures { result ≡ sst_ticks self.now.settings }
    {
        self.settings.timers().sst.unwrap_or(0)
    }
}
