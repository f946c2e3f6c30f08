//! The state of a link, apart from its queue.

ghost use Rattle.std.specs.Prelude.{◌≡◌, ◌+◌, ◌≤◌, true, false, drop, length, slice_get};
ghost use Rattle.std.specs.Option.{option_to_list};
ghost use Rattle.node_links.specs.NodeLinks.{acts_on, down_link, stepped, after_action, opened, after_failure, recovered, is_down, is_in_service, carries_traffic};
ghost use Rattle.node_links.specs.LinkRoom.{left_by, sent_by};

use arrayvec::ArrayVec;
use link::{Action, Alignment, Input, Period, Transition};
use m2pa_codec::LinkStatus;
use std::marker::Model;

/// How many statuses may wait: Out of Service, Alignment, Proving and Ready each go out once, until the peer begins
/// anew; and Ready after an outage waits only by itself.
const STATUSES: usize = 4;

/// The state of a link, apart from its queue.
#[derive(Drop)]
pub struct LinkState {
    alignment: Alignment,
    period: Period,
    association: bool,
    active: bool,
    emergency: bool,
    waiting: ArrayVec<LinkStatus, STATUSES>,
    peer_busy: bool,
    peer_outage: bool,
    acknowledgement_owed: bool,
    test_failed: bool,
    untested: bool,
}

impl Model for LinkState {
    ghost use Rattle.node_links.specs.NodeLinks.{Link};

    ghost Value = { Link };

    ghost use Rattle.node_links.specs.LinkRoom.{link_state_in, HasPlaces};

    ghost view = { link_state_in };

    ghost invariant = { HasPlaces };
}

impl LinkState {
    /// A link that has never been up, and may open.
    pub fn new() -> LinkState
        ensures { result ≡ down_link }
    {
        LinkState {
            alignment: Alignment::Down,
            period: Period::Fixed,
            association: false,
            active: true,
            emergency: false,
            waiting: ArrayVec::new(),
            peer_busy: false,
            peer_outage: false,
            acknowledgement_owed: false,
            test_failed: false,
            untested: false,
        }
    }

    /// Where it stands on its way into service.
    pub fn alignment(&self) -> Alignment
        ensures { result ≡ self.now.alignment }
    {
        self.alignment
    }

    /// Whether it is down.
    pub fn is_down(&self) -> bool
        ensures { result ≡ is_down self.now.alignment }
    {
        matches!(self.alignment, Alignment::Down)
    }

    /// Whether it is in service: it sends and takes messages.
    pub fn is_in_service(&self) -> bool
        ensures { result ≡ is_in_service self.now.alignment }
    {
        matches!(self.alignment, Alignment::InService)
    }

    /// Whether it carries traffic: it is in service, and has no test to pass before (Q.707 §2.2).
    pub fn carries_traffic(&self) -> bool
        ensures { result ≡ carries_traffic self.now }
    {
        self.is_in_service() && !self.untested
    }

    /// Whether it has an association.
    pub fn has_association(&self) -> bool
        ensures { result ≡ self.now.association }
    {
        self.association
    }

    /// Whether the operator lets it open.
    pub fn is_active(&self) -> bool
        ensures { result ≡ self.now.active }
    {
        self.active
    }

    /// Whether the operator asked for emergency proving with that (Q.703 §7.1).
    pub fn is_emergency_ordered(&self) -> bool
        ensures { result ≡ self.now.emergency }
    {
        self.emergency
    }

    /// Whether its peer takes no messages for now.
    pub fn is_peer_busy(&self) -> bool
        ensures { result ≡ self.now.peer_busy }
    {
        self.peer_busy
    }

    /// Whether that is because the peer's processor is out.
    pub fn is_peer_out(&self) -> bool
        ensures { result ≡ self.now.peer_outage }
    {
        self.peer_outage
    }

    /// Whether a message that came isn't acknowledged yet.
    pub fn owes_acknowledgement(&self) -> bool
        ensures { result ≡ self.now.acknowledgement_owed }
    {
        self.acknowledgement_owed
    }

    /// Whether its last test failed (Q.707 §2.2).
    pub fn has_failed_test(&self) -> bool
        ensures { result ≡ self.now.test_failed }
    {
        self.test_failed
    }

    /// The status that has waited longest.
    pub fn next_status(&self) -> Option<LinkStatus>
        ensures { result ≡ slice_get self.now.waiting 0 }
    {
        self.waiting.first().copied()
    }

    /// Does what its alignment does about an input, and says what that is. If the link must fail, nothing changes here.
    pub fn on(&mut self, input: Input) -> Action
        ensures action { result ≡ acts_on self.old input }
        ensures state { self.new ≡ after_action result self.old }
    {
        let action = self.alignment.on(self.period, input);
        if let Action::Go(step) = action {
            self.take_step(step);
        }
        action
    }

    /// Takes a step: the status that it sends waits after the others, which are dropped if the link begins anew.
    fn take_step(&mut self, step: Transition)
        requires { left_by step.anew self.old.alignment + length (option_to_list step.send) ≤ sent_by step.state }
        ensures { self.new ≡ stepped step self.old }
    {
        self.alignment = step.state;
        self.period = step.period;
        if step.anew {
            self.waiting.clear();
        }
        if let Some(status) = step.send {
            self.waiting.push(status);
        }
    }

    /// Begins to align, with an association and a proving period. Its peer may be told first that the link is out of
    /// service (RFC 4165 §5.1). `untested` says whether it has to pass a test before it carries traffic
    /// (Q.707 §2.2).
    pub fn open(&mut self, tells_out: bool, period: Period, untested: bool)
        ensures { self.new ≡ record (opened tells_out period self.old) { untested = untested } }
    {
        self.fail();
        self.association = true;
        self.untested = untested;
        self.take_step(Alignment::open(period));
        if tells_out {
            self.waiting.insert(0, LinkStatus::OutOfService);
        }
    }

    /// Fails. The association stays.
    pub fn fail(&mut self)
        ensures { self.new ≡ after_failure self.old }
    {
        self.alignment = Alignment::Down;
        self.waiting.clear();
        self.peer_busy = false;
        self.peer_outage = false;
        self.acknowledgement_owed = false;
        self.test_failed = false;
        self.untested = false;
    }

    /// Loses its association.
    pub fn lose_association(&mut self)
        ensures { self.new ≡ record self.old { association = false } }
    {
        self.association = false;
    }

    /// Lets it open, with emergency proving if the operator asks for that.
    pub fn allow(&mut self, emergency: bool)
        ensures { self.new ≡ record self.old { active = true; emergency = emergency } }
    {
        self.active = true;
        self.emergency = emergency;
    }

    /// Keeps it from opening.
    pub fn forbid(&mut self)
        ensures { self.new ≡ record self.old { active = false; emergency = false } }
    {
        self.active = false;
        self.emergency = false;
    }

    /// Sets whether its peer counts as busy.
    pub fn set_peer_busy(&mut self, busy: bool)
        ensures { self.new ≡ record self.old { peer_busy = busy } }
    {
        self.peer_busy = busy;
    }

    /// The processor of its peer is out (RFC 4165 §4.1.4).
    pub fn put_out(&mut self)
        ensures { self.new ≡ record self.old { peer_outage = true } }
    {
        self.peer_outage = true;
    }

    /// The processor of its peer recovered: Ready answers that, unless a status waits still (RFC 4165 §4.1.4).
    pub fn recover(&mut self)
        requires { is_in_service self.old.alignment ≡ true }
        ensures { self.new ≡ recovered self.old }
    {
        self.peer_outage = false;
        if self.waiting.is_empty() {
            self.waiting.push(LinkStatus::Ready);
        }
    }

    /// Sets whether it owes an acknowledgement.
    pub fn set_owed(&mut self, owed: bool)
        ensures { self.new ≡ record self.old { acknowledgement_owed = owed } }
    {
        self.acknowledgement_owed = owed;
    }

    /// Sets whether its last test failed.
    pub fn set_test_failed(&mut self, failed: bool)
        ensures { self.new ≡ record self.old { test_failed = failed } }
    {
        self.test_failed = failed;
    }

    /// Passes a test: it has failed none, and has none to pass before it carries traffic.
    pub fn pass_test(&mut self)
        ensures { self.new ≡ record self.old { test_failed = false; untested = false } }
    {
        self.test_failed = false;
        self.untested = false;
    }

    /// Forgets the status that waited longest, if one waits.
    pub fn drop_status(&mut self)
        ensures { self.new ≡ record self.old { waiting = drop 1 self.old.waiting } }
    {
        self.waiting.pop_at(0);
    }
}
