//! The changeovers of the links of a node.

ghost use Rattle.std.specs.Prelude.{◌≡◌, ℕ, ◌<◌, List, length, replicate, IfOk, if◌then◌else◌};
ghost use Rattle.std.specs.List.{list_any};
ghost use Rattle.signalling_types.specs.Message.{Message};
ghost use Rattle.link.specs.Queue.{Queue};
ghost use Rattle.link.specs.Keeps.{Keeps};
ghost use Rattle.changeover.specs.Failure.{beginning, kept_beginning};
ghost use Rattle.changeover.specs.Changeover.{no_changeover, standing_at, with_standing, may_restart, failed, begun_by_peer, completed, acknowledged, expired, completed_by_acknowledgement, is_barred, awaits_incomplete, is_unasked, with_order};

use crate::beginning::Beginning;
use crate::standing::Progress;
use link::Sequence;
use signalling_types::{ChangeoverTimer, LinkId};
use std::alloc::{AllocError, Global};
use std::marker::Model;

/// How far the changeover of each link of a node is (Q.704 §5): whether it is complete, and whether the answer to its
/// changeover order is awaited.
///
/// All room is made by `new`, two octets for each link. Every other call takes a fixed number of steps.
#[derive(Drop)]
pub struct Changeover {
    links: Vec<Progress>,
    // of how many links the changeover isn't complete, and no answer is awaited
    unasked: usize,
}

impl Model for Changeover {
    ghost use Rattle.std.specs.Prelude.{◌≡◌, List, count_by};
    ghost use Rattle.changeover.specs.Changeover.{Standing, is_unasked};

    ghost Value = { List Standing };

    ghost view = { λ c. c.links.items };

    ghost invariant = { λ c. c.unasked ≡ count_by is_unasked c.links.items };
}

impl Changeover {
    /// For this many links, of which none has failed. The error means that memory ran out.
    pub fn new(alloc: Global, links: usize) -> Result<Changeover, AllocError>
        ensures { IfOk result (λ changeover. changeover ≡ replicate links no_changeover) }
    {
        Ok(Changeover {
            links: vec![in alloc; Progress::none(); links]?,
            unasked: 0,
        })
    }

    /// Begins the changeover of a link that failed in service (Q.704 §5.2, §5.3), and says with what. `ordered` is
    /// whether an order goes to its adjacent point, and `sequence` has the numbers of the failed link.
    pub fn failed(&mut self, link: LinkId, ordered: bool, sequence: &Sequence) -> Beginning
        requires { link < length self.old }
        ensures beginning { result ≡ kept_beginning ordered sequence.now }
        ensures queue { (w : ℕ) (lane : List Message) (q : Queue) →
            Keeps w sequence.now lane q → result ≡ beginning ordered q }
        ensures standing { self.new ≡ with_standing self.old link (failed ordered (standing_at self.old link)) }
    {
        self.set(link, Progress::failed(ordered));
        Beginning::of(ordered, sequence)
    }

    /// Begins the changeover of a link that the adjacent point's order made fail. No order of its own goes out.
    pub fn failed_by_peer(&mut self, link: LinkId)
        requires { link < length self.old }
        ensures { self.new ≡ with_standing self.old link (begun_by_peer (standing_at self.old link)) }
    {
        self.set(link, self.standing(link).begun_by_peer());
    }

    /// Takes an order about a link, with or without a number, and says whether an incomplete changeover is to be
    /// completed now; it counts as complete from then on. An answer that is awaited stays awaited.
    pub fn order(&mut self, link: LinkId) -> bool
        requires { link < length self.old }
        ensures completes { result ≡ (standing_at self.old link).incomplete }
        ensures standing { self.new ≡ with_standing self.old link (completed (standing_at self.old link)) }
    {
        let standing = self.standing(link);
        self.set(link, standing.completed());
        standing.is_incomplete()
    }

    /// Takes an answer about a link, with or without a number. None, and nothing changes, if no answer is awaited.
    /// Otherwise it is no longer awaited, and the call says whether an incomplete changeover is to be completed now; it
    /// counts as complete from then on.
    pub fn acknowledge(&mut self, link: LinkId) -> Option<bool>
        requires { link < length self.old }
        ensures completes { result ≡ completed_by_acknowledgement (standing_at self.old link) }
        ensures standing { self.new ≡ (if (standing_at self.old link).awaited
            then with_standing self.old link (acknowledged (standing_at self.old link)) else self.old) }
    {
        let standing = self.standing(link);
        if !standing.is_awaited() {
            return None;
        }
        self.set(link, standing.acknowledged());
        Some(standing.is_incomplete())
    }

    /// A timer of a link's changeover ran out (Q.704 §16.8). Says whether an incomplete changeover is to be completed
    /// now, without a number; it counts as complete from then on. T2 also ends the wait for the answer, but where it
    /// `bars` links, of one whose changeover wasn't complete yet.
    pub fn expired(&mut self, link: LinkId, timer: ChangeoverTimer, bars: bool) -> bool
        requires { link < length self.old }
        ensures completes { result ≡ (standing_at self.old link).incomplete }
        ensures standing { self.new ≡ with_standing self.old link (expired bars timer (standing_at self.old link)) }
    {
        let standing = self.standing(link);
        self.set(link, standing.expired(timer, bars));
        standing.is_incomplete()
    }

    /// Ends the wait for the answer about a link whose changeover is complete, and says whether it was awaited. Else
    /// nothing changes.
    pub fn release(&mut self, link: LinkId) -> bool
        requires { link < length self.old }
        ensures barred { result ≡ is_barred (standing_at self.old link) }
        ensures standing { self.new ≡ (if is_barred (standing_at self.old link)
            then with_standing self.old link (acknowledged (standing_at self.old link)) else self.old) }
    {
        let standing = self.standing(link);
        if !standing.is_barred() {
            return false;
        }
        self.set(link, standing.acknowledged());
        true
    }

    /// An order about a link whose changeover isn't complete goes out late: its answer is awaited from now on.
    pub fn ask(&mut self, link: LinkId)
        requires { link < length self.old }
        ensures { self.new ≡ with_standing self.old link (with_order (standing_at self.old link)) }
    {
        self.set(link, self.standing(link).with_order());
    }

    /// Whether the changeover of a link isn't complete, and no order about it went out.
    pub fn is_unasked(&self, link: LinkId) -> bool
        requires { link < length self.now }
        ensures { result ≡ is_unasked (standing_at self.now link) }
    {
        self.standing(link).is_unasked()
    }

    /// Whether there is a link whose changeover isn't complete, and about which no order went out.
    pub fn has_unasked(&self) -> bool
        ensures { result ≡ list_any is_unasked self.now }
    {
        self.unasked > 0
    }

    /// Whether the changeover of a link isn't complete.
    pub fn is_incomplete(&self, link: LinkId) -> bool
        requires { link < length self.now }
        ensures { result ≡ (standing_at self.now link).incomplete }
    {
        self.standing(link).is_incomplete()
    }

    /// Whether the answer about a link is awaited though its changeover is complete.
    pub fn is_barred(&self, link: LinkId) -> bool
        requires { link < length self.now }
        ensures { result ≡ is_barred (standing_at self.now link) }
    {
        self.standing(link).is_barred()
    }

    /// Whether the answer about a link is awaited whose changeover isn't complete yet.
    pub fn awaits_incomplete(&self, link: LinkId) -> bool
        requires { link < length self.now }
        ensures { result ≡ awaits_incomplete (standing_at self.now link) }
    {
        self.standing(link).awaits_incomplete()
    }

    /// Whether a link may open again: its changeover is complete, and no answer is awaited.
    pub fn may_restart(&self, link: LinkId) -> bool
        requires { link < length self.now }
        ensures { result ≡ may_restart (standing_at self.now link) }
    {
        self.standing(link).may_restart()
    }

    /// How far the changeover of a link is.
    fn standing(&self, link: LinkId) -> Progress
        requires { link < length self.now }
        ensures { result ≡ standing_at self.now link }
    {
        self.links[link.index()]
    }

    /// From now on, how far the changeover of a link is.
    fn set(&mut self, link: LinkId, standing: Progress)
        requires { link < length self.old }
        ensures { self.new ≡ with_standing self.old link standing }
    {
        let before = self.links[link.index()];
        self.links[link.index()] = standing;
        if before.is_unasked() {
            self.unasked -= 1;
        }
        if standing.is_unasked() {
            self.unasked += 1;
        }
    }
}
