//! TCBC, changeback control (Q.704 §6): a link returns to service and takes its flows back, and what ends that.

ghost use Rattle.std.specs.Prelude.{◌≡◌, ◌<◌, ℕ, None, Some, false, length, replicate, slice_index_or, IfErr, OnOk, is_ok, if◌then◌else◌};
ghost use Rattle.routes.specs.Routes.{with_link};
ghost use Rattle.settings.specs.Readings.{set_place};
ghost use Rattle.changeback.specs.Return.{returned, gives_up, held_by};
ghost use Rattle.exchange_rules.specs.State.{with_node, with_parts};
ghost use Rattle.exchange.specs.Head.{with_holds};
ghost use Rattle.exchange.specs.KeptQueues.{kept};
ghost use Rattle.exchange_rules.specs.Routing.{facts, no_room, queue_on};
ghost use Rattle.signalling_types.specs.declared.limits.TheConstants.Limits.{LINKS};
ghost use Rattle.exchange_rules.specs.Exchange.{Ends};
ghost use Rattle.exchange_rules.specs.Places.{HasPlacesFor};
ghost use Rattle.exchange_rules.specs.ChangingBack as rule;
ghost use Rattle.exchange.specs.TakingOver as walk;

use super::Exchange;
use changeback::{hold_changes, losing};
use flow_hold::Procedure;
use mtp3_codec::Management;
use settings::{Cause, LateTimer, Limits, LinkId, Notice, Outcome, PointCode, SetId, Sls};
use timers::TimerName;

impl Exchange {
    /// A link that entered service takes back the flows that took other links before. Those flows are held until the
    /// declaration is acknowledged or a timer runs out (Q.704 §6.3, §6.4).
    pub(super) fn change_back(&mut self, link: LinkId)
        requires { link < length self.old.settings.links }
        ensures { self.new ≡ with_node self.old (rule.change_back kept self.old.settings link
            (with_link link false (facts self.old.settings self.old.node.parts)) self.old.node) }
    {
        let loses = self.losing(link);
        let holders = self.declare_each(link, &loses);
        self.hold_changes(link, &holders);
    }

    /// Which other links lose flows to a link that entered service.
    fn losing(&self, link: LinkId) -> [bool; Limits::LINKS]
        ensures losing { (other : ℕ) → slice_index_or result other false ≡ gives_up (returned link
            (with_link link false (facts self.now.settings self.now.node.parts))
            (facts self.now.settings self.now.node.parts)) other }
        ensures places { HasPlacesFor self.now.settings self.now.node.parts }
    {
        prove!(self.settings.link_count() <= Limits::LINKS);
        losing(&self.links, link)
    }

    /// Holds each flow that a link takes over by the procedure given for the link that it comes from.
    fn hold_changes(&mut self, link: LinkId, holders: &[Option<Procedure>; Limits::LINKS])
        ensures { self.new ≡ with_holds self.old (held_by holders.now (returned link
            (with_link link false (facts self.old.settings self.old.node.parts))
            (facts self.old.settings self.old.node.parts)) self.old.node.parts.holds) }
    {
        prove!(self.settings.link_count() <= Limits::LINKS);
        self.release_due = true;
        hold_changes(&self.links, link, holders, &mut self.holds);
    }

    /// For each other link that loses flows to a link, in order: begins the hold of those flows, as `declare_by` does,
    /// and says by which procedure they are to be held.
    fn declare_each(
        &mut self,
        link: LinkId,
        loses: &[bool; Limits::LINKS],
    ) -> [Option<Procedure>; Limits::LINKS]
        requires { link < length self.old.settings.links }
        ensures holders { result ≡ walk.holders kept self.old.settings link
            (λ other. slice_index_or loses.now other false) (length self.old.settings.links) self.old.node }
        ensures state { self.new ≡ with_node self.old (walk.declare_each kept self.old.settings link
            (λ other. slice_index_or loses.now other false) (length self.old.settings.links) self.old.node) }
    {
        let mut holders = no_holders();
        for other in 0..self.settings.link_count() {
            holders[other] = self.declare(link, loses, other);
        }
        holders
    }

    /// Begins the hold of the flows that a link takes over from another, if it takes any, and says by which procedure
    /// they are to be held.
    fn declare(
        &mut self,
        link: LinkId,
        loses: &[bool; Limits::LINKS],
        other: usize,
    ) -> Option<Procedure>
        requires link { link < length self.old.settings.links }
        requires other { other < length self.old.settings.links }
        ensures holder { result ≡ walk.holder kept self.old.settings link (λ any. slice_index_or loses.now any false)
            other self.old.node }
        ensures state { self.new ≡ with_node self.old (walk.declare kept self.old.settings link
            (λ any. slice_index_or loses.now any false) other self.old.node) }
    {
        prove!(self.settings.link_count() <= Limits::LINKS);
        if !loses[other] {
            return None;
        }
        Some(self.declare_by(link, LinkId::new(other as u8)))
    }

    /// Begins the hold of the flows that a link takes over from another, and says by which procedure they are to be
    /// held: by a code, in which case a declaration with it goes out on the other link and T4 starts; or else by time,
    /// and T3 restarts.
    fn declare_by(&mut self, link: LinkId, other: LinkId) -> Procedure
        requires link { link < length self.old.settings.links }
        requires other { other < length self.old.settings.links }
        ensures procedure { result ≡ rule.procedure_by self.old.settings link
            (rule.code_for kept self.old.settings link other self.old.node) }
        ensures state { self.new ≡ with_node self.old (rule.declare_by kept self.old.settings
            (rule.code_for kept self.old.settings link other self.old.node) link other self.old.node) }
    {
        match self.declare_by_code(link, other) {
            Some(code) => Procedure::Code(self.set_of(link), code),
            None => {
                self.timers
                    .set(TimerName::T3(link), self.settings.timers().t3);
                Procedure::Time(link)
            }
        }
    }

    /// Sends a changeback declaration for a link on another link of its set, if a code is free and there is room. The
    /// code then awaits its acknowledgement, and T4 starts. Otherwise nothing changes.
    fn declare_by_code(&mut self, link: LinkId, other: LinkId) -> Option<u8>
        requires link { link < length self.old.settings.links }
        requires other { other < length self.old.settings.links }
        ensures code { result ≡ rule.code_for kept self.old.settings link other self.old.node }
        ensures state { self.new ≡
            with_node self.old (rule.declared kept self.old.settings result link other self.old.node) }
    {
        let set = self.set_of(link);
        if self.set_of(other) != set {
            return None;
        }
        let code = self.changeback.free_code(set)?;
        if self.send_declaration(link, other, code).is_err() {
            return None;
        }
        self.changeback.declared(set, code);
        self.timers
            .set(TimerName::T4(set, code), self.settings.timers().t4);
        Some(code)
    }

    /// Puts the declaration that a link is back at the end of the queue of another; refused if there is no room.
    fn send_declaration(&mut self, link: LinkId, other: LinkId, code: u8) -> Result<(), Cause>
        requires link { link < length self.old.settings.links }
        requires other { other < length self.old.settings.links }
        ensures refused { IfErr result (λ cause. no_room kept self.old.settings
            (rule.declaration self.old.settings link code) self.old.node.queues ≡ Some cause) }
        ensures taken { OnOk result (no_room kept self.old.settings
            (rule.declaration self.old.settings link code) self.old.node.queues ≡ None) }
        ensures state { self.new ≡ (if is_ok result
            then with_node self.old (queue_on kept self.old.settings other
            (rule.declaration self.old.settings link code) self.old.node)
            else self.old) }
    {
        let declaration = Management::ChangebackDeclaration(self.code_of(link), code);
        self.queue_management(other, self.peer_of(link), &declaration)
    }

    /// Answers a declaration, whatever link it is about.
    pub(super) fn on_changeback_declaration(
        &mut self,
        point: PointCode,
        slc: Sls,
        code: u8,
    ) -> Outcome
        ensures { Ends self.old result self.new
            (rule.on_changeback_declaration kept self.old.settings point slc code self.old.node) }
    {
        let answer = Management::ChangebackAcknowledgement(slc, code);
        self.send_management(point, &answer);
        Outcome::Handled
    }

    /// An acknowledgement from a set's point: lifts what its code holds, stops T4, and frees the code. Ignored, with
    /// nothing changed, if the code awaits none.
    pub(super) fn on_changeback_acknowledgement(&mut self, point: PointCode, code: u8) -> Outcome
        ensures { Ends self.old result self.new (rule.on_changeback_acknowledgement kept self.old.settings
            (set_place self.old.settings point) code self.old.node) }
    {
        let Some(set) = self.settings.set_to(point) else {
            return Outcome::Ignored;
        };
        if !self.changeback.acknowledge(set, code, &mut self.holds) {
            return Outcome::Ignored;
        }
        self.release_due = true;
        self.timers.clear(TimerName::T4(set, code));
        Outcome::Handled
    }

    /// T3 of a link ran out: the hold by time is lifted.
    pub(super) fn expire_time(&mut self, link: LinkId)
        ensures { self.new ≡ with_node self.old
            (with_parts self.old.node (rule.late_time link self.old.node.parts)) }
    {
        let notice = Notice::Late(LateTimer::T3, link.index() as u8);
        self.end_late(Procedure::Time(link), notice);
    }

    /// T4 of a code ran out: its hold is lifted. The code still awaits its acknowledgement.
    pub(super) fn expire_code(&mut self, set: SetId, code: u8)
        ensures { self.new ≡ with_node self.old
            (with_parts self.old.node (rule.late_code set code self.old.node.parts)) }
    {
        let notice = Notice::Late(LateTimer::T4, code);
        self.end_late(Procedure::Code(set, code), notice);
    }

    /// A hold ended by its timer: that is noted, and messages may go out of order from now on.
    fn end_late(&mut self, procedure: Procedure, notice: Notice)
        ensures { self.new ≡ with_node self.old
            (with_parts self.old.node (rule.late notice procedure self.old.node.parts)) }
    {
        self.release_due = true;
        self.holds.lift(procedure);
        self.note(notice);
        self.flag_lateness();
    }
}

/// No procedure for any link.
fn no_holders() -> [Option<Procedure>; Limits::LINKS]
    ensures { result ≡ replicate LINKS None }
{
    [None; Limits::LINKS]
}
