//! A frame that arrived on a link (RFC 4165 §4.2.1).

ghost use Rattle.std.specs.Prelude.{◌≡◌, ◌<◌, length};
ghost use Rattle.m2pa_codec.specs.Values.{value_of};
ghost use Rattle.exchange_rules.specs.State.{with_node, with_parts, link_at};
ghost use Rattle.std.specs.Option.{option_map};
ghost use Rattle.signalling_types.specs.Message.{lent};
ghost use Rattle.exchange.specs.KeptQueues.{kept};
ghost use Rattle.exchange_rules.specs.Exchange.{Ends, with_timers};
ghost use Rattle.exchange_rules.specs.Timing.{timed_confirming};
ghost use Rattle.exchange.specs.Carried.{carrying};
ghost use Rattle.exchange_rules.specs.Frames.{owing};
ghost use Rattle.exchange_rules.specs.Frames as rule;

use super::Exchange;
use link::{Action, Alignment, Input, LinkTimer, Transition};
use m2pa_codec::{Frame, LinkStatus, decode};
use settings::{Cause, FailureReason, FrameFault, LinkId, MsuRef, Notice, Outcome};
use signalling_types::Number24;

/// User Data: its numbers, and the message that it carries, if it carries one.
#[derive(Clone, Copy)]
struct UserData<'a> {
    fsn: Number24,
    bsn: Number24,
    message: Option<MsuRef<'a>>,
}

impl Exchange {
    /// A frame that came by a link; one for a link that is down is ignored.
    pub(super) fn receive(&mut self, link: LinkId, octets: &[u8]) -> Outcome
        ensures { Ends self.old result self.new (rule.receive kept self.old.settings link octets.now self.old.node) }
    {
        if !self.links.has(link) {
            return Outcome::Refused(Cause::NoSuchName);
        }
        if self.links.state(link).is_down() {
            return Outcome::Ignored;
        }
        match decode(octets) {
            Ok(frame) => self.receive_frame(link, frame),
            Err(fault) => self.leave_aside(link, fault),
        }
    }

    /// A frame that can't be read: a wrong length fails the link, any other fault is noted.
    #[inline(never)]
    fn leave_aside(&mut self, link: LinkId, fault: FrameFault) -> Outcome
        requires { link < length self.old.settings.links }
        ensures { Ends self.old result self.new (rule.leave_aside kept self.old.settings link fault self.old.node) }
    {
        if fault == FrameFault::Length {
            self.fail(link, FailureReason::Length);
            return Outcome::Handled;
        }
        self.note(Notice::Frame(fault, link));
        Outcome::Ignored
    }

    /// A frame by its kind.
    fn receive_frame(&mut self, link: LinkId, frame: Frame<'_>) -> Outcome
        requires { link < length self.old.settings.links }
        ensures { Ends self.old result self.new
            (rule.receive_frame kept self.old.settings link (value_of frame.entry) self.old.node) }
    {
        match frame {
            Frame::Empty { bsn, fsn } => {
                let message = None;
                self.receive_data(link, &UserData { fsn, bsn, message })
            }
            Frame::Message { bsn, fsn, sio, sif } => {
                let message = Some(MsuRef { sio, sif });
                self.receive_data(link, &UserData { fsn, bsn, message })
            }
            Frame::Status { status, .. } => self.on_link_status(link, status),
        }
    }

    /// User Data, by the state of its link. On a link in service the alignment table would change nothing, and isn't
    /// consulted.
    #[inline(always)]
    fn receive_data(&mut self, link: LinkId, frame: &UserData<'_>) -> Outcome
        requires { link < length self.old.settings.links }
        ensures { Ends self.old result self.new
            (rule.receive_data kept self.old.settings link (carrying frame.now) self.old.node) }
    {
        if self.serves(link) {
            return self.handle(link, frame);
        }
        self.enter_by(link, frame.fsn, frame.bsn, frame.message)
    }

    /// User Data on a link that isn't in service: one that expects it enters service, and takes the message.
    #[inline(never)]
    fn enter_by(
        &mut self,
        link: LinkId,
        fsn: Number24,
        bsn: Number24,
        message: Option<MsuRef<'_>>,
    ) -> Outcome
        requires { link < length self.old.settings.links }
        ensures { Ends self.old result self.new (rule.receive_data kept self.old.settings link
            (record { fsn = fsn; bsn = bsn; message = option_map lent message.entry }) self.old.node) }
    {
        match self.act_by(link, Input::UserData) {
            Action::Ignored => Outcome::Ignored,
            Action::Fail => {
                self.fail(link, FailureReason::Sequence);
                Outcome::Handled
            }
            Action::Go(_) => self.handle(link, &UserData { fsn, bsn, message }),
        }
    }

    /// User Data on a link in service: right numbers count, and a message is delivered; a wrong number fails the link.
    #[inline(always)]
    fn handle(&mut self, link: LinkId, frame: &UserData<'_>) -> Outcome
        requires { link < length self.old.settings.links }
        ensures { Ends self.old result self.new
            (rule.handle kept self.old.settings link (carrying frame.now) self.old.node) }
    {
        let carries = frame.message.is_some();
        match self.accept_numbers(link, frame.fsn, frame.bsn, carries) {
            Err(_) => {
                self.fail(link, FailureReason::Sequence);
                Outcome::Handled
            }
            Ok(confirmed) => {
                self.time_confirming(link, confirmed);
                self.carry(link, frame.message)
            }
        }
    }

    /// The message that User Data carries: it is to be acknowledged, and is delivered.
    #[inline(always)]
    fn carry(&mut self, link: LinkId, message: Option<MsuRef<'_>>) -> Outcome
        requires { link < length self.old.settings.links }
        ensures { Ends self.old result self.new
            (rule.carry kept self.old.settings link (option_map lent message.entry)
            (with_parts self.old.node (owing link (option_map lent message.entry) self.old.node.parts))) }
    {
        match message {
            Some(message) => {
                self.set_owed(link, true);
                self.deliver(link, message)
            }
            None => Outcome::Handled,
        }
    }

    /// L7 after some messages were confirmed.
    fn time_confirming(&mut self, link: LinkId, confirmed: usize)
        requires { link < length self.old.settings.links }
        ensures { self.new ≡ with_node self.old (with_timers self.old.node
            (timed_confirming self.old.settings link (link_at self.old.node.parts link).peer_busy confirmed
            (kept.outstanding self.old.node.queues link) self.old.node.parts.timers)) }
    {
        let index = link.index();
        if confirmed == 0 {
            return;
        }
        if self.sequences[index].outstanding() == 0 {
            self.stop(link, LinkTimer::L7);
        } else if !self.links.state(link).is_peer_busy() {
            self.start(link, LinkTimer::L7);
        }
    }
}
