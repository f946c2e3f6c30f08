//! SHUTDOWN, SHUTDOWN ACK and SHUTDOWN COMPLETE that come (RFC 9260 §9.2).

ghost use Rattle.std.specs.Prelude.{◌≡◌, ◌<◌, ◌≤◌, ◌^◌, ◌-◌, ◌+◌, ◌*◌, ◌&&◌, Some};
ghost use Rattle.sctp_codec.specs.Packets.{ShutdownAckChunk};
ghost use Rattle.sctp_rules.specs.State.{with_association, silent};
ghost use Rattle.sctp_rules.specs.Confirming.{confirms_beyond};
ghost use Rattle.sctp_rules.specs.Ending.{aborted, violation};
ghost use Rattle.sctp_rules.specs.declared.loss.Loss.TheVariants.{Protocol};
ghost use Rattle.sctp_rules.specs.Shutdown.{
  awaiting,
  shutdown_of,
  shutdown_sent,
  shutdown_answered,
  going_on,
  with_confirmed,
  shutdown_received,
  then_going_on,
  heard_shutdown,
  heard_shutdown_in,
  heard_shutdown_ack,
  heard_shutdown_complete,
};
ghost use Rattle.sctp_endpoint.specs.Endpoints.{Does};

use crate::endpoint::Endpoint;
use crate::endpoint::sacks::takes_sack;
use sctp_bundling::{Event, Reply, Watch};
use sctp_codec::Cause;
use sctp_rules::limits::CONTROL_OCTETS;
use sctp_rules::{Loss, Phase};
use sctp_sending::Confirmation;

/// Octets of a SHUTDOWN chunk.
pub(super) const SHUTDOWN_OCTETS: usize = 8;

/// Octets of a SHUTDOWN ACK chunk.
pub(super) const SHUTDOWN_ACK_OCTETS: usize = 4;

/// How often RTO.Max goes into T5-shutdown-guard.
const GUARD_TIMEOUTS: u64 = 5;

impl Endpoint {
    /// SHUTDOWN came, with a cumulative TSN. One that confirms what didn't go out is a violation.
    pub(super) fn hear_shutdown<W: Watch>(&mut self, cumulative: u32, now: u64, watch: &mut W)
        requires generation { self.old.state.generation < 2 ^ 64 - 1 }
        requires now { now ≤ 2 ^ 63 }
        ensures { Does W.has watch.old watch.new self.old self.new
            (heard_shutdown self.old.settings now cumulative self.old.state) }
    {
        if takes_sack(self.phase) && self.is_beyond(cumulative) {
            self.abort_violation(watch);
        } else {
            self.take_shutdown(cumulative, now, watch);
        }
    }

    /// Whether a cumulative TSN confirms what didn't go out.
    fn is_beyond(&self, cumulative: u32) -> bool
        ensures { result ≡ confirms_beyond self.now.state.association.sender cumulative }
    {
        matches!(self.sender.confirmation(cumulative), Confirmation::Beyond)
    }

    /// SHUTDOWN, by the state.
    fn take_shutdown<W: Watch>(&mut self, cumulative: u32, now: u64, watch: &mut W)
        requires { now ≤ 2 ^ 63 }
        ensures { Does W.has watch.old watch.new self.old self.new
            (heard_shutdown_in self.old.state.association.phase self.old.settings now cumulative self.old.state) }
    {
        match self.phase {
            Phase::Established | Phase::ShutdownPending => {
                self.receive_shutdown(cumulative, now, watch);
            }
            Phase::ShutdownReceived => self.confirm_in_shutdown(cumulative, now),
            Phase::ShutdownSent => self.answer_shutdown(now),
            Phase::Closed | Phase::CookieWait | Phase::CookieEchoed | Phase::ShutdownAckSent => {}
        }
    }

    /// The peer sends nothing more: to the user the association is over, and what went out is still confirmed.
    fn receive_shutdown<W: Watch>(&mut self, cumulative: u32, now: u64, watch: &mut W)
        requires { now ≤ 2 ^ 63 }
        ensures { Does W.has watch.old watch.new self.old self.new
            (then_going_on self.old.settings now
            (shutdown_received (with_confirmed now cumulative self.old.state))) }
    {
        self.confirm(cumulative, now);
        self.stop(watch);
        self.go_on(now);
    }

    /// SHUTDOWN came again: it confirms more.
    fn confirm_in_shutdown(&mut self, cumulative: u32, now: u64)
        requires { now ≤ 2 ^ 63 }
        ensures { self.new ≡ record self.old {
          state = going_on self.old.settings now (with_confirmed now cumulative self.old.state);
        } }
    {
        self.confirm(cumulative, now);
        self.go_on(now);
    }

    /// What a SHUTDOWN confirms leaves.
    fn confirm(&mut self, cumulative: u32, now: u64)
        requires { now ≤ 2 ^ 63 }
        ensures { self.new ≡ record self.old { state = with_confirmed now cumulative self.old.state } }
    {
        self.sender.confirm(cumulative, now);
    }

    /// SHUTDOWN-RECEIVED: what didn't go out is dropped, and the user is told.
    fn stop<W: Watch>(&mut self, watch: &mut W)
        ensures { Does W.has watch.old watch.new self.old self.new (shutdown_received self.old.state) }
    {
        if self.is_up {
            watch.tell(&Event::Down(Loss::Shutdown));
            self.is_wanted = false;
        }
        self.phase = Phase::ShutdownReceived;
        self.is_up = false;
        self.sender.stop();
    }

    /// If all that was sent is confirmed, a shutdown goes on: SHUTDOWN, or SHUTDOWN ACK.
    pub(super) fn go_on(&mut self, now: u64)
        requires { now ≤ 2 ^ 63 }
        ensures { self.new ≡ record self.old { state = going_on self.old.settings now self.old.state } }
    {
        if self.sender.len() != 0 {
            return;
        }
        match self.phase {
            Phase::ShutdownPending => self.send_shutdown(now),
            Phase::ShutdownReceived => self.answer_shutdown(now),
            Phase::Closed
            | Phase::CookieWait
            | Phase::CookieEchoed
            | Phase::Established
            | Phase::ShutdownSent
            | Phase::ShutdownAckSent => {}
        }
    }

    /// SHUTDOWN goes out with the next packet; T5-shutdown-guard is started, and T2-shutdown.
    fn send_shutdown(&mut self, now: u64)
        requires { now ≤ 2 ^ 63 }
        ensures { self.new ≡ record self.old { state = shutdown_sent self.old.settings now self.old.state } }
    {
        let guard = GUARD_TIMEOUTS * u64::from(self.settings.bounds.most);
        self.t5 = Some(now + guard);
        self.phase = Phase::ShutdownSent;
        self.await_answer(now);
        if self.control.size() + SHUTDOWN_OCTETS <= CONTROL_OCTETS {
            let cumulative = self.receiver.cumulative();
            self.control.add(&Reply::Shutdown(cumulative));
        }
    }

    /// SHUTDOWN ACK goes out with the next packet, and T2-shutdown is started.
    fn answer_shutdown(&mut self, now: u64)
        requires { now ≤ 2 ^ 63 }
        ensures { self.new ≡ record self.old { state = shutdown_answered now self.old.state } }
    {
        self.phase = Phase::ShutdownAckSent;
        self.await_answer(now);
        if self.control.size() + SHUTDOWN_ACK_OCTETS <= CONTROL_OCTETS {
            self.control.add(&Reply::ShutdownAck);
        }
    }

    /// T2-shutdown is started.
    fn await_answer(&mut self, now: u64)
        requires { now ≤ 2 ^ 63 }
        ensures { self.new ≡ record self.old {
          state = with_association self.old.state (record self.old.state.association {
            t2 = Some (now + self.old.state.association.sender.round_trips.timeout);
          });
        } }
    {
        let timeout = u64::from(self.sender.timeout());
        self.t2 = Some(now + timeout);
    }

    /// SHUTDOWN ACK came: if it is waited for, SHUTDOWN COMPLETE goes out, and it is over.
    pub(super) fn hear_shutdown_ack<W: Watch>(&mut self, watch: &mut W)
        requires { self.old.state.generation < 2 ^ 64 - 1 }
        ensures { Does W.has watch.old watch.new self.old self.new
            (heard_shutdown_ack self.old.settings self.old.state) }
    {
        match self.phase {
            Phase::ShutdownSent | Phase::ShutdownAckSent => {
                self.end_alone(Loss::Shutdown, Some(&Reply::ShutdownComplete(false)), watch);
            }
            Phase::Closed
            | Phase::CookieWait
            | Phase::CookieEchoed
            | Phase::Established
            | Phase::ShutdownPending
            | Phase::ShutdownReceived => {}
        }
    }

    /// SHUTDOWN COMPLETE came: if it is waited for, it is over.
    pub(super) fn hear_shutdown_complete<W: Watch>(&mut self, watch: &mut W)
        requires { self.old.state.generation < 2 ^ 64 - 1 }
        ensures { Does W.has watch.old watch.new self.old self.new
            (heard_shutdown_complete self.old.settings self.old.state) }
    {
        if let Phase::ShutdownAckSent = self.phase {
            self.end_alone(Loss::Shutdown, None, watch);
        }
    }

    /// The peer violates the protocol: it is over, by ABORT.
    pub(super) fn abort_violation<W: Watch>(&mut self, watch: &mut W)
        requires { self.old.state.generation < 2 ^ 64 - 1 }
        ensures { Does W.has watch.old watch.new self.old self.new
            (aborted self.old.settings Protocol violation self.old.state) }
    {
        self.end_with(
            Loss::Protocol,
            Some(&Reply::Abort(Cause::ProtocolViolation(&[]))),
            watch,
        );
    }
}
