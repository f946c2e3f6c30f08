//! SACK that comes (RFC 9260 §6.2.1).

ghost use Rattle.std.specs.Prelude.{◌≡◌, ◌<◌, ◌≤◌, ◌^◌, ◌-◌};
ghost use Rattle.sctp_codec.specs.Values.{sack_of};
ghost use Rattle.sctp_rules.specs.Data.{takes_sack, heard_sack_chunk, heard_sack_of};
ghost use Rattle.sctp_sending.specs.Sending.{confirmation};
ghost use Rattle.sctp_endpoint.specs.Endpoints.{Does};
ghost use Rattle.sctp_endpoint.specs.Arriving.{noted_sack};

use crate::endpoint::Endpoint;
use sctp_bundling::Watch;
use sctp_codec::Sack;
use sctp_rules::Phase;
use sctp_rules::limits::SHUT_WINDOW;
use sctp_sending::Confirmation;

impl Endpoint {
    /// SACK came: in the states in which DATA goes out it confirms messages.
    #[inline(always)]
    pub(super) fn hear_sack<W: Watch>(&mut self, sack: &Sack<'_>, now: u64, watch: &mut W)
        requires generation { self.old.state.generation < 2 ^ 64 - 1 }
        requires now { now ≤ 2 ^ 63 }
        ensures { Does W.has watch.old watch.new self.old self.new
            (heard_sack_chunk self.old.settings now (sack_of sack.now) self.old.state) }
    {
        if takes_sack(self.phase) {
            self.take_sack(sack, now, watch);
        }
    }

    /// A SACK is taken: an old one changes nothing, and one that confirms what didn't go out is a violation.
    fn take_sack<W: Watch>(&mut self, sack: &Sack<'_>, now: u64, watch: &mut W)
        requires generation { self.old.state.generation < 2 ^ 64 - 1 }
        requires now { now ≤ 2 ^ 63 }
        ensures { Does W.has watch.old watch.new self.old self.new
            (heard_sack_of self.old.settings now (sack_of sack.now) self.old.state) }
    {
        match self.note_sack(sack, now) {
            Confirmation::Old => {}
            Confirmation::Beyond => self.abort_violation(watch),
            Confirmation::Of(_) => self.go_on(now),
        }
    }

    /// What a SACK confirms and names is noted, and answered. If it makes progress, or the peer's window is shut, the
    /// peer has answered.
    fn note_sack(&mut self, sack: &Sack<'_>, now: u64) -> Confirmation
        requires { now ≤ 2 ^ 63 }
        ensures confirmation { result ≡ confirmation self.old.state.association.sender sack.now.cumulative }
        ensures noted { self.new ≡ record self.old { state = noted_sack result now (sack_of sack.now) self.old.state } }
    {
        let found = self
            .sender
            .acknowledge(sack.cumulative, sack.window, sack.blocks, now);
        if let Confirmation::Of(_) = found.confirmation {
            if found.makes_progress || (sack.window as usize) < SHUT_WINDOW {
                self.failures = 0;
            }
        }
        found.confirmation
    }
}

/// Whether DATA goes out in a state, and SACK counts.
pub(super) fn takes_sack(phase: Phase) -> bool
    ensures { result ≡ takes_sack phase }
{
    matches!(
        phase,
        Phase::Established | Phase::ShutdownPending | Phase::ShutdownReceived
    )
}
