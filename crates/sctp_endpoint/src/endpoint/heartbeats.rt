//! Heartbeats that go out (RFC 9260 §8.3).

ghost use Rattle.std.specs.Prelude.{◌≡◌, ◌<◌, ◌≤◌, ◌^◌, ◌-◌};
ghost use Rattle.sctp_rules.specs.State.{silent, with_association};
ghost use Rattle.sctp_rules.specs.Timers.{tick_beat, beat_in, beat_again, beating, unanswered, with_back_off};
ghost use Rattle.sctp_endpoint.specs.Endpoints.{Does, secrets_of};

use crate::endpoint::Endpoint;
use crate::endpoint::timing::is_due;
use crate::peer::Beat;
use sctp_bundling::{Reply, Watch};
use sctp_codec::heartbeat_information;
use sctp_cookie::nonce;
use sctp_rules::Phase;
use sctp_rules::limits::CONTROL_OCTETS;

/// Octets of a HEARTBEAT chunk.
const HEARTBEAT_OCTETS: usize = 16;

impl Endpoint {
    /// A heartbeat goes out, if one is due.
    pub(super) fn tick_beat<W: Watch>(&mut self, now: u64, watch: &mut W)
        requires generation { self.old.state.generation < 2 ^ 64 - 1 }
        requires nonces { self.old.state.nonces < 2 ^ 64 - 1 }
        requires now { now ≤ 2 ^ 63 }
        ensures { Does W.has watch.old watch.new self.old self.new
            (tick_beat self.old.settings (secrets_of self.old) now self.old.state) }
    {
        if is_due(now, self.beat_due) {
            self.beat_in(now, watch);
        }
    }

    /// A heartbeat is due: only in ESTABLISHED does one go out.
    fn beat_in<W: Watch>(&mut self, now: u64, watch: &mut W)
        requires generation { self.old.state.generation < 2 ^ 64 - 1 }
        requires nonces { self.old.state.nonces < 2 ^ 64 - 1 }
        requires now { now ≤ 2 ^ 63 }
        ensures { Does W.has watch.old watch.new self.old self.new
            (beat_in self.old.state.association.phase self.old.settings (secrets_of self.old) now self.old.state) }
    {
        match self.phase {
            Phase::Established => self.beat_again(now, watch),
            Phase::Closed
            | Phase::CookieWait
            | Phase::CookieEchoed
            | Phase::ShutdownPending
            | Phase::ShutdownSent
            | Phase::ShutdownReceived
            | Phase::ShutdownAckSent => self.beat_due = None,
        }
    }

    /// A heartbeat goes out in ESTABLISHED; if the last one wasn't answered, that counts as a failure.
    fn beat_again<W: Watch>(&mut self, now: u64, watch: &mut W)
        requires generation { self.old.state.generation < 2 ^ 64 - 1 }
        requires nonces { self.old.state.nonces < 2 ^ 64 - 1 }
        requires now { now ≤ 2 ^ 63 }
        ensures { Does W.has watch.old watch.new self.old self.new
            (beat_again self.old.state.association.beat self.old.settings (secrets_of self.old) now self.old.state) }
    {
        match self.beat {
            None => self.send_beat(now),
            Some(_) => self.miss_beat(now, watch),
        }
    }

    /// A heartbeat wasn't answered: another one goes out, RTO doubled, or it is over.
    fn miss_beat<W: Watch>(&mut self, now: u64, watch: &mut W)
        requires generation { self.old.state.generation < 2 ^ 64 - 1 }
        requires nonces { self.old.state.nonces < 2 ^ 64 - 1 }
        requires now { now ≤ 2 ^ 63 }
        ensures { Does W.has watch.old watch.new self.old self.new
            (unanswered self.old.settings
            (λ left. silent (beating (secrets_of self.old) now (with_association left (with_back_off left.association))))
            self.old.state) }
    {
        if self.count_failure() {
            self.give_up(watch);
        } else {
            self.sender.back_off();
            self.send_beat(now);
        }
    }

    /// A heartbeat goes out with the next packet, with a number that nobody guesses. It is to be answered within RTO.
    fn send_beat(&mut self, now: u64)
        requires nonces { self.old.state.nonces < 2 ^ 64 - 1 }
        requires now { now ≤ 2 ^ 63 }
        ensures { self.new ≡ record self.old { state = beating (secrets_of self.old) now self.old.state } }
    {
        let nonce = nonce(&self.cookie_key, self.nonces);
        self.nonces += 1;
        self.beat = Some(Beat { nonce, sent: now });
        self.beat_due = Some(now + u64::from(self.sender.timeout()));
        if self.control.size() + HEARTBEAT_OCTETS <= CONTROL_OCTETS {
            let information = heartbeat_information(nonce);
            self.control.add(&Reply::Heartbeat(&information));
        }
    }
}
