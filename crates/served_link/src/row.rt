//! The counters of one link.

ghost use Rattle.std.specs.Prelude.{◌≡◌, ◌<◌, length};
ghost use Rattle.served_link.specs.Counting.{FrameCame, FrameWent, Failure, Retry, WasSetBack, WentAgain, counted};
ghost use Rattle.served_link.specs.Counting.{no_counts, one_more_at, value_of};

use crate::counter::{CAUSES, Counter, REASONS, cause_place, reason_place};
use crate::setback::{SETBACKS, Setback};
use signalling_types::{FailureReason, Outcome};

/// The counters of one link since start. Each stays at 2^64 - 1 once it is there.
#[derive(Clone, Copy)]
pub struct LinkCounters {
    /// Frames that came in.
    pub frames_in: u64,
    /// Octets of the frames that came in.
    pub octets_in: u64,
    /// Frames that went out.
    pub frames_out: u64,
    /// Octets of the frames that went out.
    pub octets_out: u64,
    /// Frames that came in with a user message, of a service indicator above 1, which was queued or held to go on.
    pub forwarded: u64,
    /// Frames that came in with a message for a user part or a subsystem of this node.
    pub delivered: u64,
    /// Frames that came in and were refused, or whose message was: by cause, in the order of the causes' numbers.
    pub refused: [u64; CAUSES],
    /// Failures of the link: by reason, in the order of `FailureReason`.
    pub failed: [u64; REASONS],
    /// Connections that were tried again.
    pub retries: u64,
    /// INITs that were refused, and tries that failed: by reason, in the order of `Setback`.
    pub setbacks: [u64; SETBACKS],
    /// DATA chunks that its association over SCTP sent again.
    pub retransmissions: u64,
}

impl LinkCounters {
    /// Nothing is counted yet.
    pub fn new() -> LinkCounters
        ensures { result ≡ no_counts }
    {
        LinkCounters {
            frames_in: 0,
            octets_in: 0,
            frames_out: 0,
            octets_out: 0,
            forwarded: 0,
            delivered: 0,
            refused: [0; CAUSES],
            failed: [0; REASONS],
            retries: 0,
            setbacks: [0; SETBACKS],
            retransmissions: 0,
        }
    }

    /// The value of a counter.
    pub fn get(&self, counter: Counter) -> u64
        ensures { result ≡ value_of counter self.now }
    {
        match counter {
            Counter::FramesIn => self.frames_in,
            Counter::OctetsIn => self.octets_in,
            Counter::FramesOut => self.frames_out,
            Counter::OctetsOut => self.octets_out,
            Counter::Forwarded => self.forwarded,
            Counter::Delivered => self.delivered,
            Counter::Refused(cause) => self.refused[cause_place(cause)],
            Counter::Failed(reason) => self.failed[reason_place(reason)],
            Counter::Retries => self.retries,
            Counter::Setbacks(setback) => self.setbacks[setback.place()],
            Counter::Retransmissions => self.retransmissions,
        }
    }

    /// A frame of this many octets came in, with a user message or without one, and was handed in with this outcome.
    pub fn count_in(&mut self, octets: usize, has_user_message: bool, outcome: &Outcome)
        ensures { self.new ≡ counted (FrameCame octets has_user_message outcome.now) self.old }
    {
        self.frames_in = self.frames_in.saturating_add(1);
        self.octets_in = self.octets_in.saturating_add(octets as u64);
        match outcome {
            Outcome::Queued(_) | Outcome::Held if has_user_message => {
                self.forwarded = self.forwarded.saturating_add(1);
            }
            Outcome::Local => self.delivered = self.delivered.saturating_add(1),
            Outcome::Refused(cause) => count_one(&mut self.refused, cause_place(*cause)),
            Outcome::Queued(_) | Outcome::Held | Outcome::Handled | Outcome::Ignored => {}
        }
    }

    /// A frame of this many octets went out.
    pub fn count_out(&mut self, octets: usize)
        ensures { self.new ≡ counted (FrameWent octets) self.old }
    {
        self.frames_out = self.frames_out.saturating_add(1);
        self.octets_out = self.octets_out.saturating_add(octets as u64);
    }

    /// The link failed for this reason.
    pub fn count_failure(&mut self, reason: FailureReason)
        ensures { self.new ≡ counted (Failure reason) self.old }
    {
        count_one(&mut self.failed, reason_place(reason));
    }

    /// The link's connection was tried again.
    pub fn count_retry(&mut self)
        ensures { self.new ≡ counted Retry self.old }
    {
        self.retries = self.retries.saturating_add(1);
    }

    /// The link's association over SCTP didn't open.
    pub fn count_setback(&mut self, setback: Setback)
        ensures { self.new ≡ counted (WasSetBack setback) self.old }
    {
        count_one(&mut self.setbacks, setback.place());
    }

    /// The link's association over SCTP sent this many chunks again.
    pub fn count_retransmissions(&mut self, chunks: u64)
        ensures { self.new ≡ counted (WentAgain chunks) self.old }
    {
        self.retransmissions = self.retransmissions.saturating_add(chunks);
    }
}

/// One more is counted at an index.
fn count_one(counts: &mut [u64], place: usize)
    requires { place < length counts.old }
    ensures { counts.new ≡ one_more_at place counts.old }
{
    counts[place] = counts[place].saturating_add(1);
}
