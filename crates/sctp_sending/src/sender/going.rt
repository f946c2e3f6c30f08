//! Messages that go out.

ghost use Rattle.std.specs.Prelude.{◌≡◌, ◌<◌, ◌≤◌, ◌^◌, length, IfSome, Some, None};
ghost use Rattle.sctp_sending.specs.Sending.{
  may_repeat,
  may_begin,
  next_of,
  next_place,
  gone_again,
  gone_first,
  gone_next,
  chunk_octets,
  burst_left,
  timed_without,
  timed_from,
  running,
  running_anew,
};

use crate::sender::Sender;
use crate::timed::Timed;

/// Octets of the header and the fields of a DATA chunk (RFC 9260 §3.3.1).
const DATA_HEADER_OCTETS: u32 = 16;

impl Sender {
    /// Whether the lost message at an index may go out.
    fn may_repeat(&self, place: usize) -> bool
        requires { place < length self.now.out }
        ensures { result ≡ may_repeat self.now place }
    {
        chunk_octets(self.outbox.get(place).octets()) <= self.burst || self.has_credit()
    }

    /// Whether the first new message may go out, if there is one.
    fn may_begin(&self) -> bool
        ensures { result ≡ may_begin self.now }
    {
        let place = self.outbox.went();
        place < self.outbox.len()
            && self.has_credit()
            && self.finds_window(self.outbox.get(place).octets())
    }

    /// The next message goes out, if one may: returns its index, which `data` takes. If none may, a burst of lost ones
    /// is over.
    #[tactic(auto, unfolding(crate::specs::Sending::next_place))]
    pub fn put_out(&mut self, now: u64) -> Option<usize>
        requires { now ≤ 2 ^ 63 }
        ensures place { result ≡ next_place self.old }
        ensures within { IfSome result (λ place. place < length self.old.out) }
        ensures next { IfSome result (λ place. place ≤ self.old.went) }
        ensures sending { self.new ≡ gone_next self.old now result }
    {
        match self.outbox.first_lost() {
            Some(place) => self.put_out_lost(place, now),
            None => self.put_out_new(now),
        }
    }

    /// The same of the lost message at an index.
    #[inline(never)]
    fn put_out_lost(&mut self, place: usize, now: u64) -> Option<usize>
        requires place { place < self.old.went }
        requires now { now ≤ 2 ^ 63 }
        ensures place { result ≡ next_of self.old (Some place) }
        ensures within { IfSome result (λ place. place < length self.old.out) }
        ensures next { IfSome result (λ place. place ≤ self.old.went) }
        ensures sending { self.new ≡ gone_next self.old now result }
    {
        if self.may_repeat(place) {
            self.put_out_again(place, now);
            return Some(place);
        }
        self.burst = 0;
        None
    }

    /// The same of the first new message, if none is lost.
    #[inline(always)]
    fn put_out_new(&mut self, now: u64) -> Option<usize>
        requires { now ≤ 2 ^ 63 }
        ensures place { result ≡ next_of self.old None }
        ensures within { IfSome result (λ place. place < length self.old.out) }
        ensures next { IfSome result (λ place. place ≤ self.old.went) }
        ensures sending { self.new ≡ gone_next self.old now result }
    {
        if self.may_begin() {
            let place = self.outbox.went();
            self.put_out_first(now);
            return Some(place);
        }
        self.burst = 0;
        None
    }

    /// The lost message at an index goes out again.
    #[tactic(auto, unfolding(crate::specs::Sending::gone_again))]
    fn put_out_again(&mut self, place: usize, now: u64)
        requires place { place < self.old.went }
        requires within { place < length self.old.out }
        requires now { now ≤ 2 ^ 63 }
        ensures { self.new ≡ gone_again self.old place now }
    {
        let octets = self.outbox.get(place).octets();
        self.outbox.put_out_again(place);
        self.peer_window = self.peer_window.saturating_sub(octets);
        self.burst = burst_left(self.burst, chunk_octets(octets));
        self.timed = timed_without(self.timed, place);
        self.t3 = running_anew(self.t3, place, now + u64::from(self.round_trips.timeout()));
        self.retransmissions = self.retransmissions.saturating_add(1);
    }

    /// The first new message goes out.
    #[tactic(auto, unfolding(crate::specs::Sending::gone_first))]
    fn put_out_first(&mut self, now: u64)
        requires within { self.old.went < length self.old.out }
        requires now { now ≤ 2 ^ 63 }
        ensures { self.new ≡ gone_first self.old now }
    {
        let place = self.outbox.went();
        let octets = self.outbox.get(place).octets();
        self.outbox.put_out_first();
        self.peer_window = self.peer_window.saturating_sub(octets);
        self.timed = timed_from(self.timed, place, now);
        self.t3 = running(self.t3, now + u64::from(self.round_trips.timeout()));
    }
}

/// The octets that are left of a burst after a chunk.
fn burst_left(burst: u32, octets: u32) -> u32
    ensures { result ≡ burst_left burst octets }
{
    if octets <= burst {
        burst - octets
    } else {
        burst
    }
}

/// What is timed once the message at an index goes out again.
fn timed_without(timed: Option<Timed>, place: usize) -> Option<Timed>
    ensures { result ≡ timed_without timed place }
{
    match timed {
        Some(timed) if timed.place != place => Some(timed),
        _ => None,
    }
}

/// What is timed once the message at an index goes out for the first time.
fn timed_from(timed: Option<Timed>, place: usize, now: u64) -> Option<Timed>
    ensures { result ≡ timed_from timed place now }
{
    match timed {
        Some(timed) => Some(timed),
        None => Some(Timed { place, since: now }),
    }
}

/// When a timer runs out that is to run out at a moment, unless it runs already.
fn running(timer: Option<u64>, moment: u64) -> Option<u64>
    ensures { result ≡ running timer moment }
{
    match timer {
        Some(earlier) => Some(earlier),
        None => Some(moment),
    }
}

/// The same when the message at an index goes out again: it restarts for the first of all that isn't confirmed
/// (RFC 9260 §7.2.4, 5).
fn running_anew(timer: Option<u64>, place: usize, moment: u64) -> Option<u64>
    ensures { result ≡ running_anew timer place moment }
{
    if place == 0 {
        Some(moment)
    } else {
        running(timer, moment)
    }
}

/// The octets of the chunk of a message of this many octets.
fn chunk_octets(octets: u32) -> u32
    requires { octets ≤ 290 }
    ensures { result ≡ chunk_octets octets }
{
    DATA_HEADER_OCTETS + (octets + 3) / 4 * 4
}
