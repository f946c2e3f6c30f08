//! How long an answer is waited for.

ghost use Rattle.std.specs.Prelude.{◌≡◌, ◌≤◌, ◌^◌, IfSome};
ghost use Rattle.sctp_sending.specs.RoundTrips.{
  first_round_trips,
  smoothed_by,
  timeout_of,
  after_measured,
  backed_off,
  smoothed_round_trip,
};

use crate::bounds::{Bounds, Smoothed};
use std::marker::Model;

/// The retransmission timeout, from the round trips that were measured (RFC 9260 §6.3).
#[derive(Drop)]
pub struct RoundTrips {
    bounds: Bounds,
    measured: Option<Smoothed>,
    timeout: u32,
}

impl Model for RoundTrips {
    ghost use Rattle.sctp_sending.specs.RoundTrips.{RoundTrips};

    ghost Value = { RoundTrips };

    ghost use Rattle.sctp_sending.specs.Timing.{round_trips_in, IsBounded};

    ghost view = { round_trips_in };

    ghost invariant = { IsBounded };
}

impl RoundTrips {
    /// Nothing is measured yet.
    pub fn new(bounds: Bounds) -> RoundTrips
        requires initial { bounds.initial ≤ bounds.most }
        requires least { bounds.least ≤ bounds.most }
        requires most { bounds.most ≤ 2 ^ 24 }
        ensures { result ≡ first_round_trips bounds }
    {
        RoundTrips {
            bounds,
            measured: None,
            timeout: bounds.initial,
        }
    }

    /// The timeout, in milliseconds: RTO.
    pub fn timeout(&self) -> u32
        ensures timeout { result ≡ self.now.timeout }
        ensures most { result ≤ self.now.bounds.most }
        ensures fits { self.now.bounds.most ≤ 2 ^ 24 }
    {
        self.timeout
    }

    /// The smoothed round trip, in milliseconds: SRTT. None until a round trip was measured.
    pub fn smoothed(&self) -> Option<u32>
        ensures { result ≡ smoothed_round_trip self.now }
    {
        match self.measured {
            Some(smoothed) => Some(smoothed.time),
            None => None,
        }
    }

    /// Takes a round trip of this many milliseconds into account. One that took longer than RTO.Max counts as that.
    pub fn measure(&mut self, round_trip: u64)
        ensures { self.new ≡ after_measured self.old round_trip }
    {
        let counted = round_trip.min(u64::from(self.bounds.most)) as u32;
        let smoothed = smoothed_by(self.measured, counted, self.bounds.most);
        self.timeout = timeout_of(self.bounds, smoothed);
        self.measured = Some(smoothed);
    }

    /// Doubles the timeout, up to RTO.Max.
    pub fn back_off(&mut self)
        ensures { self.new ≡ backed_off self.old }
    {
        self.timeout = (2 * self.timeout).min(self.bounds.most);
    }
}

/// What round trips came to with one more, none of them longer than `most`.
fn smoothed_by(measured: Option<Smoothed>, round_trip: u32, most: u32) -> Smoothed
    requires before { IfSome measured (λ s. (s.time ≤ most) × (s.variation ≤ most)) }
    requires round_trip { round_trip ≤ most }
    requires most { most ≤ 2 ^ 24 }
    ensures value { result ≡ smoothed_by measured round_trip }
    ensures time { result.time ≤ most }
    ensures variation { result.variation ≤ most }
{
    match measured {
        None => Smoothed {
            time: round_trip,
            variation: round_trip / 2,
        },
        Some(before) => Smoothed {
            time: (7 * before.time + round_trip) / 8,
            variation: (3 * before.variation + before.time.abs_diff(round_trip)) / 4,
        },
    }
}

/// The timeout that follows from round trips.
fn timeout_of(bounds: Bounds, smoothed: Smoothed) -> u32
    requires time { smoothed.time ≤ 2 ^ 24 }
    requires variation { smoothed.variation ≤ 2 ^ 24 }
    ensures { result ≡ timeout_of bounds smoothed }
{
    let waited = smoothed.time + (4 * smoothed.variation).max(1);
    waited.max(bounds.least).min(bounds.most)
}
